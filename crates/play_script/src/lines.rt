//! The lines that are printed, one call each. No call takes memory.
ghost use Rattle.std.specs.Prelude.{◌≡◌, ◌<◌, ◌≤◌, codes, length, slice_index_or, [], if◌then◌else◌};
ghost use Rattle.book_model.specs.Book.{shapes};
ghost use Rattle.play_script.specs.Texts as texts;

use crate::text::Word::{Long, Plain, Short};
use crate::text::{Text, line};
use crate::{Cause, Role};
use adc_ports::What;

fn cause_name(cause: Cause) -> &'static str
    ensures value { result.now ≡ texts.cause_name cause }
    ensures short { length result.now ≤ 8 }
{
    match cause {
        Cause::Row => "row",
        Cause::Id => "id",
        Cause::K => "k",
        Cause::Wanted => "wanted",
        Cause::Present => "present",
        Cause::Absent => "absent",
        Cause::Full => "full",
        Cause::Held => "held",
        Cause::Taken => "taken",
        Cause::Sessions => "sessions",
        Cause::Cells => "cells",
    }
}

fn role_name(role: Role) -> &'static str
    ensures value { result.now ≡ texts.role_name role }
    ensures short { length result.now ≤ 7 }
{
    match role {
        Role::Book => "book",
        Role::Base => "base",
        Role::Queries => "queries",
        Role::Script => "script",
        Role::Index => "index",
        Role::Out => "out",
        Role::Found => "found",
        Role::Truth => "truth",
        Role::Allow => "allow",
    }
}

fn what_name(what: What) -> &'static str
    ensures value { result.now ≡ texts.what_name what }
    ensures short { length result.now ≤ 5 }
{
    match what {
        What::Bytes => "bytes",
        What::D => "d",
        What::K0 => "k0",
        What::K1 => "k1",
        What::G => "g",
        What::Book => "book",
        What::Rows => "rows",
        What::Id => "id",
        What::Lines => "lines",
    }
}

/// The widths of a shape by its number.
fn shape_name(shape: u8) -> &'static str
    requires { shape < 4 }
    ensures value { result.now ≡ texts.shape_name (slice_index_or shapes shape []) }
    ensures short { length result.now ≤ 7 }
{
    match shape {
        0 => "4-4-4-4",
        1 => "5-5-5",
        2 => "6-6-4",
        _ => "8-8",
    }
}

/// The line of a refused command: its verb, its first number and the cause.
#[tactic(auto, unfolding(crate::specs::Texts::refused))]
pub(crate) fn refused(verb: &str, n: u64, cause: Cause) -> Text
    requires { length verb.now ≤ 6 }
    ensures { result ≡ texts.refused verb.now n cause }
{
    line(verb, &[Long(n), Plain("refused"), Plain(cause_name(cause))])
}

/// An accepted insert, and its cell.
#[tactic(auto, unfolding(crate::specs::Texts::insert_done))]
pub fn insert_done(id: u64, cell: u32) -> Text
    ensures { result ≡ texts.insert_done id cell }
{
    line("insert", &[Long(id), Plain("cell"), Short(cell)])
}

/// A refused insert.
pub fn insert_refused(id: u64, cause: Cause) -> Text
    ensures { result ≡ texts.refused (codes "insert") id cause }
{
    refused("insert", id, cause)
}

/// An accepted delete.
#[tactic(auto, unfolding(crate::specs::Texts::delete_done))]
pub fn delete_done(id: u64) -> Text
    ensures { result ≡ texts.delete_done id }
{
    line("delete", &[Long(id)])
}

/// A refused delete.
pub fn delete_refused(id: u64, cause: Cause) -> Text
    ensures { result ≡ texts.refused (codes "delete") id cause }
{
    refused("delete", id, cause)
}

/// An accepted put, its cell, and whether it replaced a row.
#[tactic(auto, unfolding(crate::specs::Texts::put_done))]
pub fn put_done(id: u64, cell: u32, replaced: bool) -> Text
    ensures { result ≡ texts.put_done id cell (if replaced then codes "replaced" else codes "added") }
{
    let how = if replaced { "replaced" } else { "added" };
    line("put", &[Long(id), Plain("cell"), Short(cell), Plain(how)])
}

/// A refused put.
pub fn put_refused(id: u64, cause: Cause) -> Text
    ensures { result ≡ texts.refused (codes "put") id cause }
{
    refused("put", id, cause)
}

/// A query: its row, and how many cells it visited, how many rows, and how many of these needed a full distance.
#[tactic(auto, unfolding(crate::specs::Texts::query_done))]
pub fn query_done(row: u64, cells: u32, live: u32, full: u32) -> Text
    ensures { result ≡ texts.query_done row cells live full }
{
    line(
        "query",
        &[
            Long(row),
            Plain("cells"),
            Short(cells),
            Plain("live"),
            Short(live),
            Plain("full"),
            Short(full),
        ],
    )
}

/// A refused query.
pub fn query_refused(row: u64, cause: Cause) -> Text
    ensures { result ≡ texts.refused (codes "query") row cause }
{
    refused("query", row, cause)
}

/// One answer of a query: an id and its squared distance.
#[tactic(auto, unfolding(crate::specs::Texts::hit))]
pub fn hit(id: u32, distance: u64) -> Text
    ensures { result ≡ texts.hit id distance }
{
    line("hit", &[Short(id), Long(distance)])
}

/// The end of a play: the number of its commands, and of the live rows.
#[tactic(auto, unfolding(crate::specs::Texts::end_line))]
pub fn end_line(commands: u32, live: u32) -> Text
    ensures { result ≡ texts.end_line commands live }
{
    line(
        "end",
        &[
            Plain("commands"),
            Short(commands),
            Plain("live"),
            Short(live),
        ],
    )
}

/// An index that was built: its rows, and the cells that have one.
#[tactic(auto, unfolding(crate::specs::Texts::build_done))]
pub fn build_done(rows: u32, cells: u32) -> Text
    ensures { result ≡ texts.build_done rows cells }
{
    line(
        "build",
        &[Plain("rows"), Short(rows), Plain("cells"), Short(cells)],
    )
}

/// An index that was written in the new form: its rows, and the cells that have one.
#[tactic(auto, unfolding(crate::specs::Texts::upgrade_done))]
pub fn upgrade_done(rows: u32, cells: u32) -> Text
    ensures { result ≡ texts.upgrade_done rows cells }
{
    line(
        "upgrade",
        &[Plain("rows"), Short(rows), Plain("cells"), Short(cells)],
    )
}

/// The end of a search: the number of its queries.
#[tactic(auto, unfolding(crate::specs::Texts::search_done))]
pub fn search_done(queries: u32) -> Text
    ensures { result ≡ texts.search_done queries }
{
    line("search", &[Plain("queries"), Short(queries)])
}

/// The end of an exact search: the number of its queries, and of the base's rows.
#[tactic(auto, unfolding(crate::specs::Texts::exact_done))]
pub fn exact_done(queries: u32, rows: u32) -> Text
    ensures { result ≡ texts.exact_done queries rows }
{
    line(
        "exact",
        &[Plain("queries"), Short(queries), Plain("rows"), Short(rows)],
    )
}

/// The end of a search whose answers were ordered again by their own distances: the number of its queries.
#[tactic(auto, unfolding(crate::specs::Texts::rerank_done))]
pub fn rerank_done(queries: u32) -> Text
    ensures { result ≡ texts.rerank_done queries }
{
    line("rerank", &[Plain("queries"), Short(queries)])
}

/// How many of the rows had their nearest true neighbour among the k first that were found.
#[tactic(auto, unfolding(crate::specs::Texts::recall_done))]
pub fn recall_done(k: u32, hits: u32, rows: u32) -> Text
    ensures { result ≡ texts.recall_done k hits rows }
{
    line(
        "recall",
        &[
            Short(k),
            Plain("hits"),
            Short(hits),
            Plain("rows"),
            Short(rows),
        ],
    )
}

/// The end of a search among listed ids: the number of its queries.
#[tactic(auto, unfolding(crate::specs::Texts::allowed_done))]
pub fn allowed_done(queries: u32) -> Text
    ensures { result ≡ texts.allowed_done queries }
{
    line("allowed", &[Plain("queries"), Short(queries)])
}

/// A query within a radius: what a query's line tells, and how many rows were answered.
#[tactic(auto, unfolding(crate::specs::Texts::radius_query_done))]
pub fn radius_query_done(row: u64, cells: u32, live: u32, full: u32, hits: u32) -> Text
    ensures { result ≡ texts.radius_query_done row cells live full hits }
{
    line(
        "query",
        &[
            Long(row),
            Plain("cells"),
            Short(cells),
            Plain("live"),
            Short(live),
            Plain("full"),
            Short(full),
            Plain("hits"),
            Short(hits),
        ],
    )
}

/// The end of queries within a radius: their number.
#[tactic(auto, unfolding(crate::specs::Texts::radius_done))]
pub fn radius_done(queries: u32) -> Text
    ensures { result ≡ texts.radius_done queries }
{
    line("radius", &[Plain("queries"), Short(queries)])
}

/// The numbers of an index: those of its book, whose shape goes by its number, the rows, and the
/// cells that have one. A book of version 2 has a scale.
#[tactic(auto, unfolding(crate::specs::Texts::info_line))]
pub fn info_line(
    d: u32,
    h: u32,
    k0: u32,
    k1: u32,
    shape: u8,
    g: u32,
    rows: u32,
    cells: u32,
    scale: Option<u32>,
) -> Text
    requires { shape < 4 }
    ensures { result ≡ texts.info_line d h k0 k1 (slice_index_or shapes shape []) g rows cells scale }
{
    let words = [
        Plain("d"),
        Short(d),
        Plain("h"),
        Short(h),
        Plain("k0"),
        Short(k0),
        Plain("k1"),
        Short(k1),
        Plain("shape"),
        Plain(shape_name(shape)),
        Plain("g"),
        Short(g),
        Plain("rows"),
        Short(rows),
        Plain("cells"),
        Short(cells),
        Plain("scale"),
        Short(scale.unwrap_or(0)),
    ];
    match scale {
        None => line("info", &words[..16]),
        Some(_) => line("info", &words),
    }
}

/// The first line of a sample.
#[tactic(auto, unfolding(crate::specs::Texts::sample_start))]
pub fn sample_start(start: u32, rows: u32) -> Text
    ensures { result ≡ texts.sample_start start rows }
{
    line(
        "sample",
        &[
            Plain("start"),
            Short(start),
            Plain("rows"),
            Short(rows),
            Plain("d"),
            Short(128),
            Plain("shape"),
            Plain("6-6-4"),
            Plain("g"),
            Short(8),
        ],
    )
}

/// The number of cells that have a row.
#[tactic(auto, unfolding(crate::specs::Texts::cells_line))]
pub fn cells_line(cells: u32) -> Text
    ensures { result ≡ texts.cells_line cells }
{
    line("cells", &[Short(cells)])
}

/// The first answer of a sample's query.
#[tactic(auto, unfolding(crate::specs::Texts::best_line))]
pub fn best_line(id: u32, distance: u64) -> Text
    ensures { result ≡ texts.best_line id distance }
{
    line("best", &[Short(id), Long(distance)])
}

/// The last line of a sample.
#[tactic(auto, unfolding(crate::specs::Texts::sample_end))]
pub fn sample_end() -> Text
    ensures { result ≡ texts.sample_end }
{
    line("end", &[Plain("queries"), Short(16)])
}

/// Words that fit no command.
#[tactic(auto, unfolding(crate::specs::Texts::stop_usage))]
pub fn stop_usage() -> Text
    ensures { result ≡ texts.stop_usage }
{
    line("stop", &[Plain("usage")])
}

/// A file that breaks its form, and the offset in bytes of its first faulty field.
#[tactic(auto, unfolding(crate::specs::Texts::stop_malformed))]
pub fn stop_malformed(role: Role, at: u64) -> Text
    ensures { result ≡ texts.stop_malformed role at }
{
    line(
        "stop",
        &[
            Plain("malformed"),
            Plain(role_name(role)),
            Plain("at"),
            Long(at),
        ],
    )
}

/// A script with a line outside the grammar, and the first such line.
#[tactic(auto, unfolding(crate::specs::Texts::stop_malformed_line))]
pub fn stop_malformed_line(n: u32) -> Text
    ensures { result ≡ texts.stop_malformed_line n }
{
    line(
        "stop",
        &[Plain("malformed"), Plain("script"), Plain("line"), Short(n)],
    )
}

/// A file above a limit: what the limit is of, and the value that is above it.
#[tactic(auto, unfolding(crate::specs::Texts::stop_limit))]
pub fn stop_limit(role: Role, what: What, value: u64) -> Text
    ensures { result ≡ texts.stop_limit role what value }
{
    line(
        "stop",
        &[
            Plain("limit"),
            Plain(role_name(role)),
            Plain(what_name(what)),
            Long(value),
        ],
    )
}

/// A file that could not be read.
#[tactic(auto, unfolding(crate::specs::Texts::stop_read))]
pub fn stop_read(role: Role) -> Text
    ensures { result ≡ texts.stop_read role }
{
    line("stop", &[Plain("read"), Plain(role_name(role))])
}

/// A file that could not be written.
#[tactic(auto, unfolding(crate::specs::Texts::stop_write))]
pub fn stop_write(role: Role) -> Text
    ensures { result ≡ texts.stop_write role }
{
    line("stop", &[Plain("write"), Plain(role_name(role))])
}

/// Memory ran out.
#[tactic(auto, unfolding(crate::specs::Texts::stop_memory))]
pub fn stop_memory() -> Text
    ensures { result ≡ texts.stop_memory }
{
    line("stop", &[Plain("memory")])
}

/// A file that is not there.
#[tactic(auto, unfolding(crate::specs::Texts::stop_missing))]
pub fn stop_missing(role: Role) -> Text
    ensures { result ≡ texts.stop_missing role }
{
    line("stop", &[Plain("missing"), Plain(role_name(role))])
}
