//! Playing a script: the lines of its commands in order, each command asked of the rows that those before it left.
ghost use Rattle.std.specs.Prelude.{◌≡◌, ℕ, ◌+◌, ◌^◌, ◌<◌, ◌≤◌, [], ◌∷◌, length, slice_index_or, codes, map, None, Ok, if◌then◌else◌, OnOk, IfOk};
ghost use Rattle.std.specs.Option.{ForSome};
ghost use Rattle.play_script.specs.declared.Command.TheVariants.{Insert, Delete, Put, Query};
ghost use Rattle.id_filter.specs.Ranges.{pair_of};
ghost use Rattle.best_k.specs.Least.{key_of};
ghost use Rattle.query_engine.specs.Parts.{HasRoomFor};
ghost use Rattle.query_engine.specs.Report.{query_of, Answers, HaveRoom};
ghost use Rattle.adc_program.specs.Queries.{query_cause};
ghost use Rattle.adc_program.specs.Work.{IsPlain};
ghost use Rattle.adc_program.specs.Played.{rows_of, AreUpTo, AreFarFromEnd, HaveAsked, RisesBy};
ghost use Rattle.book_model.specs.Rows.{in_ranges, cell_of, has_id, insert_row, put_row};
ghost use Rattle.play_script.specs.Texts.{insert_done, put_done, query_done};
ghost use Rattle.play_script.specs.Play.{Stage, reply, changed, one_line, ranges_of, replies, play_by, asked_by, found_by, asked as asked_of, hits as hits_of};
ghost use Rattle.adc_inputs.specs.Inputs.{rows_held, IsCheckOf};
ghost use Rattle.adc_inputs.specs.Steps.{Reads, nothing_wrong};
ghost use Rattle.adc_program.specs.Steps.{Puts, Plays};
ghost use Rattle.adc_program.specs.Stages.{stage_of, ArePlayed};
ghost use Rattle.adc_program.specs.StoreReplies.{store_reply, insert_over, put_over, IsReply, StaysPinned};
ghost use Rattle.cell_store.specs.Held.{KeepsAs};

use crate::MAX_LIVE;
use crate::halts::Halted;
use crate::lines::write_line;
use crate::played::{Asked, Played};
use crate::player::{Inputs, Player};
use adc_inputs::{Stop, fetch_row};
use adc_ports::{Memory, Shelf, Sink};
use best_k::Pair;
use cell_store::{InsertRefusal, PutRefusal};
use id_filter::{AllIds, IdRange};
use play_script::{
    Cause, Command, Script, Text, delete_done, delete_refused, end_line, hit, insert_done,
    insert_refused, put_done, put_refused, query_done as query_line, query_refused,
};
use query_engine::{Engine, Meters, Report, Scratch};
use shape_core::Shape;

/// The greatest id.
pub(crate) const MAX_ID: u64 = 2_147_483_647;

/// The most hits that a query may ask for.
pub(crate) const MAX_K: u64 = 1000;

/// The most rows that a query may want.
pub(crate) const MAX_WANTED: u64 = 4_194_304;

/// The line of an insert of a vector.
#[tactic(auto, using(crate::proofs::StoreReplies::stays_same, crate::proofs::StoreReplies::stays_changed))]
fn insert_vector<E: Played>(engine: &mut E, id: u32, vector: &[u8]) -> Result<Text, Memory>
    requires id { id ≤ MAX_ID }
    requires vector { length vector.now ≡ (E.stand engine.old).book.d }
    requires stamp { (E.stand engine.old).store.stamp < 2 ^ 62 }
    ensures book { (E.stand engine.new).book ≡ (E.stand engine.old).book }
    ensures cache { (E.stand engine.new).cache ≡ (E.stand engine.old).cache }
    ensures most { (E.stand engine.new).store.most ≡ (E.stand engine.old).store.most }
    ensures stamp { (E.stand engine.new).store.stamp ≤ (E.stand engine.old).store.stamp + 1 }
    ensures stays { StaysPinned (E.stand engine.old).store (E.stand engine.new).store }
    ensures line { IfOk result (λ line. IsReply line (E.stand engine.new).store (insert_over E.means (E.stand engine.old).book (E.stand engine.old).store id vector.now)) }
{
    match engine.insert(id, vector) {
        Ok(cell) => Ok(insert_done(u64::from(id), cell)),
        Err(InsertRefusal::Present) => Ok(insert_refused(u64::from(id), Cause::Present)),
        Err(InsertRefusal::Full) => Ok(insert_refused(u64::from(id), Cause::Full)),
        Err(InsertRefusal::Held) => Ok(insert_refused(u64::from(id), Cause::Held)),
        Err(InsertRefusal::Memory) => Err(Memory),
    }
}

/// The line of a put of a vector.
#[tactic(auto, using(crate::proofs::StoreReplies::stays_same, crate::proofs::StoreReplies::stays_changed))]
fn put_vector<E: Played>(engine: &mut E, id: u32, vector: &[u8]) -> Result<Text, Memory>
    requires id { id ≤ MAX_ID }
    requires vector { length vector.now ≡ (E.stand engine.old).book.d }
    requires stamp { (E.stand engine.old).store.stamp < 2 ^ 62 }
    ensures book { (E.stand engine.new).book ≡ (E.stand engine.old).book }
    ensures cache { (E.stand engine.new).cache ≡ (E.stand engine.old).cache }
    ensures most { (E.stand engine.new).store.most ≡ (E.stand engine.old).store.most }
    ensures stamp { (E.stand engine.new).store.stamp ≤ (E.stand engine.old).store.stamp + 1 }
    ensures stays { StaysPinned (E.stand engine.old).store (E.stand engine.new).store }
    ensures line { IfOk result (λ line. IsReply line (E.stand engine.new).store (put_over E.means (E.stand engine.old).book (E.stand engine.old).store id vector.now)) }
{
    match engine.put(id, vector) {
        Ok(placed) => Ok(put_done(u64::from(id), placed.cell, placed.replaced)),
        Err(PutRefusal::Full) => Ok(put_refused(u64::from(id), Cause::Full)),
        Err(PutRefusal::Held) => Ok(put_refused(u64::from(id), Cause::Held)),
        Err(PutRefusal::Memory) => Err(Memory),
    }
}

/// The line of a delete.
#[tactic(auto, using(crate::proofs::StoreReplies::stays_same, crate::proofs::StoreReplies::stays_changed))]
fn delete<E: Played>(engine: &mut E, id: u64) -> Text
    requires stamp { (E.stand engine.old).store.stamp < 2 ^ 62 }
    ensures book { (E.stand engine.new).book ≡ (E.stand engine.old).book }
    ensures cache { (E.stand engine.new).cache ≡ (E.stand engine.old).cache }
    ensures most { (E.stand engine.new).store.most ≡ (E.stand engine.old).store.most }
    ensures stamp { (E.stand engine.new).store.stamp ≤ (E.stand engine.old).store.stamp + 1 }
    ensures stays { StaysPinned (E.stand engine.old).store (E.stand engine.new).store }
    ensures line { (stage : Stage) → IsReply result (E.stand engine.new).store (store_reply E.means stage (E.stand engine.old).store (Delete id)) }
{
    if id > MAX_ID {
        return delete_refused(id, Cause::Id);
    }
    match engine.delete(id as u32) {
        Ok(()) => delete_done(id),
        Err(_) => delete_refused(id, Cause::Absent),
    }
}

/// The cause that refuses a query, if one does.
pub(crate) fn query_cause(rows: u32, number: u64, k: u64, wanted: u64) -> Option<Cause>
    ensures { result ≡ query_cause rows number k wanted }
{
    if number >= u64::from(rows) {
        return Some(Cause::Row);
    }
    if k < 1 || k > MAX_K {
        return Some(Cause::K);
    }
    if wanted < 1 || wanted > MAX_WANTED {
        return Some(Cause::Wanted);
    }
    None
}

/// The range of ids of a line, cut to the ids that there can be; none of them if no id passes.
#[tactic(auto, using(crate::proofs::RangeLemmas::cut_range))]
pub(crate) fn range_of(ids: (u64, u64)) -> IdRange
    ensures { (id : ℕ) → id ≤ MAX_ID → in_ranges (pair_of result ∷ []) id ≡ in_ranges (ids ∷ []) id }
{
    let (lo, hi) = ids;
    if lo > hi || lo > MAX_ID {
        return IdRange { lo: 1, hi: 0 };
    }
    IdRange {
        lo: lo as u32,
        hi: hi.min(MAX_ID) as u32,
    }
}

/// Asks for the nearest of the rows whose ids pass. The answer stands in the scratch.
pub(crate) fn ask<S: Shape>(
    engine: &Engine<S>,
    scratch: &mut Scratch<S>,
    row: &[u8],
    k: u32,
    wanted: u32,
    ids: Option<(u64, u64)>,
    meters: &mut Meters,
) -> Report
    requires vector { length row.now ≡ engine.now.book.d }
    requires room { HasRoomFor engine.now.book scratch.old }
    requires best { scratch.old.best.room ≡ MAX_K }
    requires k_some { 1 ≤ k }
    requires k_few { k ≤ MAX_K }
    requires wanted_some { 1 ≤ wanted }
    requires wanted_few { wanted ≤ MAX_WANTED }
    requires meters { HaveRoom meters.old }
    ensures answers { Answers engine.now.book (query_of row.now k wanted (ranges_of ids)) engine.now.store scratch.new.best result meters.old meters.new }
    ensures room { HasRoomFor engine.now.book scratch.new }
    ensures best { scratch.new.best.room ≡ scratch.old.best.room }
{
    // The store tells that its ids are within the range of ids.
    let _stamp = engine.store().stamp();
    match ids {
        None => engine.search(scratch, row, k, wanted, &AllIds, meters),
        Some(ids) => engine.search(scratch, row, k, wanted, &range_of(ids), meters),
    }
}

/// Writes a line for each hit.
pub(crate) fn write_hits<K: Sink>(out: &mut K, hits: &[Pair]) -> Result<(), Halted>
    ensures puts { Puts result (hits_of (map key_of hits.now)) (K.state out.old) (K.state out.new) }
{
    for pair in hits {
        write_line(out, &hit(pair.id, pair.distance))?;
    }
    Ok(())
}

/// Writes what a query found.
pub(crate) fn write_found<K: Sink>(
    out: &mut K,
    number: u64,
    report: Report,
    hits: &[Pair],
) -> Result<(), Halted>
    ensures puts { Puts result (query_done number report.cells report.live report.full ∷ hits_of (map key_of hits.now)) (K.state out.old) (K.state out.new) }
{
    let Report { cells, live, full } = report;
    write_line(out, &query_line(number, cells, live, full))?;
    write_hits(out, hits)
}

/// The line of an insert.
fn insert<E: Played, H: Shelf>(
    engine: &mut E,
    inputs: &Inputs<'_>,
    row: &mut [u8],
    shelf: &mut H,
    id: u64,
    number: u64,
) -> Result<Text, Stop>
    requires stamp { (E.stand engine.old).store.stamp < 2 ^ 62 }
    requires base { inputs.now.base.checked.d ≡ (E.stand engine.old).book.d }
    requires room { length row.old ≡ (E.stand engine.old).book.d }
    requires check { ForSome (H.state shelf.old).files (λ files. ArePlayed files (E.stand engine.old).book.d inputs.now) }
    ensures book { (E.stand engine.new).book ≡ (E.stand engine.old).book }
    ensures cache { (E.stand engine.new).cache ≡ (E.stand engine.old).cache }
    ensures most { (E.stand engine.new).store.most ≡ (E.stand engine.old).store.most }
    ensures stamp { (E.stand engine.new).store.stamp ≤ (E.stand engine.old).store.stamp + 1 }
    ensures stays { StaysPinned (E.stand engine.old).store (E.stand engine.new).store }
    ensures line { Reads result (λ files line. IsReply line (E.stand engine.new).store (store_reply E.means (stage_of files inputs.now (E.stand engine.old).book) (E.stand engine.old).store (Insert id number))) nothing_wrong (H.state shelf.old) (H.state shelf.new) }
{
    if number >= u64::from(inputs.base.checked.rows) {
        return Ok(insert_refused(id, Cause::Row));
    }
    if id > MAX_ID {
        return Ok(insert_refused(id, Cause::Id));
    }
    match fetch_row(shelf, &inputs.base, number, row) {
        Err(stop) => Err(stop),
        Ok(()) => match insert_vector(engine, id as u32, row) {
            Ok(line) => Ok(line),
            Err(Memory) => Err(Stop::OutOfMemory),
        },
    }
}

/// The line of a put.
fn put<E: Played, H: Shelf>(
    engine: &mut E,
    inputs: &Inputs<'_>,
    row: &mut [u8],
    shelf: &mut H,
    id: u64,
    number: u64,
) -> Result<Text, Stop>
    requires stamp { (E.stand engine.old).store.stamp < 2 ^ 62 }
    requires base { inputs.now.base.checked.d ≡ (E.stand engine.old).book.d }
    requires room { length row.old ≡ (E.stand engine.old).book.d }
    requires check { ForSome (H.state shelf.old).files (λ files. ArePlayed files (E.stand engine.old).book.d inputs.now) }
    ensures book { (E.stand engine.new).book ≡ (E.stand engine.old).book }
    ensures cache { (E.stand engine.new).cache ≡ (E.stand engine.old).cache }
    ensures most { (E.stand engine.new).store.most ≡ (E.stand engine.old).store.most }
    ensures stamp { (E.stand engine.new).store.stamp ≤ (E.stand engine.old).store.stamp + 1 }
    ensures stays { StaysPinned (E.stand engine.old).store (E.stand engine.new).store }
    ensures line { Reads result (λ files line. IsReply line (E.stand engine.new).store (store_reply E.means (stage_of files inputs.now (E.stand engine.old).book) (E.stand engine.old).store (Put id number))) nothing_wrong (H.state shelf.old) (H.state shelf.new) }
{
    if number >= u64::from(inputs.base.checked.rows) {
        return Ok(put_refused(id, Cause::Row));
    }
    if id > MAX_ID {
        return Ok(put_refused(id, Cause::Id));
    }
    match fetch_row(shelf, &inputs.base, number, row) {
        Err(stop) => Err(stop),
        Ok(()) => match put_vector(engine, id as u32, row) {
            Ok(line) => Ok(line),
            Err(Memory) => Err(Stop::OutOfMemory),
        },
    }
}

/// The reply to a query line that is not refused.
fn find<E: Played, H: Shelf, K: Sink>(
    engine: &mut E,
    inputs: &Inputs<'_>,
    row: &mut [u8],
    shelf: &mut H,
    out: &mut K,
    asked: Asked,
    meters: &mut E::Meters,
) -> Result<(), Halted>
    requires meters { AreUpTo (2 ^ 62) (E.metered meters.old) }
    requires queries { inputs.now.queries.checked.d ≡ (E.stand engine.old).book.d }
    requires room { length row.old ≡ (E.stand engine.old).book.d }
    requires check { ForSome (H.state shelf.old).files (λ files. ArePlayed files (E.stand engine.old).book.d inputs.now) }
    requires allowed { query_cause inputs.now.queries.checked.rows asked.number asked.k asked.wanted ≡ None }
    ensures stand { E.stand engine.new ≡ E.stand engine.old }
    ensures little { RisesBy 1 (E.stand engine.old) (E.stand engine.new) (E.metered meters.old) (E.metered meters.new) }
    ensures plays { Plays result (λ files. Ok (found_by E.means (E.stand engine.old).book asked.number (asked_of (stage_of files inputs.now (E.stand engine.old).book) asked.number asked.k asked.wanted (ranges_of asked.ids)) (rows_of (E.stand engine.old)))) (H.state shelf.old) (H.state shelf.new) (K.state out.old) (K.state out.new) }
    ensures works { ForSome (H.state shelf.old).files (λ files. OnOk result (HaveAsked E.means E.computes (E.stand engine.old) (record { query = asked_of (stage_of files inputs.now (E.stand engine.old).book) asked.number asked.k asked.wanted (ranges_of asked.ids); rows = rows_of (E.stand engine.old) } ∷ []) (E.metered meters.old) (E.metered meters.new))) }
{
    match fetch_row(shelf, &inputs.queries, asked.number, row) {
        Err(stop) => Err(Halted::Stopped(stop)),
        Ok(()) => engine.query(out, row, asked, meters),
    }
}

/// The reply to a query line.
fn query<E: Played, H: Shelf, K: Sink>(
    engine: &mut E,
    inputs: &Inputs<'_>,
    row: &mut [u8],
    shelf: &mut H,
    out: &mut K,
    asked: Asked,
    meters: &mut E::Meters,
) -> Result<(), Halted>
    requires meters { AreUpTo (2 ^ 62) (E.metered meters.old) }
    requires queries { inputs.now.queries.checked.d ≡ (E.stand engine.old).book.d }
    requires room { length row.old ≡ (E.stand engine.old).book.d }
    requires check { ForSome (H.state shelf.old).files (λ files. ArePlayed files (E.stand engine.old).book.d inputs.now) }
    ensures stand { E.stand engine.new ≡ E.stand engine.old }
    ensures little { RisesBy 1 (E.stand engine.old) (E.stand engine.new) (E.metered meters.old) (E.metered meters.new) }
    ensures plays { Plays result (λ files. Ok (store_reply E.means (stage_of files inputs.now (E.stand engine.old).book) (E.stand engine.old).store (Query asked.number asked.k asked.wanted asked.ids)).lines) (H.state shelf.old) (H.state shelf.new) (K.state out.old) (K.state out.new) }
    ensures works { ForSome (H.state shelf.old).files (λ files. OnOk result (HaveAsked E.means E.computes (E.stand engine.old) (store_reply E.means (stage_of files inputs.now (E.stand engine.old).book) (E.stand engine.old).store (Query asked.number asked.k asked.wanted asked.ids)).queries (E.metered meters.old) (E.metered meters.new))) }
{
    let rows = inputs.queries.checked.rows;
    match query_cause(rows, asked.number, asked.k, asked.wanted) {
        Some(cause) => write_line(out, &query_refused(asked.number, cause)),
        None => find(engine, inputs, row, shelf, out, asked, meters),
    }
}

/// The reply to a command over the store: its lines are written, and the engine has the store that it leaves.
pub(crate) fn answer<E: Played, H: Shelf, K: Sink>(
    engine: &mut E,
    inputs: &Inputs<'_>,
    row: &mut [u8],
    shelf: &mut H,
    out: &mut K,
    command: &Command,
    meters: &mut E::Meters,
) -> Result<(), Halted>
    requires far { AreFarFromEnd (E.stand engine.old) (E.metered meters.old) }
    requires base { inputs.now.base.checked.d ≡ (E.stand engine.old).book.d }
    requires queries { inputs.now.queries.checked.d ≡ (E.stand engine.old).book.d }
    requires room { length row.old ≡ (E.stand engine.old).book.d }
    requires check { ForSome (H.state shelf.old).files (λ files. ArePlayed files (E.stand engine.old).book.d inputs.now) }
    ensures book { (E.stand engine.new).book ≡ (E.stand engine.old).book }
    ensures cache { (E.stand engine.new).cache ≡ (E.stand engine.old).cache }
    ensures most { (E.stand engine.new).store.most ≡ (E.stand engine.old).store.most }
    ensures stays { StaysPinned (E.stand engine.old).store (E.stand engine.new).store }
    ensures plays { Plays result (λ files. Ok (store_reply E.means (stage_of files inputs.now (E.stand engine.old).book) (E.stand engine.old).store command.now).lines) (H.state shelf.old) (H.state shelf.new) (K.state out.old) (K.state out.new) }
    ensures keeps { ForSome (H.state shelf.old).files (λ files. OnOk result (KeepsAs (E.stand engine.new).store (store_reply E.means (stage_of files inputs.now (E.stand engine.old).book) (E.stand engine.old).store command.now).after)) }
    ensures little { RisesBy 1 (E.stand engine.old) (E.stand engine.new) (E.metered meters.old) (E.metered meters.new) }
    ensures works { ForSome (H.state shelf.old).files (λ files. OnOk result (HaveAsked E.means E.computes (E.stand engine.old) (store_reply E.means (stage_of files inputs.now (E.stand engine.old).book) (E.stand engine.old).store command.now).queries (E.metered meters.old) (E.metered meters.new))) }
{
    match *command {
        Command::Insert { id, row: number } => match insert(
            engine, inputs, row, shelf, id, number,
        ) {
            Ok(line) => write_line(out, &line),
            Err(stop) => Err(Halted::Stopped(stop)),
        },
        Command::Put { id, row: number } => match put(engine, inputs, row, shelf, id, number) {
            Ok(line) => write_line(out, &line),
            Err(stop) => Err(Halted::Stopped(stop)),
        },
        Command::Delete { id } => write_line(out, &delete(engine, id)),
        Command::Query {
            row: number,
            k,
            wanted,
            ids,
        } => {
            let asked = Asked {
                number,
                k,
                wanted,
                ids,
            };
            query(engine, inputs, row, shelf, out, asked, meters)
        }
    }
}

impl<E: Played> Player<'_, E> {
    /// The reply to a command of a play, in which nothing is pinned: its lines are written, and the engine has the rows that it
    /// leaves.
    fn answer_plain<H: Shelf, K: Sink>(
        &mut self,
        shelf: &mut H,
        out: &mut K,
        command: &Command,
        meters: &mut E::Meters,
    ) -> Result<(), Halted>
        requires plain { IsPlain (E.stand self.old.engine).store }
        requires far { AreFarFromEnd (E.stand self.old.engine) (E.metered meters.old) }
        requires check { ForSome (H.state shelf.old).files (λ files. ArePlayed files (E.stand self.old.engine).book.d self.old.inputs) }
        ensures plain { IsPlain (E.stand self.new.engine).store }
        ensures book { (E.stand self.new.engine).book ≡ (E.stand self.old.engine).book }
        ensures cache { (E.stand self.new.engine).cache ≡ (E.stand self.old.engine).cache }
        ensures inputs { self.new.inputs ≡ self.old.inputs }
        ensures plays { Plays result (λ files. Ok (reply E.means (stage_of files self.old.inputs (E.stand self.old.engine).book) (rows_of (E.stand self.old.engine)) command.now).lines) (H.state shelf.old) (H.state shelf.new) (K.state out.old) (K.state out.new) }
        ensures rows { ForSome (H.state shelf.old).files (λ files. OnOk result ((rows_of (E.stand self.new.engine)) ≡ (reply E.means (stage_of files self.old.inputs (E.stand self.old.engine).book) (rows_of (E.stand self.old.engine)) command.now).rows)) }
        ensures little { RisesBy 1 (E.stand self.old.engine) (E.stand self.new.engine) (E.metered meters.old) (E.metered meters.new) }
        ensures works { ForSome (H.state shelf.old).files (λ files. OnOk result (HaveAsked E.means E.computes (E.stand self.old.engine) (reply E.means (stage_of files self.old.inputs (E.stand self.old.engine).book) (rows_of (E.stand self.old.engine)) command.now).queries (E.metered meters.old) (E.metered meters.new))) }
    {
        // The store tells what holds of every store, before and after.
        let _before = self.engine.live();
        let answered = answer(
            &mut self.engine,
            &self.inputs,
            &mut self.row,
            shelf,
            out,
            command,
            meters,
        );
        let _after = self.engine.live();
        answered
    }

    /// The replies to the commands of a script, in order.
    fn answer_all<H: Shelf, K: Sink>(
        &mut self,
        shelf: &mut H,
        out: &mut K,
        script: &Script,
        meters: &mut E::Meters,
    ) -> Result<(), Halted>
        requires plain { IsPlain (E.stand self.old.engine).store }
        requires stamp { (E.stand self.old.engine).store.stamp ≤ 2 ^ 61 }
        requires meters { AreUpTo (2 ^ 61) (E.metered meters.old) }
        requires check { ForSome (H.state shelf.old).files (λ files. ArePlayed files (E.stand self.old.engine).book.d self.old.inputs) }
        ensures plays { Plays result (λ files. Ok (replies E.means (stage_of files self.old.inputs (E.stand self.old.engine).book) (rows_of (E.stand self.old.engine)) script.now).lines) (H.state shelf.old) (H.state shelf.new) (K.state out.old) (K.state out.new) }
        ensures rows { ForSome (H.state shelf.old).files (λ files. OnOk result ((rows_of (E.stand self.new.engine)) ≡ (replies E.means (stage_of files self.old.inputs (E.stand self.old.engine).book) (rows_of (E.stand self.old.engine)) script.now).rows)) }
        ensures works { ForSome (H.state shelf.old).files (λ files. OnOk result (HaveAsked E.means E.computes (E.stand self.old.engine) (replies E.means (stage_of files self.old.inputs (E.stand self.old.engine).book) (rows_of (E.stand self.old.engine)) script.now).queries (E.metered meters.old) (E.metered meters.new))) }
    {
        for n in 0..script.len() {
            match self.answer_plain(shelf, out, script.command(n), meters) {
                Ok(()) => {}
                Err(halted) => return Err(halted),
            }
        }
        Ok(())
    }

    /// The text of a script from no rows on: the replies, and the end line.
    pub(crate) fn play<H: Shelf, K: Sink>(
        &mut self,
        shelf: &mut H,
        out: &mut K,
        script: &Script,
        meters: &mut E::Meters,
    ) -> Result<(), Halted>
        requires plain { IsPlain (E.stand self.old.engine).store }
        requires empty { (rows_of (E.stand self.old.engine)) ≡ [] }
        requires stamp { (E.stand self.old.engine).store.stamp ≡ 0 }
        requires meters { AreUpTo (2 ^ 61) (E.metered meters.old) }
        requires check { ForSome (H.state shelf.old).files (λ files. ArePlayed files (E.stand self.old.engine).book.d self.old.inputs) }
        ensures plays { Plays result (λ files. Ok (play_by E.means (stage_of files self.old.inputs (E.stand self.old.engine).book) script.now)) (H.state shelf.old) (H.state shelf.new) (K.state out.old) (K.state out.new) }
        ensures works { ForSome (H.state shelf.old).files (λ files. OnOk result (HaveAsked E.means E.computes (E.stand self.old.engine) (asked_by E.means (stage_of files self.old.inputs (E.stand self.old.engine).book) script.now) (E.metered meters.old) (E.metered meters.new))) }
    {
        match self.answer_all(shelf, out, script, meters) {
            Ok(()) => write_line(out, &end_line(script.len(), self.engine.live())),
            Err(halted) => Err(halted),
        }
    }
}
