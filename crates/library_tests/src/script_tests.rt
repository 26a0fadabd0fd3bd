//! Printed lines and scripts against bytes by hand, and a sample against its first bytes.
use adc_ports::What;
use play_script::*;
use std::alloc::{AllocError, Global};
use std::process::Abort;
use std::test::Fail;

#[test]
fn lines_of_a_play(rt: HostRuntime) {
    let lines = [
        (insert_done(7, 3), "insert 7 cell 3\n"),
        (insert_refused(0, Cause::Held), "insert 0 refused held\n"),
        (delete_done(u64::MAX), "delete 18446744073709551615\n"),
        (
            delete_refused(5, Cause::Absent),
            "delete 5 refused absent\n",
        ),
        (put_done(1, 2, true), "put 1 cell 2 replaced\n"),
        (
            put_done(1, u32::MAX, false),
            "put 1 cell 4294967295 added\n",
        ),
        (put_refused(9, Cause::Full), "put 9 refused full\n"),
        (query_done(0, 3, 3, 2), "query 0 cells 3 live 3 full 2\n"),
        (query_refused(1, Cause::Wanted), "query 1 refused wanted\n"),
        (hit(2, 16384), "hit 2 16384\n"),
        (end_line(4, 3), "end commands 4 live 3\n"),
    ];
    for (text, want) in &lines {
        assert_eq!(rt; text.bytes(), want.as_bytes());
    }
}

#[test]
fn lines_of_sessions(rt: HostRuntime) {
    let lines = [
        (begin_done(1, 3), "begin 1 stamp 3\n"),
        (
            step_done(1, 1, 2, 1, false),
            "step 1 cells 1 live 2 full 1 more\n",
        ),
        (
            step_done(1, 3, 3, 1, true),
            "step 1 cells 3 live 3 full 1 ended\n",
        ),
        (
            session_done(1, 3, 3, 1),
            "session 1 cells 3 live 3 full 1\n",
        ),
        (session_dropped(4), "session 4 dropped\n"),
    ];
    for (text, want) in &lines {
        assert_eq!(rt; text.bytes(), want.as_bytes());
    }
}

#[test]
fn names_of_causes(rt: HostRuntime) {
    let lines = [
        (insert_refused(1, Cause::Row), "insert 1 refused row\n"),
        (insert_refused(1, Cause::Id), "insert 1 refused id\n"),
        (
            insert_refused(1, Cause::Present),
            "insert 1 refused present\n",
        ),
        (query_refused(1, Cause::K), "query 1 refused k\n"),
        (begin_refused(4, Cause::Taken), "begin 4 refused taken\n"),
        (
            begin_refused(64, Cause::Sessions),
            "begin 64 refused sessions\n",
        ),
        (step_refused(4, Cause::Cells), "step 4 refused cells\n"),
        (end_refused(4, Cause::Absent), "end 4 refused absent\n"),
    ];
    for (text, want) in &lines {
        assert_eq!(rt; text.bytes(), want.as_bytes());
    }
}

#[test]
fn lines_of_other_commands(rt: HostRuntime) {
    let lines = [
        (build_done(3, 2), "build rows 3 cells 2\n"),
        (upgrade_done(3, 2), "upgrade rows 3 cells 2\n"),
        (search_done(1), "search queries 1\n"),
        (exact_done(1, 4), "exact queries 1 rows 4\n"),
        (rerank_done(1), "rerank queries 1\n"),
        (recall_done(1, 0, 1), "recall 1 hits 0 rows 1\n"),
        (allowed_done(1), "allowed queries 1\n"),
        (
            radius_query_done(0, 3, 3, 2, 2),
            "query 0 cells 3 live 3 full 2 hits 2\n",
        ),
        (radius_done(1), "radius queries 1\n"),
        (
            info_line(3, 1, 1, 1, 1, 1, 1, 1, None),
            "info d 3 h 1 k0 1 k1 1 shape 5-5-5 g 1 rows 1 cells 1\n",
        ),
        (
            info_line(4, 2, 2, 2, 0, 1, 3, 2, Some(8)),
            "info d 4 h 2 k0 2 k1 2 shape 4-4-4-4 g 1 rows 3 cells 2 scale 8\n",
        ),
        (
            sample_start(1, 1000),
            "sample start 1 rows 1000 d 128 shape 6-6-4 g 8\n",
        ),
        (cells_line(986), "cells 986\n"),
        (best_line(17, u64::MAX), "best 17 18446744073709551615\n"),
        (sample_end(), "end queries 16\n"),
    ];
    for (text, want) in &lines {
        assert_eq!(rt; text.bytes(), want.as_bytes());
    }
}

#[test]
fn the_longest_line(rt: HostRuntime) {
    let most = u32::MAX;
    let text = info_line(most, most, most, most, 0, most, most, most, Some(most));
    let want =
        "info d 4294967295 h 4294967295 k0 4294967295 k1 4294967295 shape 4-4-4-4 g 4294967295 rows 4294967295 cells 4294967295 scale 4294967295\n";
    assert_eq!(rt; text.bytes(), want.as_bytes());
}

#[test]
fn stop_lines(rt: HostRuntime) {
    let lines = [
        (stop_usage(), "stop usage\n"),
        (stop_missing(Role::Queries), "stop missing queries\n"),
        (stop_malformed(Role::Base, 8), "stop malformed base at 8\n"),
        (stop_malformed_line(3), "stop malformed script line 3\n"),
        (
            stop_limit(Role::Script, What::Lines, 8_388_609),
            "stop limit script lines 8388609\n",
        ),
        (stop_read(Role::Book), "stop read book\n"),
        (stop_write(Role::Index), "stop write index\n"),
        (stop_write(Role::Out), "stop write out\n"),
        (stop_missing(Role::Found), "stop missing found\n"),
        (
            stop_malformed(Role::Truth, 8),
            "stop malformed truth at 8\n",
        ),
        (
            stop_limit(Role::Allow, What::Rows, 4_194_305),
            "stop limit allow rows 4194305\n",
        ),
        (stop_memory(), "stop memory\n"),
    ];
    for (text, want) in &lines {
        assert_eq!(rt; text.bytes(), want.as_bytes());
    }
}

#[test]
fn names_of_limits(rt: HostRuntime) {
    let names = [
        (What::Bytes, "stop limit book bytes 5\n"),
        (What::D, "stop limit book d 5\n"),
        (What::K0, "stop limit book k0 5\n"),
        (What::K1, "stop limit book k1 5\n"),
        (What::G, "stop limit book g 5\n"),
        (What::Book, "stop limit book book 5\n"),
        (What::Rows, "stop limit book rows 5\n"),
        (What::Id, "stop limit book id 5\n"),
    ];
    for (what, want) in names {
        assert_eq!(rt; stop_limit(Role::Book, what, 5).bytes(), want.as_bytes());
    }
}

/// The number of commands, or that of the refused line.
fn outcome(alloc: Global, script: &[u8]) -> Result<u32, u32> {
    match parse(alloc, script) {
        Ok(script) => Ok(script.len()),
        Err(ScriptError::Malformed { line }) => Err(line),
        Err(_) => Err(0),
    }
}

#[test]
fn scripts_that_are_good(rt: HostRuntime) {
    let scripts = [
        (b"".as_slice(), 0),
        (b"\n\n".as_slice(), 0),
        (b"insert 0 0\ndelete 0".as_slice(), 2),
        (b"delete 999999999999999999\n".as_slice(), 1),
        (b"#\xff\x00 any bytes\r\n#\ndelete 0\n".as_slice(), 1),
        (b"#a last comment".as_slice(), 0),
    ];
    for (script, want) in scripts {
        assert_eq!(rt; outcome(rt.alloc(), script), Ok(want));
    }
}

#[test]
fn lines_outside_the_grammar(rt: HostRuntime) {
    let scripts = [
        (b"insert 0".as_slice(), 1),
        (b"# a comment\n\ninsert 01 0\n".as_slice(), 3),
        (b"delete  0".as_slice(), 1),
        (b"delete 0\r\n".as_slice(), 1),
        (b"delete 0\n  \n".as_slice(), 2),
        (b"delete 0 \n".as_slice(), 1),
        (b" delete 0\n".as_slice(), 1),
        (b"delete 1000000000000000000\n".as_slice(), 1),
        (b"delete -1\n".as_slice(), 1),
        (b"Delete 0\n".as_slice(), 1),
        (b"query 0 1 1 ids 7\n".as_slice(), 1),
        (b"query 0 1 1 is 7 9\n".as_slice(), 1),
    ];
    for (script, want) in scripts {
        assert_eq!(rt; outcome(rt.alloc(), script), Err(want));
    }
}

#[test]
fn commands_of_a_script(rt: HostRuntime) -> Result<(), Fail> {
    let text =
        b"insert 3 4\ndelete 5\n# no command\n\nput 6 7\nquery 8 9 10\nquery 11 12 13 ids 14 15";
    let script = parse(rt.alloc(), text)?;
    assert_eq!(rt; script.len(), 5);
    let want = [
        Command::Insert { id: 3, row: 4 },
        Command::Delete { id: 5 },
        Command::Put { id: 6, row: 7 },
        Command::Query {
            row: 8,
            k: 9,
            wanted: 10,
            ids: None,
        },
        Command::Query {
            row: 11,
            k: 12,
            wanted: 13,
            ids: Some((14, 15)),
        },
    ];
    for n in 0..5 {
        assert_eq!(rt; *script.command(n), want[n as usize]);
    }
    Ok(())
}

#[test]
fn commands_of_a_script_with_sessions(rt: HostRuntime) -> Result<(), Fail> {
    let text = b"insert 3 4\n# no command\nbegin 5 6 7 8\nstep 9 10\n\nend 11";
    let script = parse_sessions(rt.alloc(), text)?;
    assert!(rt; !script.is_empty());
    assert_eq!(rt; script.len(), 4);
    let want = [
        SessionCommand::Plain(Command::Insert { id: 3, row: 4 }),
        SessionCommand::Begin {
            sid: 5,
            row: 6,
            k: 7,
            wanted: 8,
        },
        SessionCommand::Step { sid: 9, cells: 10 },
        SessionCommand::End { sid: 11 },
    ];
    for n in 0..4 {
        assert_eq!(rt; *script.command(n), want[n as usize]);
    }
    Ok(())
}

/// The number of commands of a script with sessions, or that of the refused line.
fn session_outcome(alloc: Global, script: &[u8]) -> Result<u32, u32> {
    match parse_sessions(alloc, script) {
        Ok(script) => Ok(script.len()),
        Err(ScriptError::Malformed { line }) => Err(line),
        Err(_) => Err(0),
    }
}

#[test]
fn lines_of_sessions_are_none_of_a_play(rt: HostRuntime) {
    let scripts = [
        (b"delete 0\nbegin 1 2 3 4".as_slice(), Err(2), Ok(2)),
        (b"step 1 2".as_slice(), Err(1), Ok(1)),
        (b"#\nend 1\n".as_slice(), Err(2), Ok(1)),
        (b"begin 1 2 3".as_slice(), Err(1), Err(1)),
        (b"begin 1 2 3 4 ids 5 6".as_slice(), Err(1), Err(1)),
        (b"end 1\nstep 1".as_slice(), Err(1), Err(2)),
        (b"end 01".as_slice(), Err(1), Err(1)),
        (b"delete 0".as_slice(), Ok(1), Ok(1)),
        (b"".as_slice(), Ok(0), Ok(0)),
    ];
    for (script, play, sessions) in scripts {
        assert_eq!(rt; outcome(rt.alloc(), script), play);
        assert_eq!(rt; session_outcome(rt.alloc(), script), sessions);
    }
}

/// As many empty lines.
fn empty_lines(alloc: Global, count: usize) -> Result<Vec<u8>, AllocError> {
    vec![in alloc; b'\n'; count]
}

#[test]
fn a_line_too_many(rt: HostRuntime) -> Result<(), Fail> {
    let lines = empty_lines(rt.alloc(), 8_388_609)?;
    let Err(ScriptError::Limit { what, value }) = parse(rt.alloc(), &lines) else {
        return Err(Fail::new("no limit"));
    };
    assert_eq!(rt; what, What::Lines);
    assert_eq!(rt; value, 8_388_609);
    let lines = empty_lines(rt.alloc(), 8_388_608)?;
    assert_eq!(rt; outcome(rt.alloc(), &lines), Ok(0));
    Ok(())
}

/// Compares some bytes from a place on.
fn expect_bytes(rt: &impl Abort, bytes: &[u8], at: usize, want: &[u8]) {
    assert!(rt; at <= bytes.len() && want.len() <= bytes.len() - at);
    let found = &bytes[at..at + want.len()];
    assert_eq!(rt; found, want);
}

#[test]
fn a_sample_of_the_number_one(rt: HostRuntime) -> Result<(), Fail> {
    let sample = generate(rt.alloc(), 1, 3)?;
    let book = sample.book();
    assert_eq!(rt; book.len(), 38_962);
    let front = b"ADCBOOK1\x80\x00\x40\x00\x00\x01\x00\x01\x02\x08";
    expect_bytes(&rt, book, 0, front);
    expect_bytes(&rt, book, 66, &[131, 44, 79, 136]);
    expect_bytes(&rt, sample.row(0), 0, &[218, 60, 170, 181]);
    expect_bytes(&rt, sample.row(1), 0, &[125, 235, 211, 171]);
    expect_bytes(&rt, sample.query(0), 0, &[236, 229, 111, 234]);
    expect_bytes(&rt, sample.query(15), 124, &[32, 40, 32, 225]);
    Ok(())
}
