use grid_base::Memory;
use script_lang::{Line, LineRefused, LineWhy, read_line};
use std::alloc::Global;
use std::fmt::Debug;
use std::test::Fail;

/// A line of a grid of that many members, at most 8; with none the first line.
fn read(alloc: Global, members: u8, line: &str) -> Result<Line, LineRefused> {
    let members = members.min(8);
    read_line(alloc, line.as_bytes(), members == 0, members)
}

/// What a value is told as.
fn text<T: Debug + Drop>(alloc: Global, value: T) -> Result<String, Memory> {
    format!(in alloc; "{value:?}")
}

fn told(alloc: Global, members: u8, line: &str) -> Result<String, Memory> {
    text(alloc, read(alloc, members, line))
}

/// How many members the grid has, none before its line; a line; and what it is read as.
const LINES: &[(u8, &str, &str)] = &[
    // first lines
    (
        0,
        "grid 8 6 1000",
        "Ok(Grid { members: 8, backups: 6, capacity: 1000 })",
    ),
    (0, "# x", "Err(Why(Word))"),
    (0, "end", "Err(Why(NoGrid))"),
    (0, "grid 9 0 10", "Err(Why(Number))"),
    (0, "grid 8 7 10", "Err(Why(Number))"),
    // lines of connections, clocks and what is printed
    (1, "open 63 0", "Ok(OpenConn { conn: 63, member: 0 })"),
    (
        1,
        "bytes 7 43503200fF",
        "Ok(Arrive { conn: 7, bytes: Bytes { content: [67, 80, 50, 0, 255] } })",
    ),
    (
        1,
        "clock 0 18446744073709551615",
        "Ok(Clock { member: 0, moment: 18446744073709551615 })",
    ),
    (1, "trail 270", "Ok(Trail { partition: 270 })"),
    (8, "dump 270 7", "Ok(Dump { partition: 270, member: 7 })"),
    (1, "# two words", "Ok(Comment)"),
    (1, "end", "Ok(End)"),
    // lines of messages
    (
        3,
        "deliver 270 0 3 18446744073709551615",
        "Ok(Deliver { partition: 270, from: 0, to: 3, place: 18446744073709551615 })",
    ),
    (
        3,
        "lose 1 3 2 0",
        "Ok(Lose { partition: 1, from: 3, to: 2, place: 0 })",
    ),
    (
        3,
        "repeat 0 1 2 5",
        "Ok(Repeat { partition: 0, from: 1, to: 2, place: 5 })",
    ),
    (
        3,
        "flow 270 1000",
        "Ok(Flow { partition: 270, most: 1000 })",
    ),
    (3, "flow all 1", "Ok(FlowAll { most: 1 })"),
    (3, "resend 7 3", "Ok(Resend { partition: 7, end: 3 })"),
    (3, "links 270", "Ok(Links { partition: 270 })"),
    // lines of members and rows
    (3, "crash 2", "Ok(Crash { member: 2 })"),
    (3, "detect 0", "Ok(Detect { member: 0 })"),
    (
        3,
        "move 270 0 2",
        "Ok(Move { partition: 270, from: 0, to: 2 })",
    ),
    (3, "join 3 1", "Ok(Join { partition: 3, to: 1 })"),
    (
        3,
        "handover 270 1 0",
        "Ok(Handover { partition: 270, from: 1, to: 0 })",
    ),
    (3, "advance 270", "Ok(Advance { partition: 270 })"),
    (3, "reopen 0", "Ok(Reopen { partition: 0 })"),
    (3, "rebalance 271", "Ok(Rebalance { most: 271 })"),
    // lines of near clients
    (
        1,
        "near 63 6dFF 100000",
        "Ok(Near { conn: 63, name: Bytes { content: [109, 255] }, capacity: 100000 })",
    ),
    (
        1,
        "nearget 0 00",
        "Ok(NearGet { conn: 0, key: Bytes { content: [0] } })",
    ),
    (
        1,
        "nearfeed 7 1000000",
        "Ok(NearFeed { conn: 7, most: 1000000 })",
    ),
    // lines of masters
    (3, "masters", "Ok(Masters)"),
    (3, "told 2 0", "Ok(Told { member: 2, crashed: 0 })"),
    (
        3,
        "mdeliver 270 0 2 18446744073709551615",
        "Ok(MasterDeliver { partition: 270, from: 0, to: 2, place: 18446744073709551615 })",
    ),
    (
        3,
        "mlose 1 3 2 0",
        "Ok(MasterLose { partition: 1, from: 3, to: 2, place: 0 })",
    ),
    (
        3,
        "mresend 270 2",
        "Ok(MasterResend { partition: 270, member: 2 })",
    ),
    (
        3,
        "mflow 270 1000",
        "Ok(MasterFlow { partition: 270, most: 1000 })",
    ),
    // the first cause for which a line is refused
    (0, "masters", "Err(Why(NoGrid))"),
    (1, "", "Err(Why(Word))"),
    (1, "opens 0 0 0", "Err(Why(Word))"),
    (1, "grid 1 0", "Err(Why(NoGrid))"),
    (1, "open 64", "Err(Why(Count))"),
    (1, "bytes 0", "Err(Why(Count))"),
    (1, "open 64 x", "Err(Why(Number))"),
    (1, "open 00 0", "Err(Why(Number))"),
    (1, "clock 1 0", "Err(Why(Number))"),
    (1, "clock 0 18446744073709551616", "Err(Why(Number))"),
    (1, "dump 0", "Err(Why(Count))"),
    (1, "dump 271 0", "Err(Why(Number))"),
    (1, "dump 0 1", "Err(Why(Number))"),
    (1, "bytes 64 zz", "Err(Why(Number))"),
    (1, "bytes 0 ", "Err(Why(Hex))"),
    (1, "bytes 0 012", "Err(Why(Hex))"),
    (1, "flow all 1001", "Err(Why(Number))"),
    (1, "flow 0 0", "Err(Why(Number))"),
    (1, "deliver 0 0 1", "Err(Why(Count))"),
    (1, "deliver 0 2 0 0", "Err(Why(Number))"),
    (1, "lose 0 0 1 18446744073709551616", "Err(Why(Number))"),
    (1, "resend 0 2", "Err(Why(Number))"),
    (1, "crash 1", "Err(Why(Number))"),
    (1, "move 0 0 1", "Err(Why(Number))"),
    (1, "handover 0 0", "Err(Why(Count))"),
    (1, "reopen 271", "Err(Why(Number))"),
    (1, "reopen all", "Err(Why(Number))"),
    (1, "rebalance", "Err(Why(Count))"),
    (1, "rebalance 0 1", "Err(Why(Count))"),
    (1, "rebalance 272", "Err(Why(Number))"),
    (1, "rebalance 00", "Err(Why(Number))"),
    (1, "near 0 6d 0", "Err(Why(Number))"),
    (1, "near 0 6d", "Err(Why(Count))"),
    (1, "nearget 0 6", "Err(Why(Hex))"),
    (1, "nearfeed 0 0", "Err(Why(Number))"),
    (1, "masters 0", "Err(Why(Count))"),
    (1, "told 0", "Err(Why(Count))"),
    (3, "told 3 0", "Err(Why(Number))"),
    (3, "told 0 3", "Err(Why(Number))"),
    (3, "mdeliver 0 0 1", "Err(Why(Count))"),
    (3, "mdeliver 0 4 0 0", "Err(Why(Number))"),
    (3, "mlose 0 0 4 0", "Err(Why(Number))"),
    (3, "mresend 0 3", "Err(Why(Number))"),
    (3, "mflow all 1", "Err(Why(Number))"),
    (3, "mflow 0 1001", "Err(Why(Number))"),
];

#[test]
fn lines_are_read_or_refused(rt: HostRuntime) -> Result<(), Fail> {
    for (members, line, wanted) in LINES {
        let told = told(rt.alloc(), *members, line)?;
        assert_eq!(rt; told.as_str(), *wanted, "at {line}");
    }
    Ok(())
}

/// The word that a transcript has for each cause.
const WORDS: &[(LineWhy, &str)] = &[
    (LineWhy::Word, "word"),
    (LineWhy::NoGrid, "nogrid"),
    (LineWhy::Count, "count"),
    (LineWhy::Number, "number"),
    (LineWhy::Hex, "hex"),
    (LineWhy::NoEnd, "noend"),
];

#[test]
fn each_cause_has_a_word(rt: HostRuntime) {
    for (why, word) in WORDS {
        assert_eq!(rt; why.word(), *word);
    }
}
