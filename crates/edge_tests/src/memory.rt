//! Streams in memory, which fail and aren't ready at the calls that they were told.
use grid_edge::{
    MemoryReady, MemorySink, MemorySource, Ready, ReadySink, ReadySource, Sink, Source,
    SteadySource, WriteFault, write_all,
};
use std::alloc::Global;

const TEXT: &[u8] = b"twelve bytes";

/// What a call answers that isn't ready, and one that fails.
const NOT_YET: Option<Ready> = Some(Ready::NotYet);

const FAULT: Option<Ready> = None;

const fn moved(count: usize) -> Option<Ready> {
    Some(Ready::Bytes(count))
}

/// These bytes, or none where memory is wanting.
fn bytes(alloc: Global, list: &[u8]) -> Vec<u8> {
    list.to_vec(alloc).unwrap_or(Vec::new(alloc))
}

/// These numbers of calls, or none where memory is wanting.
fn calls(alloc: Global, list: &[u64]) -> Vec<u64> {
    list.to_vec(alloc).unwrap_or(Vec::new(alloc))
}

/// Reads once, with room for eight bytes, and keeps what it gives.
fn read_once<S: ReadySource>(source: &mut S, all: &mut Vec<u8>) -> Option<Ready> {
    let mut buffer = [0; 8];
    let answer = source.read_ready(&mut buffer).ok();
    if let Some(Ready::Bytes(count)) = answer {
        all.extend_from_slice(&buffer[..count]).ok()?;
    }
    answer
}

/// Whether reads give the text, and are answered so.
fn gives_so<S: ReadySource>(alloc: Global, source: &mut S, answers: &[Option<Ready>]) -> bool {
    let mut all = Vec::new(alloc);
    let mut held = true;
    for answer in answers {
        held &= read_once(source, &mut all) == *answer;
    }
    held && all.as_slice() == TEXT
}

#[test]
fn each_read_fails_in_turn(rt: HostRuntime) {
    let alloc = rt.alloc();
    for (call, answers) in [
        (0, [FAULT, moved(5), moved(5), moved(2), moved(0)]),
        (1, [moved(5), FAULT, moved(5), moved(2), moved(0)]),
        (2, [moved(5), moved(5), FAULT, moved(2), moved(0)]),
        (3, [moved(5), moved(5), moved(2), FAULT, moved(0)]),
    ] {
        let fails = calls(alloc, &[call]);
        let mut source = MemorySource::in_pieces(bytes(alloc, TEXT), fails, 5);
        assert!(rt; gives_so(alloc, &mut source, &answers), "call {call}");
    }
}

#[test]
fn a_read_that_finds_nothing_takes_nothing(rt: HostRuntime) {
    let alloc = rt.alloc();
    let stream = MemorySource::in_pieces(bytes(alloc, TEXT), Vec::new(alloc), 7);
    // Call 3 stands in both lists, and isn't ready.
    let fails = calls(alloc, &[2, 3]);
    let mut source = MemoryReady::new(stream, fails, calls(alloc, &[0, 3, 5]));
    let answers = [
        NOT_YET,
        moved(7),
        FAULT,
        NOT_YET,
        moved(5),
        NOT_YET,
        moved(0),
    ];
    assert!(rt; gives_so(alloc, &mut source, &answers));
}

/// What a read puts into five bytes, of which it gives three.
fn three_of_five<S: Source>(source: &mut S) -> Option<[u8; 5]> {
    let mut buffer = *b"-----";
    match source.read(&mut buffer) {
        Ok(3) => Some(buffer),
        _ => None,
    }
}

#[test]
fn a_read_leaves_the_buffer_past_its_bytes(rt: HostRuntime) {
    let alloc = rt.alloc();
    let mut pieces = MemorySource::in_pieces(bytes(alloc, TEXT), Vec::new(alloc), 3);
    let mut steady = SteadySource::new(bytes(alloc, b"end"));
    let both = (three_of_five(&mut pieces), three_of_five(&mut steady));
    assert_eq!(rt; both, (Some(*b"twe--"), Some(*b"end--")));
}

/// Whether writes of the text are answered so.
fn takes_so<S: ReadySink>(sink: &mut S, answers: &[Option<Ready>]) -> bool {
    let mut held = true;
    for answer in answers {
        held &= sink.write_ready(TEXT).ok() == *answer;
    }
    held
}

#[test]
fn a_write_that_finds_no_room_writes_nothing(rt: HostRuntime) {
    let alloc = rt.alloc();
    let stream = MemorySink::in_pieces(Vec::new(alloc), 5);
    let unready = calls(alloc, &[0, 3]);
    let mut sink = MemoryReady::new(stream, calls(alloc, &[1]), unready);
    let held = takes_so(&mut sink, &[NOT_YET, FAULT, moved(5), NOT_YET, moved(5)]);
    assert!(rt; held && sink.stream().bytes() == b"twelvtwelv".as_slice());
}

#[test]
fn what_a_stream_fails_at_is_a_fault(rt: HostRuntime) {
    let alloc = rt.alloc();
    // The stream's own calls are those that were ready.
    let stream = MemorySink::new(calls(alloc, &[0]));
    let mut sink = MemoryReady::new(stream, Vec::new(alloc), calls(alloc, &[0]));
    assert!(rt; takes_so(&mut sink, &[NOT_YET, FAULT, moved(12)]));
}

#[test]
fn whole_pieces_are_taken(rt: HostRuntime) {
    let alloc = rt.alloc();
    let mut sink = MemorySink::new(calls(alloc, &[1]));
    let has_room = sink.reserve(2 * TEXT.len()).is_ok();
    let held = takes_so(&mut sink, &[moved(12), FAULT, moved(12)]);
    let all = sink.into_bytes();
    assert!(rt; has_room && held && all.as_slice() == b"twelve bytestwelve bytes".as_slice());
}

/// Whether writing the text fails with just this taken, and then goes well.
fn fails_behind(sink: &mut MemorySink, before: &[u8]) -> bool {
    write_all(sink, TEXT) == Err(WriteFault)
        && sink.bytes() == before
        && write_all(sink, TEXT) == Ok(())
        && sink.bytes().ends_with(TEXT)
}

#[test]
fn each_write_fails_in_turn(rt: HostRuntime) {
    let alloc = rt.alloc();
    for (call, before) in [(0, ""), (1, "twelv"), (2, "twelve byt")] {
        let mut sink = MemorySink::in_pieces(calls(alloc, &[call]), 5);
        assert!(rt; fails_behind(&mut sink, before.as_bytes()), "call {call}");
    }
}
