use grid_base::{Bytes, Memory};
use master_wire::{
    Decision, MasterMessage, log_length, read_master, write_ask, write_store, write_store_with,
    write_stored, write_tell,
};
use std::alloc::Global;
use std::test::Fail;

/// Two decisions are to be stored: a move from member 2 to member 1, and that it goes on.
const STORE: &[u8] = b"\x10\x01\x02\0\0\0\x02\x02\x01\x05";

/// One message of each kind, as the table of docs/MASTERS.md has it, with the number of decisions in its log. The log that is
/// told has one decision of each kind.
const MESSAGES: [(&[u8], u32); 4] = [
    (STORE, 2),
    (b"\x11\x01\x02\0\0\0", 0),
    (b"\x12\x03", 0),
    (
        b"\x13\x03\x07\0\0\0\x01\x02\x02\0\x01\x03\x02\x04\x01\0\x05\x06\x07\x02\x01\x01\0\0\x06\0\0\0\x05\x02\0\0\0\x01",
        7,
    ),
];

fn write(alloc: Global, message: &MasterMessage) -> Result<Bytes, Memory> {
    match message {
        MasterMessage::Store { term, log } => write_store(alloc, *term, log.as_slice()),
        MasterMessage::Stored { term, length } => write_stored(alloc, *term, *length),
        MasterMessage::Ask { term } => write_ask(alloc, *term),
        MasterMessage::Tell { term, log } => write_tell(alloc, *term, log.as_slice()),
    }
}

/// The message that the bytes spell, written again.
fn written_again(alloc: Global, bytes: &[u8]) -> Result<Bytes, Fail> {
    let message = read_master(alloc, bytes)?;
    Ok(write(alloc, &message)?)
}

#[test]
fn messages_are_read_and_written(rt: HostRuntime) -> Result<(), Fail> {
    for (bytes, length) in MESSAGES {
        assert_eq!(rt; written_again(rt.alloc(), bytes)?.as_slice(), bytes);
        assert_eq!(rt; log_length(bytes), length);
    }
    Ok(())
}

/// The bytes by which a log of a begun move is to be stored with one decision more.
fn with_one_more(alloc: Global, last: &Decision) -> Result<Bytes, Memory> {
    let last = last.copied(alloc)?;
    write_store_with(alloc, 1, &[Decision::BeginMove { from: 2, to: 1 }], &last)
}

#[test]
fn a_decision_more_comes_last(rt: HostRuntime) -> Result<(), Fail> {
    let written = with_one_more(rt.alloc(), &Decision::Advance)?;
    assert_eq!(rt; written.as_slice(), STORE);
    Ok(())
}
