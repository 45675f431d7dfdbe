use grid_base::Bytes;
use member_wire::{read_member, write_member};
use std::alloc::Global;
use std::test::Fail;

/// One message of each kind, as an independent program spells it.
const MESSAGES: [&[u8]; 8] = [
    b"\x01\x03\0\0\0\0\0\0\0\0\x04\x01\x01\x02\x01\x04\x01\0\0",
    b"\x02\x06\0\0\0\0\0\0\0\0\x02\0\x01\x01\0\0\0\0\0\x04\0\0\0\0\0\0\0",
    b"\x03\x03\0\0\0\x06\0\0\0\x14\0\0\0\x02\x01\x01\0\0\0\x6d\x09\0\0\0\0\0\0\x1a\xff\xff\xff\xf5\x62",
    b"\x04\x01\0\0\0\x03\0\0\0",
    b"\x05\x02\0\0\0\x01",
    b"\x06\x01\0\0\0",
    b"\x07\x02\0\0\0",
    b"\x08\x04\0\0\0\0\0\0\0\0\x03\0\x01\x02\x01\x03\0\x03\0\0\0\x07\0\0\0",
];

/// The message that the bytes spell, written again.
fn written_again(alloc: Global, bytes: &[u8]) -> Result<Bytes, Fail> {
    let message = read_member(alloc, bytes)?;
    Ok(write_member(alloc, &message)?)
}

#[test]
fn messages_are_read_and_written(rt: HostRuntime) -> Result<(), Fail> {
    for bytes in MESSAGES {
        assert_eq!(rt; written_again(rt.alloc(), bytes)?.as_slice(), bytes);
    }
    Ok(())
}
