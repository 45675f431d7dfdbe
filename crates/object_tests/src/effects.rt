use grid_base::Bytes;
use object_store::{read_effect, write_effect};
use std::alloc::Global;
use std::test::Fail;

/// An effect of each kind, and one that sets what a thread of a client locked, as an independent program spells them.
const EFFECTS: [&[u8]; 6] = [
    b"\x01\x01\x01\0\0\0m\x01\0\0\0k\
    \x01\x01\0\0\0v\
    \x01\x02\x01\0\0\0\0\0\0\
    \x01\x05\0\0\0\0\0\0\0\x05\x01\0\0\0\0\0\0\
    \x01\x01\x03\0\0\0\0\0\0\0\0\0\0\0\0\0\0\0\xff\xff\xff\xff\xff\xff\xff\xff\x07\0\0\0\x01\x09\0\0\0\0\0\0\0",
    b"\x01\x01\x01\0\0\0m\x01\0\0\0l\
    \0\0\0\x01\0\x04\0\0\0\0\0\0\0\0\0\0\0\0\0\0\0\xfe\xff\xff\xff\xff\xff\xff\xff\x01\0\0\0\0",
    b"\x02\x01\x01\0\0\0m\x01\0\0\0k",
    b"\x03\x02\x01\0\0\0q\0\0\0\0\x01\0\0\0v",
    b"\x04\x02\x01\0\0\0q\0\0\0\0",
    b"\x05\x02\x01\0\0\0q\0\0\0\0",
];

/// The effect that the bytes spell, written again.
fn written_again(alloc: Global, text: &[u8]) -> Result<Bytes, Fail> {
    let effect = read_effect(alloc, text)?;
    Ok(write_effect(alloc, &effect)?)
}

#[test]
fn effects_are_read_and_written(rt: HostRuntime) -> Result<(), Fail> {
    for text in EFFECTS {
        assert_eq!(rt; written_again(rt.alloc(), text)?.as_slice(), text);
    }
    Ok(())
}
