ghost use Rattle.std.specs.Prelude.{◌≡◌, IfOk};

use crate::hearing::text;
use frame_codec::flags::{BEGIN_FRAGMENT, FINAL, UNFRAGMENTED};
use frame_codec::{Frame, MAX_PAYLOAD, write_payload};
use grid_base::{Bytes, Memory};
use message_frames::{FedMessages, Frames, Message, MessageReader, write_fragments, write_message};
use std::alloc::Global;
use std::test::Fail;

/// What is heard of bytes, with the prefix before them or without one.
fn hear(alloc: Global, prefix: bool, bytes: &[u8]) -> Result<FedMessages, Memory> {
    let mut reader = MessageReader::new(alloc, prefix);
    reader.feed(alloc, bytes)
}

fn told(alloc: Global, prefix: bool, bytes: &[u8]) -> Result<String, Fail> {
    text(alloc, hear(alloc, prefix, bytes))
}

/// Whether the stream has the prefix, its bytes, and its messages up to its first fault.
const HEARD: &[(bool, &[u8], &str)] = &[
    // a message in two fragments, and another between them; the final flag of the first is cleared
    (
        false,
        b"\x0e\0\0\0\0\x80\x07\0\0\0\0\0\0\0\x13\0\0\0\0\x20aaaaaaaaaaaaa\
          \x13\0\0\0\0\xe0\x62\x62\x62\x62\x62\x62\x62\x62\x62\x62\x62\x62\x62\
          \x0e\0\0\0\0\x40\x07\0\0\0\0\0\0\0\x07\0\0\0\0\x20c",
        "Ok(FedMessages { messages: [Message { frames: Frames { list: [Frame { flags: 57344, \
         payload: Bytes { content: [98, 98, 98, 98, 98, 98, 98, 98, 98, 98, 98, 98, 98] } }] } }, \
         Message { frames: Frames { list: [Frame { flags: 0, \
         payload: Bytes { content: [97, 97, 97, 97, 97, 97, 97, 97, 97, 97, 97, 97, 97] } }, \
         Frame { flags: 8192, payload: Bytes { content: [99] } }] } }], fault: None })",
    ),
    // a message behind a prefix, and no prefix
    (
        true,
        b"\x43\x50\x32\x16\0\0\0\0\xe0\x30\x31\x32\x33\x34\x35\x36\x37\x38\x39abcdef",
        "Ok(FedMessages { messages: [Message { frames: Frames { list: [Frame { flags: 57344, \
         payload: Bytes { content: [48, 49, 50, 51, 52, 53, 54, 55, 56, 57, 97, 98, 99, 100, \
         101, 102] } }] } }], \
         fault: None })",
    ),
    (
        true,
        b"CP\x31",
        "Ok(FedMessages { messages: [], fault: Some(Malformed { at: 2, why: Prefix }) })",
    ),
    // frames that are too short and too long
    (
        true,
        b"\x43\x50\x32\x05\0\0\0",
        "Ok(FedMessages { messages: [], fault: Some(Malformed { at: 3, why: TooShort }) })",
    ),
    (
        false,
        b"\x01\0\x10\0",
        "Ok(FedMessages { messages: [], fault: Some(Malformed { at: 0, why: TooLong }) })",
    ),
    // messages whose first payload is too short, the second one in fragments
    (
        false,
        b"\x13\0\0\0\0\xe0\x62\x62\x62\x62\x62\x62\x62\x62\x62\x62\x62\x62\x62\
          \x12\0\0\0\0\xe0\x62\x62\x62\x62\x62\x62\x62\x62\x62\x62\x62\x62",
        "Ok(FedMessages { messages: [Message { frames: Frames { list: [Frame { flags: 57344, \
         payload: Bytes { content: [98, 98, 98, 98, 98, 98, 98, 98, 98, 98, 98, 98, 98] } }] } }], \
         fault: Some(Malformed { at: 19, why: ShortStart }) })",
    ),
    (
        false,
        b"\x0e\0\0\0\0\x80\x07\0\0\0\0\0\0\0\x08\0\0\0\0\x20ab\x0e\0\0\0\0\x40\x07\0\0\0\0\0\0\0\
          \x07\0\0\0\0\x20c",
        "Ok(FedMessages { messages: [], fault: Some(Malformed { at: 36, why: ShortStart }) })",
    ),
    // headers that are none, that continue no chain, and that begin an open one
    (
        false,
        b"\x0e\0\0\0\0\x20\x07\0\0\0\0\0\0\0",
        "Ok(FedMessages { messages: [], fault: Some(Malformed { at: 0, why: BadFragment }) })",
    ),
    (
        false,
        b"\x07\0\0\0\0\x80\x78",
        "Ok(FedMessages { messages: [], fault: Some(Malformed { at: 0, why: BadFragment }) })",
    ),
    (
        false,
        b"\x0e\0\0\0\0\x40\x07\0\0\0\0\0\0\0",
        "Ok(FedMessages { messages: [], fault: Some(Malformed { at: 0, why: BadFragment }) })",
    ),
    (
        false,
        b"\x0e\0\0\0\0\x80\x07\0\0\0\0\0\0\0\x07\0\0\0\0\x20c\x0e\0\0\0\0\x80\x07\0\0\0\0\0\0\0",
        "Ok(FedMessages { messages: [], fault: Some(Malformed { at: 21, why: BadFragment }) })",
    ),
    // behind a fault nothing is heard
    (
        false,
        b"\x13\0\0\0\0\xe0\x62\x62\x62\x62\x62\x62\x62\x62\x62\x62\x62\x62\x62\
          \x05\0\0\0\x13\0\0\0\0\xe0bbbbbbbbbbbbb",
        "Ok(FedMessages { messages: [Message { frames: Frames { list: [Frame { flags: 57344, \
         payload: Bytes { content: [98, 98, 98, 98, 98, 98, 98, 98, 98, 98, 98, 98, 98] } }] } }], \
         fault: Some(Malformed { at: 19, why: TooShort }) })",
    ),
];

#[test]
fn messages_are_heard_up_to_a_fault(rt: HostRuntime) -> Result<(), Fail> {
    for (prefix, bytes, wanted) in HEARD {
        let told = told(rt.alloc(), *prefix, bytes)?;
        assert_eq!(rt; told.as_str(), *wanted);
    }
    Ok(())
}

/// Seventeen chains that are begun, each with a fragment of 20 bytes.
fn chains(alloc: Global) -> Result<Vec<u8>, Memory> {
    let mut bytes = Vec::new(alloc);
    for id in 0..17u64 {
        write_payload(BEGIN_FRAGMENT, &id.to_le_bytes(), &mut bytes)?;
        write_payload(FINAL, b"", &mut bytes)?;
    }
    Ok(bytes)
}

#[test]
fn sixteen_chains_may_be_open(rt: HostRuntime) -> Result<(), Fail> {
    let bytes = chains(rt.alloc())?;
    let told = told(rt.alloc(), false, bytes.as_slice())?;
    assert_eq!(rt;
        told.as_str(),
        "Ok(FedMessages { messages: [], fault: Some(Malformed { at: 320, why: OpenFragments }) })"
    );
    Ok(())
}

/// A message's first frame, of 19 bytes, and 4,096 more, of six.
fn many_frames(alloc: Global) -> Result<Vec<u8>, Memory> {
    let mut bytes = Vec::new(alloc);
    write_payload(UNFRAGMENTED, b"bbbbbbbbbbbbb", &mut bytes)?;
    for _ in 0..4096u32 {
        write_payload(0, b"", &mut bytes)?;
    }
    Ok(bytes)
}

#[test]
fn a_message_may_have_4096_frames(rt: HostRuntime) -> Result<(), Fail> {
    let bytes = many_frames(rt.alloc())?;
    let told = told(rt.alloc(), false, bytes.as_slice())?;
    assert_eq!(rt;
        told.as_str(),
        "Ok(FedMessages { messages: [], fault: Some(Malformed { at: 24589, why: ManyFrames }) })"
    );
    Ok(())
}

/// Three frames of a million bytes, where a payload may have so many.
fn long_frames(alloc: Global) -> Result<Vec<u8>, Memory> {
    let payload = vec![in alloc; 0u8; 999_994]?;
    let payload = payload.as_slice();
    let mut bytes = Vec::new(alloc);
    if payload.len() <= MAX_PAYLOAD {
        write_payload(UNFRAGMENTED, payload, &mut bytes)?;
        write_payload(0, payload, &mut bytes)?;
        write_payload(0, payload, &mut bytes)?;
    }
    Ok(bytes)
}

#[test]
fn a_message_may_have_2097152_bytes(rt: HostRuntime) -> Result<(), Fail> {
    let bytes = long_frames(rt.alloc())?;
    let told = told(rt.alloc(), false, bytes.as_slice())?;
    assert_eq!(rt;
        told.as_str(),
        "Ok(FedMessages { messages: [], fault: Some(Malformed { at: 2000000, why: LongMessage }) })"
    );
    Ok(())
}

fn frame(alloc: Global, flags: u16, payload: &[u8]) -> Result<Frame, Memory>
    ensures flags { IfOk result (λ frame. frame.flags ≡ flags) }
    ensures payload { IfOk result (λ frame. frame.payload ≡ payload.now) }
{
    Ok(Frame {
        flags,
        payload: Bytes::copied_from(alloc, payload)?,
    })
}

/// A message in one piece; in fragments that 15 bytes are within; and in those that 22 are, which are one.
const WRITTEN: &[u8] = b"\x08\0\0\0\0\xc0ab\x07\0\0\0\0\0c\x07\0\0\0\0\x20d\
    \x0e\0\0\0\0\x80\x07\0\0\0\0\0\0\0\x08\0\0\0\0\xc0ab\x07\0\0\0\0\x20c\
    \x0e\0\0\0\0\x40\x07\0\0\0\0\0\0\0\x07\0\0\0\0\x20d\
    \x08\0\0\0\0\xc0ab\x07\0\0\0\0\0c\x07\0\0\0\0\x20d";

fn written(alloc: Global) -> Result<Vec<u8>, Memory> {
    let message = Message {
        frames: Frames::from_vec(vec![in alloc;
            frame(alloc, UNFRAGMENTED, b"ab")?,
            frame(alloc, 0, b"c")?,
            frame(alloc, FINAL, b"d")?,
        ]?),
    };
    let mut out = Vec::new(alloc);
    write_message(&message, &mut out)?;
    write_fragments(&message, 7, 15, &mut out)?;
    write_fragments(&message, 7, 22, &mut out)?;
    Ok(out)
}

#[test]
fn messages_are_written_in_one_piece_and_in_fragments(rt: HostRuntime) -> Result<(), Fail> {
    let out = written(rt.alloc())?;
    assert_eq!(rt; out.as_slice(), WRITTEN);
    Ok(())
}
