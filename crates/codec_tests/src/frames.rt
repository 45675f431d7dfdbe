use crate::hearing::text;
use frame_codec::{FedFrames, Frame, FrameReader, write_frame, write_payload};
use grid_base::{Bytes, Memory};
use std::alloc::Global;
use std::test::Fail;

/// Frames of no byte, of one and of seven.
const STREAM: &[u8] = b"\x06\0\0\0\0\0\x07\0\0\0\0\x20m\x0d\0\0\0\x01\x802000001";

/// What a reader gives of these bytes, whose first has the place 3.
fn read(alloc: Global, bytes: &[u8]) -> Result<FedFrames, Memory> {
    let mut reader = FrameReader::new(alloc, 3);
    reader.feed(alloc, bytes)
}

fn told(alloc: Global, bytes: &[u8]) -> Result<String, Fail> {
    text(alloc, read(alloc, bytes))
}

/// Bytes, and the frames in them. A length below 6 or above 1,048,576 shows at its fourth byte.
const READ: &[(&[u8], &str)] = &[
    (
        STREAM,
        "Ok(FedFrames { frames: [\
         PlacedFrame { at: 3, frame: Frame { flags: 0, payload: Bytes { content: [] } } }, \
         PlacedFrame { at: 9, frame: Frame { flags: 8192, payload: Bytes { content: [109] } } }, \
         PlacedFrame { at: 16, frame: Frame { flags: 32769, \
         payload: Bytes { content: [50, 48, 48, 48, 48, 48, 49] } } }], fault: None })",
    ),
    (b"\xff\xff\xff", "Ok(FedFrames { frames: [], fault: None })"),
    (
        b"\0\0\0\0",
        "Ok(FedFrames { frames: [], fault: Some(Malformed { at: 3, why: TooShort }) })",
    ),
    (
        b"\x05\0\0\0",
        "Ok(FedFrames { frames: [], fault: Some(Malformed { at: 3, why: TooShort }) })",
    ),
    (b"\x06\0\0\0", "Ok(FedFrames { frames: [], fault: None })"),
    (b"\0\0\x10\0", "Ok(FedFrames { frames: [], fault: None })"),
    (
        b"\x01\0\x10\0",
        "Ok(FedFrames { frames: [], fault: Some(Malformed { at: 3, why: TooLong }) })",
    ),
    (
        b"\xff\xff\xff\xff",
        "Ok(FedFrames { frames: [], fault: Some(Malformed { at: 3, why: TooLong }) })",
    ),
];

#[test]
fn frames_are_read_with_their_places(rt: HostRuntime) -> Result<(), Fail> {
    for (bytes, wanted) in READ {
        let told = told(rt.alloc(), bytes)?;
        assert_eq!(rt; told.as_str(), *wanted);
    }
    Ok(())
}

/// The frames of `STREAM` as they are written.
fn written(alloc: Global) -> Result<Vec<u8>, Memory> {
    let mut out = Vec::new(alloc);
    let empty = Frame {
        flags: 0,
        payload: Bytes::new(alloc),
    };
    write_frame(&empty, &mut out)?;
    write_payload(0x2000, b"m", &mut out)?;
    write_payload(0x8001, b"2000001", &mut out)?;
    Ok(out)
}

#[test]
fn frames_are_written(rt: HostRuntime) -> Result<(), Fail> {
    let out = written(rt.alloc())?;
    assert_eq!(rt; out.as_slice(), STREAM);
    Ok(())
}
