use crate::hearing::message;
use fixed_fields::{
    Cursor, byte_at, int32_at, int64_at, kind_of, uuid_at, write_error, write_int32, write_int64,
    write_reply, write_uuid, write_void,
};
use frame_codec::Frame;
use grid_base::{Answer, Bytes, Memory};
use std::alloc::Global;
use std::test::Fail;

/// The fields of a payload: its type, the numbers at 12 and 30, those of eight bytes at 4 and past each end, the UUIDs at 16
/// and 17, and the byte at 33.
fn fields_text(alloc: Global, frame: &Frame) -> Result<String, Memory> {
    let kind = kind_of(frame);
    let numbers = [int32_at(frame, 12), int32_at(frame, 30)];
    let longs = [int64_at(frame, 4), int64_at(frame, usize::MAX)];
    let uuids = [uuid_at(frame, 16), uuid_at(frame, 17)];
    let byte = byte_at(frame, 33);
    format!(in alloc; "{kind:?} {numbers:?} {longs:?} {uuids:?} {byte:?}")
}

fn told_fields(alloc: Global, payload: &[u8]) -> Result<String, Memory> {
    let frame = Frame {
        flags: 0,
        payload: Bytes::copied_from(alloc, payload)?,
    };
    fields_text(alloc, &frame)
}

/// First payloads of authentications, and the front of one.
const FIELDS: &[(&[u8], &str)] = &[
    // of client 7, but for the lowest bit of its higher half
    (
        b"\0\x01\0\0\xf0\xff\xff\xff\xff\xff\xff\xff\xff\xff\xff\xff\
          \0\x02\0\0\0\0\0\0\0\x07\0\0\0\0\0\0\0\x01",
        "Some(256) [Ok(-1), Ok(16777216)] [Ok(-16), Err(Short)] \
         [Ok(Some(36893488147419103239)), Ok(None)] Ok(1)",
    ),
    // without a number, and without a version
    (
        b"\0\x01\0\0\xf0\xff\xff\xff\xff\xff\xff\xff\xff\xff\xff\xff\
          \x03\x02\0\0\0\0\0\0\0\x07\0\0\0\0\0\0\0",
        "Some(256) [Ok(-1), Err(Short)] [Ok(-16), Err(Short)] [Ok(None), Err(Short)] Err(Short)",
    ),
    (
        b"\0\x01\0",
        "None [Err(Short), Err(Short)] [Err(Short), Err(Short)] [Err(Short), Err(Short)] \
         Err(Short)",
    ),
];

#[test]
fn fields_are_read_at_their_places(rt: HostRuntime) -> Result<(), Fail> {
    for (payload, wanted) in FIELDS {
        let told = told_fields(rt.alloc(), payload)?;
        assert_eq!(rt; told.as_str(), *wanted);
    }
    Ok(())
}

/// The number 271 in four bytes and -2 in eight, a UUID, and none.
const WRITTEN_FIELDS: &[u8] = b"\x0f\x01\0\0\xfe\xff\xff\xff\xff\xff\xff\xff\
    \0\x02\0\0\0\0\0\0\0\x07\0\0\0\0\0\0\0\x01\0\0\0\0\0\0\0\0\0\0\0\0\0\0\0\0";

fn written_fields(alloc: Global) -> Result<Vec<u8>, Memory> {
    let mut out = Vec::new(alloc);
    write_int32(271, &mut out)?;
    write_int64(-2, &mut out)?;
    write_uuid(Some((2 << 64) + 7), &mut out)?;
    write_uuid(None, &mut out)?;
    Ok(out)
}

#[test]
fn fields_are_written_with_their_low_bytes_first(rt: HostRuntime) -> Result<(), Fail> {
    let out = written_fields(rt.alloc())?;
    assert_eq!(rt; out.as_slice(), WRITTEN_FIELDS);
    Ok(())
}

/// What a cursor gives, asked one after another for data or null, a structure, a text, data, data or null, a text, data, and
/// data or null.
fn frames_text(alloc: Global, frames: &[Frame]) -> Result<String, Memory> {
    let mut cursor = Cursor::new(frames);
    let first = cursor.nullable();
    let structure = cursor.skip_structure();
    let second = cursor.text();
    let third = (cursor.data(), cursor.nullable());
    let fourth = (cursor.text(), cursor.data());
    let fifth = cursor.nullable();
    format!(in alloc; "{first:?} {structure:?} {second:?} {third:?} {fourth:?} {fifth:?}")
}

/// What it gives of the frames behind a message's first.
fn told_frames(alloc: Global, bytes: &[u8]) -> Result<String, Fail> {
    let message = message(alloc, bytes)?;
    let (_, behind) = message.frames.as_slice().split_first().ok_or("no frame")?;
    Ok(frames_text(alloc, behind)?)
}

/// Messages.
const FRAMES: &[(&[u8], &str)] = &[
    // the text `a`, the text `café`, a null, and a byte that is no text
    (
        b"\x13\0\0\0\0\xc0\0\0\0\0\0\0\0\0\0\0\0\0\0\x07\0\0\0\0\0a\x0b\0\0\0\0\0caf\xc3\xa9\
          \x0d\0\0\0\0\x04ignored\x07\0\0\0\0\x20\xff",
        "Ok(Some(Bytes { content: [97] })) Err(NoFrame) \
         Ok(Bytes { content: [99, 97, 102, 195, 169] }) (Err(NoFrame), Ok(None)) \
         (Err(NotUtf8), Ok(Bytes { content: [255] })) Err(NoFrame)",
    ),
    // a structure that has a text and another structure, and the text `b` behind it
    (
        b"\x13\0\0\0\0\xc0\0\0\0\0\0\0\0\0\0\0\0\0\0\x06\0\0\0\0\x10\x0c\0\0\0\0\0inside\
          \x06\0\0\0\0\x18\x06\0\0\0\0\x08\x06\0\0\0\0\x08\x07\0\0\0\0\x20b",
        "Err(NoFrame) Ok(()) Ok(Bytes { content: [98] }) (Err(NoFrame), Err(NoFrame)) \
         (Err(NoFrame), Err(NoFrame)) Err(NoFrame)",
    ),
];

#[test]
fn frames_are_read_one_after_another(rt: HostRuntime) -> Result<(), Fail> {
    for (bytes, wanted) in FRAMES {
        let told = told_frames(rt.alloc(), bytes)?;
        assert_eq!(rt; told.as_str(), *wanted);
    }
    Ok(())
}

/// The types of some requests.
const PUT: u32 = 0x01_01_00;

const GET: u32 = 0x01_02_00;

const REPLACE_IF_SAME: u32 = 0x01_05_00;

const PING: u32 = 0x00_0b_00;

/// A null that answers a put, a value that answers a get, and then what else is answered under the correlation 3: a flag, a
/// number, nothing, and the errors 11 to 13. Behind them a ping's answer, and the errors 9 and 5.
const ANSWERS: &[u8] = b"\x13\0\0\0\0\xc0\x01\x01\x01\0\x01\0\0\0\0\0\0\0\0\x06\0\0\0\0\x24\
    \x13\0\0\0\0\xc0\x01\x02\x01\0\x02\0\0\0\0\0\0\0\0\x0f\0\0\0\0\x20\0\0\0\0\xff\xff\xff\xf5v\
    \x14\0\0\0\0\xe0\x01\x05\x01\0\x03\0\0\0\0\0\0\0\0\x01\
    \x17\0\0\0\0\xe0\x01\x01\x01\0\x03\0\0\0\0\0\0\0\0\x02\x01\0\0\
    \x13\0\0\0\0\xe0\x01\x01\x01\0\x03\0\0\0\0\0\0\0\0\
    \x1f\0\0\0\0\xe0\0\0\0\0\x03\0\0\0\0\0\0\0\0\x0b\0\0\0\0\0\0\0\0\0\0\0\
    \x1f\0\0\0\0\xe0\0\0\0\0\x03\0\0\0\0\0\0\0\0\x0c\0\0\0\0\0\0\0\0\0\0\0\
    \x1f\0\0\0\0\xe0\0\0\0\0\x03\0\0\0\0\0\0\0\0\x0d\0\0\0\0\0\0\0\0\0\0\0\
    \x13\0\0\0\0\xe0\x01\x0b\0\0\x01\0\0\0\0\0\0\0\0\
    \x1f\0\0\0\0\xe0\0\0\0\0\x02\0\0\0\0\0\0\0\0\x09\0\0\0\x02\0\0\0\0\0\0\0\
    \x1f\0\0\0\0\xe0\0\0\0\0\x01\0\0\0\0\0\0\0\0\x05\0\0\0\x06\0\0\0\x05\0\0\0";

/// Appends what was written.
fn append(out: &mut Vec<u8>, written: Result<Bytes, Memory>) -> Result<(), Memory> {
    out.extend_from_slice(written?.as_slice())?;
    Ok(())
}

fn write_values(alloc: Global, out: &mut Vec<u8>) -> Result<(), Memory> {
    append(out, write_reply(alloc, PUT, 1, &Answer::Maybe(None)))?;
    let stored = Bytes::copied_from(alloc, b"\0\0\0\0\xff\xff\xff\xf5v")?;
    append(
        out,
        write_reply(alloc, GET, 2, &Answer::Maybe(Some(stored))),
    )
}

fn write_others(alloc: Global, out: &mut Vec<u8>) -> Result<(), Memory> {
    append(
        out,
        write_reply(alloc, REPLACE_IF_SAME, 3, &Answer::Flag(true)),
    )?;
    append(out, write_reply(alloc, PUT, 3, &Answer::Number(258)))?;
    append(out, write_reply(alloc, PUT, 3, &Answer::Void))
}

fn write_object_errors(alloc: Global, out: &mut Vec<u8>) -> Result<(), Memory> {
    append(out, write_reply(alloc, PUT, 3, &Answer::KeyLocked))?;
    append(out, write_reply(alloc, PUT, 3, &Answer::NotOwner))?;
    append(out, write_reply(alloc, PUT, 3, &Answer::UnknownProcessor))
}

fn write_plain(alloc: Global, out: &mut Vec<u8>) -> Result<(), Memory> {
    append(out, write_void(alloc, PING, 1))?;
    append(out, write_error(alloc, 2, 9, 2, 0))?;
    append(out, write_error(alloc, 1, 5, 6, 5))
}

fn written_answers(alloc: Global) -> Result<Vec<u8>, Memory> {
    let mut out = Vec::new(alloc);
    write_values(alloc, &mut out)?;
    write_others(alloc, &mut out)?;
    write_object_errors(alloc, &mut out)?;
    write_plain(alloc, &mut out)?;
    Ok(out)
}

#[test]
fn answers_are_written(rt: HostRuntime) -> Result<(), Fail> {
    let out = written_answers(rt.alloc())?;
    assert_eq!(rt; out.as_slice(), ANSWERS);
    Ok(())
}
