use grid_base::Memory;
use link_frames::{Hello, LinkPart, LinkReader, write_answer, write_batch, write_hello};
use std::alloc::Global;
use std::test::Fail;

/// What a member sends that is called: its hello, its answer, and three batches, the second of no bytes.
const STREAM: &[u8] =
    b"GRL\x01GGGGGGGGGGGGGGGGGGGGGGGGGGGGGGGG\x02\x01\x09\0\0\0\0\0\0\0bbbbbbbbbbbbbbbbbbb\
     bbbbbbbbbbbbb]\xc0U\xa7\x89\x15\x1bD\x0e\xac\xf9\x9bB.\xe5;\x0f@\xb8.\xe05(\x88\x80&\
     \xb8\x11\x1b\x93 \xb2\x0e\x01\x01\0\0\0\xa0\xeb\xeb\xeam\x05\0\0\0\0\0\xcdS\x0d\xcc\
     \0\0\x05\0\0\0\xbb\x97\x07\x95queue";

/// How many bytes of it the hello and the answer have.
const OPENING: usize = 110;

/// What it is told as.
const TOLD: &str =
    "2 to 1 of process 9, an answer, 270: [109], 5: [], 0: [113, 117, 101, 117, 101], ";

fn told_part(alloc: Global, part: &LinkPart) -> Result<String, Fail> {
    let text = match part {
        LinkPart::Opens(hello) => {
            let Hello {
                member,
                peer,
                process,
                ..
            } = hello;
            format!(in alloc; "{member} to {peer} of process {process}, ")?
        }
        LinkPart::Answers(_) => format!(in alloc; "an answer, ")?,
        LinkPart::Carries(batch) => {
            format!(in alloc; "{}: {:?}, ", batch.partition, batch.bytes.as_slice())?
        }
    };
    Ok(text)
}

/// Feeds one piece to a reader, and tells what it gives.
fn feed(
    alloc: Global,
    reader: &mut LinkReader,
    piece: &[u8],
    told: &mut String,
) -> Result<(), Fail> {
    let fed = reader.feed(alloc, piece)?;
    for part in fed.parts.iter() {
        told.push_str(told_part(alloc, part)?.as_str())?;
    }
    if let Some(fault) = fed.fault {
        told.push_str(format!(in alloc; "{fault:?}")?.as_str())?;
    }
    Ok(())
}

/// What a reader gives of bytes that are cut into two pieces.
fn told_in_two(alloc: Global, bytes: &[u8], first: usize) -> Result<String, Fail> {
    let (front, back) = bytes.split_at(first.min(bytes.len()));
    let mut reader = LinkReader::new(alloc);
    let mut told = String::new(alloc);
    feed(alloc, &mut reader, front, &mut told)?;
    feed(alloc, &mut reader, back, &mut told)?;
    Ok(told)
}

#[test]
fn parts_are_read_however_they_are_cut(rt: HostRuntime) -> Result<(), Fail> {
    for first in 0..STREAM.len() {
        let told = told_in_two(rt.alloc(), STREAM, first)?;
        assert_eq!(rt; told.as_str(), TOLD);
    }
    Ok(())
}

/// What may follow the opening and fails, and what it is told as. A batch that fails gives nothing, nor does what follows.
const FAULTY: &[(&[u8], &str)] = &[
    (b"\x0f\x01\x01\0\0\0\xa0\xeb\xeb\xeam", "NoPartition"),
    (b"\x0e\x01\x01\0\0\x40\xa0\xeb\xeb\xeam", "TooLong"),
    (b"\x0e\x01\x01\0\0\0\xa0\xeb\xeb\xean", "Checksum"),
    (b"\x0d\x01\x01\0\0\0\xa0\xeb\xeb\xeam", "Checksum"),
    (b"\x0e\x01\x02\0\0\0\xa0\xeb\xeb\xeam\x05", "Checksum"),
];

/// What is read of the opening with these bytes behind it.
fn behind_the_opening(alloc: Global, bytes: &[u8]) -> Result<String, Fail> {
    let mut stream = Vec::from_slice(alloc, &STREAM[..OPENING])?;
    stream.extend_from_slice(bytes)?;
    stream.extend_from_slice(&STREAM[OPENING..])?;
    told_in_two(alloc, stream.as_slice(), stream.len())
}

#[test]
fn faults_end_a_stream(rt: HostRuntime) -> Result<(), Fail> {
    for (bytes, fault) in FAULTY {
        let told = behind_the_opening(rt.alloc(), bytes)?;
        let wanted = format!(in rt.alloc(); "2 to 1 of process 9, an answer, {fault}{fault}")?;
        assert_eq!(rt; told.as_str(), wanted.as_str());
    }
    let told = told_in_two(rt.alloc(), &STREAM[1..], STREAM.len())?;
    assert_eq!(rt; told.as_str(), "NotALinkNotALink");
    Ok(())
}

/// The stream as it is written.
fn written(alloc: Global, answer: &[u8; 32]) -> Result<Vec<u8>, Memory> {
    let hello = Hello {
        grid: [b'G'; 32],
        member: 2,
        peer: 1,
        process: 9,
        challenge: [b'b'; 32],
    };
    let mut out = Vec::new(alloc);
    write_hello(&hello, &mut out)?;
    write_answer(answer, &mut out)?;
    write_batch(270, b"m", &mut out)?;
    write_batch(5, b"", &mut out)?;
    write_batch(0, b"queue", &mut out)?;
    Ok(out)
}

#[test]
fn parts_are_written(rt: HostRuntime) -> Result<(), Fail> {
    let (answer, _) = STREAM[78..].split_first_chunk::<32>().ok_or("no answer")?;
    let out = written(rt.alloc(), answer)?;
    assert_eq!(rt; out.as_slice(), STREAM);
    Ok(())
}
