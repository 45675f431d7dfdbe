//! What bytes begin with: a part of a link, whole or not, or a fault.
ghost use Rattle.std.specs.Prelude.{◌≡◌, ◌+◌, ◌≤◌, length, IfOk};
ghost use Rattle.link_frames.specs.Spelling.{checksum};
ghost use Rattle.link_frames.specs.Reading.{front, hello_front, answer_front, batch_front, hello_of};

use crate::batches::checksum;
use crate::fault::LinkFault;
use crate::parts::{
    ANSWER_LENGTH, BATCH_HEADER, Batch, HELLO_LENGTH, Hello, LinkPart, MAGIC, MAX_BATCH, Stage,
};
use crate::places::{array_at, long_at, number_at, short_at};
use grid_base::{Bytes, Memory, PARTITIONS};
use std::alloc::Global;

/// What some bytes begin with.
#[derive(Debug, Drop)]
pub(crate) enum Front {
    /// The beginning of a part, or nothing.
    Partial,
    /// A part, and of how many bytes.
    Whole { part: LinkPart, length: usize },
    Wrong(LinkFault),
}

/// What the bytes begin with where that is the next part. Takes memory for a batch, as many bytes as it carries.
pub(crate) fn read_front(alloc: Global, stage: Stage, bytes: &[u8]) -> Result<Front, Memory>
    ensures { IfOk result (λ read. read ≡ front stage bytes.now) }
{
    match stage {
        Stage::Hello => Ok(read_hello(bytes)),
        Stage::Answer => Ok(read_answer(bytes)),
        Stage::Batch => read_batch(alloc, bytes),
    }
}

/// The hello that bytes spell.
fn hello_at(bytes: &[u8]) -> Hello
    requires { HELLO_LENGTH ≤ length bytes.now }
    ensures { result ≡ hello_of bytes.now }
{
    Hello {
        grid: array_at(bytes, 4),
        member: bytes[36],
        peer: bytes[37],
        process: long_at(bytes, 38),
        challenge: array_at(bytes, 46),
    }
}

fn read_hello(bytes: &[u8]) -> Front
    ensures { result ≡ hello_front bytes.now }
{
    if bytes.len() < HELLO_LENGTH {
        Front::Partial
    } else if number_at(bytes, 0) != MAGIC {
        Front::Wrong(LinkFault::NotALink)
    } else {
        Front::Whole {
            part: LinkPart::Opens(hello_at(bytes)),
            length: HELLO_LENGTH,
        }
    }
}

fn read_answer(bytes: &[u8]) -> Front
    ensures { result ≡ answer_front bytes.now }
{
    if bytes.len() < ANSWER_LENGTH {
        return Front::Partial;
    }
    Front::Whole {
        part: LinkPart::Answers(array_at(bytes, 0)),
        length: ANSWER_LENGTH,
    }
}

fn read_batch(alloc: Global, bytes: &[u8]) -> Result<Front, Memory>
    ensures { IfOk result (λ read. read ≡ batch_front bytes.now) }
{
    if bytes.len() < BATCH_HEADER {
        return Ok(Front::Partial);
    }
    let partition = short_at(bytes, 0);
    if partition >= PARTITIONS {
        return Ok(Front::Wrong(LinkFault::NoPartition));
    }
    let length = number_at(bytes, 2) as usize;
    if length > MAX_BATCH {
        return Ok(Front::Wrong(LinkFault::TooLong));
    }
    let behind = &bytes[BATCH_HEADER..];
    if behind.len() < length {
        return Ok(Front::Partial);
    }
    let carried = &behind[..length];
    if checksum(partition, carried) != number_at(bytes, 6) {
        return Ok(Front::Wrong(LinkFault::Checksum));
    }
    let bytes = Bytes::copied_from(alloc, carried)?;
    Ok(Front::Whole {
        part: LinkPart::Carries(Batch { partition, bytes }),
        length: BATCH_HEADER + length,
    })
}
