//! The frames of a request.

ghost use Rattle.std.specs.Prelude.{◌≡◌, ◌++◌, ◌∷◌, [], IfOk, OnOk};
ghost use Rattle.frame_codec.specs.Frames.{frame_bytes};
ghost use Rattle.frame_codec.specs.Laws.{spelled};
ghost use Rattle.fixed_fields.specs.Spelled.{request_head, with_parts};

use fixed_fields::{write_int32, write_int64};
use frame_codec::flags::FINAL;
use frame_codec::{MAX_PAYLOAD, write_payload};
use grid_base::Memory;
use std::alloc::{AllocError, Global};

/// How many bytes the first payload of a request has at most: the head's sixteen, and three numbers of eight.
const FIRST_LENGTH: usize = 40;

/// A first payload that begins as that of a request of that type does.
pub(crate) fn begun(
    alloc: Global,
    kind: u32,
    correlation: i64,
    partition: i32,
) -> Result<Vec<u8>, Memory>
    ensures { IfOk result (λ head. head.items ≡ request_head kind correlation partition) }
{
    let mut head = Vec::with_capacity(alloc, FIRST_LENGTH)?;
    head.extend_from_slice(&kind.to_le_bytes())?;
    write_int64(correlation, &mut head)?;
    write_int32(partition, &mut head)?;
    Ok(head)
}

/// Appends a frame with these flags. One that is longer than a frame can be is answered as want of memory.
pub(crate) fn write_part(flags: u16, part: &[u8], out: &mut Vec<u8>) -> Result<(), Memory>
    ensures { OnOk result (out.new.items ≡ out.old.items ++ frame_bytes (record { flags = flags; payload = part.now })) }
{
    if part.len() > MAX_PAYLOAD {
        return Err(AllocError);
    }
    write_payload(flags, part, out)
}

/// Appends the frame of a part that ends a message.
pub(crate) fn write_one(part: &[u8], out: &mut Vec<u8>) -> Result<(), Memory>
    ensures { OnOk result (out.new.items ≡ out.old.items ++ spelled (with_parts (part.now ∷ []) [])) }
{
    write_part(FINAL, part, out)
}

/// Appends the frames of two parts that end a message.
pub(crate) fn write_two(first: &[u8], second: &[u8], out: &mut Vec<u8>) -> Result<(), Memory>
    ensures { OnOk result (out.new.items ≡ out.old.items ++ spelled (with_parts (first.now ∷ second.now ∷ []) [])) }
{
    write_part(0, first, out)?;
    write_one(second, out)
}

/// Appends the frames of three parts that end a message.
pub(crate) fn write_three(
    first: &[u8],
    second: &[u8],
    third: &[u8],
    out: &mut Vec<u8>,
) -> Result<(), Memory>
    ensures { OnOk result (out.new.items
        ≡ out.old.items ++ spelled (with_parts (first.now ∷ second.now ∷ third.now ∷ []) [])) }
{
    write_part(0, first, out)?;
    write_two(second, third, out)
}

/// Appends the frames of four parts that end a message.
pub(crate) fn write_four(
    first: &[u8],
    second: &[u8],
    third: &[u8],
    fourth: &[u8],
    out: &mut Vec<u8>,
) -> Result<(), Memory>
    ensures { OnOk result (out.new.items
        ≡ out.old.items ++ spelled (with_parts (first.now ∷ second.now ∷ third.now ∷ fourth.now ∷ []) [])) }
{
    write_part(0, first, out)?;
    write_three(second, third, fourth, out)
}
