ghost use Rattle.std.specs.Prelude.{◌≡◌, ◌≤◌, ◌<◌, ◌++◌, ◌∷◌, true, length, take, drop, flat_map, All, OnOk, OnErr};
ghost use Rattle.frame_codec.specs.Laws.{IsWithinLimits, spelled};
ghost use Rattle.message_frames.specs.Grammar.{Unfragmented, piece_bytes};
ghost use Rattle.message_frames.specs.Writing.{IsWritable, KeepsFront, packed, header_flags as flags_of, fragment_of, chain_from, fragments_of};

use crate::Message;
use frame_codec::flags::{BEGIN_FRAGMENT, END_FRAGMENT, FINAL};
use frame_codec::{Frame, HEADER_LENGTH, write_frame, write_payload};
use grid_base::Memory;

/// Appends a message in one piece, at the cost of its bytes. Want of memory appends nothing.
pub fn write_message(message: &Message, out: &mut Vec<u8>) -> Result<(), Memory>
    requires { IsWritable message.now.frames }
    ensures ok { OnOk result (out.new.items ≡ out.old.items ++ piece_bytes (Unfragmented message.now.frames)) }
    ensures err { OnErr result (out.new.items ≡ out.old.items) }
{
    let before = out.len();
    let written = write_frames(message.frames.as_slice(), out);
    whole_or_nothing(written, before, out)
}

/// Appends a message in fragments of the chain with that id, at the cost of its bytes. Each fragment has as many whole
/// frames as keep it within `size` bytes after its header, and at least one. A message that is one fragment is written in
/// one piece. Want of memory appends nothing.
pub fn write_fragments(
    message: &Message,
    id: u64,
    size: u32,
    out: &mut Vec<u8>,
) -> Result<(), Memory>
    requires { IsWritable message.now.frames }
    ensures ok { OnOk result (out.new.items
        ≡ out.old.items ++ flat_map piece_bytes (fragments_of id size message.now.frames)) }
    ensures err { OnErr result (out.new.items ≡ out.old.items) }
{
    let frames = message.frames.as_slice();
    if packed_len(frames, size) == frames.len() {
        return write_message(message, out);
    }
    let before = out.len();
    let written = write_chain(frames, id, size, out);
    whole_or_nothing(written, before, out)
}

/// Takes back what an appending that failed left.
fn whole_or_nothing(
    written: Result<(), Memory>,
    before: usize,
    out: &mut Vec<u8>,
) -> Result<(), Memory>
    ensures same { result ≡ written }
    ensures ok { OnOk result (out.new.items ≡ out.old.items) }
    ensures err { OnErr result (out.new.items ≡ take before out.old.items) }
{
    if written.is_err() {
        out.truncate(before);
    }
    written
}

/// How many of the frames, of which there are some, the first fragment has.
fn packed_len(frames: &[Frame], size: u32) -> usize
    requires some { 0 < length frames.now }
    requires limits { All IsWithinLimits frames.now }
    ensures some { 0 < result }
    ensures within { result ≤ length frames.now }
    ensures packed { packed size frames.now ≡ take result frames.now ∷ packed size (drop result frames.now) }
{
    let size = size as usize;
    let mut used = HEADER_LENGTH + frames[0].payload.len();
    let mut count = 1;
    while count < frames.len() {
        used += HEADER_LENGTH + frames[count].payload.len();
        if used > size {
            break;
        }
        count += 1;
    }
    count
}

/// Appends the fragments of a chain.
fn write_chain(frames: &[Frame], id: u64, size: u32, out: &mut Vec<u8>) -> Result<(), Memory>
    requires { All IsWithinLimits frames.now }
    ensures ok { OnOk result (out.new.items
        ≡ out.old.items ++ flat_map piece_bytes (chain_from id true (packed size frames.now))) }
    ensures err { OnErr result (KeepsFront out.old.items out.new.items) }
{
    let mut first = true;
    let mut rest = frames;
    while !rest.is_empty() {
        let (group, others) = rest.split_at(packed_len(rest, size));
        write_fragment(id, first, others.is_empty(), group, out)?;
        first = false;
        rest = others;
    }
    Ok(())
}

/// Appends a fragment, the first of its chain or not, the last of its chain or not.
fn write_fragment(
    id: u64,
    first: bool,
    last: bool,
    frames: &[Frame],
    out: &mut Vec<u8>,
) -> Result<(), Memory>
    requires some { 0 < length frames.now }
    requires limits { All IsWithinLimits frames.now }
    ensures ok { OnOk result (out.new.items ≡ out.old.items ++ piece_bytes (fragment_of id first last frames.now)) }
    ensures err { OnErr result (KeepsFront out.old.items out.new.items) }
{
    write_payload(header_flags(first, last), &id.to_le_bytes(), out)?;
    if last {
        return write_frames(frames, out);
    }
    let (end, others) = frames.split_last().unwrap();
    write_frames(others, out)?;
    write_payload(end.flags | FINAL, end.payload.as_slice(), out)
}

/// The flags of a fragment's header.
fn header_flags(first: bool, last: bool) -> u16
    ensures { result ≡ flags_of first last }
{
    match (first, last) {
        (true, _) => BEGIN_FRAGMENT,
        (false, true) => END_FRAGMENT,
        (false, false) => 0,
    }
}

/// Appends frames one after the other.
fn write_frames(frames: &[Frame], out: &mut Vec<u8>) -> Result<(), Memory>
    requires { All IsWithinLimits frames.now }
    ensures ok { OnOk result (out.new.items ≡ out.old.items ++ spelled frames.now) }
    ensures err { OnErr result (KeepsFront out.old.items out.new.items) }
{
    for frame in frames {
        write_frame(frame, out)?;
    }
    Ok(())
}
