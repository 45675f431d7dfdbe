//! What follows a line's outcome, in the words of a transcript.

ghost use Rattle.std.specs.Prelude.{◌≡◌, ◌++◌, OnOk};
ghost use Rattle.line_told.specs.Printing.{kind_word, step_text, end_word, end_text, published_text, fault_word, fault_text, appended_text};

use crate::told::Appended;
use crate::words::{push_decimal, push_hex, push_number, push_text, push_word};
use frame_codec::{Malformed, Why};
use grid_base::{Memory, PartitionId};
use rebalance::{Step, StepKind};
use std::alloc::Global;

fn kind_word(kind: StepKind) -> &'static str
    ensures { result.now ≡ kind_word kind }
{
    match kind {
        StepKind::Move => "move",
        StepKind::Handover => "handover",
    }
}

/// Appends a step of a plan.
pub fn push_step(out: &mut Vec<u8>, line: u32, step: Step) -> Result<(), Memory>
    ensures { OnOk result (out.new.items ≡ out.old.items ++ step_text line step) }
{
    push_number(out, u64::from(line))?;
    push_text(out, b"step ")?;
    push_number(out, u64::from(step.partition))?;
    push_number(out, u64::from(step.from))?;
    push_number(out, u64::from(step.to))?;
    push_text(out, kind_word(step.kind).as_bytes())?;
    push_text(out, b"\n")
}

/// The word for a step that was run, by whether a move is still under way.
fn end_word(moving: bool) -> &'static str
    ensures { result.now ≡ end_word moving }
{
    if moving { "open " } else { "done " }
}

/// Appends how a step ended: its move is done, or still under way.
pub fn push_ended(
    out: &mut Vec<u8>,
    line: u32,
    partition: PartitionId,
    moving: bool,
) -> Result<(), Memory>
    ensures { OnOk result (out.new.items ≡ out.old.items ++ end_text line partition moving) }
{
    push_number(out, u64::from(line))?;
    push_text(out, end_word(moving).as_bytes())?;
    push_decimal(out, u64::from(partition))?;
    push_text(out, b"\n")
}

/// Appends that a decision was published in a partition, and its number in the published list.
pub fn push_published(
    out: &mut Vec<u8>,
    line: u32,
    partition: PartitionId,
    number: usize,
) -> Result<(), Memory>
    ensures { OnOk result (out.new.items ≡ out.old.items ++ published_text line partition number) }
{
    push_number(out, u64::from(line))?;
    push_text(out, b"published ")?;
    push_number(out, u64::from(partition))?;
    push_decimal(out, number as u64)?;
    push_text(out, b"\n")
}

/// The word of a fault.
fn fault_word(why: Why) -> &'static str
    ensures { result.now ≡ fault_word why }
{
    match why {
        Why::Prefix => "prefix",
        Why::TooShort => "tooshort",
        Why::TooLong => "toolong",
        Why::BadFragment => "badfragment",
        Why::OpenFragments => "openfragments",
        Why::ManyFrames => "manyframes",
        Why::LongMessage => "longmessage",
        Why::ShortStart => "shortstart",
        Why::Spent => "spent",
    }
}

/// Appends that a fault closed a connection.
pub fn push_close(out: &mut Vec<u8>, line: u32, conn: u32, fault: Malformed) -> Result<(), Memory>
    ensures { OnOk result (out.new.items ≡ out.old.items ++ fault_text line conn fault) }
{
    push_number(out, u64::from(line))?;
    push_word(out, b"close")?;
    push_number(out, u64::from(conn))?;
    push_number(out, fault.at)?;
    push_text(out, fault_word(fault.why).as_bytes())?;
    push_text(out, b"\n")
}

/// Appends a message that was appended to a connection's output.
pub fn push_appended(alloc: Global, out: &mut Vec<u8>, message: &Appended) -> Result<(), Memory>
    ensures { OnOk result (out.new.items ≡ out.old.items ++ appended_text message.now) }
{
    push_number(out, u64::from(message.line))?;
    push_text(out, b"to ")?;
    push_number(out, u64::from(message.conn))?;
    push_hex(alloc, out, message.bytes.as_slice())?;
    push_text(out, b"\n")
}
