//! The text of what a line told.

ghost use Rattle.std.specs.Prelude.{◌≡◌, ◌++◌, OnOk};
ghost use Rattle.line_told.specs.Printing.{told_text, text_of, ready_text};

use crate::followed::{push_appended, push_close, push_ended, push_published, push_step};
use crate::outcomes::push_outcome;
use crate::told::{Ready, Told};
use crate::words::push_text;
use grid_base::Memory;
use std::alloc::Global;

/// Appends the text of one thing that the line of that number told.
fn push_one(alloc: Global, out: &mut Vec<u8>, line: u32, told: &Told) -> Result<(), Memory>
    ensures { OnOk result (out.new.items ≡ out.old.items ++ told_text line told.now) }
{
    match told {
        Told::Outcome(outcome) => push_outcome(out, line, outcome),
        Told::Step(step) => push_step(out, line, *step),
        Told::Message(message) => push_appended(alloc, out, message),
        Told::Ended { partition, moving } => push_ended(out, line, *partition, *moving),
        Told::Published { partition, number } => push_published(out, line, *partition, *number),
        Told::Closed { conn, fault } => push_close(out, line, *conn, *fault),
    }
}

/// Appends the text of what the line of that number told.
pub fn push_told(alloc: Global, out: &mut Vec<u8>, line: u32, told: &[Told]) -> Result<(), Memory>
    ensures { OnOk result (out.new.items ≡ out.old.items ++ text_of line told.now) }
{
    for one in told {
        push_one(alloc, out, line, one)?;
    }
    Ok(())
}

/// Appends the text of a line: of what it told, and then what it wrote as it went.
pub fn push_ready(alloc: Global, out: &mut Vec<u8>, line: u32, ready: &Ready) -> Result<(), Memory>
    ensures { OnOk result (out.new.items ≡ out.old.items ++ ready_text line ready.now) }
{
    push_told(alloc, out, line, ready.told.as_slice())?;
    push_text(out, ready.printed.as_slice())
}
