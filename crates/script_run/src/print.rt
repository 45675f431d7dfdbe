//! The text of what a line told.

ghost use Rattle.std.specs.Prelude.{◌≡◌, ◌++◌, codes, decimal, length, OnOk};
ghost use Rattle.std.specs.Fmt.{signed_decimal};
ghost use Rattle.std.specs.Option.{option_copied};
ghost use Rattle.replay_run.specs.Dumps.{number as spaced};
ghost use Rattle.replay_run.specs.Printing.{words_line};
ghost use Rattle.script_run.specs.LineTold.{told_of};
ghost use Rattle.script_run.specs.Printing.{hit_text, heard_text, handed_text, all_heard_text, near_text, told_text};

use crate::told::{NearOutcome, ScriptTold};
use grid_base::{Bytes, Memory};
use grid_client::Heard;
use itoa::Buffer;
use line_told::{push_decimal, push_number, push_ready, push_text, push_value};
use std::alloc::Global;

/// Appends the outcome of a line, in words.
fn push_words(out: &mut Vec<u8>, line: u32, words: &[u8]) -> Result<(), Memory>
    ensures { OnOk result (out.new.items ≡ out.old.items ++ words_line line words.now) }
{
    push_number(out, u64::from(line))?;
    push_text(out, words)?;
    push_text(out, b"\n")
}

/// Appends a line of a word, the space after it and a number.
fn push_counted(out: &mut Vec<u8>, line: u32, word: &[u8], n: u64) -> Result<(), Memory>
    ensures { OnOk result (out.new.items ≡ out.old.items ++ words_line line (word.now ++ decimal n)) }
{
    push_number(out, u64::from(line))?;
    push_text(out, word)?;
    push_decimal(out, n)?;
    push_text(out, b"\n")
}

/// Appends the outcome of a look-up that hits a value, which may be null.
fn push_hit(
    alloc: Global,
    out: &mut Vec<u8>,
    line: u32,
    value: Option<&Bytes>,
) -> Result<(), Memory>
    ensures { OnOk result (out.new.items ≡ out.old.items ++ hit_text line (option_copied value.entry)) }
{
    push_number(out, u64::from(line))?;
    push_text(out, b"hit ")?;
    push_value(alloc, out, value)?;
    push_text(out, b"\n")
}

/// Appends the outcome of a line that handed a client so many bytes.
fn push_fed(out: &mut Vec<u8>, line: u32, bytes: usize) -> Result<(), Memory>
    ensures { OnOk result (out.new.items ≡ out.old.items ++ handed_text line bytes) }
{
    push_counted(out, line, b"fed ", bytes as u64)
}

/// Appends that a look-up was overtaken.
fn push_overtaken(out: &mut Vec<u8>, line: u32, version: u32, number: u32) -> Result<(), Memory>
    ensures { OnOk result (out.new.items ≡ out.old.items ++ words_line line (codes "overtaken " ++ spaced version ++ decimal number)) }
{
    push_number(out, u64::from(line))?;
    push_text(out, b"overtaken ")?;
    push_number(out, u64::from(version))?;
    push_decimal(out, u64::from(number))?;
    push_text(out, b"\n")
}

/// Appends that a call was refused.
fn push_refused(out: &mut Vec<u8>, line: u32, code: i32) -> Result<(), Memory>
    ensures { OnOk result (out.new.items ≡ out.old.items ++ words_line line (codes "refused " ++ signed_decimal code)) }
{
    push_number(out, u64::from(line))?;
    push_text(out, b"refused ")?;
    push_text(out, Buffer::new().format(code).as_bytes())?;
    push_text(out, b"\n")
}

/// Appends what a client makes of a message: nothing, where that answers no look-up.
fn push_heard(out: &mut Vec<u8>, line: u32, heard: &Heard) -> Result<(), Memory>
    ensures { OnOk result (out.new.items ≡ out.old.items ++ heard_text line heard.now) }
{
    match heard {
        Heard::Answered { .. } => Ok(()),
        Heard::Kept => push_words(out, line, b"kept"),
        Heard::Overtaken { version, number } => push_overtaken(out, line, *version, *number),
        Heard::Invalidated => push_words(out, line, b"invalidated"),
        Heard::Cleared(partition) => push_counted(out, line, b"cleared ", u64::from(*partition)),
        Heard::Refused { code, .. } => push_refused(out, line, *code),
    }
}

/// Appends what a client makes of several messages.
fn push_all_heard(out: &mut Vec<u8>, line: u32, all: &[Heard]) -> Result<(), Memory>
    ensures { OnOk result (out.new.items ≡ out.old.items ++ all_heard_text line all.now) }
{
    for heard in all {
        push_heard(out, line, heard)?;
    }
    Ok(())
}

/// Appends what a near client did, if it did something.
fn push_near(
    alloc: Global,
    out: &mut Vec<u8>,
    line: u32,
    near: Option<&NearOutcome>,
) -> Result<(), Memory>
    ensures { OnOk result (out.new.items ≡ out.old.items ++ near_text line (option_copied near.entry)) }
{
    match near {
        None => Ok(()),
        Some(NearOutcome::Hit(value)) => push_hit(alloc, out, line, value.as_ref()),
        Some(NearOutcome::Miss) => push_words(out, line, b"miss"),
        Some(NearOutcome::Fed { bytes }) => push_fed(out, line, *bytes),
    }
}

/// Appends the text of what the line of that number told.
pub fn push_script_told(
    alloc: Global,
    out: &mut Vec<u8>,
    line: u32,
    told: &ScriptTold,
) -> Result<(), Memory>
    ensures { OnOk result (out.new.items ≡ out.old.items ++ told_text line (told_of told.now)) }
{
    push_near(alloc, out, line, told.near.as_ref())?;
    push_all_heard(out, line, told.heard.as_slice())?;
    push_ready(alloc, out, line, &told.grid)
}
