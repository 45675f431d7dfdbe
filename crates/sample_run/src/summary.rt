//! What is told of a script's run.

ghost use Rattle.std.specs.Prelude.{◌≡◌, ◌++◌, OnOk};
ghost use Rattle.sample_run.specs.Summaries.{row, summary_text};

use grid_base::Memory;
use itoa::Buffer;
use replay_run::Counts;

/// How many lines a script has, what became of its calls, and what stands in the partitions' histories at its end.
#[derive(Clone, Copy, Debug, PartialEq, Eq)]
pub struct Summary {
    /// The lines that were run, the first among them.
    pub lines: u32,
    pub counts: Counts,
}

/// Appends a line of a word and a number.
fn write_row(word: &[u8], number: u32, out: &mut Vec<u8>) -> Result<(), Memory>
    ensures { OnOk result (out.new.items ≡ out.old.items ++ row word.now number) }
{
    out.extend_from_slice(word)?;
    out.push(b' ')?;
    out.extend_from_slice(Buffer::new().format(number).as_bytes())?;
    out.push(b'\n')?;
    Ok(())
}

/// Appends a summary: eight lines, each of a word and a number.
pub fn write_summary(summary: &Summary, out: &mut Vec<u8>) -> Result<(), Memory>
    ensures { OnOk result (out.new.items ≡ out.old.items ++ summary_text summary.now) }
{
    let Summary { lines, counts } = *summary;
    write_row(b"lines", lines, out)?;
    write_row(b"arrived", counts.arrived, out)?;
    write_row(b"answered", counts.answered, out)?;
    write_row(b"refused", counts.refused, out)?;
    write_row(b"memory", counts.memory, out)?;
    write_row(b"waiting", counts.waiting, out)?;
    write_row(b"entries", counts.entries, out)?;
    write_row(b"lost", counts.lost, out)
}
