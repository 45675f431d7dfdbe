ghost use Rattle.std.specs.Prelude.{◌≡◌, ◌++◌, OnOk};
ghost use Rattle.replay_run.specs.Dumps.{number};
ghost use Rattle.grid_cli.specs.Transcripts.{refused_text, limit_text, limit_word};

use crate::status::LimitWhat;
use grid_base::Memory;
use itoa::Buffer;
use script_lang::LineWhy;

/// The word that a transcript has for a limit.
fn limit_word(what: LimitWhat) -> &'static str
    ensures { result.now ≡ limit_word what }
{
    match what {
        LimitWhat::Bytes => "bytes",
        LimitWhat::Lines => "lines",
        LimitWhat::Line => "line",
        LimitWhat::InFlight => "inflight",
    }
}

/// Appends a number and the space after it.
fn push_number(out: &mut Vec<u8>, n: u32) -> Result<(), Memory>
    ensures { OnOk result (out.new.items ≡ out.old.items ++ number n) }
{
    out.extend_from_slice(Buffer::new().format(n).as_bytes())?;
    out.extend_from_slice(b" ")?;
    Ok(())
}

/// Appends the last line of a transcript that stops at a refused line.
pub fn push_refused(out: &mut Vec<u8>, line: u32, why: LineWhy) -> Result<(), Memory>
    ensures { OnOk result (out.new.items ≡ out.old.items ++ refused_text line why) }
{
    out.extend_from_slice(b"refused ")?;
    push_number(out, line)?;
    out.extend_from_slice(why.word().as_bytes())?;
    out.extend_from_slice(b"\n")?;
    Ok(())
}

/// Appends the last line of a transcript that stops at a limit.
pub fn push_limit(out: &mut Vec<u8>, line: u32, what: LimitWhat) -> Result<(), Memory>
    ensures { OnOk result (out.new.items ≡ out.old.items ++ limit_text line what) }
{
    out.extend_from_slice(b"limit ")?;
    push_number(out, line)?;
    out.extend_from_slice(limit_word(what).as_bytes())?;
    out.extend_from_slice(b"\n")?;
    Ok(())
}
