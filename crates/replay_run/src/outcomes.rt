//! What an event came to, in the words of a transcript.

ghost use Rattle.std.specs.Prelude.{◌≡◌, ◌++◌, OnOk};
ghost use Rattle.partition_world.specs.Events.{event_of, happened_of};
ghost use Rattle.replay_run.specs.LineTold.{is_advance};
ghost use Rattle.replay_run.specs.Printing.{done_word, words_of, fate_words, words_line};

use grid_base::{Memory, Request};
use line_told::{push_number, push_text, push_words};
use partition_world::{Event, Happened};

/// Whether an event is an advance.
pub fn is_advance(event: &Event<Request>) -> bool
    ensures { result ≡ is_advance (event_of event.now) }
{
    matches!(event, Event::Advance)
}

/// What an event's line says where the event is done, and there is no more to tell.
pub fn done_word(event: &Event<Request>) -> &'static str
    ensures { result.now ≡ done_word (event_of event.now) }
{
    match event {
        Event::Advance => "freezing",
        _ => "ok",
    }
}

/// Appends the outcome of a line that is an event, with the word of one that is done.
pub fn push_happened(
    out: &mut Vec<u8>,
    line: u32,
    done: &str,
    happened: Happened,
) -> Result<(), Memory>
    ensures { OnOk result (out.new.items ≡ out.old.items ++ words_line line (words_of done.now (happened_of happened))) }
{
    push_number(out, u64::from(line))?;
    push_words(out, done, happened)?;
    push_text(out, b"\n")
}

/// What the line of a crash or a detection in all partitions says.
fn fate_word(happened: Happened) -> &'static str
    ensures { result.now ≡ fate_words (happened_of happened) }
{
    match happened {
        Happened::Done | Happened::RowMade { .. } => "ok",
        _ => "nothing",
    }
}

/// Appends the outcome of a line that is a crash or a detection in all partitions.
pub fn push_fate(out: &mut Vec<u8>, line: u32, happened: Happened) -> Result<(), Memory>
    ensures { OnOk result (out.new.items ≡ out.old.items ++ words_line line (fate_words (happened_of happened))) }
{
    push_number(out, u64::from(line))?;
    push_text(out, fate_word(happened).as_bytes())?;
    push_text(out, b"\n")
}
