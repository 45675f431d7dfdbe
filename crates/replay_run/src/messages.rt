//! Messages to connections, as a line tells them.

ghost use Rattle.std.specs.Prelude.{◌≡◌, ◌++◌, OnOk};
ghost use Rattle.replay_run.specs.LineTold.{came_to, message_told};
ghost use Rattle.replay_run.specs.Runs.{own_answer, message_of};

use grid_base::{Bytes, Memory};
use line_told::{Appended, LineOutcome, Told};
use primary_hold::CallAnswer;

/// A message that answers no call and refuses none: a session's own answer, or what a listener is sent.
pub(crate) fn own_answer(line: u32, conn: u32, bytes: Bytes) -> Appended
    ensures { result ≡ own_answer line conn bytes }
{
    Appended {
        conn,
        line,
        bytes,
        answers: None,
        refuses: None,
    }
}

/// An answer that is given out. Its reply isn't copied.
pub(crate) fn message_of(line: u32, answer: CallAnswer) -> Appended
    ensures { result ≡ message_of line answer }
{
    let CallAnswer { id, reply, .. } = answer;
    Appended {
        conn: id.conn,
        line,
        bytes: reply,
        answers: Some(id),
        refuses: None,
    }
}

/// Tells what a line came to.
pub fn tell_outcome(out: &mut Vec<Told>, outcome: LineOutcome) -> Result<(), Memory>
    ensures { OnOk result (out.new.items ≡ out.old.items ++ came_to outcome) }
{
    Ok(out.push(Told::Outcome(outcome))?)
}

/// Tells a message.
pub(crate) fn tell_message(out: &mut Vec<Told>, message: Appended) -> Result<(), Memory>
    ensures { OnOk result (out.new.items ≡ out.old.items ++ message_told message) }
{
    Ok(out.push(Told::Message(message))?)
}
