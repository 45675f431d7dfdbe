//! What a line came to, in the words of a transcript.

ghost use Rattle.std.specs.Prelude.{◌≡◌, ◌++◌, OnOk};
ghost use Rattle.table_service.specs.Refusals.{why_not_moved, why_not_reopened};
ghost use Rattle.masters_protocol.specs.Members as masters;
ghost use Rattle.master_member.specs.Outcomes.{outcome_of};
ghost use Rattle.partition_world.specs.Events.{happened_of};
ghost use Rattle.line_told.specs.Words.{words_line};
ghost use Rattle.line_told.specs.Outcomes.{refusal_words, move_refused_word, reopen_refused_word, words_of, master_words};
ghost use Rattle.line_told.specs.Printing.{came_text, froze_text, ok_text, nothing_text, flow_text, outcome_text};
ghost use Rattle.line_told.specs.Printing.{dump_text, links_text, trail_text, planned_text, no_member_text, unsettled_text, master_text};

use crate::told::LineOutcome;
use crate::words::{push_decimal, push_number, push_text};
use grid_base::{Memory, PartitionId};
use itoa::Buffer;
use master_member::MasterTook;
use partition_protocol::Pair;
use partition_world::Happened;
use table_service::{MoveRefused, ReopenRefused};

/// Why a move, a join or a handover wasn't begun.
fn move_refused_word(why: MoveRefused) -> &'static str
    ensures { result.now ≡ move_refused_word (why_not_moved why) }
{
    match why {
        MoveRefused::Lost => "lost",
        MoveRefused::NotIdle => "notidle",
        MoveRefused::NotThere => "notthere",
        MoveRefused::AlreadyThere => "alreadythere",
        MoveRefused::NotLive => "notlive",
        MoveRefused::NotEligible => "noteligible",
    }
}

/// Why a partition wasn't reopened.
fn reopen_refused_word(why: ReopenRefused) -> &'static str
    ensures { result.now ≡ reopen_refused_word (why_not_reopened why) }
{
    match why {
        ReopenRefused::NotLost => "notlost",
        ReopenRefused::NoMember => "nomember",
    }
}

/// Appends why something was refused.
fn push_refused(out: &mut Vec<u8>, word: &str) -> Result<(), Memory>
    ensures { OnOk result (out.new.items ≡ out.old.items ++ refusal_words word.now) }
{
    push_text(out, b"refused ")?;
    push_text(out, word.as_bytes())
}

/// Appends what an event came to, with the word of one that is done.
pub fn push_words(out: &mut Vec<u8>, done: &str, happened: Happened) -> Result<(), Memory>
    ensures { OnOk result (out.new.items ≡ out.old.items ++ words_of done.now (happened_of happened)) }
{
    match happened {
        Happened::Nothing => push_text(out, b"nothing"),
        Happened::Done => push_text(out, done.as_bytes()),
        Happened::Called(_) => push_text(out, b"ok"),
        Happened::Took(took) => {
            push_text(out, b"took ")?;
            push_text(out, took.word().as_bytes())
        }
        Happened::RowMade { version } => {
            push_text(out, b"row ")?;
            push_decimal(out, u64::from(version))
        }
        Happened::MoveRefused(why) => push_refused(out, move_refused_word(why)),
        Happened::ReopenRefused(why) => push_refused(out, reopen_refused_word(why)),
    }
}

/// Appends what an event came to.
fn push_came(out: &mut Vec<u8>, line: u32, happened: Happened) -> Result<(), Memory>
    ensures { OnOk result (out.new.items ≡ out.old.items ++ came_text line (happened_of happened)) }
{
    push_number(out, u64::from(line))?;
    push_words(out, "ok", happened)?;
    push_text(out, b"\n")
}

/// Appends that an advance froze a source.
fn push_froze(out: &mut Vec<u8>, line: u32) -> Result<(), Memory>
    ensures { OnOk result (out.new.items ≡ out.old.items ++ froze_text line) }
{
    push_number(out, u64::from(line))?;
    push_text(out, b"freezing")?;
    push_text(out, b"\n")
}

/// Appends the outcome of a line that did nothing.
pub fn push_nothing(out: &mut Vec<u8>, line: u32) -> Result<(), Memory>
    ensures { OnOk result (out.new.items ≡ out.old.items ++ nothing_text line) }
{
    push_number(out, u64::from(line))?;
    push_text(out, b"nothing\n")
}

/// Appends the outcome of a line that ran.
pub fn push_ok(out: &mut Vec<u8>, line: u32) -> Result<(), Memory>
    ensures { OnOk result (out.new.items ≡ out.old.items ++ ok_text line) }
{
    push_number(out, u64::from(line))?;
    push_text(out, b"ok")?;
    push_text(out, b"\n")
}

/// Appends the outcome of a line that delivered so many messages.
fn push_flow(out: &mut Vec<u8>, line: u32, deliveries: u32) -> Result<(), Memory>
    ensures { OnOk result (out.new.items ≡ out.old.items ++ flow_text line deliveries) }
{
    push_number(out, u64::from(line))?;
    push_text(out, b"flow ")?;
    push_decimal(out, u64::from(deliveries))?;
    push_text(out, b"\n")
}

/// Appends the outcome of a line that prints what a member has.
fn push_dump(out: &mut Vec<u8>, line: u32, pair: Pair) -> Result<(), Memory>
    ensures { OnOk result (out.new.items ≡ out.old.items ++ dump_text line pair) }
{
    push_number(out, u64::from(line))?;
    push_text(out, b"dump ")?;
    push_number(out, u64::from(pair.version))?;
    push_decimal(out, u64::from(pair.count))?;
    push_text(out, b"\n")
}

/// Appends the outcome of a line that prints messages in flight.
fn push_links(out: &mut Vec<u8>, line: u32, messages: u128) -> Result<(), Memory>
    ensures { OnOk result (out.new.items ≡ out.old.items ++ links_text line messages) }
{
    push_number(out, u64::from(line))?;
    push_text(out, b"links ")?;
    push_text(out, Buffer::new().format(messages).as_bytes())?;
    push_text(out, b"\n")
}

/// Appends the outcome of a line that prints a partition's history.
fn push_trail(out: &mut Vec<u8>, line: u32, entries: usize) -> Result<(), Memory>
    ensures { OnOk result (out.new.items ≡ out.old.items ++ trail_text line entries) }
{
    push_number(out, u64::from(line))?;
    push_text(out, b"trail ")?;
    push_decimal(out, entries as u64)?;
    push_text(out, b"\n")
}

/// Appends how many steps a plan has.
fn push_planned(out: &mut Vec<u8>, line: u32, steps: usize) -> Result<(), Memory>
    ensures { OnOk result (out.new.items ≡ out.old.items ++ planned_text line steps) }
{
    push_number(out, u64::from(line))?;
    push_text(out, b"plan ")?;
    push_decimal(out, steps as u64)?;
    push_text(out, b"\n")
}

/// Appends that there is no plan, as every member is detected.
fn push_no_member(out: &mut Vec<u8>, line: u32) -> Result<(), Memory>
    ensures { OnOk result (out.new.items ≡ out.old.items ++ no_member_text line) }
{
    push_number(out, u64::from(line))?;
    push_text(out, b"refused nomember")?;
    push_text(out, b"\n")
}

/// Appends that there is no plan, as that partition isn't settled.
fn push_unsettled(out: &mut Vec<u8>, line: u32, partition: PartitionId) -> Result<(), Memory>
    ensures { OnOk result (out.new.items ≡ out.old.items ++ unsettled_text line partition) }
{
    push_number(out, u64::from(line))?;
    push_text(out, b"refused unsettled ")?;
    push_decimal(out, u64::from(partition))?;
    push_text(out, b"\n")
}

/// Appends the outcome of a line in these words.
fn push_line(out: &mut Vec<u8>, line: u32, words: &[u8]) -> Result<(), Memory>
    ensures { OnOk result (out.new.items ≡ out.old.items ++ words_line line words.now) }
{
    push_number(out, u64::from(line))?;
    push_text(out, words)?;
    push_text(out, b"\n")
}

/// Appends that a decision was proposed, and its number in the master's log.
fn push_proposed(out: &mut Vec<u8>, line: u32, number: u32) -> Result<(), Memory>
    ensures { OnOk result (out.new.items ≡ out.old.items ++ master_text line (masters.Proposed number)) }
{
    push_number(out, u64::from(line))?;
    push_text(out, b"proposed ")?;
    push_decimal(out, u64::from(number))?;
    push_text(out, b"\n")
}

/// What a line says of a message between masters.
fn took_words(took: MasterTook) -> &'static str
    ensures { result.now ≡ master_words (outcome_of took) }
{
    match took {
        MasterTook::Stored => "took stored",
        MasterTook::Counted => "took counted",
        MasterTook::Asked => "took asked",
        MasterTook::Told => "took told",
        MasterTook::Other => "took other",
        MasterTook::Stale => "took stale",
        MasterTook::Dropped => "took dropped",
        MasterTook::Nothing => "nothing",
    }
}

/// Appends what a line came to.
pub fn push_outcome(out: &mut Vec<u8>, line: u32, outcome: &LineOutcome) -> Result<(), Memory>
    ensures { OnOk result (out.new.items ≡ out.old.items ++ outcome_text line outcome.now) }
{
    match outcome {
        LineOutcome::Ran => push_ok(out, line),
        LineOutcome::Idle => push_nothing(out, line),
        LineOutcome::Came(happened) => push_came(out, line, *happened),
        LineOutcome::Froze => push_froze(out, line),
        LineOutcome::Flowed { deliveries } => push_flow(out, line, *deliveries),
        LineOutcome::Dumped(pair) => push_dump(out, line, *pair),
        LineOutcome::InFlight { messages } => push_links(out, line, *messages),
        LineOutcome::Trail { entries } => push_trail(out, line, *entries),
        LineOutcome::Planned { steps } => push_planned(out, line, *steps),
        LineOutcome::NoMember => push_no_member(out, line),
        LineOutcome::Unsettled { partition } => push_unsettled(out, line, *partition),
        LineOutcome::Proposed { number } => push_proposed(out, line, *number),
        LineOutcome::Busy { .. } => push_line(out, line, b"refused busy"),
        LineOutcome::Full => push_line(out, line, b"refused full"),
        LineOutcome::MasterTook(took) => push_line(out, line, took_words(*took).as_bytes()),
    }
}
