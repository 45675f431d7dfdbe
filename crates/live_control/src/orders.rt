//! What the lines of a control script order.
ghost use Rattle.std.specs.Prelude.{◌≡◌, ◌≤◌, List, ℕ, ◌∷◌, IfOk, IsErrOf, Ok, Err};
ghost use Rattle.script_lang.specs.Words.{words_of};
ghost use Rattle.live_control.specs.Orders.{is_known, begins_known, order_of, order_in, IsPlaced, event_of_step};

use grid_base::{MemberId, PartitionId, Request};
use memchr::memchr;
use partition_world::Event;
use script_lang::{Line, LineRefused, LineWhy, read_line};
use std::alloc::Global;

/// What happens to a member in all partitions.
#[derive(Clone, Copy, Debug, PartialEq, Eq)]
pub enum Fate {
    Crash(MemberId),
    Detect(MemberId),
}

/// An operator's event of one partition.
#[derive(Clone, Copy, Debug, PartialEq, Eq)]
pub enum Step {
    Move { from: MemberId, to: MemberId },
    Join { to: MemberId },
    Handover { from: MemberId, to: MemberId },
    Advance,
    Reopen,
    Resend { end: u8 },
}

impl Step {
    /// The event.
    pub(crate) fn event(self) -> Event<Request>
        ensures { result ≡ event_of_step self }
    {
        match self {
            Step::Move { from, to } => Event::BeginMove { from, to },
            Step::Join { to } => Event::BeginJoin { to },
            Step::Handover { from, to } => Event::BeginHandover { from, to },
            Step::Advance => Event::Advance,
            Step::Reopen => Event::Reopen,
            Step::Resend { end } => Event::Resend { end },
        }
    }
}

/// What a line of a control script orders.
#[derive(Clone, Copy, Debug, PartialEq, Eq)]
pub enum Order {
    /// Nothing: the line is a comment.
    Comment,
    /// The script ends here.
    End,
    /// An event in all partitions.
    Everywhere(Fate),
    /// An event in one.
    In(PartitionId, Step),
}

/// The words that the lines of a control script may begin with, and `grid`, which isn't one of them and has a cause of
/// its own.
const WORDS: [&str; 10] = [
    "crash", "detect", "move", "join", "handover", "reopen", "advance", "resend", "end", "grid",
];

/// The first word of a text.
fn first_word(text: &[u8]) -> &[u8]
    ensures { (rest : List (List ℕ)) × (words_of text.now ≡ result.now ∷ rest) }
{
    match memchr(b' ', text) {
        None => text,
        Some(at) => &text[..at],
    }
}

/// Whether a word is one that a control script has a cause for.
fn is_known(word: &[u8]) -> bool
    ensures { result ≡ is_known word.now }
{
    WORDS.iter().any(|known| known.as_bytes() == word)
}

/// Whether a text begins with such a word.
fn begins_known(text: &[u8]) -> bool
    ensures { result ≡ begins_known (words_of text.now) }
{
    is_known(first_word(text))
}

/// What a line orders, if it is one of a control script.
fn order_of(line: &Line) -> Option<Order>
    ensures { result ≡ order_of line.now }
{
    match line {
        Line::Comment => Some(Order::Comment),
        Line::End => Some(Order::End),
        Line::Crash { member } => Some(Order::Everywhere(Fate::Crash(*member))),
        Line::Detect { member } => Some(Order::Everywhere(Fate::Detect(*member))),
        Line::Move {
            partition,
            from,
            to,
        } => Some(Order::In(
            *partition,
            Step::Move {
                from: *from,
                to: *to,
            },
        )),
        Line::Join { partition, to } => Some(Order::In(*partition, Step::Join { to: *to })),
        Line::Handover {
            partition,
            from,
            to,
        } => Some(Order::In(
            *partition,
            Step::Handover {
                from: *from,
                to: *to,
            },
        )),
        Line::Advance { partition } => Some(Order::In(*partition, Step::Advance)),
        Line::Reopen { partition } => Some(Order::In(*partition, Step::Reopen)),
        Line::Resend { partition, end } => Some(Order::In(*partition, Step::Resend { end: *end })),
        _ => None,
    }
}

/// What a text orders, without its newline, on a grid of so many members. Costs the text's length.
pub(crate) fn read_order(alloc: Global, text: &[u8], members: u8) -> Result<Order, LineRefused>
    requires some { 1 ≤ members }
    requires most { members ≤ 8 }
    ensures order { IfOk result (λ order. order_in members text.now ≡ Ok order) }
    ensures placed { IfOk result IsPlaced }
    ensures why { (why : LineWhy) → IsErrOf result (LineRefused.Why why) → order_in members text.now ≡ Err why }
{
    match read_line(alloc, text, false, members) {
        Ok(line) => match order_of(&line) {
            Some(order) => Ok(order),
            None => Err(LineRefused::Why(LineWhy::Word)),
        },
        Err(LineRefused::Why(why)) => Err(LineRefused::Why(if begins_known(text) {
            why
        } else {
            LineWhy::Word
        })),
        Err(LineRefused::Memory) => Err(LineRefused::Memory),
    }
}
