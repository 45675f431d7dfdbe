ghost use Rattle.std.specs.Prelude.{◌≡◌, ◌↔◌, ◌≤◌, ◌<◌, ◌==◌, ◌&&◌, [], ◌∷◌, ◌++◌, length, map, not, take, drop, slice_get, option_copied, option_to_list, IsNone, OnOk};
ghost use Rattle.std.specs.List.{list_all, list_any};
ghost use Rattle.partition_table.specs.Rows.{is_empty};
ghost use Rattle.primary_hold.specs.declared.answer.CallAnswer.{CallAnswer as Answer};
ghost use Rattle.partition_protocol.specs.Node.{is_released};
ghost use Rattle.primary_hold.specs.Views.{viewed};
ghost use Rattle.primary_hold.specs.Answering.{answering_of, held_of, holds_call};

use crate::answer::CallAnswer;
use crate::view::View;
use grid_base::{CallId, Memory};
use std::alloc::Global;
use std::collections::VecDeque;
use std::marker::Model;

/// The answers of executed calls, in order of execution: those that were released and not given out come first,
/// the held ones behind them.
#[derive(Debug, Drop)]
pub struct Answers {
    list: VecDeque<CallAnswer>,
    /// How many were released.
    ready: usize,
}

impl Model for Answers {
    ghost use Rattle.std.specs.Prelude.{◌≤◌, ◌-◌, length, take, drop};
    ghost use Rattle.std.specs.VecDeque.{deque_len, deque_capacity};
    ghost use Rattle.primary_hold.specs.Answering.{AnswerQueue};

    ghost Value = { AnswerQueue };

    ghost view = { λ a. record {
      released = take a.ready a.list.items;
      held = drop a.ready a.list.items;
      spare = deque_capacity a.list - deque_len a.list;
    } };

    ghost invariant = { λ a. a.ready ≤ length a.list.items };
}

/// Whether the answer of that call is behind the first ones.
fn has_call(answers: &VecDeque<CallAnswer>, first: usize, id: CallId) -> bool
    ensures { let behind = drop first answers.now.items in
        result ≡ list_any (λ (a : Answer). (a.id.conn == id.conn) && (a.id.number == id.number)) behind }
{
    answers.iter().skip(first).any(|answer| answer.id.conn == id.conn
        && answer.id.number == id.number)
}

/// Whether each backup of the view has acknowledged what the answers behind the first ones saw.
fn are_released(answers: &VecDeque<CallAnswer>, first: usize, view: &View<'_>) -> bool
    ensures { result ≡ list_all (λ (a : Answer). is_released (viewed view.now) a.seen) (drop first answers.now.items) }
{
    answers
        .iter()
        .skip(first)
        .all(|answer| view.is_released(answer.seen))
}

impl Answers {
    /// No answers. Takes no memory.
    pub fn new(alloc: Global) -> Answers
        ensures { answering_of result ≡ record { released = []; held = [] } }
    {
        Answers {
            list: VecDeque::new(alloc),
            ready: 0,
        }
    }

    /// The oldest released answer, which is given out with this, in constant time. Takes no memory.
    pub fn pop_released(&mut self) -> Option<CallAnswer>
        ensures given { self.old.released ≡ option_to_list result ++ self.new.released }
        ensures none { IsNone result ↔ (self.old.released ≡ []) }
        ensures held { self.new.held ≡ self.old.held }
    {
        if self.ready == 0 {
            return None;
        }
        self.ready -= 1;
        self.list.pop_front()
    }

    /// Drops the held answers, and keeps those that were released, at the cost of the dropped ones' number.
    /// Takes no memory.
    pub fn drop_held(&mut self)
        ensures released { self.new.released ≡ self.old.released }
        ensures held { self.new.held ≡ [] }
    {
        self.list.truncate(self.ready);
    }

    /// Whether the answer of that call is held, at the cost of all answers' number. Takes no memory.
    pub fn holds(&self, id: CallId) -> bool
        ensures { result ≡ holds_call id (map held_of self.now.held) }
    {
        has_call(&self.list, self.ready, id)
    }

    /// Whether each backup of the view has acknowledged what each of the held answers saw.
    pub(crate) fn are_released_by(&self, view: &View<'_>) -> bool
        ensures { result ≡ list_all (λ (a : Answer). is_released (viewed view.now) a.seen) self.now.held }
    {
        are_released(&self.list, self.ready, view)
    }

    /// Whether an answer is held. Takes no memory.
    pub fn holds_any(&self) -> bool
        ensures { result ≡ not (is_empty self.now.held) }
    {
        self.ready < self.list.len()
    }

    /// The oldest held answer. Takes no memory.
    pub(crate) fn first_held(&self) -> Option<&CallAnswer>
        ensures { option_copied result ≡ slice_get self.now.held 0 }
    {
        self.list.get(self.ready)
    }

    /// Makes room for one answer more. It may move them all, which is rare, as the room doubles.
    pub(crate) fn reserve(&mut self) -> Result<(), Memory>
        ensures same { answering_of self.new ≡ answering_of self.old }
        ensures room { OnOk result (1 ≤ self.new.spare) }
    {
        self.list.reserve(1)
    }

    /// Holds an answer, into the room that there is.
    pub(crate) fn hold(&mut self, answer: CallAnswer)
        requires { 1 ≤ self.old.spare }
        ensures released { self.new.released ≡ self.old.released }
        ensures held { self.new.held ≡ self.old.held ++ answer ∷ [] }
    {
        self.list.push_back_reserved(answer);
    }

    /// Releases the oldest held answer. Takes no memory.
    pub(crate) fn release_first(&mut self)
        requires { 0 < length self.old.held }
        ensures released { self.new.released ≡ self.old.released ++ take 1 self.old.held }
        ensures held { self.new.held ≡ drop 1 self.old.held }
    {
        self.ready += 1;
    }
}
