// Doors that connections in memory come through.
ghost use Rattle.std.specs.Prelude.{◌≡◌, ◌≢◌, ◌⊎◌, ◌<◌, length, All, IfOk, IsOk};
ghost use Rattle.grid_edge.specs.Faults.{HasCause};
ghost use Rattle.grid_edge.specs.Doors.{HasLooked};
ghost use Rattle.grid_edge.specs.MemoryDoors.{doorway_of, after_empty_look, after_returned, HasFailed, HasOpened, HasAccepted};

use crate::count::next_count;
use crate::doors::{Accepted, DoorFault, Doors, Opening, Wakes};
use crate::plan::FaultPlan;
use crate::ready::{ReadySink, ReadySource};
use ghost_list::GhostList;
use grid_base::{MemberId, Memory};
use std::collections::VecDeque;
use std::marker::Model;
use std::thread;

/// A connection that was given back.
#[derive(Debug, Drop)]
pub struct Returned<F, T> {
    pub number: u32,
    pub from: F,
    pub to: T,
    pub memory: bool,
}

/// Doors that a list of connections comes through, one an `accept`. Contracts see the list, and which calls fail.
/// They keep the connections that are given back.
#[derive(Drop)]
pub struct MemoryDoors<F, T> {
    waiting: VecDeque<(MemberId, F, T)>,
    plan: FaultPlan,
    opening: Option<Opening>,
    accepted: GhostList<(MemberId, F, T)>,
    returned: Vec<Returned<F, T>>,
    looks: u64,
    /// One more than the largest key, and how many keys were told since the last wait.
    keys: usize,
    told: usize,
}

impl<F, T> Model for MemoryDoors<F, T> {
    ghost use Rattle.std.specs.Prelude.{length, map, vec_capacity};
    ghost use Rattle.std.specs.VecDeque.{deque_len};
    ghost use Rattle.grid_edge.specs.MemoryDoors.{Doorway};
    ghost use Rattle.grid_edge.specs.Room.{HasRoom};

    ghost Value = { Doorway F T };

    ghost view = { λ d. record { waiting = d.waiting.items; plan = d.plan; opening = d.opening; accepted = d.accepted.items; returned = d.returned.items; looks = d.looks } };

    ghost invariant = { λ d. HasRoom (deque_len d.waiting) (length d.accepted.items) (map (λ r. r.number) d.returned.items) (vec_capacity d.returned) };
}

impl<F, T> MemoryDoors<F, T> {
    /// Gives these connections in their order, each with its member, and fails at the calls of `open` and `accept`
    /// with the numbers `fails`, which are counted together from 0. Takes memory for what it keeps.
    pub fn new(list: Vec<(MemberId, F, T)>, fails: Vec<u64>) -> Result<MemoryDoors<F, T>, Memory>
    where
        F: Drop,
        T: Drop,
        ensures { IfOk result (λ doors. doors ≡ doorway_of list.items fails.items) }
    {
        let returned = Vec::with_capacity(*list.allocator(), list.len())?;
        Ok(MemoryDoors {
            waiting: VecDeque::from(list),
            plan: FaultPlan::new(fails),
            opening: None,
            accepted: GhostList::new(),
            returned,
            looks: 0,
            keys: 0,
            told: 0,
        })
    }

    fn count_look(&mut self)
        ensures { self.new ≡ after_empty_look self.old }
    {
        self.plan.count_call();
        self.looks = next_count(self.looks);
    }

    /// The connections that were given back since the opening, in that order, at no cost.
    pub fn returned(&self) -> &[Returned<F, T>]
        ensures { result.now ≡ self.now.returned }
    {
        &self.returned
    }
}

impl<F: ReadySource + Send + Drop, T: ReadySink + Send + Drop> Doors for MemoryDoors<F, T> {
    ghost use Rattle.grid_edge.specs.MemoryDoors.{book_of};

    type From = F;

    type To = T;

    type Waker = SilentWaker;

    ghost faults = { λ d. d.plan.faults };

    ghost empty_looks = { λ d. d.looks };

    ghost book = { λ d. book_of (record { given = F.given; read_faults = F.faults; taken = T.taken; write_faults = T.faults }) d };

    fn open(&mut self, members: u8, port: u16) -> Result<(), DoorFault>
        ensures step { HasFailed self.old self.new result ⊎ HasOpened self.old self.new (record { members = members; port = port }) result }
        ensures cause { HasCause self.old.plan.faults self.new.plan.faults result }
    {
        if self.plan.fails_next() {
            self.plan.count_fault();
            return Err(DoorFault);
        }
        self.plan.count_call();
        self.opening = Some(Opening { members, port });
        self.accepted = GhostList::new();
        self.returned.clear();
        Ok(())
    }

    fn accept(&mut self, key: usize) -> Result<Accepted<F, T>, DoorFault>
        ensures step { HasFailed self.old self.new result ⊎ HasAccepted self.old self.new result }
        ensures looks { HasLooked self.old.looks self.new.looks result }
        ensures cause { HasCause self.old.plan.faults self.new.plan.faults result }
    {
        if self.plan.fails_next() {
            self.plan.count_fault();
            return Err(DoorFault);
        }
        let Some(opening) = self.opening else {
            self.count_look();
            return Ok(Accepted::NotYet);
        };
        let Some(visit) = self.waiting.pop_front() else {
            self.count_look();
            return Ok(Accepted::NotYet);
        };
        if visit.0 >= opening.members {
            self.plan.count_fault();
            return Err(DoorFault);
        }
        self.plan.count_call();
        self.accepted = self.accepted.with(&visit);
        self.keys = self.keys.max(key.saturating_add(1));
        let (member, from, to) = visit;
        Ok(Accepted::Come { member, from, to })
    }

    /// It comes back at once, after others could run.
    fn wait(&mut self, _millis: u32) -> Result<(), DoorFault>
        ensures ok { IsOk result }
        ensures same { self.new ≡ self.old }
    {
        self.told = 0;
        thread::yield_now();
        Ok(())
    }

    /// Each key up to the largest one, once for each wait: any connection may be ready.
    fn next_ready(&mut self) -> Option<usize>
        ensures same { self.new ≡ self.old }
    {
        if self.told >= self.keys {
            return None;
        }
        let key = self.told;
        self.told += 1;
        Some(key)
    }

    fn waker(&mut self) -> Result<SilentWaker, DoorFault>
        ensures ok { IsOk result }
        ensures same { self.new ≡ self.old }
    {
        Ok(SilentWaker)
    }

    fn give_back(&mut self, number: u32, from: F, to: T, memory: bool)
        requires accepted { number < length self.old.accepted }
        requires once { All (λ given. given.number ≢ number) self.old.returned }
        ensures { self.new ≡ after_returned self.old (record { number = number; from = from; to = to; memory = memory }) }
    {
        self.returned.push_reserved(Returned {
            number,
            from,
            to,
            memory,
        });
    }
}

/// Wakes nobody, since nobody sleeps at doors in memory.
#[derive(Clone, Copy, Debug)]
pub struct SilentWaker;

impl Wakes for SilentWaker {
    fn wake(&self) {}
}
