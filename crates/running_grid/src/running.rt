//! The grid of a script, of which each line is one that its script can have next.

ghost use Rattle.std.specs.Prelude.{◌≡◌, ◌<◌, ◌≤◌, false, IfOk, IfSome, IsErrOf, length, map};
ghost use Rattle.call_engine.specs.Calls.{Settings};
ghost use Rattle.script_lang.specs.Lines.{line_of, IsWithin};
ghost use Rattle.script_lang.specs.declared.refusal.LineWhy.{LineWhy};
ghost use Rattle.script_lang.specs.Limits.{most_line_bytes};
ghost use Rattle.replay_run.specs.Grids.{boxed};
ghost use Rattle.script_run.specs.Runs.{ScriptRun, begun};
ghost use Rattle.script_run.specs.Grids.{IsGivenUp};
ghost use Rattle.running_grid.specs.Runs.{IsRunning, StandsFor, RanLine};

use crate::run_end::RunEnd;
use call_engine::GridShelf;
use entry_processors::Processor;
use grid_base::{Bytes, MemberId, Memory, PARTITIONS, PartitionId, Request};
use partition_table::Row;
use partition_world::{Link, Recorder, World};
use replica_node::Contents;
use script_lang::{Line, MOST_LINE_BYTES, MOST_LINES, read_line};
use script_run::ScriptGrid;
use std::alloc::Global;

/// A script's run behind its first line.
#[derive(Drop)]
pub struct RunningGrid {
    members: u8,
    /// None once a line was given up, since nothing more is known of its grid.
    grid: Option<ScriptGrid>,
}

impl RunningGrid {
    /// The grid after a script's first line, with these processors. Costs its partitions, and in each of them its members
    /// and the links between them.
    pub fn new(
        alloc: Global,
        members: u8,
        backups: u8,
        capacity: u32,
        processors: Vec<Box<dyn Processor>>,
    ) -> Result<RunningGrid, Memory>
        requires some { 1 ≤ members }
        requires most { members ≤ 8 }
        ensures stands { IfOk result (λ running. IsRunning form running) }
        ensures run { IfOk result (λ running.
            StandsFor form (record { forms = map form processors.items; capacity = capacity }) running (begun members backups)) }
    {
        let grid = ScriptGrid::new(alloc, members, backups, capacity, processors)?;
        Ok(RunningGrid {
            members,
            grid: Some(grid),
        })
    }

    /// How many members the grid has.
    pub fn members(&self) -> u8
        ensures { result ≡ self.now.members }
    {
        self.members
    }

    /// How many lines the grid ran, the first among them; as many as a script may have, once a line was given up.
    pub fn lines(&self) -> u32 {
        match &self.grid {
            Some(grid) => grid.lines(),
            None => MOST_LINES,
        }
    }

    /// Reads a line behind the first.
    pub fn read(&self, alloc: Global, text: &[u8]) -> Result<Line, RunEnd>
        requires { IsRunning (boxed form) self.now }
        ensures line { IfOk result (λ line. line_of false self.now.members text.now ≡ Ok line) }
        ensures within { IfOk result (λ line. IsWithin self.now.members most_line_bytes line) }
        ensures why { (why : LineWhy) → IsErrOf result (RunEnd.Refused why) → line_of false self.now.members text.now ≡ Err why }
        ensures long { IsErrOf result RunEnd.Long → most_line_bytes < length text.now }
    {
        if text.len() > MOST_LINE_BYTES {
            return Err(RunEnd::Long);
        }
        Ok(read_line(alloc, text, false, self.members)?)
    }

    /// Runs a line on the grid, and gives the text that a replay has for it there. After an error the run is given up.
    pub fn run(&mut self, alloc: Global, line: &Line) -> Result<Vec<u8>, RunEnd>
        requires within { IsWithin self.old.members most_line_bytes line.now }
        requires stands { IsRunning (boxed form) self.old }
        ensures same { self.new.members ≡ self.old.members }
        ensures stands { IsRunning (boxed form) self.new }
        ensures ran { (settings : Settings) (s : ScriptRun) → StandsFor (boxed form) settings self.old s
            → IfOk result (λ text. RanLine (boxed form) settings self.new s line.now text.items) }
        ensures full { (settings : Settings) (s : ScriptRun) → StandsFor (boxed form) settings self.old s → IsErrOf result RunEnd.InFlight
            → IsGivenUp settings s line.now }
    {
        let Some(mut grid) = self.grid.take() else {
            return Err(RunEnd::Memory);
        };
        if grid.lines() >= MOST_LINES {
            return Err(RunEnd::Lines);
        }
        let number = grid.lines() + 1;
        let mut text = Vec::new(alloc);
        grid.print_line(alloc, number, line, &mut text)?;
        self.grid = Some(grid);
        Ok(text)
    }

    /// The world of a partition, if there is one of that number and the run wasn't given up.
    pub fn world(&self, partition: PartitionId) -> Option<&World<GridShelf, Recorder<Request>>> {
        match &self.grid {
            Some(grid) => grid.world(partition),
            None => None,
        }
    }

    /// The newest row of a partition, if there is such a partition.
    pub fn row(&self, partition: PartitionId) -> Option<&Row> {
        match self.world(partition) {
            Some(world) => Some(world.row()),
            None => None,
        }
    }

    /// How many events a partition had.
    pub fn events(&self, partition: PartitionId) -> u32 {
        match self.world(partition) {
            Some(world) => world.steps(),
            None => 0,
        }
    }

    /// The messages in flight on a link of a partition, in the order in which they were sent.
    pub fn in_flight(&self, partition: PartitionId, link: Link) -> &[Bytes] {
        match self.world(partition) {
            Some(world) => world.in_flight(link.from, link.to),
            None => &[],
        }
    }

    /// The line that delivers the first message in flight of a partition, if it has one.
    pub fn next_delivery(&self, partition: PartitionId) -> Option<Line>
        ensures { IfSome result (λ line. IsWithin self.now.members most_line_bytes line) }
    {
        let Link { from, to } = self.world(partition)?.next_link()?;
        if partition >= PARTITIONS || from > self.members || to > self.members {
            return None;
        }
        Some(Line::Deliver {
            partition,
            from,
            to,
            place: 0,
        })
    }

    /// The first member to whom a message of a partition is in flight from an end, if there is one.
    fn first_taker(&self, partition: PartitionId, from: u8) -> Option<MemberId>
        ensures { IfSome result (λ to. to < self.now.members) }
    {
        for to in 0..self.members {
            if !self.in_flight(partition, Link { from, to }).is_empty() {
                return Some(to);
            }
        }
        None
    }

    /// The line that delivers the first message of a partition that is in flight to a member, if there is one.
    pub fn next_to_member(&self, partition: PartitionId) -> Option<Line>
        ensures { IfSome result (λ line. IsWithin self.now.members most_line_bytes line) }
    {
        if partition >= PARTITIONS {
            return None;
        }
        for from in 0..=self.members {
            if let Some(to) = self.first_taker(partition, from) {
                return Some(Line::Deliver {
                    partition,
                    from,
                    to,
                    place: 0,
                });
            }
        }
        None
    }

    /// What a member has of a partition, if there are such a member and such a partition.
    pub fn contents(
        &self,
        partition: PartitionId,
        member: MemberId,
    ) -> Option<Contents<'_, GridShelf>>
        requires { IsRunning (boxed form) self.now }
    {
        if partition >= PARTITIONS || member >= self.members {
            return None;
        }
        let Some(grid) = &self.grid else {
            return None;
        };
        match grid.world(partition) {
            Some(world) => Some(world.contents(member)),
            None => None,
        }
    }
}
