//! A script's run, of which each line is told.

ghost use Rattle.std.specs.Prelude.{◌≡◌, ◌≤◌, false, IfOk};
ghost use Rattle.script_lang.specs.Lines.{line_of, IsWithin};
ghost use Rattle.script_lang.specs.Limits.{most_line_bytes};
ghost use Rattle.replay_run.specs.Grids.{boxed};
ghost use Rattle.running_grid.specs.Runs.{IsRunning};

use crate::notes::Notes;
use crate::printed::as_text;
use entry_processors::Processor;
use grid_base::Memory;
use run_tale::{Happening, Tale};
use running_grid::{RunEnd, RunningGrid};
use script_lang::{Line, MOST_LINES};
use std::alloc::Global;

/// The grid of a script, and what is known of it from the lines that ran.
#[derive(Drop)]
pub struct Watch {
    pub(crate) running: RunningGrid,
    /// How many lines of the script are still to come.
    to_come: u32,
    pub(crate) notes: Notes,
}

impl Watch {
    /// The grid after the first line of a script that has so many lines, with these processors. Costs its partitions, and
    /// in each of them its members and the links between them.
    pub fn new(
        alloc: Global,
        members: u8,
        backups: u8,
        capacity: u32,
        processors: Vec<Box<dyn Processor>>,
        lines: u32,
    ) -> Result<Watch, Memory>
        requires some { 1 ≤ members }
        requires most { members ≤ 8 }
        ensures { IfOk result (λ watch. IsRunning form watch.running) }
    {
        Ok(Watch {
            running: RunningGrid::new(alloc, members, backups, capacity, processors)?,
            to_come: lines.saturating_sub(1),
            notes: Notes::new(alloc, members)?,
        })
    }

    /// How many members the grid has.
    pub fn members(&self) -> u8 {
        self.running.members()
    }

    /// How many lines ran, the first among them.
    pub fn lines(&self) -> u32 {
        self.notes.line
    }

    /// How many lines the grid can run beside those of the script.
    pub(crate) fn spare(&self) -> u32 {
        let room = MOST_LINES.saturating_sub(self.running.lines());
        room.saturating_sub(self.to_come)
    }

    /// Runs a line on the grid, and gives the text that a replay has for it there.
    pub(crate) fn take(&mut self, alloc: Global, line: &Line) -> Result<Vec<u8>, RunEnd>
        requires within { IsWithin self.old.running.members most_line_bytes line.now }
        requires stands { IsRunning (boxed form) self.old.running }
        ensures { IsRunning (boxed form) self.new.running }
    {
        let text = self.running.run(alloc, line)?;
        self.notes.numbers.push(self.notes.line)?;
        Ok(text)
    }

    /// Runs the next line of the script, and tells what happened, in order. Gives the line. Costs what the line costs the
    /// grid, the words of what happened, and a look at each call that waits.
    ///
    /// The deliveries of a `flow` line are run and told one by one, while the grid can run so many lines: 200,000 in all,
    /// those of the script that are to come among them. Else only their number is told.
    ///
    /// `Refused` where the line isn't in the language; `Long`, `Lines` and `InFlight` where it goes past a limit; and
    /// `Memory` for want of memory. Then the run is given up, and what was told of the line doesn't count.
    pub fn run(&mut self, alloc: Global, text: &[u8], told: &mut Tale) -> Result<Line, RunEnd>
        requires { IsRunning (boxed form) self.old.running }
        ensures stands { IsRunning (boxed form) self.new.running }
        ensures line { IfOk result (λ line. line_of false self.old.running.members text.now ≡ Ok line) }
    {
        self.notes.line = self.notes.line.saturating_add(1);
        self.to_come = self.to_come.saturating_sub(1);
        told.go_on();
        let line = self.running.read(alloc, text)?;
        self.run_read(alloc, &line, text, told)?;
        self.notes.tell_turns(alloc, &self.running, told)?;
        Ok(line)
    }

    /// Runs a line that is the one of a text.
    fn run_read(
        &mut self,
        alloc: Global,
        line: &Line,
        text: &[u8],
        told: &mut Tale,
    ) -> Result<(), RunEnd>
        requires within { IsWithin self.old.running.members most_line_bytes line.now }
        requires stands { IsRunning (boxed form) self.old.running }
        ensures { IsRunning (boxed form) self.new.running }
    {
        match line {
            Line::Flow { partition, most } => self.flow(alloc, *partition, *most, told),
            Line::FlowAll { most } => self.flow_all(alloc, *most, told),
            Line::Comment => self.run_comment(alloc, text, told),
            Line::Rebalance { most } => self.run_rebalance(alloc, line, *most, told),
            line => self.run_line(alloc, line, told),
        }
    }

    /// A comment says what stands behind its `#`.
    fn run_comment(&mut self, alloc: Global, text: &[u8], told: &mut Tale) -> Result<(), RunEnd>
        requires { IsRunning (boxed form) self.old.running }
        ensures { IsRunning (boxed form) self.new.running }
    {
        self.take(alloc, &Line::Comment)?;
        let said = text.get(1..).unwrap_or(&[]);
        let text = String::from_utf8_lossy(alloc, said)?;
        told.push(Happening::Comment { text })?;
        Ok(())
    }

    /// The primaries are dealt out evenly.
    fn run_rebalance(
        &mut self,
        alloc: Global,
        line: &Line,
        most: u32,
        told: &mut Tale,
    ) -> Result<(), RunEnd>
        requires within { IsWithin self.old.running.members most_line_bytes line.now }
        requires stands { IsRunning (boxed form) self.old.running }
        ensures { IsRunning (boxed form) self.new.running }
    {
        self.notes.mark_events(&self.running);
        let printed = self.take(alloc, line)?;
        let text = as_text(printed.as_slice());
        Ok(
            self.notes
                .tell_rebalance(alloc, &self.running, most, text, told)?,
        )
    }

    /// Runs a line that is one of the grid's.
    fn run_line(&mut self, alloc: Global, line: &Line, told: &mut Tale) -> Result<(), RunEnd>
        requires within { IsWithin self.old.running.members most_line_bytes line.now }
        requires stands { IsRunning (boxed form) self.old.running }
        ensures { IsRunning (boxed form) self.new.running }
    {
        let flight = self.notes.flight_of(alloc, &self.running, line)?;
        let printed = self.take(alloc, line)?;
        let text = as_text(printed.as_slice());
        let running = &self.running;
        let notes = &mut self.notes;
        if notes.tell_masters(alloc, running, line, text, told)? {
            return Ok(());
        }
        match line {
            Line::Arrive { conn, bytes } => {
                notes.tell_arrival(alloc, running, *conn, bytes.as_slice(), text, told)?;
            }
            Line::Deliver { .. } | Line::Lose { .. } | Line::Repeat { .. } => {
                notes.tell_flight(alloc, running, line, flight, text, told)?;
            }
            Line::Near { .. } | Line::NearGet { .. } | Line::NearFeed { .. } => {
                notes.tell_near(alloc, running, line, text, told)?;
            }
            Line::Dump { .. } | Line::Links { .. } | Line::Trail { .. } | Line::End => {
                notes.tell_asked(alloc, running, line, text, told)?;
            }
            line => notes.tell_event(alloc, running, line, text, told)?,
        }
        Ok(())
    }
}
