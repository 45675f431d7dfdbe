//! What the table service does, what happens to members, and what lines say.

use crate::chart::Chart;
use grid_base::{MemberId, Memory};
use run_tale::Happening;
use std::alloc::Global;
use svg_picture::{Look, Point};

impl Chart {
    /// A member crashed.
    fn crashed(&mut self, alloc: Global, line: u32, member: MemberId) -> Result<(), Memory> {
        let y = self.next(alloc, line)?;
        let lane = self.cast.end(member);
        self.leave(lane)?;
        self.picture.cross(alloc, Point { x: lane.x, y })?;
        self.mark(alloc, Look::Bad, lane, "crashes")
    }

    /// Draws a step of a plan, if that is what happened.
    fn draw_plan(&mut self, alloc: Global, line: u32, happening: &Happening) -> Result<(), Memory> {
        let table = self.cast.table();
        match happening {
            Happening::Planned { steps, most } => {
                let run = (*steps).min(*most);
                let text = format!(in alloc; "plan of {steps} steps, {run} run")?;
                self.note(alloc, line, Look::Note, table, text.as_str())
            }
            Happening::Stepped { step, moving, .. } => {
                let (partition, from, to) = (step.partition, step.from, step.to);
                let end = if *moving { "under way" } else { "done" };
                let text = format!(in alloc; "{partition} from {from} to {to}: {end}")?;
                self.note(alloc, line, Look::Note, table, text.as_str())
            }
            _ => Ok(()),
        }
    }

    /// Draws what the masters of a partition published, if that is what happened.
    fn draw_published(
        &mut self,
        alloc: Global,
        line: u32,
        happening: &Happening,
    ) -> Result<(), Memory> {
        match happening {
            Happening::Published {
                partition,
                number,
                words,
            } if self.cast.shows(*partition) => {
                let table = self.cast.table();
                let words = words.as_str();
                let text = format!(in alloc; "decision {number} of {partition}: {words}")?;
                self.note(alloc, line, Look::Note, table, text.as_str())
            }
            happening => self.draw_plan(alloc, line, happening),
        }
    }

    /// Draws what the table service does, if that is what happened.
    fn draw_service(
        &mut self,
        alloc: Global,
        line: u32,
        happening: &Happening,
    ) -> Result<(), Memory> {
        let table = self.cast.table();
        match happening {
            Happening::Row {
                partition,
                version,
                words,
                ..
            } if self.cast.shows(*partition) => {
                let words = words.as_str();
                let text = format!(in alloc; "row {version} of {partition}: {words}")?;
                self.note(alloc, line, Look::Good, table, text.as_str())
            }
            Happening::Detected { member } => {
                let text = format!(in alloc; "knows that {member} crashed")?;
                self.note(alloc, line, Look::Bad, table, text.as_str())
            }
            Happening::Freezing { partition } => {
                let text = format!(in alloc; "tells the source of {partition} to freeze")?;
                self.note(alloc, line, Look::Note, table, text.as_str())
            }
            Happening::Begun { partition } => {
                let text = format!(in alloc; "hands {partition} over")?;
                self.note(alloc, line, Look::Note, table, text.as_str())
            }
            Happening::Refused { why } => {
                let text = format!(in alloc; "refused: {why}")?;
                self.note(alloc, line, Look::Bad, table, text.as_str())
            }
            happening => self.draw_published(alloc, line, happening),
        }
    }

    /// Draws what the table service does, what happens to a member, or what a line says, if that is what happened.
    pub(crate) fn draw_table(
        &mut self,
        alloc: Global,
        line: u32,
        happening: &Happening,
    ) -> Result<(), Memory> {
        match happening {
            Happening::Crashed { member } => self.crashed(alloc, line, *member),
            Happening::Clock { member, moment } => {
                let text = format!(in alloc; "clock {moment}")?;
                let lane = self.cast.end(*member);
                self.note(alloc, line, Look::Note, lane, text.as_str())
            }
            Happening::Comment { text } => self.comment(alloc, text.as_str()),
            Happening::Masters { words } => self.remark(alloc, line, words.as_str()),
            Happening::Nothing { why } => {
                let text = format!(in alloc; "nothing: {why}")?;
                self.remark(alloc, line, text.as_str())
            }
            happening => self.draw_service(alloc, line, happening),
        }
    }
}
