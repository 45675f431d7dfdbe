//! What happened, drawn line by line.

ghost use Rattle.std.specs.Prelude.{IfOk, string_bytes};
ghost use Rattle.svg_picture.specs.Markup.{IsDocument};

use crate::cast::Cast;
use crate::chart::{Chart, GAP, STEP};
use crate::marks::width_of;
use grid_base::Memory;
use run_tale::{Happening, LineTold, Told};
use std::alloc::Global;
use svg_picture::{Anchor, Look, Point};

impl Chart {
    /// Draws what happened.
    fn draw(&mut self, alloc: Global, line: u32, told: &Told) -> Result<(), Memory> {
        let happening = &told.happening;
        self.draw_message(alloc, line, happening)?;
        self.draw_client(alloc, line, happening)?;
        self.draw_table(alloc, line, happening)?;
        match happening {
            Happening::Answered { .. } | Happening::Event { .. } => Ok(()),
            _ => self.set_height(told.step),
        }
    }

    /// Draws what happened at a line.
    fn draw_line(&mut self, alloc: Global, line: &LineTold) -> Result<(), Memory> {
        let number = line.at.line;
        self.others = 0;
        for told in line.told.as_slice() {
            self.draw(alloc, number, told)?;
        }
        if self.others == 0 {
            return Ok(());
        }
        let others = self.others;
        let text = format!(in alloc; "and {others} messages of other partitions")?;
        self.remark(alloc, number, text.as_str())
    }

    /// Writes the remarks. Gives the width of the picture.
    fn write_remarks(&mut self, alloc: Global) -> Result<u64, Memory> {
        let x = self.right.saturating_add(GAP);
        let mut right = x;
        for remark in self.remarks.as_slice() {
            let text = remark.text.as_str();
            let at = Point {
                x,
                y: remark.y.saturating_add(4),
            };
            self.picture
                .text(alloc, Look::Note, at, Anchor::Start, text, "")?;
            right = right.max(x.saturating_add(width_of(text)));
        }
        Ok(right)
    }

    /// The picture, with a remark on where the run stopped, if it did.
    fn finish(mut self, alloc: Global, stopped: &str, line: u32) -> Result<String, Memory>
        ensures { IfOk result (λ picture. IsDocument (string_bytes picture)) }
    {
        if !stopped.is_empty() {
            self.remark(alloc, line, stopped)?;
        } else if self.has_comment() {
            self.next_row()?;
        }
        self.draw_open_calls(alloc)?;
        self.draw_lanes(alloc)?;
        let width = self.write_remarks(alloc)?;
        let height = self.y.saturating_add(STEP * 2);
        self.picture.finish(alloc, width, height)
    }
}

/// What happened at a script's lines as a message sequence chart in SVG, with a remark on where the run stopped, if that
/// isn't empty. It has a lane for each connection, each member and the table service, an arrow for each message that was
/// delivered, a broken line for each that was lost, and a bar from each call's arrival to its answer. Of messages between
/// members those of the partitions are drawn that a line names or in which something was called; the others are counted.
/// Costs, for each thing that happened, its words and the connections, and once more the lanes after each 40 rows.
pub fn draw_chart(alloc: Global, lines: &[LineTold], stopped: &str) -> Result<String, Memory>
    // It is one well-formed element, whatever clients say.
    ensures { IfOk result (λ picture. IsDocument (string_bytes picture)) }
{
    let cast = Cast::of(alloc, lines)?;
    let mut chart = Chart::new(alloc, cast);
    for line in lines {
        chart.draw_line(alloc, line)?;
    }
    let behind = u32::try_from(lines.len())
        .unwrap_or(u32::MAX)
        .saturating_add(1);
    chart.finish(alloc, stopped, behind)
}
