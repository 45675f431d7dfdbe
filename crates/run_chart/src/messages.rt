//! Messages between members, and those of the table service.

use crate::chart::Chart;
use crate::marks::{hint_of, is_taken, label_of};
use grid_base::Memory;
use member_wire::Took;
use run_tale::{Flight, Happening};
use std::alloc::Global;
use svg_picture::{Anchor, Look, Point};

/// Whether a message's taker leads by what it brings.
fn leads_taker(flight: &Flight, took: Took) -> bool {
    match flight.letter.leads {
        Some((leader, _)) => leader == flight.to && is_taken(took),
        None => false,
    }
}

/// How the label of a message that was delivered looks.
fn look_of(took: Took, leads: bool) -> Look {
    match (is_taken(took), leads) {
        (false, _) => Look::Bad,
        (true, true) => Look::Good,
        (true, false) => Look::Label,
    }
}

impl Chart {
    /// Writes a label behind the head of an arrow that goes from a height to a place.
    fn label(
        &mut self,
        alloc: Global,
        look: Look,
        from: Point,
        head: Point,
        text: &str,
        hint: &str,
    ) -> Result<(), Memory> {
        let y = head.y.saturating_add(4);
        if from.x <= head.x {
            let at = Point {
                x: head.x.saturating_add(10),
                y,
            };
            self.text(alloc, look, at, Anchor::Start, text, hint)
        } else {
            let at = Point {
                x: head.x.saturating_sub(10),
                y,
            };
            self.text(alloc, look, at, Anchor::End, text, hint)
        }
    }

    /// Where a message was sent.
    fn start_of(&self, flight: &Flight) -> Point {
        Point {
            x: self.cast.end(flight.from).x,
            y: self.height_of(flight.step),
        }
    }

    /// A message was delivered: an arrow from where it was sent to where it was taken.
    fn delivered(
        &mut self,
        alloc: Global,
        line: u32,
        flight: &Flight,
        took: Took,
    ) -> Result<(), Memory> {
        let from = self.start_of(flight);
        let head = Point {
            x: self.cast.end(flight.to).x,
            y: self.next(alloc, line)?,
        };
        let look = if is_taken(took) {
            Look::Message
        } else {
            Look::Untaken
        };
        self.picture.line(alloc, look, from, head)?;
        let leads = leads_taker(flight, took);
        let label = label_of(alloc, flight, took, leads)?;
        let hint = hint_of(alloc, flight)?;
        let look = look_of(took, leads);
        self.label(alloc, look, from, head, label.as_str(), hint.as_str())
    }

    /// A message was lost: its line breaks off half way.
    fn lost(&mut self, alloc: Global, line: u32, flight: &Flight) -> Result<(), Memory> {
        let from = self.start_of(flight);
        let to = self.cast.end(flight.to).x;
        let head = Point {
            x: from.x.midpoint(to),
            y: self.next(alloc, line)?,
        };
        self.picture.line(alloc, Look::Lost, from, head)?;
        self.picture.cross(alloc, head)?;
        let title = flight.letter.title.as_str();
        let label = format!(in alloc; "{title} lost")?;
        let hint = hint_of(alloc, flight)?;
        self.label(alloc, Look::Bad, from, head, label.as_str(), hint.as_str())
    }

    /// Draws what happened to a message between members, if that is what happened. Those of partitions that aren't shown
    /// are counted.
    pub(crate) fn draw_message(
        &mut self,
        alloc: Global,
        line: u32,
        happening: &Happening,
    ) -> Result<(), Memory> {
        match happening {
            Happening::Delivered(flight, _) if !self.cast.shows(flight.partition) => {
                self.others = self.others.saturating_add(1);
                Ok(())
            }
            Happening::Delivered(flight, took) => self.delivered(alloc, line, flight, *took),
            Happening::Lost(flight) => self.lost(alloc, line, flight),
            Happening::Repeated(flight) => {
                let title = flight.letter.title.as_str();
                let text = format!(in alloc; "{title} once more")?;
                let lane = self.cast.end(flight.from);
                self.note(alloc, line, Look::Note, lane, text.as_str())
            }
            Happening::Resent { end } => {
                let lane = self.cast.end(*end);
                self.note(alloc, line, Look::Note, lane, "sends again")
            }
            _ => Ok(()),
        }
    }
}
