//! Messages between members that are delivered, lost or repeated.

use crate::notes::{LinkPlace, Notes};
use crate::printed::outcome_of;
use grid_base::Memory;
use partition_world::Link;
use run_tale::{Flight, Happening, Tale};
use run_words::took_of;
use running_grid::RunningGrid;
use script_lang::Line;
use std::alloc::Global;

/// The place that a line names on a link.
fn place_of(line: &Line) -> Option<LinkPlace> {
    match line {
        Line::Deliver {
            partition,
            from,
            to,
            place,
        }
        | Line::Lose {
            partition,
            from,
            to,
            place,
        }
        | Line::Repeat {
            partition,
            from,
            to,
            place,
        } => Some(LinkPlace {
            partition: *partition,
            link: Link {
                from: *from,
                to: *to,
            },
            place: *place,
        }),
        _ => None,
    }
}

impl Notes {
    /// The message that a line names, in words.
    pub(crate) fn flight_of(
        &self,
        alloc: Global,
        running: &RunningGrid,
        line: &Line,
    ) -> Result<Option<Flight>, Memory> {
        match place_of(line) {
            Some(at) => self.flight_at(alloc, running, at),
            None => Ok(None),
        }
    }

    /// Tells what became of the message that a line names.
    pub(crate) fn tell_flight(
        &mut self,
        alloc: Global,
        running: &RunningGrid,
        line: &Line,
        flight: Option<Flight>,
        text: &str,
        told: &mut Tale,
    ) -> Result<(), Memory> {
        let (Some(at), Some(flight)) = (place_of(line), flight) else {
            return told.push(Happening::Nothing {
                why: "no message is there",
            });
        };
        match line {
            Line::Deliver { .. } => self.tell_delivery(alloc, running, at, flight, text, told),
            Line::Lose { .. } => {
                self.drop_flight(at);
                told.push(Happening::Lost(flight))
            }
            _ => {
                self.note_link(running, at.partition, at.link, told)?;
                told.push(Happening::Repeated(flight))
            }
        }
    }

    /// Tells how a message was taken, and the row that came of it.
    fn tell_taken(
        &mut self,
        alloc: Global,
        running: &RunningGrid,
        at: LinkPlace,
        flight: Flight,
        text: &str,
        told: &mut Tale,
    ) -> Result<(), Memory> {
        let Some(took) = took_of(outcome_of(text).rest) else {
            return told.push(Happening::Nothing {
                why: "no message is there",
            });
        };
        self.drop_flight(at);
        told.push(Happening::Delivered(flight, took))?;
        self.tell_row(alloc, running, at.partition, told)
    }

    /// Tells that a message was delivered, and what followed.
    fn tell_delivery(
        &mut self,
        alloc: Global,
        running: &RunningGrid,
        at: LinkPlace,
        flight: Flight,
        text: &str,
        told: &mut Tale,
    ) -> Result<(), Memory> {
        self.tell_taken(alloc, running, at, flight, text, told)?;
        self.tell_sent(alloc, running, at.partition, at.link.to, told)?;
        self.tell_appended(alloc, text, told)
    }

    /// Tells a message that was delivered with others at a line. What its taker sent is told once it is delivered too.
    pub(crate) fn tell_flowed(
        &mut self,
        alloc: Global,
        running: &RunningGrid,
        line: &Line,
        flight: Option<Flight>,
        text: &str,
        told: &mut Tale,
    ) -> Result<(), Memory> {
        let (Some(at), Some(flight)) = (place_of(line), flight) else {
            return Ok(());
        };
        self.tell_taken(alloc, running, at, flight, text, told)?;
        self.note_sent(running, at.partition, at.link.to, told)?;
        self.tell_appended(alloc, text, told)
    }

    /// Tells what messages came to that were delivered untold.
    pub(crate) fn tell_untold(
        &mut self,
        alloc: Global,
        running: &RunningGrid,
        text: &str,
        told: &mut Tale,
    ) -> Result<(), Memory> {
        self.settle(running, told)?;
        self.tell_rows(alloc, running, told)?;
        self.tell_appended(alloc, text, told)
    }
}
