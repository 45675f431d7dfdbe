use grid_base::Memory;
use partition_world::Link;
use std::alloc::Global;
use std::collections::VecDeque;

/// When a message was sent: the line and the step of the run.
#[derive(Clone, Copy, Debug, Default, PartialEq, Eq)]
pub(crate) struct Sending {
    pub(crate) line: u32,
    pub(crate) step: u32,
}

/// When each message in flight of a partition was sent, link by link.
#[derive(Drop)]
pub(crate) struct Sendings {
    ends: usize,
    lanes: Vec<VecDeque<Sending>>,
}

impl Sendings {
    /// Nothing is in flight between so many ends.
    pub(crate) fn new(alloc: Global, ends: u8) -> Result<Self, Memory> {
        let ends = usize::from(ends);
        let mut lanes = Vec::new(alloc);
        for _ in 0..ends.saturating_mul(ends) {
            lanes.push(VecDeque::new(alloc))?;
        }
        Ok(Sendings { ends, lanes })
    }

    /// The place of a link among all.
    fn place(&self, link: Link) -> usize {
        let row = usize::from(link.from).saturating_mul(self.ends);
        row.saturating_add(usize::from(link.to))
    }

    /// So many messages are in flight on a link now: those that weren't before were sent now. Gives the place of the first
    /// of these.
    pub(crate) fn grow(&mut self, link: Link, count: usize, now: Sending) -> Result<usize, Memory> {
        let place = self.place(link);
        let Some(lane) = self.lanes.get_mut(place) else {
            return Ok(count);
        };
        let before = lane.len();
        for _ in before..count {
            lane.push_back(now)?;
        }
        Ok(before)
    }

    /// So many messages are in flight on a link now, of which the first ones were delivered.
    pub(crate) fn settle(&mut self, link: Link, count: usize, now: Sending) -> Result<(), Memory> {
        let place = self.place(link);
        if let Some(lane) = self.lanes.get_mut(place) {
            for _ in count..lane.len() {
                lane.pop_front();
            }
        }
        self.grow(link, count, now)?;
        Ok(())
    }

    /// When the message at a place was sent.
    pub(crate) fn sending_at(&self, link: Link, place: usize) -> Sending {
        let lane = self.lanes.get(self.place(link));
        lane.and_then(|lane| lane.get(place))
            .copied()
            .unwrap_or_default()
    }

    /// The message at a place is no longer in flight.
    pub(crate) fn drop_at(&mut self, link: Link, place: usize) {
        let lane = self.place(link);
        if let Some(lane) = self.lanes.get_mut(lane) {
            lane.remove(place);
        }
    }
}
