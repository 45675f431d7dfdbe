//! A picture that is drawn from top to bottom: each thing that is shown has a height of its own.

use crate::cast::{Cast, Lane};
use crate::marks::{cut, cut_remark, width_of};
use grid_base::{CallId, Memory};
use std::alloc::Global;
use std::collections::{BTreeMap, HashMap};
use svg_picture::{Anchor, Look, Picture, Point};

/// Where the first row stands, and how far the next one is from it.
pub(crate) const TOP: u64 = 70;

pub(crate) const STEP: u64 = 24;

/// After so many rows the names of the lanes stand once more.
const ROWS_OF_HEADS: u32 = 40;

/// Where the numbers of lines end, and how far remarks are from the texts on their left.
const GUTTER: u64 = 34;

pub(crate) const GAP: u64 = 30;

/// Half of how wide the name of the last lane is, about.
const HALF_NAME: u64 = 20;

/// A remark, which stands behind all lanes.
#[derive(Drop)]
pub(crate) struct Remark {
    pub(crate) y: u64,
    pub(crate) text: String,
}

/// A call that wasn't answered: its connection, and where it arrived.
#[derive(Clone, Copy)]
pub(crate) struct OpenCall {
    pub(crate) conn: u32,
    pub(crate) y: u64,
}

/// A picture that is being drawn.
#[derive(Drop)]
pub(crate) struct Chart {
    pub(crate) cast: Cast,
    pub(crate) picture: Picture,
    /// The height of the row that was begun last.
    pub(crate) y: u64,
    /// How many rows were begun since the names of the lanes.
    rows: u32,
    /// The heights of the names of the lanes behind the first.
    pub(crate) heads: Vec<u64>,
    /// The line whose number was written last.
    numbered: u32,
    /// A comment, until the row of the line behind it begins.
    comment: Option<String>,
    pub(crate) remarks: Vec<Remark>,
    /// Where the texts on the left of the remarks end.
    pub(crate) right: u64,
    /// At which height each step of the run stands.
    heights: Vec<u64>,
    /// The calls that weren't answered so far.
    pub(crate) calls: BTreeMap<CallId, OpenCall>,
    /// At which height somebody was gone, by the places of the lanes.
    gone: HashMap<usize, u64>,
    /// How many messages of partitions that aren't shown the line at hand delivered.
    pub(crate) others: u32,
}

impl Chart {
    /// A picture with this cast, in which nothing has happened.
    pub(crate) fn new(alloc: Global, cast: Cast) -> Self {
        let right = cast.table().x.saturating_add(HALF_NAME);
        Chart {
            cast,
            picture: Picture::new(alloc),
            y: TOP,
            rows: 0,
            heads: Vec::new(alloc),
            numbered: 0,
            comment: None,
            remarks: Vec::new(alloc),
            right,
            heights: Vec::new(alloc),
            calls: BTreeMap::new(alloc),
            gone: HashMap::new(alloc),
            others: 0,
        }
    }

    /// Whether a comment waits for its row.
    pub(crate) fn has_comment(&self) -> bool {
        self.comment.is_some()
    }

    /// Goes on to a new row, with the comment that stands before it.
    pub(crate) fn next_row(&mut self) -> Result<(), Memory> {
        if self.rows >= ROWS_OF_HEADS {
            self.rows = 0;
            self.y = self.y.saturating_add(STEP);
            self.heads.push(self.y)?;
        }
        self.rows = self.rows.saturating_add(1);
        self.y = self.y.saturating_add(STEP);
        if let Some(text) = self.comment.take() {
            let y = self.y;
            self.remarks.push(Remark { y, text })?;
        }
        Ok(())
    }

    /// Begins a row, for something that happens at a line.
    pub(crate) fn next(&mut self, alloc: Global, line: u32) -> Result<u64, Memory> {
        self.next_row()?;
        if self.numbered != line {
            self.numbered = line;
            let number = format!(in alloc; "{line}")?;
            let at = Point {
                x: GUTTER,
                y: self.y.saturating_add(4),
            };
            self.picture
                .text(alloc, Look::Small, at, Anchor::End, number.as_str(), "")?;
            let y = self.y.saturating_sub(STEP / 2);
            let end = Point {
                x: self.cast.table().x,
                y,
            };
            self.picture
                .back_line(alloc, Look::Rule, Point { x: 0, y }, end)?;
        }
        Ok(self.y)
    }

    /// Writes a text, and what is shown when one points at it.
    pub(crate) fn text(
        &mut self,
        alloc: Global,
        look: Look,
        at: Point,
        anchor: Anchor,
        text: &str,
        hint: &str,
    ) -> Result<(), Memory> {
        if anchor == Anchor::Start {
            self.right = self.right.max(at.x.saturating_add(width_of(text)));
        }
        self.picture.text(alloc, look, at, anchor, text, hint)
    }

    /// Writes a mark on the right of a lane, in the row at hand.
    pub(crate) fn mark(
        &mut self,
        alloc: Global,
        look: Look,
        lane: Lane,
        text: &str,
    ) -> Result<(), Memory> {
        let at = Point {
            x: lane.x.saturating_add(10),
            y: self.y.saturating_add(4),
        };
        let short = cut(alloc, text)?;
        self.text(alloc, look, at, Anchor::Start, short.as_str(), text)
    }

    /// Writes a mark on the right of a lane, in a row of its own.
    pub(crate) fn note(
        &mut self,
        alloc: Global,
        line: u32,
        look: Look,
        lane: Lane,
        text: &str,
    ) -> Result<(), Memory> {
        self.next(alloc, line)?;
        self.mark(alloc, look, lane, text)
    }

    /// Remarks something behind all lanes, in a row of its own.
    pub(crate) fn remark(&mut self, alloc: Global, line: u32, text: &str) -> Result<(), Memory> {
        if self.has_comment() {
            self.next_row()?;
        }
        let y = self.next(alloc, line)?;
        let text = cut_remark(alloc, text)?;
        self.remarks.push(Remark { y, text })?;
        Ok(())
    }

    /// Keeps a comment for the row of the next line; one that was kept before gets a row of its own.
    pub(crate) fn comment(&mut self, alloc: Global, text: &str) -> Result<(), Memory> {
        if self.has_comment() {
            self.next_row()?;
        }
        self.comment = Some(cut_remark(alloc, text)?);
        Ok(())
    }

    /// Somebody is gone from the row at hand on.
    pub(crate) fn leave(&mut self, lane: Lane) -> Result<(), Memory> {
        self.gone.insert(lane.place, self.y)?;
        Ok(())
    }

    /// At which height somebody was gone.
    pub(crate) fn gone_at(&self, lane: Lane) -> Option<u64> {
        self.gone.get(&lane.place).copied()
    }

    /// Notes that a step stands in the row at hand.
    pub(crate) fn set_height(&mut self, step: u32) -> Result<(), Memory> {
        let place = step as usize;
        for _ in self.heights.len()..place.saturating_add(1) {
            self.heights.push(self.y)?;
        }
        if let Some(height) = self.heights.get_mut(place) {
            *height = self.y;
        }
        Ok(())
    }

    /// At which height a step stands.
    pub(crate) fn height_of(&self, step: u32) -> u64 {
        self.heights.get(step as usize).copied().unwrap_or(TOP)
    }
}
