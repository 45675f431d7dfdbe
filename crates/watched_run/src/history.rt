//! The calls on each object of a partition, in words.

use crate::printed::EntryLines;
use client_words::{push_deed, push_object};
use grid_base::{Bytes, Memory, Request};
use run_tale::{Happening, Tale};
use run_words::push_result;
use std::alloc::Global;
use std::collections::HashMap;

/// The calls on one object, in words.
#[derive(Drop)]
struct ObjectHistory {
    words: String,
    /// How many reopenings its words tell of.
    resets: usize,
}

/// The objects of a partition's history in the order of their first calls, and the lines at which it was reopened.
#[derive(Drop)]
pub(crate) struct Histories {
    places: HashMap<String, usize>,
    objects: Vec<ObjectHistory>,
    resets: Vec<u32>,
}

/// Appends the lines at which a call arrived and was answered.
fn push_lines(out: &mut String, lines: EntryLines) -> Result<(), Memory> {
    let arrived = lines.arrived;
    match lines.answered {
        Some(answered) if answered == arrived => write!(out, " (line {arrived})"),
        Some(answered) => write!(out, " (line {arrived}, answered at {answered})"),
        None => write!(out, " (line {arrived}, not answered)"),
    }
}

impl ObjectHistory {
    /// Adds the reopenings that came before the next call.
    fn add_resets(&mut self, resets: &[u32]) -> Result<(), Memory> {
        for line in resets.iter().skip(self.resets) {
            write!(
                self.words,
                "emptied as the partition was reopened (line {line}), "
            )?;
        }
        self.resets = resets.len();
        Ok(())
    }

    /// Adds a call with its answer.
    fn add_call(
        &mut self,
        alloc: Global,
        request: &Request,
        reply: &Bytes,
        lines: EntryLines,
    ) -> Result<(), Memory> {
        push_deed(alloc, &mut self.words, &request.call)?;
        if lines.answered.is_some() {
            push_result(alloc, &mut self.words, reply.as_slice())?;
        }
        push_lines(&mut self.words, lines)?;
        self.words.push_str(", ")
    }

    /// Tells what was called on the object.
    fn tell(mut self, alloc: Global, resets: &[u32], told: &mut Tale) -> Result<(), Memory> {
        self.add_resets(resets)?;
        let words = self.words.as_str();
        let words = words.strip_suffix(", ").unwrap_or(words);
        let words = String::from_str(alloc, words)?;
        told.push(Happening::History { words })
    }
}

impl Histories {
    /// Nothing was called.
    pub(crate) fn new(alloc: Global) -> Self {
        Histories {
            places: HashMap::new(alloc),
            objects: Vec::new(alloc),
            resets: Vec::new(alloc),
        }
    }

    /// The place of an object, which is new where it had no call yet.
    fn place_of(&mut self, alloc: Global, name: String) -> Result<usize, Memory> {
        if let Some(place) = self.places.get(name.as_str()) {
            return Ok(*place);
        }
        let place = self.objects.len();
        let words = format!(in alloc; "history of {name}: ")?;
        self.objects.push(ObjectHistory { words, resets: 0 })?;
        self.places.insert(name, place)?;
        Ok(place)
    }

    /// Adds a call.
    pub(crate) fn add(
        &mut self,
        alloc: Global,
        request: &Request,
        reply: &Bytes,
        lines: EntryLines,
    ) -> Result<(), Memory> {
        let mut name = String::new(alloc);
        push_object(alloc, &mut name, &request.call)?;
        let place = self.place_of(alloc, name)?;
        let Some(object) = self.objects.get_mut(place) else {
            return Ok(());
        };
        object.add_resets(self.resets.as_slice())?;
        object.add_call(alloc, request, reply, lines)
    }

    /// Adds a reopening at a line.
    pub(crate) fn add_reset(&mut self, line: u32) -> Result<(), Memory> {
        Ok(self.resets.push(line)?)
    }

    /// Tells what was called on each object.
    pub(crate) fn tell(self, alloc: Global, told: &mut Tale) -> Result<(), Memory> {
        let Histories {
            objects,
            resets,
            ..
        } = self;
        for object in objects {
            object.tell(alloc, resets.as_slice(), told)?;
        }
        Ok(())
    }
}
