ghost use Rattle.std.specs.Prelude.{◌≡◌, ℕ, ◌+◌, ◌^◌, ◌<◌, ◌++◌, ◌∷◌, [], length, map, reverse, if◌then◌else◌, IfSome, IfOk, OnOk};
ghost use Rattle.std.specs.List.{find};
ghost use Rattle.std.specs.Option.{option_copied};
ghost use Rattle.partition_protocol.specs.History.{Reset as HasReset, entries_in, opening_at, history};
ghost use Rattle.partition_protocol.specs.Recorded.{Recorded};
ghost use Rattle.partition_world.specs.Places.{at_places, AreBelow};
ghost use Rattle.partition_world.specs.Openings.{AreWithin, has_reset};
ghost use Rattle.partition_world.specs.Chains.{told, begun_with};
ghost use Rattle.partition_world.specs.RecordedEntries.{entry_of};

use crate::base::Base;
use crate::chain::Chain;
use crate::entry::Entry;
use crate::history::Trail;
use crate::opening::Opening;
use crate::records::Records;
use crate::standing_row::StandingRow;
use grid_base::{MemberId, Memory};
use partition_protocol::Pair;
use partition_table::Row;
use std::alloc::Global;

/// What is recorded of a partition, so that its histories can be told.
///
/// It grows with each executed call, whose arguments and answer it keeps, with each version that a primary begins, and
/// with each reopening, of which it keeps the places of the whole history so far.
#[derive(Drop)]
pub struct Recorder<C> {
    /// The calls that were executed and the reopenings, in order.
    log: Vec<Entry<C>>,
    /// The oldest first.
    bases: Vec<Base>,
    /// The oldest first.
    openings: Vec<Opening>,
    standing: StandingRow,
    ghost within: { AreWithin (length log.items) openings.items },
}

impl<C: Drop> Records<C> for Recorder<C> {
    ghost use Rattle.partition_world.specs.Recorders.{KeepsAll, HasRoom, IsReopening};

    ghost records = { KeepsAll };

    ghost has_room = { HasRoom };

    ghost reopens = { IsReopening };

    fn new(alloc: Global, row: &Row) -> Result<Self, Memory> {
        let mut bases = Vec::new(alloc);
        bases.push(Base {
            version: 1,
            reset: 0,
            base_version: 0,
            base_count: 0,
        })?;
        Ok(Recorder {
            log: Vec::new(alloc),
            bases,
            openings: Vec::new(alloc),
            standing: StandingRow::of(row),
        })
    }

    fn leader(&self) -> Option<MemberId> {
        self.standing.first
    }

    fn reserve(&mut self) -> Result<(), Memory> {
        self.log.reserve(1)?;
        self.bases.reserve(1)
    }

    fn record(&mut self, entry: Entry<C>)
    where
        C: Drop,
        requires { HasRoom self.old }
        ensures { (r : Recorded C) → KeepsAll self.old r → KeepsAll self.new (record r { log = r.log ++ entry_of entry ∷ [] }) }
    {
        self.log.push_reserved(entry);
    }

    fn begin_if(&mut self, begins: bool, base: Base) {
        if begins {
            self.bases.push_reserved(base);
        }
    }

    fn stand(&mut self, row: &Row) {
        self.standing.stand_by(row);
    }

    /// Costs what the trail does.
    fn reopening_places(
        &mut self,
        alloc: Global,
        leader: Option<Pair>,
    ) -> Result<Vec<usize>, Memory> {
        self.log.reserve(1)?;
        self.openings.reserve(1)?;
        self.reset_places(alloc, leader)
    }

    fn reopen(&mut self, version: u32, places: Vec<usize>) {
        self.log.push_reserved(Entry::Reset { version });
        self.openings.push_reserved(Opening {
            reset: version,
            places,
        });
    }
}

impl<C> Recorder<C> {
    ghost use Rattle.partition_world.specs.Recorders.{KeepsAll, log_of, bases_of, openings_of, trail_by};

    /// The history by which the partition stands, where `leader` names the
    /// contents of the standing row's first member, if there is one. Costs a pass over the bases and
    /// one over the log for each version in which the history goes on, and memory for the places of
    /// its entries.
    pub fn trail(&self, alloc: Global, leader: Option<Pair>) -> Result<Trail<'_, C>, Memory>
        ensures { (r : Recorded C) → KeepsAll self.now r → IfOk result (λ trail. map entry_of trail ≡ trail_by r leader) }
    {
        let places = self.places(alloc, leader)?;
        Ok(Trail {
            log: self.log.as_slice(),
            places,
        })
    }

    /// How many entries the trail has. Costs what finding it does, and takes no memory.
    pub(crate) fn trail_len(&self, leader: Option<Pair>) -> u128
        ensures { (r : Recorded C) → KeepsAll self.now r → result ≡ length (trail_by r leader) }
    {
        match leader {
            None => 0,
            Some(pair) if pair.version < self.standing.reset => {
                self.opening_len(self.standing.reset)
            },
            Some(pair) => self.history_len(pair),
        }
    }

    /// How many entries the history at the reopening with that reset has.
    fn opening_len(&self, reset: u32) -> u128
        ensures len { result ≡ length (opening_at reset (openings_of self.now)) }
        ensures most { result < 2 ^ 64 }
    {
        match self.opening(reset) {
            None => 0,
            Some(opening) => opening.places.len() as u128,
        }
    }

    /// How many entries the history that the pair names has, in a pass over the bases.
    fn history_len(&self, leader: Pair) -> u128
        ensures { result ≡ length (history (openings_of self.now) (log_of self.now) (bases_of self.now) leader) }
    {
        let mut entries = 0;
        let mut from = leader;
        for older in (0..self.bases.len()).rev() {
            let base = self.bases[older];
            if base.version == from.version {
                entries += self.entries_in(from) as u128;
                if base.begins_anew() {
                    return entries + self.opening_len(base.reset);
                }
                from = base.pair();
            }
        }
        entries
    }

    /// How many entries of the log the pair counts, in a pass over the log.
    fn entries_in(&self, pair: Pair) -> usize
        ensures { result ≡ length (entries_in pair (log_of self.now)) }
    {
        let mut entries = 0;
        for entry in &self.log {
            if entry.is_in(pair) {
                entries += 1;
            }
        }
        entries
    }

    /// Where the entries of the trail stand in the log, and the reset of a reopening that comes next.
    fn reset_places(&self, alloc: Global, leader: Option<Pair>) -> Result<Vec<usize>, Memory>
        ensures places { (r : Recorded C) → KeepsAll self.now r → IfOk result (λ places. (version : ℕ) →
            at_places (r.log ++ HasReset version ∷ []) places.items ≡ trail_by r leader ++ HasReset version ∷ []) }
        ensures within { IfOk result (λ places. AreBelow (length self.now.log.items + 1) places.items) }
    {
        let mut places = self.places(alloc, leader)?;
        places.push(self.log.len())?;
        Ok(places)
    }

    /// Where the entries of the trail stand in the log.
    fn places(&self, alloc: Global, leader: Option<Pair>) -> Result<Vec<usize>, Memory>
        ensures places { (r : Recorded C) → KeepsAll self.now r → IfOk result (λ places. at_places (log_of self.now) places.items ≡ trail_by r leader) }
        ensures within { IfOk result (λ places. AreBelow (length self.now.log.items) places.items) }
    {
        match leader {
            None => Ok(Vec::new(alloc)),
            Some(pair) if pair.version < self.standing.reset => {
                self.opening_places(alloc, self.standing.reset)
            },
            Some(pair) => self.history_places(alloc, pair),
        }
    }

    /// Where the entries of the history at the reopening with that reset stand in the log.
    fn opening_places(&self, alloc: Global, reset: u32) -> Result<Vec<usize>, Memory>
        ensures places { IfOk result (λ places. at_places (log_of self.now) places.items ≡ opening_at reset (openings_of self.now)) }
        ensures within { IfOk result (λ places. AreBelow (length self.now.log.items) places.items) }
    {
        match self.opening(reset) {
            None => Ok(Vec::new(alloc)),
            Some(opening) => Vec::from_slice(alloc, &opening.places),
        }
    }

    /// The newest opening with that reset.
    fn opening(&self, reset: u32) -> Option<&Opening>
        ensures found { option_copied result ≡ find (has_reset reset) (reverse self.now.openings.items) }
        ensures within { IfSome result (λ opening. AreBelow (length self.now.log.items) opening.now.places.items) }
    {
        self.openings
            .iter()
            .rev()
            .find(|opening| opening.reset == reset)
    }

    /// Where the entries of the history that the pair names stand in the log.
    fn history_places(&self, alloc: Global, pair: Pair) -> Result<Vec<usize>, Memory>
        ensures places { IfOk result (λ places. at_places (log_of self.now) places.items ≡ history (openings_of self.now) (log_of self.now) (bases_of self.now) pair) }
        ensures within { IfOk result (λ places. AreBelow (length self.now.log.items) places.items) }
    {
        let chain = self.chain(alloc, pair)?;
        self.told_places(alloc, chain)
    }

    /// The pairs by which the history that this one names goes on, in a pass over the bases.
    fn chain(&self, alloc: Global, leader: Pair) -> Result<Chain, Memory>
        ensures { IfOk result (λ chain. told (openings_of self.now) (log_of self.now) chain ≡ history (openings_of self.now) (log_of self.now) (bases_of self.now) leader) }
    {
        let mut pairs = Vec::new(alloc);
        let mut pair = leader;
        for older in (0..self.bases.len()).rev() {
            let base = self.bases[older];
            if base.version == pair.version {
                pairs.push(pair)?;
                if base.begins_anew() {
                    let anew = Some(base.reset);
                    return Ok(Chain { pairs, anew });
                }
                pair = base.pair();
            }
        }
        Ok(Chain { pairs, anew: None })
    }

    /// Where the entries of the history that the chain tells stand in the log.
    fn told_places(&self, alloc: Global, chain: Chain) -> Result<Vec<usize>, Memory>
        ensures places { IfOk result (λ places. at_places (log_of self.now) places.items ≡ told (openings_of self.now) (log_of self.now) chain) }
        ensures within { IfOk result (λ places. AreBelow (length self.now.log.items) places.items) }
    {
        let Chain { mut pairs, anew } = chain;
        let mut places = self.begun_places(alloc, anew)?;
        while let Some(pair) = pairs.pop() {
            self.append_places(pair, &mut places)?;
        }
        Ok(places)
    }

    /// Where the entries of a history with which a version began anew stand in the log, if it did.
    fn begun_places(&self, alloc: Global, anew: Option<u32>) -> Result<Vec<usize>, Memory>
        ensures places { IfOk result (λ places. at_places (log_of self.now) places.items ≡ begun_with (openings_of self.now) anew) }
        ensures within { IfOk result (λ places. AreBelow (length self.now.log.items) places.items) }
    {
        match anew {
            None => Ok(Vec::new(alloc)),
            Some(reset) => self.opening_places(alloc, reset),
        }
    }

    /// Appends where the entries that the pair counts stand, in a pass over the log.
    fn append_places(&self, pair: Pair, places: &mut Vec<usize>) -> Result<(), Memory>
        requires { AreBelow (length self.now.log.items) places.old.items }
        ensures places { OnOk result (at_places (log_of self.now) places.new.items ≡ at_places (log_of self.now) places.old.items ++ entries_in pair (log_of self.now)) }
        ensures within { AreBelow (length self.now.log.items) places.new.items }
    {
        for (place, entry) in self.log.iter().enumerate() {
            if entry.is_in(pair) {
                places.push(place)?;
            }
        }
        Ok(())
    }
}
