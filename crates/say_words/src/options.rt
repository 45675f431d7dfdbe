//! The options of what is said, behind its words.

use crate::data::{or_refused, read_text, refused};
use crate::numbers::{read_i64, read_partition, read_u128};
use crate::what::Setting;
use grid_base::{Bytes, PartitionId};
use script_lang::{LineRefused, LineWhy};
use std::alloc::Global;

/// What was set, each at most once.
#[derive(Default, Drop)]
pub(crate) struct Options {
    pub(crate) correlation: Option<i64>,
    pub(crate) client: Option<u128>,
    pub(crate) cluster: Option<Bytes>,
    pub(crate) ttl: Option<i64>,
    pub(crate) idle: Option<i64>,
    pub(crate) lease: Option<i64>,
    pub(crate) timeout: Option<i64>,
    pub(crate) thread: Option<i64>,
    pub(crate) partition: Option<PartitionId>,
}

/// Sets what wasn't set before.
fn set<T: Drop>(place: &mut Option<T>, value: T) -> Result<(), LineRefused> {
    if place.is_some() {
        return refused(LineWhy::Word);
    }
    *place = Some(value);
    Ok(())
}

impl Options {
    /// Sets what a word says.
    fn read(&mut self, alloc: Global, setting: Setting, word: &[u8]) -> Result<(), LineRefused> {
        match setting {
            Setting::Client => {
                let client = or_refused(read_u128(word), LineWhy::Number)?;
                set(&mut self.client, client)
            }
            Setting::Cluster => set(&mut self.cluster, read_text(alloc, word)?),
            Setting::Partition => {
                let partition = or_refused(read_partition(word), LineWhy::Number)?;
                set(&mut self.partition, partition)
            }
            Setting::As => set_number(&mut self.correlation, word),
            Setting::Ttl => set_number(&mut self.ttl, word),
            Setting::Idle => set_number(&mut self.idle, word),
            Setting::Lease => set_number(&mut self.lease, word),
            Setting::Timeout => set_number(&mut self.timeout, word),
            Setting::Thread => set_number(&mut self.thread, word),
        }
    }
}

fn set_number(place: &mut Option<i64>, word: &[u8]) -> Result<(), LineRefused> {
    set(place, or_refused(read_i64(word), LineWhy::Number)?)
}

/// The option of a word, where it may stand there.
fn allowed_setting(allowed: &[Setting], word: &[u8]) -> Result<Setting, LineRefused> {
    match Setting::of_word(word) {
        Some(setting) if allowed.contains(&setting) => Ok(setting),
        _ => refused(LineWhy::Word),
    }
}

/// Reads options, each a word and what it sets.
pub(crate) fn read_options(
    alloc: Global,
    allowed: &[Setting],
    words: &[&[u8]],
) -> Result<Options, LineRefused> {
    let mut options = Options::default();
    for pair in words.chunks(2) {
        let Some((name, values)) = pair.split_first() else {
            return refused(LineWhy::Count);
        };
        let setting = allowed_setting(allowed, name)?;
        let value = or_refused(values.first(), LineWhy::Count)?;
        options.read(alloc, setting, value)?;
    }
    Ok(options)
}
