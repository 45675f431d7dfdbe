//! What a message has of a call that may wait: that of its plain call, under a type of its own, and the timeout.
ghost use Rattle.std.specs.Prelude.{◌≡◌, ◌++◌, All, IfOk, OnOk};
ghost use Rattle.std.specs.Int.{w64};
ghost use Rattle.std.specs.Int.RustNames.{FitsSigned};
ghost use Rattle.grid_base.specs.Names.{map_of, key_of, queue_of};
ghost use Rattle.map_codecs.specs.SpelledCalls as maps;
ghost use Rattle.map_codecs.specs.SpelledWaits.{wait_fields};
ghost use Rattle.queue_codecs.specs.SpelledCalls as queues;
ghost use Rattle.compose_words.specs.Waits.{plain_of, plain_of_queue, kind_of_map_wait, kind_of_queue_wait};

use crate::calls::{one_part, three_parts, two_fit, two_parts, write_three};
use crate::saying::{MapWait, QueueWait};
use grid_base::{Bytes, Memory};
use map_codecs::{LOCK_WAIT_KIND, PUT_WAIT_KIND};
use queue_codecs::{OFFER_WAIT_KIND, POLL_WAIT_KIND};
use std::alloc::Global;

impl MapWait {
    pub(crate) fn kind(&self) -> u32
        ensures { result ≡ kind_of_map_wait self.now }
    {
        match self {
            MapWait::Lock { .. } => LOCK_WAIT_KIND,
            MapWait::Put { .. } => PUT_WAIT_KIND,
        }
    }

    pub(crate) fn map(&self) -> &Bytes
        ensures { result.now ≡ map_of (plain_of self.now) }
    {
        match self {
            MapWait::Lock { name, .. } | MapWait::Put { name, .. } => name,
        }
    }

    pub(crate) fn key(&self) -> &Bytes
        ensures { result.now ≡ key_of (plain_of self.now) }
    {
        match self {
            MapWait::Lock { key, .. } | MapWait::Put { key, .. } => key,
        }
    }

    /// What the frames behind the first hold, each part copied once.
    pub(crate) fn parts(&self, alloc: Global) -> Result<Vec<Bytes>, Memory>
        ensures { IfOk result (λ parts. parts.items ≡ maps.parts_of (plain_of self.now)) }
    {
        match self {
            MapWait::Lock { name, key, .. } => two_parts(alloc, name, key),
            MapWait::Put {
                name,
                key,
                value,
                ..
            } => three_parts(alloc, name, key, value),
        }
    }

    /// Appends the fields: the caller's thread, the lease or the time to live, and the timeout.
    pub(crate) fn write_fields(&self, timeout: i64, out: &mut Vec<u8>) -> Result<(), Memory>
        ensures { OnOk result (out.new.items ≡ out.old.items ++ wait_fields (plain_of self.now, timeout)) }
    {
        match self {
            MapWait::Lock { owner, lease, .. } => write_three(owner.thread, *lease, timeout, out),
            MapWait::Put { owner, ttl, .. } => write_three(owner.thread, *ttl, timeout, out),
        }
    }

    /// Its numbers are those of their types. Nothing runs here.
    pub(crate) fn numbers_fit(&self, _timeout: i64)
        ensures numbers { All (FitsSigned w64) (maps.numbers_of (plain_of self.now)) }
        ensures timeout { FitsSigned w64 _timeout }
    {
        match self {
            MapWait::Lock { owner, lease, .. } => two_fit(owner.thread, *lease),
            MapWait::Put { owner, ttl, .. } => two_fit(owner.thread, *ttl),
        }
    }
}

impl QueueWait {
    pub(crate) fn kind(&self) -> u32
        ensures { result ≡ kind_of_queue_wait self.now }
    {
        match self {
            QueueWait::Offer { .. } => OFFER_WAIT_KIND,
            QueueWait::Poll { .. } => POLL_WAIT_KIND,
        }
    }

    /// The queue's name.
    pub fn queue(&self) -> &Bytes
        ensures { result.now ≡ queue_of (plain_of_queue self.now) }
    {
        match self {
            QueueWait::Offer { name, .. } | QueueWait::Poll { name } => name,
        }
    }

    /// What the frames behind the first hold, each part copied once.
    pub(crate) fn parts(&self, alloc: Global) -> Result<Vec<Bytes>, Memory>
        ensures { IfOk result (λ parts. parts.items ≡ queues.parts_of (plain_of_queue self.now)) }
    {
        match self {
            QueueWait::Offer { name, value } => two_parts(alloc, name, value),
            QueueWait::Poll { name } => one_part(alloc, name),
        }
    }
}
