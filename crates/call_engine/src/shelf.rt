ghost use Rattle.std.specs.Prelude.{◌≡◌, Some, IfOk, OnOk, OnErr, is_some, true};
ghost use Rattle.grid_base.specs.Objects.{IsSmall};

use crate::entries::execute_on_entry;
use crate::env::{GridEnv, GridSettings};
use crate::queues::execute_on_queue;
use grid_base::{Bytes, Executed, Executes, GridCall, Memory, Moment, Request, Shelf};
use object_store::{ObjectStore, read_effect};
use std::alloc::{AllocError, Global};
use std::marker::Model;
use wire_parts::WireRefused;

/// What one member keeps of one partition's objects. Contracts see the partition.
#[derive(Drop)]
pub struct GridShelf {
    store: ObjectStore,
}

impl Model for GridShelf {
    ghost use Rattle.object_store.specs.Partitions.{Partition};
    ghost use Rattle.object_store.specs.Codes.{partition_code};

    ghost Value = { Partition };

    ghost coded = { partition_code };

    ghost view = { λ shelf. shelf.store };
}

impl GridShelf {
    /// What is kept, to be looked at. Takes no memory.
    pub fn store(&self) -> &ObjectStore
        ensures { result.now ≡ self.now }
    {
        &self.store
    }
}

impl Shelf for GridShelf {
    ghost use Rattle.std.specs.Prelude.{refl};
    ghost use Rattle.object_store.specs.Partitions.{Partition, nothing_stored};
    ghost use Rattle.object_store.specs.Spelling.{snapshot_bytes};
    ghost use Rattle.call_engine.specs.Effects.{applied};
    ghost use Rattle.call_engine.specs.Limits.{IsWithin};
    ghost use Rattle.call_engine.specs.Shelves.{partition_shelf};
    ghost use Rattle.call_engine.specs.ShelfLaws.{changes_by_effect, same_without_effect, differs_by_effect, made_by_effect, one_spelling};
    ghost use Rattle.call_engine.specs.Within.{begins_within, grows_within, widens};

    type Plan = GridSettings;

    type Call = Request;

    ghost State = { Partition };

    ghost model = { partition_shelf };

    fn empty(alloc: Global) -> Self
        ensures { result ≡ nothing_stored }
    {
        GridShelf {
            store: ObjectStore::new(alloc),
        }
    }

    fn apply(&mut self, alloc: Global, effect: &Bytes) -> Result<(), Memory>
        requires { is_some (applied effect.now self.old) ≡ true }
        ensures ok { OnOk result (applied effect.now self.old ≡ Some self.new) }
        ensures err { OnErr result (self.new ≡ self.old) }
    {
        match read_effect(alloc, effect.as_slice()) {
            Ok(effect) => self.store.put_effect(effect),
            Err(_) => Err(AllocError),
        }
    }

    fn snapshot(&self, alloc: Global) -> Result<Bytes, Memory>
        requires { IsSmall IsWithin self.now }
        ensures { IfOk result (λ bytes. bytes ≡ snapshot_bytes self.now) }
    {
        self.store.write_snapshot(alloc)
    }

    fn install(alloc: Global, bytes: &Bytes) -> Result<Self, Memory>
        requires { (s : Partition) × IsSmall IsWithin s × (snapshot_bytes s ≡ bytes.now) }
        ensures { (s : Partition) → IsSmall IsWithin s → snapshot_bytes s ≡ bytes.now → IfOk result (λ shelf. shelf ≡ s) }
    {
        match ObjectStore::read_snapshot(alloc, bytes.as_slice()) {
            Ok(store) => Ok(GridShelf { store }),
            Err(_) => Err(AllocError),
        }
    }

    ghost begins_empty = { λ plan. refl };

    ghost changes_by_effect = { changes_by_effect };

    ghost same_without_effect = { same_without_effect };

    ghost differs_by_effect = { differs_by_effect };

    ghost made_by_effect = { made_by_effect };

    ghost begins_within = { begins_within };

    ghost grows_within = { grows_within };

    ghost widens = { widens };

    ghost one_spelling = { one_spelling };
}

impl Executes<GridEnv> for GridShelf {
    ghost use Rattle.call_engine.specs.Env.{settings_of};

    ghost plan_of = { λ env. settings_of (λ b. (Processor-box b).form b.value) env };

    fn execute(
        &self,
        alloc: Global,
        env: &GridEnv,
        call: &Request,
        now: Moment,
    ) -> Result<Executed, Memory> {
        match &call.call {
            GridCall::Map(on_entry) => {
                execute_on_entry(alloc, &self.store, env, call, on_entry, now)
            }
            GridCall::Queue(on_queue) => {
                execute_on_queue(alloc, &self.store, env, call, on_queue, now)
            }
        }
    }
}
