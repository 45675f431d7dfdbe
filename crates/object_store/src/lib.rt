//! What a partition keeps of its objects, with its effects and its snapshots.
#![tactic(auto)]

mod effects;
pub mod laws;
mod maps;
mod names;
mod parts;
mod queue;
mod queues;
mod reading;
mod snapshot;
mod store;
mod tags;
mod writing;

pub use effects::Effect;
pub use queue::Queue;
pub use reading::read_effect;
pub use store::ObjectStore;
pub use writing::{
    write_clear, write_drop_entry, write_effect, write_pop, write_push, write_set_entry,
};
