//! A near cache: what a client keeps of the values that it read, until they may be old.
//!
//! A look-up of a key hits the value that is kept for it. Where none is kept, the client opens a look-up (`reserve`), asks
//! a member, and fills it with the answer. An invalidation of the key, or a clear of its partition, takes out what is kept
//! and overtakes the look-ups that are open: what they bring isn't kept. `specs/Caches.antt` has each call as a function on
//! what contracts see of a cache.
#![tactic(auto)]

mod cache;
mod entries;
pub mod laws;
mod look_up;
mod scope;

pub use cache::NearCache;
pub use look_up::{Filled, Reservation};
