//! Which partition a key is in: Murmur3 of its content, or the hash that it states.
#![tactic(auto)]

mod keys;
mod murmur;

pub use keys::{ShortData, key_hash, partition_of};
pub use murmur::murmur3;
