//! The messages in flight between members, a list for each link.
#![tactic(auto)]

mod lane;
mod link;
mod links;
mod tally;

pub use link::Link;
pub use links::Links;
