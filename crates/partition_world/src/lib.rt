//! The world of one partition with any number of members: their nodes, the table service, the messages in flight and
//! the recorded history, moved on by events.
#![tactic(auto)]

mod base;
mod calls;
mod chain;
mod deliveries;
mod entry;
mod event;
mod history;
mod in_flight;
mod losses;
mod moves;
mod opening;
mod readers;
mod recorder;
mod records;
mod standing_row;
mod steps;
mod world;

pub use base::Base;
pub use entry::Entry;
pub use event::{CallOutcome, Event, Happened};
pub use history::Trail;
pub use link_net::Link;
pub use recorder::Recorder;
pub use records::Records;
pub use standing_row::StandingRow;
pub use steps::{MOST_EVENTS, every_world_is_safe};
pub use world::World;
