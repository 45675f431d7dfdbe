//! Calls on a queue as a client's messages, those that may wait among them.
#![tactic(auto)]

mod calls;
mod kinds;
pub mod laws;
mod waits;

pub use calls::{read_queue_call, stated_partition};
pub use kinds::{
    CLEAR_KIND, OFFER_KIND, OFFER_WAIT_KIND, PEEK_KIND, POLL_KIND, POLL_WAIT_KIND,
    REMAINING_CAPACITY_KIND, SIZE_KIND,
};
pub use waits::read_queue_wait;
