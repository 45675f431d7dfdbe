//! The events that a client is sent unasked, written and read: how an entry's value changed, that a
//! near cache is to give up an entry, and the rows that a member knows. And the registrations, by which
//! a client asks for them, read.
#![tactic(auto)]

mod events;
mod fields;
mod kinds;
pub mod laws;
mod parts;
mod reading;
mod registering;
mod registration;
mod rows;
mod seen;
mod writing;

pub use events::ClientEvent;
pub use kinds::{
    ADDED, CLUSTER_VIEW_KIND, ENTRY_EVENT_KIND, ENTRY_LISTENER_KIND, EXPIRED,
    INVALIDATION_EVENT_KIND, INVALIDATION_LISTENER_KIND, REMOVED, ROWS_EVENT_KIND, UPDATED,
};
pub use reading::read_event;
pub use registering::read_registration;
pub use registration::Registration;
pub use seen::{SeenMembers, SeenRow, SeenRows};
pub use writing::{write_entry_event, write_invalidation, write_rows};
