//! Calls on a map's entry as a client's messages, those that may wait among them.
#![tactic(auto)]

mod calls;
mod kinds;
pub mod laws;
mod parts;
mod shapes;
mod waits;

pub use calls::read_map_call;
pub use kinds::{
    CONTAINS_KEY_KIND, DELETE_KIND, EXECUTE_ON_KEY_KIND, FORCE_UNLOCK_KIND, GET_KIND,
    IS_LOCKED_KIND, LOCK_WAIT_KIND, PUT_IF_ABSENT_KIND, PUT_KIND, PUT_MAX_IDLE_KIND, PUT_WAIT_KIND,
    REMOVE_IF_SAME_KIND, REMOVE_KIND, REPLACE_IF_SAME_KIND, REPLACE_KIND, SET_KIND,
    SET_MAX_IDLE_KIND, TRY_LOCK_KIND, UNLOCK_KIND,
};
pub use waits::read_map_wait;
