//! Calls of a session over a workplace, started and finished without waiting.
//!
//! A session has a pass of each cell of a workplace. `SessionPass::start` hands a call over to the worker of its
//! partition, and the pass goes with it; `SessionPass::finish` looks whether the outcome has come, and the pass is then
//! back. So a session has one call under way in a partition at most. For any served value.
//!
//! `SessionPass::make` makes a call on the thread at hand, where nobody is before it, and has its outcome at once; else it
//! starts it.
//!
//! `SessionPass::open` splits a session's passes off those of a grid, and `SessionPass::close` joins them again. Whole
//! lists of passes are shared out by `split_passes` and `join_passes`.
//!
//! A session learns what other sessions' calls have seen, by way of passes that stand between them: `SessionPass::teach`
//! after a call, and `SessionPass::learn` before the next one.
#![tactic(auto)]

mod calls;
mod laws;
mod learning;
mod making;
mod opening;
mod session;
mod sharing;
mod slots;

pub use calls::Finished;
pub use laws::{
    every_call_ends_as_it_was_started, every_call_ends_on_its_terms,
    every_call_stands_after_those_learned_of, every_kept_call_may_be_gone_on_with,
    every_started_call_may_be_finished,
};
pub use making::Made;
pub use session::{SessionPass, Started};
pub use sharing::{join_passes, split_passes, split_tokens};
