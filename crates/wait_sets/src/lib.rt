//! The calls that wait: at one member of one partition as a set, in order of arrival, and in a grid as a list of such sets.
//!
//! A `WaitSet` says which waiter is the first that is ready or due, by the member's shelf, and hands it out; it runs nothing.
//! `specs/WaitSets.antt` has the words of the contracts, and `laws` ties a set to the machine of `waiting_protocol`, whose
//! rule docs/WAITING.md says in words.
//!
//! What a look costs: waiters in a row that wish the same of one queue are a *run*, and are ready together, so one of
//! them is asked (`specs/Runs.antt`). `WaitSet::next_from` looks at each run once, and at the deadlines of those alone of
//! whom it isn't known that they aren't due; a newcomer is looked at alone (`Waiter::is_its_turn`).
//!
//! `WaitLists` has a set for each member of each partition. A line looks at the set of the member at which it makes something
//! happen, and at no other. `WaitLists::turn` takes the waiter whose turn it is out of that set and says what becomes of it: its
//! plain call is to be made, or it is refused as that call would be, or it leaves without an answer since its member has
//! crashed. It is called until it gives nothing. `specs/Turns.antt` has the words of these contracts, and `list_laws` ties the
//! lists of a partition to the machine. Where nobody waits a set is looked at in constant time, and `WaitLists::is_idle` says
//! that there is none to look at.
//!
//! The runs of scripts keep such lists (`replay_run`), so `grid replay` has calls wait; a server doesn't.
#![tactic(auto)]

pub mod laws;
mod list;
pub mod list_laws;
mod lists;
mod runs;
mod set;
mod spot;
mod standing;
mod turn;
mod waiter;

pub use lists::WaitLists;
pub use set::WaitSet;
pub use spot::Spot;
pub use standing::standing_of;
pub use turn::{Standing, Turn};
pub use waiter::{Waiter, deadline_of};
