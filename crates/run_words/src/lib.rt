//! What is said in a run of a script, in words: what clients are told, what members write to one another, what they keep, and
//! what lines come to. `client_words` has what clients say.
#![tactic(auto)]

mod answers;
mod contents;
mod events;
mod groups;
mod letters;
mod outcomes;

pub use answers::{Output, push_result, read_output};
pub use contents::push_stored;
pub use groups::Groups;
pub use letters::{Letter, leader_of, letter_of, push_row};
pub use outcomes::{fault_words, refused_words, took_of, took_words};
