//! What a client says to a member, as the bytes that say it, and as the line of a script at which they arrive.
#![tactic(auto)]

mod arrival;
mod calls;
mod listening;
mod message;
mod refusal;
mod saying;
mod waits;

pub use arrival::{write_arrival, write_say_line};
pub use message::say;
pub use refusal::SayRefused;
pub use saying::{Listening, MapWait, QueueWait, Saying};
