//! Messages, read from the bytes of a connection in any pieces and written as bytes.
#![tactic(auto)]

mod assembler;
mod control;
pub mod laws;
mod message;
mod reader;
mod stream;
mod tally;
mod writing;

pub use message::{Frames, Message};
pub use reader::{FedMessages, MessageReader, PendingFeed};
pub use writing::{write_fragments, write_message};
