//! What a link between two processes of a grid carries, as bytes: how its ends make themselves known to one another, and
//! batches of what a partition's members say.
//!
//! Each end of a link sends a hello, then its answer to the challenge in the other's hello, and then batches. `specs/` has
//! these as bytes (`Spelling`), how a stream of bytes is read as them (`Reading`), what a reader stands for that is given a
//! stream in pieces (`Readers`), what an answer is (`Answers`), and what holds of all of it (`Laws`).
#![tactic(auto)]

mod answers;
mod batches;
mod fault;
mod fronts;
mod hellos;
pub mod laws;
mod parts;
mod places;
mod reader;

pub use answers::{Role, Secret, SecretRefused};
pub use batches::write_batch;
pub use fault::LinkFault;
pub use hellos::{HelloRefused, check_hello, write_answer, write_hello};
pub use parts::{
    ANSWER_LENGTH, BATCH_HEADER, Batch, CHALLENGE_LENGTH, GRID_LENGTH, HELLO_LENGTH, Hello,
    LinkPart, MAX_BATCH, Stage,
};
pub use reader::{FedParts, LinkReader};
