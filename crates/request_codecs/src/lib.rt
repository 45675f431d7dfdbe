//! What a client of the grid sends, as bytes: how it makes itself known on a connection, and its calls.
#![tactic(auto)]

pub mod laws;
mod numbers;
mod opening;
mod parts;
mod readdressing;
mod requests;

pub use opening::{
    AUTHENTICATION_CORRELATION, FIRST_CORRELATION, write_authentication, write_opening,
};
pub use readdressing::readdressed;
pub use requests::{kind_of, write_request};
