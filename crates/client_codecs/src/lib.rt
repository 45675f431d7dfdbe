//! What a client and a member say to each other of the connection itself: authentications, read and
//! answered, and the answers that say no more than that a request was done, or refused.
#![tactic(auto)]

mod authentications;
pub mod laws;
mod replies;

pub use authentications::{AUTHENTICATION_KIND, Authentication, PING_KIND, read_authentication};
pub use fixed_fields::{write_error, write_void};
pub use replies::write_authentication;
