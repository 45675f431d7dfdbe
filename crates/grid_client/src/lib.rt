//! The client of a grid, that other programs use.
#![tactic(auto)]

mod calls;
mod client;
mod connections;
mod heard;
mod hearing;
pub mod laws;
mod messages;
mod near;
mod rows;

pub use client::GridClient;
pub use heard::{ClientRefused, FedClient, Heard, NearLook, Sending};
