//! Tests of a client's connection to a live grid, with a worker on another thread.

mod client;
mod live;
mod tests;
