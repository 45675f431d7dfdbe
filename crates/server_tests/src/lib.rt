//! Tests of a server: crews of threads, one connection to a live grid, and the commands, with doors and streams in memory.
#![tactic(auto)]

#[cfg(test)]
mod client;
#[cfg(test)]
mod connection;
#[cfg(test)]
mod crews;
#[cfg(test)]
mod hall;
#[cfg(test)]
mod meeting;
#[cfg(test)]
mod operator;
#[cfg(test)]
mod options;
#[cfg(test)]
mod serving;
