//! Tests of what a link between two processes carries, over its public calls. An independent program spelled the bytes.
#![tactic(auto)]

#[cfg(test)]
mod answers;
#[cfg(test)]
mod streams;
