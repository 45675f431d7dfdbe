//! Tests of the libraries that keep objects, over their public calls. The examples in `specs/` are what their definitions compute.
#![tactic(auto)]

#[cfg(test)]
mod effects;
#[cfg(test)]
mod journals;
#[cfg(test)]
mod waiters;
