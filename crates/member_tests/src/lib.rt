//! Tests of the libraries of members, over their public calls. The examples in `specs/` are what their definitions compute.
#![tactic(auto)]

#[cfg(test)]
mod caches;
#[cfg(test)]
mod hearers;
#[cfg(test)]
mod masters;
#[cfg(test)]
mod messages;
#[cfg(test)]
mod moves;
#[cfg(test)]
mod plans;
