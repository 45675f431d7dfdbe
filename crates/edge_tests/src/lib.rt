//! Tests of `grid_edge` and `tcp_edge` over their public calls.
#![tactic(auto)]

#[cfg(test)]
mod call;
#[cfg(test)]
mod calls;
#[cfg(test)]
mod crowd;
#[cfg(test)]
mod guests;
#[cfg(test)]
mod memory;
#[cfg(test)]
mod ports;
#[cfg(test)]
mod ready;
#[cfg(test)]
mod standard;
#[cfg(test)]
mod wakes;
