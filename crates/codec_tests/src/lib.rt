//! Tests of the codecs over their public calls: what bytes from outside are read as, and as which bytes a value is written.
//! A row of a table has the bytes, and what they are told as, which is what `{:?}` writes of the value.
#![tactic(auto)]

#[cfg(test)]
mod clients;
#[cfg(test)]
mod events;
#[cfg(test)]
mod fields;
#[cfg(test)]
mod frames;
#[cfg(test)]
mod hearing;
#[cfg(test)]
mod keys;
#[cfg(test)]
mod maps;
#[cfg(test)]
mod messages;
#[cfg(test)]
mod queues;
#[cfg(test)]
mod requests;
