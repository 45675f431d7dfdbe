//! Tests of what a connection's bytes and a script's lines are read as, over the public calls of `session_core` and
//! `script_lang`. A row of a table has what is read, and what it is told as, which is what `{:?}` writes of the value.
#![tactic(auto)]

#[cfg(test)]
mod lines;
#[cfg(test)]
mod sessions;
