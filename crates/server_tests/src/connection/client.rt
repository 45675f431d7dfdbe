//! What a client says, and what it is answered.
use grid_base::Memory;
use std::alloc::Global;

/// The prefix, and an authentication of client 7.
const HELLO: &[u8] =
    b"\x43\x50\x32\x28\0\0\0\0\xc0\0\x01\0\0\0\0\0\0\0\0\0\0\xff\xff\xff\xff\0\0\0\0\0\0\0\0\0\x07\0\0\0\0\0\0\0\x01\x09\0\0\0\0\x20dev";

/// A put in partition 5, with the correlation 1.
const PUT: &[u8] =
    b"\x26\0\0\0\0\xc0\0\x01\x01\0\x01\0\0\0\0\0\0\0\x05\0\0\0\x01\0\0\0\0\0\0\0\0\0\0\0\0\0\0\0\x07\0\0\0\0\0m\x0f\0\0\0\0\0\0\0\0\x05\xff\xff\xff\xf5k\x0f\0\0\0\0\x20\0\0\0\0\xff\xff\xff\xf5v";

/// A get of what was put, with the correlation 2.
const GET: &[u8] =
    b"\x1e\0\0\0\0\xc0\0\x02\x01\0\x02\0\0\0\0\0\0\0\x05\0\0\0\x01\0\0\0\0\0\0\0\x07\0\0\0\0\0m\x0f\0\0\0\0\x20\0\0\0\x05\xff\xff\xff\xf5k";

/// What a client is answered at member 2: its authentication is accepted, there was no value, and there is the one that it put.
pub(crate) const ANSWERS: &[u8] =
    b"\x29\0\0\0\0\xe0\x01\x01\0\0\0\0\0\0\0\0\0\0\0\0\0\0\0\0\0\0\0\0\0\x03\0\0\0\0\0\0\0\x0f\x01\0\0\x13\0\0\0\0\xc0\x01\x01\x01\0\x01\0\0\0\0\0\0\0\0\x06\0\0\0\0\x24\x13\0\0\0\0\xc0\x01\x02\x01\0\x02\0\0\0\0\0\0\0\0\x0f\0\0\0\0\x20\0\0\0\0\xff\xff\xff\xf5v";

/// The most bytes that a call of the source gives, and that one of the sink takes.
pub(crate) const MOST_SAID: usize = 7;

pub(crate) const MOST_HEARD: usize = 5;

/// Where each answer ends in `ANSWERS`.
const ENDS: [usize; 3] = [41, 66, 100];

/// The answers up to there.
fn answers_up_to(end: usize) -> &'static [u8] {
    ANSWERS.get(..end).unwrap_or(ANSWERS)
}

/// What is answered once so many calls of the source gave what the client says: the answers to the messages that are whole in it.
pub(crate) fn answers_to(calls: usize) -> &'static [u8] {
    let read = calls.saturating_mul(MOST_SAID);
    let mut said = 0usize;
    let mut answered = 0usize;
    for (message, end) in [HELLO, PUT, GET].into_iter().zip(ENDS) {
        said = said.saturating_add(message.len());
        if said <= read {
            answered = end;
        }
    }
    answers_up_to(answered)
}

/// Where the answer ends of which the next byte behind so many is.
fn end_behind(taken: usize) -> usize {
    for end in ENDS {
        if taken < end {
            return end;
        }
    }
    taken
}

/// What so many calls of the sink have taken: none goes past the end of an answer.
pub(crate) fn answers_in(calls: usize) -> &'static [u8] {
    let mut taken = 0usize;
    for _ in 0..calls {
        taken = end_behind(taken).min(taken.saturating_add(MOST_HEARD));
    }
    answers_up_to(taken)
}

/// A client that makes itself known, puts and gets, and then sends no more.
pub(crate) fn put_and_get(alloc: Global) -> Result<Vec<u8>, Memory> {
    let mut said = HELLO.to_vec(alloc)?;
    said.extend_from_slice(PUT)?;
    said.extend_from_slice(GET)?;
    Ok(said)
}

/// The numbers of every other call, from the first on.
pub(crate) fn every_other(alloc: Global) -> Result<Vec<u64>, Memory> {
    let mut numbers = Vec::new(alloc);
    for half in 0..200u64 {
        numbers.push(2 * half)?;
    }
    Ok(numbers)
}
