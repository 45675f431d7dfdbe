//! What clients say, and what they are answered.
use grid_base::Memory;
use std::alloc::Global;

/// The prefix, and an authentication of client 7.
const HELLO: &[u8] =
    b"\x43\x50\x32\x28\0\0\0\0\xc0\0\x01\0\0\0\0\0\0\0\0\0\0\xff\xff\xff\xff\0\0\0\0\0\0\0\0\0\x07\0\0\0\0\0\0\0\x01\x09\0\0\0\0\x20dev";

/// A put in partition 5, with the correlation 1.
const PUT: &[u8] =
    b"\x26\0\0\0\0\xc0\0\x01\x01\0\x01\0\0\0\0\0\0\0\x05\0\0\0\x01\0\0\0\0\0\0\0\0\0\0\0\0\0\0\0\x07\0\0\0\0\0m\x0f\0\0\0\0\0\0\0\0\x05\xff\xff\xff\xf5k\x0f\0\0\0\0\x20\0\0\0\0\xff\xff\xff\xf5v";

/// A get of what was put, with the correlation 2.
const GET: &[u8] =
    b"\x1e\0\0\0\0\xc0\0\x02\x01\0\x02\0\0\0\0\0\0\0\x05\0\0\0\x01\0\0\0\0\0\0\0\x07\0\0\0\0\0m\x0f\0\0\0\0\x20\0\0\0\x05\xff\xff\xff\xf5k";

/// The run of a processor in partition 5, with the correlation 2.
const EXECUTE: &[u8] =
    b"\x1e\0\0\0\0\xc0\0\x2e\x01\0\x02\0\0\0\0\0\0\0\x05\0\0\0\x01\0\0\0\0\0\0\0\x07\0\0\0\0\0m\x0b\0\0\0\0\0\x01\0\0\0\x02\x0f\0\0\0\0\x20\0\0\0\x05\xff\xff\xff\xf5k";

/// The run of a processor in partition 2, with the correlation 3.
const OTHER_EXECUTE: &[u8] =
    b"\x1e\0\0\0\0\xc0\0\x2e\x01\0\x03\0\0\0\0\0\0\0\x02\0\0\0\x01\0\0\0\0\0\0\0\x07\0\0\0\0\0m\x0b\0\0\0\0\0\x01\0\0\0\x02\x0f\0\0\0\0\x20\0\0\0\x02\xff\xff\xff\xf5k";

/// A ping with the correlation 1.
const PING: &[u8] = b"\x16\0\0\0\0\xe0\0\x0b\0\0\x01\0\0\0\0\0\0\0\xff\xff\xff\xff";

/// Member 2 accepts an authentication.
const HELLO_AT_2: &[u8] =
    b"\x29\0\0\0\0\xe0\x01\x01\0\0\0\0\0\0\0\0\0\0\0\0\0\0\0\0\0\0\0\0\0\x03\0\0\0\0\0\0\0\x0f\x01\0\0";

/// What is answered at member 2 to one who puts and gets: there was no value, and there is the one that was put.
const OF_PUT_AND_GET: &[u8] =
    b"\x13\0\0\0\0\xc0\x01\x01\x01\0\x01\0\0\0\0\0\0\0\0\x06\0\0\0\0\x24\x13\0\0\0\0\xc0\x01\x02\x01\0\x02\0\0\0\0\0\0\0\0\x0f\0\0\0\0\x20\0\0\0\0\xff\xff\xff\xf5v";

/// What is answered at member 0 of three to one who pings.
pub(crate) const PINGED_AT_0: &[u8] =
    b"\x29\0\0\0\0\xe0\x01\x01\0\0\0\0\0\0\0\0\0\0\0\0\0\0\0\0\0\0\0\0\0\x01\0\0\0\0\0\0\0\x0f\x01\0\0\x13\0\0\0\0\xe0\x01\x0b\0\0\x01\0\0\0\0\0\0\0\0";

fn joined(alloc: Global, parts: &[&[u8]]) -> Result<Vec<u8>, Memory> {
    let mut all = Vec::new(alloc);
    for part in parts {
        all.extend_from_slice(part)?;
    }
    Ok(all)
}

/// A client that makes itself known, puts and gets, and then sends no more.
pub(crate) fn puts_and_gets(alloc: Global) -> Result<Vec<u8>, Memory> {
    joined(alloc, &[HELLO, PUT, GET])
}

/// What it is answered at member 2.
pub(crate) fn answers_at_2(alloc: Global) -> Result<Vec<u8>, Memory> {
    joined(alloc, &[HELLO_AT_2, OF_PUT_AND_GET])
}

/// A client that makes itself known and pings.
pub(crate) fn pings(alloc: Global) -> Result<Vec<u8>, Memory> {
    joined(alloc, &[HELLO, PING])
}

/// A client that makes itself known, and has a processor run in partition 5, which a worker does and never the server's loop.
pub(crate) fn executes(alloc: Global) -> Result<Vec<u8>, Memory> {
    joined(alloc, &[HELLO, EXECUTE])
}

/// One that runs it in partition 2.
pub(crate) fn executes_elsewhere(alloc: Global) -> Result<Vec<u8>, Memory> {
    joined(alloc, &[HELLO, OTHER_EXECUTE])
}
