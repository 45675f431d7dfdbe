use crate::hearing::{message, text};
use queue_codecs::{read_queue_call, read_queue_wait, stated_partition};
use std::alloc::Global;
use std::test::Fail;

fn told_call(alloc: Global, bytes: &[u8]) -> Result<String, Fail> {
    let message = message(alloc, bytes)?;
    let partition = stated_partition(&message);
    text(alloc, (partition, read_queue_call(alloc, &message)))
}

/// Each call on a queue as `clients/python` sends it, under the correlation 2, and messages that are refused. The partition
/// that it states stands before the call.
const CALLS: &[(&[u8], &str)] = &[
    (
        b"\x16\0\0\0\0\xc0\0\x01\x03\0\x02\0\0\0\0\0\0\0\x0e\x01\0\0\x0b\0\0\0\0\0caf\xc3\xa9\
          \x09\0\0\0\0\x20one",
        "(Some(270), Ok(Offer { name: Bytes { content: [99, 97, 102, 195, 169] }, \
         value: Bytes { content: [111, 110, 101] } }))",
    ),
    (
        b"\x16\0\0\0\0\xc0\0\x05\x03\0\x02\0\0\0\0\0\0\0\0\0\0\0\x0b\0\0\0\0\x20caf\xc3\xa9",
        "(Some(0), Ok(Poll { name: Bytes { content: [99, 97, 102, 195, 169] } }))",
    ),
    (
        b"\x16\0\0\0\0\xc0\0\x07\x03\0\x02\0\0\0\0\0\0\0\x05\0\0\0\x0b\0\0\0\0\x20caf\xc3\xa9",
        "(Some(5), Ok(Peek { name: Bytes { content: [99, 97, 102, 195, 169] } }))",
    ),
    (
        b"\x16\0\0\0\0\xc0\0\x03\x03\0\x02\0\0\0\0\0\0\0\x05\0\0\0\x0b\0\0\0\0\x20caf\xc3\xa9",
        "(Some(5), Ok(Size { name: Bytes { content: [99, 97, 102, 195, 169] } }))",
    ),
    (
        b"\x16\0\0\0\0\xc0\0\x13\x03\0\x02\0\0\0\0\0\0\0\x05\0\0\0\x0b\0\0\0\0\x20caf\xc3\xa9",
        "(Some(5), Ok(RemainingCapacity { name: Bytes { content: [99, 97, 102, 195, 169] } }))",
    ),
    // with a further frame
    (
        b"\x16\0\0\0\0\xc0\0\x0f\x03\0\x02\0\0\0\0\0\0\0\x05\0\0\0\x0b\0\0\0\0\0caf\xc3\xa9\
          \x0a\0\0\0\0\x20more",
        "(Some(5), Ok(Clear { name: Bytes { content: [99, 97, 102, 195, 169] } }))",
    ),
    // partitions that are none
    (
        b"\x16\0\0\0\0\xc0\0\x03\x03\0\x02\0\0\0\0\0\0\0\x0f\x01\0\0\x07\0\0\0\0\x20q",
        "(None, Err(BadCall))",
    ),
    (
        b"\x16\0\0\0\0\xc0\0\x03\x03\0\x02\0\0\0\0\0\0\0\xff\xff\xff\xff\x07\0\0\0\0\x20q",
        "(None, Err(BadCall))",
    ),
    (
        b"\x16\0\0\0\0\xc0\0\x03\x03\0\x02\0\0\0\0\0\0\0\0\0\x01\0\x07\0\0\0\0\x20q",
        "(None, Err(BadCall))",
    ),
    (
        b"\x16\0\0\0\0\xc0\0\x03\x03\0\x02\0\0\0\0\0\0\0\0\0\0\x80\x07\0\0\0\0\x20q",
        "(None, Err(BadCall))",
    ),
    // no name, one that isn't UTF-8, and no value
    (
        b"\x16\0\0\0\0\xe0\0\x05\x03\0\x02\0\0\0\0\0\0\0\x05\0\0\0",
        "(Some(5), Err(BadCall))",
    ),
    (
        b"\x16\0\0\0\0\xc0\0\x03\x03\0\x02\0\0\0\0\0\0\0\x05\0\0\0\x07\0\0\0\0\x20\xff",
        "(Some(5), Err(BadCall))",
    ),
    (
        b"\x16\0\0\0\0\xc0\0\x01\x03\0\x02\0\0\0\0\0\0\0\x05\0\0\0\x07\0\0\0\0\x20q",
        "(Some(5), Err(BadCall))",
    ),
    // types of no call on a queue
    (
        b"\x16\0\0\0\0\xc0\0\x02\x03\0\x02\0\0\0\0\0\0\0\x05\0\0\0\x07\0\0\0\0\x20q",
        "(Some(5), Err(UnknownType))",
    ),
    (
        b"\x16\0\0\0\0\xc0\0\x02\x03\0\x02\0\0\0\0\0\0\0\xff\xff\xff\xff\x07\0\0\0\0\x20q",
        "(None, Err(UnknownType))",
    ),
    (
        b"\x16\0\0\0\0\xc0\0\x01\x01\0\x02\0\0\0\0\0\0\0\x05\0\0\0\x07\0\0\0\0\x20q",
        "(Some(5), Err(UnknownType))",
    ),
];

#[test]
fn calls_on_queues_are_read(rt: HostRuntime) -> Result<(), Fail> {
    for (bytes, wanted) in CALLS {
        let told = told_call(rt.alloc(), bytes)?;
        assert_eq!(rt; told.as_str(), *wanted);
    }
    Ok(())
}

fn told_wait(alloc: Global, bytes: &[u8]) -> Result<String, Fail> {
    text(alloc, read_queue_wait(alloc, &message(alloc, bytes)?))
}

/// Calls that may wait.
const WAITS: &[(&[u8], &str)] = &[
    // an offer that waits without an end
    (
        b"\x1e\0\0\0\0\xc0\0\x80\x03\0\x01\0\0\0\0\0\0\0\x64\0\0\0\xff\xff\xff\xff\xff\xff\xff\xff\
          \x07\0\0\0\0\0q\x0f\0\0\0\0\x20\0\0\0\0\xff\xff\xff\xf5v",
        "Ok((Offer { name: Bytes { content: [113] }, \
         value: Bytes { content: [0, 0, 0, 0, 255, 255, 255, 245, 118] } }, -1))",
    ),
    // a poll that waits 10 milliseconds, with further bytes and frames
    (
        b"\x22\0\0\0\0\xc0\0\x81\x03\0\x01\0\0\0\0\0\0\0\x64\0\0\0\x0a\0\0\0\0\0\0\0more\
          \x07\0\0\0\0\0q\x0d\0\0\0\0\0further\x06\0\0\0\0\x24",
        "Ok((Poll { name: Bytes { content: [113] } }, 10))",
    ),
    // polls without a timeout, and in no partition, and one that doesn't wait
    (
        b"\x16\0\0\0\0\xc0\0\x81\x03\0\x06\0\0\0\0\0\0\0\x64\0\0\0\x07\0\0\0\0\x20q",
        "Err(BadCall)",
    ),
    (
        b"\x1e\0\0\0\0\xc0\0\x81\x03\0\x0a\0\0\0\0\0\0\0\x0f\x01\0\0\x05\0\0\0\0\0\0\0\
          \x07\0\0\0\0\x20q",
        "Err(BadCall)",
    ),
    (
        b"\x1e\0\0\0\0\xc0\0\x05\x03\0\x0a\0\0\0\0\0\0\0\x0e\x01\0\0\x05\0\0\0\0\0\0\0\
          \x07\0\0\0\0\x20q",
        "Err(UnknownType)",
    ),
];

#[test]
fn calls_on_queues_that_may_wait_are_read(rt: HostRuntime) -> Result<(), Fail> {
    for (bytes, wanted) in WAITS {
        let told = told_wait(rt.alloc(), bytes)?;
        assert_eq!(rt; told.as_str(), *wanted);
    }
    Ok(())
}
