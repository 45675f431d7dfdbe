use crate::hearing::{message, text};
use grid_base::ClientKey;
use map_codecs::{read_map_call, read_map_wait};
use std::alloc::Global;
use std::test::Fail;

/// The client whose messages are read.
const CLIENT: ClientKey = ClientKey::Known(7);

fn told_call(alloc: Global, bytes: &[u8]) -> Result<String, Fail> {
    text(alloc, read_map_call(alloc, &message(alloc, bytes)?, CLIENT))
}

/// Each call on an entry as `clients/python` sends it, by thread -2 under the correlation 2 in partition 5, and messages that
/// are refused.
const CALLS: &[(&[u8], &str)] = &[
    (
        b"\x26\0\0\0\0\xc0\0\x01\x01\0\x02\0\0\0\0\0\0\0\x05\0\0\0\xfe\xff\xff\xff\xff\xff\xff\
          \xff\x03\0\0\0\0\0\0\0\x07\0\0\0\0\0m\x0f\0\0\0\0\0\0\0\0\x05\xff\xff\xff\xf5k\
          \x09\0\0\0\0\x20one",
        "Ok(Put { name: Bytes { content: [109] }, \
         key: Bytes { content: [0, 0, 0, 5, 255, 255, 255, 245, 107] }, \
         owner: Owner { client: Known(7), thread: -2 }, \
         value: Bytes { content: [111, 110, 101] }, ttl: 3 })",
    ),
    (
        b"\x26\0\0\0\0\xc0\0\x0f\x01\0\x02\0\0\0\0\0\0\0\x05\0\0\0\xfe\xff\xff\xff\xff\xff\xff\
          \xff\x03\0\0\0\0\0\0\0\x0b\0\0\0\0\0caf\xc3\xa9\
          \x0f\0\0\0\0\0\0\0\0\x05\xff\xff\xff\xf5k\x09\0\0\0\0\x20one",
        "Ok(Set { name: Bytes { content: [99, 97, 102, 195, 169] }, \
         key: Bytes { content: [0, 0, 0, 5, 255, 255, 255, 245, 107] }, \
         owner: Owner { client: Known(7), thread: -2 }, \
         value: Bytes { content: [111, 110, 101] }, ttl: 3 })",
    ),
    (
        b"\x26\0\0\0\0\xc0\0\x0e\x01\0\x02\0\0\0\0\0\0\0\x05\0\0\0\xfe\xff\xff\xff\xff\xff\xff\
          \xff\x03\0\0\0\0\0\0\0\x07\0\0\0\0\0m\x0f\0\0\0\0\0\0\0\0\x05\xff\xff\xff\xf5k\
          \x09\0\0\0\0\x20one",
        "Ok(PutIfAbsent { name: Bytes { content: [109] }, \
         key: Bytes { content: [0, 0, 0, 5, 255, 255, 255, 245, 107] }, \
         owner: Owner { client: Known(7), thread: -2 }, \
         value: Bytes { content: [111, 110, 101] }, ttl: 3 })",
    ),
    (
        b"\x2e\0\0\0\0\xc0\0\x60\x01\0\x02\0\0\0\0\0\0\0\x05\0\0\0\xfe\xff\xff\xff\xff\xff\xff\
          \xff\x03\0\0\0\0\0\0\0\x08\x07\x06\x05\x04\x03\x02\x01\x07\0\0\0\0\0m\
          \x0f\0\0\0\0\0\0\0\0\x05\xff\xff\xff\xf5k\x09\0\0\0\0\x20one",
        "Ok(PutMaxIdle { name: Bytes { content: [109] }, \
         key: Bytes { content: [0, 0, 0, 5, 255, 255, 255, 245, 107] }, \
         owner: Owner { client: Known(7), thread: -2 }, \
         value: Bytes { content: [111, 110, 101] }, ttl: 3, idle: 72623859790382856 })",
    ),
    (
        b"\x2e\0\0\0\0\xc0\0\x61\x01\0\x02\0\0\0\0\0\0\0\x05\0\0\0\xfe\xff\xff\xff\xff\xff\xff\
          \xff\x03\0\0\0\0\0\0\0\x08\x07\x06\x05\x04\x03\x02\x01\x07\0\0\0\0\0m\
          \x0f\0\0\0\0\0\0\0\0\x05\xff\xff\xff\xf5k\x09\0\0\0\0\x20one",
        "Ok(SetMaxIdle { name: Bytes { content: [109] }, \
         key: Bytes { content: [0, 0, 0, 5, 255, 255, 255, 245, 107] }, \
         owner: Owner { client: Known(7), thread: -2 }, \
         value: Bytes { content: [111, 110, 101] }, ttl: 3, idle: 72623859790382856 })",
    ),
    (
        b"\x1e\0\0\0\0\xc0\0\x02\x01\0\x02\0\0\0\0\0\0\0\x05\0\0\0\xfe\xff\xff\xff\xff\xff\xff\
          \xff\x07\0\0\0\0\0m\x0f\0\0\0\0\x20\0\0\0\x05\xff\xff\xff\xf5k",
        "Ok(Get { name: Bytes { content: [109] }, \
         key: Bytes { content: [0, 0, 0, 5, 255, 255, 255, 245, 107] }, \
         owner: Owner { client: Known(7), thread: -2 } })",
    ),
    (
        b"\x1e\0\0\0\0\xc0\0\x06\x01\0\x02\0\0\0\0\0\0\0\x05\0\0\0\xfe\xff\xff\xff\xff\xff\xff\
          \xff\x07\0\0\0\0\0m\x0f\0\0\0\0\x20\0\0\0\x05\xff\xff\xff\xf5k",
        "Ok(ContainsKey { name: Bytes { content: [109] }, \
         key: Bytes { content: [0, 0, 0, 5, 255, 255, 255, 245, 107] }, \
         owner: Owner { client: Known(7), thread: -2 } })",
    ),
    (
        b"\x1e\0\0\0\0\xc0\0\x03\x01\0\x02\0\0\0\0\0\0\0\x05\0\0\0\xfe\xff\xff\xff\xff\xff\xff\
          \xff\x07\0\0\0\0\0m\x0f\0\0\0\0\x20\0\0\0\x05\xff\xff\xff\xf5k",
        "Ok(Remove { name: Bytes { content: [109] }, \
         key: Bytes { content: [0, 0, 0, 5, 255, 255, 255, 245, 107] }, \
         owner: Owner { client: Known(7), thread: -2 } })",
    ),
    (
        b"\x1e\0\0\0\0\xc0\0\x09\x01\0\x02\0\0\0\0\0\0\0\x05\0\0\0\xfe\xff\xff\xff\xff\xff\xff\
          \xff\x07\0\0\0\0\0m\x0f\0\0\0\0\x20\0\0\0\x05\xff\xff\xff\xf5k",
        "Ok(Delete { name: Bytes { content: [109] }, \
         key: Bytes { content: [0, 0, 0, 5, 255, 255, 255, 245, 107] }, \
         owner: Owner { client: Known(7), thread: -2 } })",
    ),
    (
        b"\x1e\0\0\0\0\xc0\0\x04\x01\0\x02\0\0\0\0\0\0\0\x05\0\0\0\xfe\xff\xff\xff\xff\xff\xff\
          \xff\x07\0\0\0\0\0m\x0f\0\0\0\0\0\0\0\0\x05\xff\xff\xff\xf5k\x09\0\0\0\0\x20one",
        "Ok(Replace { name: Bytes { content: [109] }, \
         key: Bytes { content: [0, 0, 0, 5, 255, 255, 255, 245, 107] }, \
         owner: Owner { client: Known(7), thread: -2 }, \
         value: Bytes { content: [111, 110, 101] } })",
    ),
    (
        b"\x1e\0\0\0\0\xc0\0\x05\x01\0\x02\0\0\0\0\0\0\0\x05\0\0\0\xfe\xff\xff\xff\xff\xff\xff\
          \xff\x07\0\0\0\0\0m\x0f\0\0\0\0\0\0\0\0\x05\xff\xff\xff\xf5k\x09\0\0\0\0\0one\
          \x09\0\0\0\0\x20two",
        "Ok(ReplaceIfSame { name: Bytes { content: [109] }, \
         key: Bytes { content: [0, 0, 0, 5, 255, 255, 255, 245, 107] }, \
         owner: Owner { client: Known(7), thread: -2 }, \
         test: Bytes { content: [111, 110, 101] }, value: Bytes { content: [116, 119, 111] } })",
    ),
    (
        b"\x1e\0\0\0\0\xc0\0\x08\x01\0\x02\0\0\0\0\0\0\0\x05\0\0\0\xfe\xff\xff\xff\xff\xff\xff\
          \xff\x07\0\0\0\0\0m\x0f\0\0\0\0\0\0\0\0\x05\xff\xff\xff\xf5k\x09\0\0\0\0\x20one",
        "Ok(RemoveIfSame { name: Bytes { content: [109] }, \
         key: Bytes { content: [0, 0, 0, 5, 255, 255, 255, 245, 107] }, \
         owner: Owner { client: Known(7), thread: -2 }, \
         test: Bytes { content: [111, 110, 101] } })",
    ),
    (
        b"\x1e\0\0\0\0\xc0\0\x2e\x01\0\x02\0\0\0\0\0\0\0\x05\0\0\0\xfe\xff\xff\xff\xff\xff\xff\
          \xff\x07\0\0\0\0\0m\x0d\0\0\0\0\0\x02\x01\0\0one\
          \x0f\0\0\0\0\x20\0\0\0\x05\xff\xff\xff\xf5k",
        "Ok(ExecuteOnKey { name: Bytes { content: [109] }, \
         key: Bytes { content: [0, 0, 0, 5, 255, 255, 255, 245, 107] }, \
         owner: Owner { client: Known(7), thread: -2 }, number: 258, \
         argument: Bytes { content: [111, 110, 101] } })",
    ),
    (
        b"\x26\0\0\0\0\xc0\0\x11\x01\0\x02\0\0\0\0\0\0\0\x05\0\0\0\xfe\xff\xff\xff\xff\xff\xff\
          \xff\x03\0\0\0\0\0\0\0\x07\0\0\0\0\0m\x0f\0\0\0\0\x20\0\0\0\x05\xff\xff\xff\xf5k",
        "Ok(TryLock { name: Bytes { content: [109] }, \
         key: Bytes { content: [0, 0, 0, 5, 255, 255, 255, 245, 107] }, \
         owner: Owner { client: Known(7), thread: -2 }, lease: 3 })",
    ),
    (
        b"\x16\0\0\0\0\xc0\0\x12\x01\0\x02\0\0\0\0\0\0\0\x05\0\0\0\x07\0\0\0\0\0m\
          \x0f\0\0\0\0\x20\0\0\0\x05\xff\xff\xff\xf5k",
        "Ok(IsLocked { name: Bytes { content: [109] }, \
         key: Bytes { content: [0, 0, 0, 5, 255, 255, 255, 245, 107] } })",
    ),
    (
        b"\x1e\0\0\0\0\xc0\0\x13\x01\0\x02\0\0\0\0\0\0\0\x05\0\0\0\xfe\xff\xff\xff\xff\xff\xff\
          \xff\x07\0\0\0\0\0m\x0f\0\0\0\0\x20\0\0\0\x05\xff\xff\xff\xf5k",
        "Ok(Unlock { name: Bytes { content: [109] }, \
         key: Bytes { content: [0, 0, 0, 5, 255, 255, 255, 245, 107] }, \
         owner: Owner { client: Known(7), thread: -2 } })",
    ),
    (
        b"\x16\0\0\0\0\xc0\0\x33\x01\0\x02\0\0\0\0\0\0\0\x05\0\0\0\x07\0\0\0\0\0m\
          \x0f\0\0\0\0\x20\0\0\0\x05\xff\xff\xff\xf5k",
        "Ok(ForceUnlock { name: Bytes { content: [109] }, \
         key: Bytes { content: [0, 0, 0, 5, 255, 255, 255, 245, 107] } })",
    ),
    // no time to live
    (
        b"\x1e\0\0\0\0\xc0\0\x01\x01\0\x02\0\0\0\0\0\0\0\x05\0\0\0\xfe\xff\xff\xff\xff\xff\xff\
          \xff\x07\0\0\0\0\0m\x0f\0\0\0\0\0\0\0\0\x05\xff\xff\xff\xf5k\x09\0\0\0\0\x20one",
        "Err(BadCall)",
    ),
    // no key
    (
        b"\x16\0\0\0\0\xc0\0\x12\x01\0\x02\0\0\0\0\0\0\0\x05\0\0\0\x07\0\0\0\0\x20m",
        "Err(BadCall)",
    ),
    // no second value
    (
        b"\x1e\0\0\0\0\xc0\0\x05\x01\0\x02\0\0\0\0\0\0\0\x05\0\0\0\xfe\xff\xff\xff\xff\xff\xff\
          \xff\x07\0\0\0\0\0m\x0f\0\0\0\0\0\0\0\0\x05\xff\xff\xff\xf5k\x09\0\0\0\0\x20one",
        "Err(BadCall)",
    ),
    // a name that isn't UTF-8
    (
        b"\x1e\0\0\0\0\xc0\0\x02\x01\0\x02\0\0\0\0\0\0\0\x05\0\0\0\xfe\xff\xff\xff\xff\xff\xff\
          \xff\x07\0\0\0\0\0\xff\x0f\0\0\0\0\x20\0\0\0\x05\xff\xff\xff\xf5k",
        "Err(BadCall)",
    ),
    // a key of seven bytes
    (
        b"\x1e\0\0\0\0\xc0\0\x02\x01\0\x02\0\0\0\0\0\0\0\x05\0\0\0\xfe\xff\xff\xff\xff\xff\xff\
          \xff\x07\0\0\0\0\0m\x0d\0\0\0\0\x20short\x20k",
        "Err(BadCall)",
    ),
    // a processor of three bytes
    (
        b"\x1e\0\0\0\0\xc0\0\x2e\x01\0\x02\0\0\0\0\0\0\0\x05\0\0\0\xfe\xff\xff\xff\xff\xff\xff\
          \xff\x07\0\0\0\0\0m\x09\0\0\0\0\0\x02\x01\0\x0f\0\0\0\0\x20\0\0\0\x05\xff\xff\xff\xf5k",
        "Err(BadCall)",
    ),
    // types of no call on an entry
    (
        b"\x1e\0\0\0\0\xc0\0\x07\x01\0\x02\0\0\0\0\0\0\0\x05\0\0\0\xfe\xff\xff\xff\xff\xff\xff\
          \xff\x07\0\0\0\0\0m\x0f\0\0\0\0\x20\0\0\0\x05\xff\xff\xff\xf5k",
        "Err(UnknownType)",
    ),
    (
        b"\x1e\0\0\0\0\xc0\0\x01\x03\0\x02\0\0\0\0\0\0\0\x05\0\0\0\xfe\xff\xff\xff\xff\xff\xff\
          \xff\x07\0\0\0\0\0m\x0f\0\0\0\0\x20\0\0\0\x05\xff\xff\xff\xf5k",
        "Err(UnknownType)",
    ),
];

#[test]
fn calls_on_entries_are_read(rt: HostRuntime) -> Result<(), Fail> {
    for (bytes, wanted) in CALLS {
        let told = told_call(rt.alloc(), bytes)?;
        assert_eq!(rt; told.as_str(), *wanted);
    }
    Ok(())
}

fn told_wait(alloc: Global, bytes: &[u8]) -> Result<String, Fail> {
    text(alloc, read_map_wait(alloc, &message(alloc, bytes)?, CLIENT))
}

/// Calls that may wait.
const WAITS: &[(&[u8], &str)] = &[
    // thread 1 waits 100,000 milliseconds for the lock of a key
    (
        b"\x2e\0\0\0\0\xc0\0\x80\x01\0\x01\0\0\0\0\0\0\0\x05\0\0\0\
          \x01\0\0\0\0\0\0\0\0\0\0\0\0\0\0\0\xa0\x86\x01\0\0\0\0\0\
          \x07\0\0\0\0\0m\x0f\0\0\0\0\x20\0\0\0\x05\xff\xff\xff\xf5k",
        "Ok((TryLock { name: Bytes { content: [109] }, \
         key: Bytes { content: [0, 0, 0, 5, 255, 255, 255, 245, 107] }, \
         owner: Owner { client: Known(7), thread: 1 }, lease: 0 }, 100000))",
    ),
    // and 5 to put a value there, with further bytes
    (
        b"\x32\0\0\0\0\xc0\0\x81\x01\0\x01\0\0\0\0\0\0\0\x05\0\0\0\
          \x01\0\0\0\0\0\0\0\0\0\0\0\0\0\0\0\x05\0\0\0\0\0\0\0more\
          \x07\0\0\0\0\0m\x0f\0\0\0\0\0\0\0\0\x05\xff\xff\xff\xf5k\
          \x0f\0\0\0\0\x20\0\0\0\0\xff\xff\xff\xf5v",
        "Ok((Put { name: Bytes { content: [109] }, \
         key: Bytes { content: [0, 0, 0, 5, 255, 255, 255, 245, 107] }, \
         owner: Owner { client: Known(7), thread: 1 }, \
         value: Bytes { content: [0, 0, 0, 0, 255, 255, 255, 245, 118] }, ttl: 0 }, 5))",
    ),
    // a lock without a timeout, and one that doesn't wait
    (
        b"\x26\0\0\0\0\xc0\0\x80\x01\0\x02\0\0\0\0\0\0\0\x05\0\0\0\
          \x01\0\0\0\0\0\0\0\0\0\0\0\0\0\0\0\
          \x07\0\0\0\0\0m\x0f\0\0\0\0\x20\0\0\0\x05\xff\xff\xff\xf5k",
        "Err(BadCall)",
    ),
    (
        b"\x26\0\0\0\0\xc0\0\x11\x01\0\x02\0\0\0\0\0\0\0\x05\0\0\0\
          \x01\0\0\0\0\0\0\0\0\0\0\0\0\0\0\0\
          \x07\0\0\0\0\0m\x0f\0\0\0\0\x20\0\0\0\x05\xff\xff\xff\xf5k",
        "Err(UnknownType)",
    ),
];

#[test]
fn calls_on_entries_that_may_wait_are_read(rt: HostRuntime) -> Result<(), Fail> {
    for (bytes, wanted) in WAITS {
        let told = told_wait(rt.alloc(), bytes)?;
        assert_eq!(rt; told.as_str(), *wanted);
    }
    Ok(())
}
