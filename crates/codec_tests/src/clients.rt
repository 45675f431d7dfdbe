use crate::hearing::{message, text};
use client_codecs::{read_authentication, write_authentication};
use std::alloc::Global;
use std::test::Fail;

fn told(alloc: Global, bytes: &[u8]) -> Result<String, Fail> {
    text(alloc, read_authentication(alloc, &message(alloc, bytes)?))
}

/// Authentications of client 7 at the cluster `dev`.
const READ: &[(&[u8], &str)] = &[
    (
        b"\x28\0\0\0\0\xc0\0\x01\0\0\0\0\0\0\0\0\0\0\xff\xff\xff\xff\0\0\0\0\0\0\0\0\0\
          \x07\0\0\0\0\0\0\0\x01\x09\0\0\0\0\x20dev",
        "Ok(Authentication { client: Some(7), name: Bytes { content: [100, 101, 118] } })",
    ),
    // without a UUID, with two more bytes behind the version and a frame behind the name
    (
        b"\x2a\0\0\0\0\xc0\0\x01\0\0\0\0\0\0\0\0\0\0\xff\xff\xff\xff\x01\0\0\0\0\0\0\0\0\
          \x07\0\0\0\0\0\0\0\x01\x02\x03\x09\0\0\0\0\0dev\x07\0\0\0\0\x24x",
        "Ok(Authentication { client: None, name: Bytes { content: [100, 101, 118] } })",
    ),
    // without a version, and with a name that isn't UTF-8
    (
        b"\x27\0\0\0\0\xc0\0\x01\0\0\0\0\0\0\0\0\0\0\xff\xff\xff\xff\0\0\0\0\0\0\0\0\0\
          \x07\0\0\0\0\0\0\0\x09\0\0\0\0\x20dev",
        "Err(BadCall)",
    ),
    (
        b"\x28\0\0\0\0\xc0\0\x01\0\0\0\0\0\0\0\0\0\0\xff\xff\xff\xff\0\0\0\0\0\0\0\0\0\
          \x07\0\0\0\0\0\0\0\x01\x07\0\0\0\0\x20\xff",
        "Err(BadCall)",
    ),
];

#[test]
fn authentications_are_read(rt: HostRuntime) -> Result<(), Fail> {
    for (bytes, wanted) in READ {
        let told = told(rt.alloc(), bytes)?;
        assert_eq!(rt; told.as_str(), *wanted);
    }
    Ok(())
}

/// The correlation, whether the client is accepted by member 0, and the answer.
const ANSWERS: &[(i64, bool, &[u8])] = &[
    (
        0,
        true,
        b"\x29\0\0\0\0\xe0\x01\x01\0\0\0\0\0\0\0\0\0\0\0\0\0\0\0\0\0\0\0\0\0\x01\0\0\0\0\0\0\0\
          \x0f\x01\0\0",
    ),
    (
        3,
        false,
        b"\x29\0\0\0\0\xe0\x01\x01\0\0\x03\0\0\0\0\0\0\0\0\x01\x01\0\0\0\0\0\0\0\0\0\0\0\0\0\0\0\0\
          \x0f\x01\0\0",
    ),
];

#[test]
fn authentications_are_answered(rt: HostRuntime) -> Result<(), Fail> {
    for (correlation, accepted, wanted) in ANSWERS {
        let answer = write_authentication(rt.alloc(), *correlation, *accepted, 0)?;
        assert_eq!(rt; answer.as_slice(), *wanted);
    }
    Ok(())
}
