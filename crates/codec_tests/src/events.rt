use crate::hearing::{message, text};
use event_codecs::{
    read_event, read_registration, write_entry_event, write_invalidation, write_rows,
};
use grid_base::{Bytes, Change, Memory};
use partition_table::{Row, RowMember, RowMembers};
use std::alloc::Global;
use std::test::Fail;

fn told_registration(alloc: Global, bytes: &[u8]) -> Result<String, Fail> {
    text(alloc, read_registration(alloc, &message(alloc, bytes)?))
}

/// Registrations, and messages that are refused.
const REGISTRATIONS: &[(&[u8], &str)] = &[
    // a listener to the map `m` with values, and one without that has further bytes and a further frame
    (
        b"\x17\0\0\0\0\xc0\0\x19\x01\0\x05\0\0\0\0\0\0\0\xff\xff\xff\xff\x07\x07\0\0\0\0\x20m",
        "Ok(Entries { correlation: 5, name: Bytes { content: [109] }, with_value: true })",
    ),
    (
        b"\x1b\0\0\0\0\xc0\0\x19\x01\0\x05\0\0\0\0\0\0\0\xff\xff\xff\xff\0rest\x07\0\0\0\0\0m\
          \x0a\0\0\0\0\x20more",
        "Ok(Entries { correlation: 5, name: Bytes { content: [109] }, with_value: false })",
    ),
    // a near cache of the map `m`, that states partition 99, and a listener to rows
    (
        b"\x16\0\0\0\0\xc0\0\x3f\x01\0\x06\0\0\0\0\0\0\0\x63\0\0\0\x07\0\0\0\0\x20m",
        "Ok(Invalidations { correlation: 6, name: Bytes { content: [109] } })",
    ),
    (
        b"\x16\0\0\0\0\xe0\0\x03\0\0\x07\0\0\0\0\0\0\0\xff\xff\xff\xff",
        "Ok(Rows { correlation: 7 })",
    ),
    // a listener without the byte that says whether it wants values, a near cache without a name, and an event
    (
        b"\x16\0\0\0\0\xc0\0\x19\x01\0\x05\0\0\0\0\0\0\0\xff\xff\xff\xff\x07\0\0\0\0\x20m",
        "Err(BadCall)",
    ),
    (
        b"\x16\0\0\0\0\xe0\0\x3f\x01\0\x06\0\0\0\0\0\0\0\xff\xff\xff\xff",
        "Err(BadCall)",
    ),
    (
        b"\x16\0\0\0\0\xe0\x02\x3f\x01\0\x06\0\0\0\0\0\0\0\xff\xff\xff\xff",
        "Err(UnknownType)",
    ),
];

#[test]
fn registrations_are_read(rt: HostRuntime) -> Result<(), Fail> {
    for (bytes, wanted) in REGISTRATIONS {
        let told = told_registration(rt.alloc(), bytes)?;
        assert_eq!(rt; told.as_str(), *wanted);
    }
    Ok(())
}

const KEY: &[u8] = b"\0\0\0\x05\xff\xff\xff\xf5k";

const OLD: &[u8] = b"\0\0\0\0\xff\xff\xff\xf5v";

const NEW: &[u8] = b"\0\0\0\0\xff\xff\xff\xf5w";

/// A value was added to an entry in partition 5. The correlation is 5, as that of the next four.
const ADDED: &[u8] = b"\x1a\0\0\0\0\xc2\x02\x19\x01\0\x05\0\0\0\0\0\0\0\x05\0\0\0\x01\0\0\0\
    \x0f\0\0\0\0\0\0\0\0\x05\xff\xff\xff\xf5k\x0f\0\0\0\0\0\0\0\0\0\xff\xff\xff\xf5v\x06\0\0\0\0\x24";

/// It was updated.
const UPDATED: &[u8] = b"\x1a\0\0\0\0\xc2\x02\x19\x01\0\x05\0\0\0\0\0\0\0\x05\0\0\0\x04\0\0\0\
    \x0f\0\0\0\0\0\0\0\0\x05\xff\xff\xff\xf5k\x0f\0\0\0\0\0\0\0\0\0\xff\xff\xff\xf5w\
    \x0f\0\0\0\0\x20\0\0\0\0\xff\xff\xff\xf5v";

/// An empty value was removed.
const REMOVED: &[u8] = b"\x1a\0\0\0\0\xc2\x02\x19\x01\0\x05\0\0\0\0\0\0\0\x05\0\0\0\x02\0\0\0\
    \x0f\0\0\0\0\0\0\0\0\x05\xff\xff\xff\xf5k\x06\0\0\0\0\x04\x06\0\0\0\0\x20";

/// A value had expired.
const EXPIRED: &[u8] = b"\x1a\0\0\0\0\xc2\x02\x19\x01\0\x05\0\0\0\0\0\0\0\x05\0\0\0\x10\0\0\0\
    \x0f\0\0\0\0\0\0\0\0\x05\xff\xff\xff\xf5k\x06\0\0\0\0\x04\x0f\0\0\0\0\x20\0\0\0\0\xff\xff\xff\xf5v";

/// The update, as it is told without values.
const UNTOLD: &[u8] = b"\x1a\0\0\0\0\xc2\x02\x19\x01\0\x05\0\0\0\0\0\0\0\x05\0\0\0\x04\0\0\0\
    \x0f\0\0\0\0\0\0\0\0\x05\xff\xff\xff\xf5k\x06\0\0\0\0\x04\x06\0\0\0\0\x24";

/// The map `m` has another value at the key, by the third call of version 1. The correlation is 6.
const INVALIDATION: &[u8] =
    b"\x1e\0\0\0\0\xc2\x02\x3f\x01\0\x06\0\0\0\0\0\0\0\x05\0\0\0\x01\0\0\0\x03\0\0\0\
    \x07\0\0\0\0\0m\x0f\0\0\0\0\x20\0\0\0\x05\xff\xff\xff\xf5k";

/// Partition 5 was lost in version 2. The correlation is 9, as that of the next one.
const LOST: &[u8] =
    b"\x16\0\0\0\0\xc2\x03\x03\0\0\x09\0\0\0\0\0\0\0\xff\xff\xff\xff\x06\0\0\0\0\x10\
    \x10\0\0\0\0\0\x05\0\0\0\x02\0\0\0\x01\0\x06\0\0\0\0\x28";

/// It was reopened in version 4.
const REOPENED: &[u8] =
    b"\x16\0\0\0\0\xc2\x03\x03\0\0\x09\0\0\0\0\0\0\0\xff\xff\xff\xff\x06\0\0\0\0\x10\
    \x12\0\0\0\0\0\x05\0\0\0\x04\0\0\0\0\x02\0\x01\x06\0\0\0\0\x28";

fn value(alloc: Global, value: Option<&[u8]>) -> Result<Option<Bytes>, Memory> {
    match value {
        Some(value) => Ok(Some(Bytes::copied_from(alloc, value)?)),
        None => Ok(None),
    }
}

/// The event of a change from a value to another one, where there are any.
fn entry_event(
    alloc: Global,
    old: Option<&[u8]>,
    new: Option<&[u8]>,
    expired: bool,
    with_value: bool,
) -> Result<Bytes, Memory> {
    let change = Change {
        name: Bytes::copied_from(alloc, b"m")?,
        key: Bytes::copied_from(alloc, KEY)?,
        old: value(alloc, old)?,
        new: value(alloc, new)?,
        expired,
    };
    write_entry_event(alloc, 5, 5, &change, with_value)
}

/// The old and the new value, whether the old one had expired, whether values are told, and the event.
const CHANGES: &[(Option<&[u8]>, Option<&[u8]>, bool, bool, &[u8])] = &[
    (None, Some(OLD), false, true, ADDED),
    (Some(OLD), Some(NEW), false, true, UPDATED),
    (Some(OLD), Some(NEW), true, true, UPDATED),
    (Some(b""), None, false, true, REMOVED),
    (Some(OLD), None, true, true, EXPIRED),
    (Some(OLD), Some(NEW), false, false, UNTOLD),
];

#[test]
fn changes_are_written(rt: HostRuntime) -> Result<(), Fail> {
    for (old, new, expired, with_value, wanted) in CHANGES {
        let event = entry_event(rt.alloc(), *old, *new, *expired, *with_value)?;
        assert_eq!(rt; event.as_slice(), *wanted);
    }
    Ok(())
}

fn invalidation(alloc: Global) -> Result<Bytes, Memory> {
    let name = Bytes::copied_from(alloc, b"m")?;
    let key = Bytes::copied_from(alloc, KEY)?;
    write_invalidation(alloc, 6, 5, 1, 3, &name, &key)
}

#[test]
fn an_invalidation_is_written(rt: HostRuntime) -> Result<(), Fail> {
    let event = invalidation(rt.alloc())?;
    assert_eq!(rt; event.as_slice(), INVALIDATION);
    Ok(())
}

/// The event of a row of partition 5.
fn rows_event(alloc: Global, version: u32, members: &[RowMember]) -> Result<Bytes, Memory> {
    let row = Row {
        version,
        reset: 0,
        lost: members.is_empty(),
        members: RowMembers::copied_from(alloc, members)?,
    };
    write_rows(alloc, 9, &[(5, row)])
}

/// The members 0 and 1, both of which may lead.
const BOTH: &[RowMember] = &[
    RowMember {
        member: 0,
        eligible: true,
    },
    RowMember {
        member: 1,
        eligible: true,
    },
];

/// A row's version, its members, and its event.
const ROWS: &[(u32, &[RowMember], &[u8])] = &[(2, &[], LOST), (4, BOTH, REOPENED)];

#[test]
fn rows_are_written(rt: HostRuntime) -> Result<(), Fail> {
    for (version, members, wanted) in ROWS {
        let event = rows_event(rt.alloc(), *version, members)?;
        assert_eq!(rt; event.as_slice(), *wanted);
    }
    Ok(())
}

fn told_event(alloc: Global, bytes: &[u8]) -> Result<String, Fail> {
    text(alloc, read_event(alloc, &message(alloc, bytes)?))
}

/// Events, and what they say.
const EVENTS: &[(&[u8], &str)] = &[
    (
        ADDED,
        "Ok(Entry { correlation: 5, partition: 5, kind: 1, \
         key: Bytes { content: [0, 0, 0, 5, 255, 255, 255, 245, 107] }, \
         new: Some(Bytes { content: [0, 0, 0, 0, 255, 255, 255, 245, 118] }), old: None })",
    ),
    (
        UPDATED,
        "Ok(Entry { correlation: 5, partition: 5, kind: 4, \
         key: Bytes { content: [0, 0, 0, 5, 255, 255, 255, 245, 107] }, \
         new: Some(Bytes { content: [0, 0, 0, 0, 255, 255, 255, 245, 119] }), \
         old: Some(Bytes { content: [0, 0, 0, 0, 255, 255, 255, 245, 118] }) })",
    ),
    (
        REMOVED,
        "Ok(Entry { correlation: 5, partition: 5, kind: 2, \
         key: Bytes { content: [0, 0, 0, 5, 255, 255, 255, 245, 107] }, new: None, \
         old: Some(Bytes { content: [] }) })",
    ),
    (
        EXPIRED,
        "Ok(Entry { correlation: 5, partition: 5, kind: 16, \
         key: Bytes { content: [0, 0, 0, 5, 255, 255, 255, 245, 107] }, new: None, \
         old: Some(Bytes { content: [0, 0, 0, 0, 255, 255, 255, 245, 118] }) })",
    ),
    (
        UNTOLD,
        "Ok(Entry { correlation: 5, partition: 5, kind: 4, \
         key: Bytes { content: [0, 0, 0, 5, 255, 255, 255, 245, 107] }, new: None, old: None })",
    ),
    (
        INVALIDATION,
        "Ok(Invalidation { correlation: 6, partition: 5, version: 1, number: 3, \
         name: Bytes { content: [109] }, \
         key: Bytes { content: [0, 0, 0, 5, 255, 255, 255, 245, 107] } })",
    ),
    (
        LOST,
        "Ok(Rows { correlation: 9, rows: SeenRows { list: [SeenRow { partition: 5, version: 2, \
         lost: true, members: SeenMembers { list: [] } }] } })",
    ),
    // the rows of both
    (
        b"\x16\0\0\0\0\xc2\x03\x03\0\0\x09\0\0\0\0\0\0\0\xff\xff\xff\xff\x06\0\0\0\0\x10\
          \x10\0\0\0\0\0\x05\0\0\0\x02\0\0\0\x01\0\x12\0\0\0\0\0\x05\0\0\0\x04\0\0\0\0\x02\0\x01\
          \x06\0\0\0\0\x28",
        "Ok(Rows { correlation: 9, rows: SeenRows { list: [SeenRow { partition: 5, version: 2, \
         lost: true, members: SeenMembers { list: [] } }, SeenRow { partition: 5, version: 4, \
         lost: false, members: SeenMembers { list: [0, 1] } }] } })",
    ),
];

#[test]
fn events_are_read(rt: HostRuntime) -> Result<(), Fail> {
    for (bytes, wanted) in EVENTS {
        let told = told_event(rt.alloc(), bytes)?;
        assert_eq!(rt; told.as_str(), *wanted);
    }
    Ok(())
}

/// What these bytes are told as, once the byte at a place is another one.
fn told_edited(alloc: Global, bytes: &[u8], at: usize, byte: u8) -> Result<String, Fail> {
    let mut edited = Vec::from_slice(alloc, bytes)?;
    *edited.get_mut(at).ok_or("no such place")? = byte;
    told_event(alloc, edited.as_slice())
}

/// An event, a place in it, the byte that is put there, and why it is refused then.
const EDITED: &[(&[u8], usize, u8, &str)] = &[
    // other types
    (ADDED, 6, 0x07, "Err(UnknownType)"),
    (INVALIDATION, 6, 0x07, "Err(UnknownType)"),
    (LOST, 6, 0x07, "Err(UnknownType)"),
    // a key that is null, a value that ends a structure, a name that is no text
    (ADDED, 31, 0x04, "Err(BadCall)"),
    (ADDED, 46, 0x08, "Err(BadCall)"),
    (INVALIDATION, 36, 0xff, "Err(BadCall)"),
    // a list that isn't begun, and one that isn't ended
    (LOST, 27, 0, "Err(BadCall)"),
    (LOST, 49, 0x20, "Err(BadCall)"),
    // a row that is null, and one that begins a list
    (LOST, 33, 0x04, "Err(BadCall)"),
    (LOST, 33, 0x10, "Err(BadCall)"),
    // a partition that isn't one, a mark that is none, and a member that isn't there
    (LOST, 36, 0x01, "Err(BadCall)"),
    (LOST, 42, 0x02, "Err(BadCall)"),
    (LOST, 43, 0x01, "Err(BadCall)"),
];

#[test]
fn events_that_have_not_their_form_are_refused(rt: HostRuntime) -> Result<(), Fail> {
    for (bytes, at, byte, wanted) in EDITED {
        let told = told_edited(rt.alloc(), bytes, *at, *byte)?;
        assert_eq!(rt; told.as_str(), *wanted, "at {at}");
    }
    Ok(())
}
