use grid_base::Memory;
use session_core::{FedSession, Item, Session};
use std::alloc::Global;
use std::test::Fail;

/// An authentication of client 7 for the cluster `dev`, and one for `xyz`.
const AUTH: &[u8] =
    b"\x28\0\0\0\0\xc0\0\x01\0\0\0\0\0\0\0\0\0\0\xff\xff\xff\xff\0\0\0\0\0\0\0\0\0\x07\0\0\0\0\0\0\0\x01\
    \x09\0\0\0\0\x20dev";

const AUTH_FOR_XYZ: &[u8] =
    b"\x28\0\0\0\0\xc0\0\x01\0\0\0\0\0\0\0\0\0\0\xff\xff\xff\xff\0\0\0\0\0\0\0\0\0\x08\0\0\0\0\0\0\0\x01\
    \x09\0\0\0\0\x20xyz";

/// A put of a value on a key of partition 5, and gets of it: one that states the partition, one that states 6, one that
/// states -1, and one without the key.
const PUT: &[u8] =
    b"\x26\0\0\0\0\xc0\0\x01\x01\0\x01\0\0\0\0\0\0\0\x05\0\0\0\x01\0\0\0\0\0\0\0\0\0\0\0\0\0\0\0\
    \x07\0\0\0\0\0m\x0f\0\0\0\0\0\0\0\0\x05\xff\xff\xff\xf5k\x0f\0\0\0\0\x20\0\0\0\0\xff\xff\xff\xf5v";

const GET: &[u8] = b"\x1e\0\0\0\0\xc0\0\x02\x01\0\x02\0\0\0\0\0\0\0\x05\0\0\0\x01\0\0\0\0\0\0\0\
    \x07\0\0\0\0\0m\x0f\0\0\0\0\x20\0\0\0\x05\xff\xff\xff\xf5k";

const GET_ELSEWHERE: &[u8] =
    b"\x1e\0\0\0\0\xc0\0\x02\x01\0\x02\0\0\0\0\0\0\0\x06\0\0\0\x01\0\0\0\0\0\0\0\
    \x07\0\0\0\0\0m\x0f\0\0\0\0\x20\0\0\0\x05\xff\xff\xff\xf5k";

const GET_BELOW_0: &[u8] =
    b"\x1e\0\0\0\0\xc0\0\x02\x01\0\x02\0\0\0\0\0\0\0\xff\xff\xff\xff\x01\0\0\0\0\0\0\0\
    \x07\0\0\0\0\0m\x0f\0\0\0\0\x20\0\0\0\x05\xff\xff\xff\xf5k";

const GET_WITHOUT_KEY: &[u8] =
    b"\x1e\0\0\0\0\xc0\0\x02\x01\0\x02\0\0\0\0\0\0\0\x05\0\0\0\x01\0\0\0\0\0\0\0\
    \x07\0\0\0\0\x20m";

/// Whether the key is locked, which no thread has to say.
const IS_LOCKED: &[u8] = b"\x16\0\0\0\0\xc0\0\x12\x01\0\x03\0\0\0\0\0\0\0\x05\0\0\0\
    \x07\0\0\0\0\0m\x0f\0\0\0\0\x20\0\0\0\x05\xff\xff\xff\xf5k";

/// An offer of a value to a queue in partition 270, and polls of it: one in partition 0, one that states 271, one that states
/// -1, and one without the name.
const OFFER: &[u8] = b"\x16\0\0\0\0\xc0\0\x01\x03\0\x04\0\0\0\0\0\0\0\x0e\x01\0\0\
    \x07\0\0\0\0\0q\x0f\0\0\0\0\x20\0\0\0\0\xff\xff\xff\xf5v";

const POLL: &[u8] = b"\x16\0\0\0\0\xc0\0\x05\x03\0\x02\0\0\0\0\0\0\0\0\0\0\0\x07\0\0\0\0\x20q";

const POLL_AT_271: &[u8] =
    b"\x16\0\0\0\0\xc0\0\x05\x03\0\x02\0\0\0\0\0\0\0\x0f\x01\0\0\x07\0\0\0\0\x20q";

const POLL_BELOW_0: &[u8] =
    b"\x16\0\0\0\0\xc0\0\x05\x03\0\x02\0\0\0\0\0\0\0\xff\xff\xff\xff\x07\0\0\0\0\x20q";

const POLL_WITHOUT_NAME: &[u8] = b"\x16\0\0\0\0\xe0\0\x05\x03\0\x02\0\0\0\0\0\0\0\0\0\0\0";

/// A message of a type that no request on a queue has.
const UNKNOWN_TO_QUEUES: &[u8] =
    b"\x16\0\0\0\0\xc0\0\x02\x03\0\x02\0\0\0\0\0\0\0\0\0\0\0\x07\0\0\0\0\x20q";

/// A put of a value that waits 5 milliseconds for the lock of a key, and one that states partition 6.
const PUT_WAIT: &[u8] = b"\x2e\0\0\0\0\xc0\0\x81\x01\0\x02\0\0\0\0\0\0\0\x05\0\0\0\
    \x01\0\0\0\0\0\0\0\0\0\0\0\0\0\0\0\x05\0\0\0\0\0\0\0\
    \x07\0\0\0\0\0m\x0f\0\0\0\0\0\0\0\0\x05\xff\xff\xff\xf5k\x0f\0\0\0\0\x20\0\0\0\0\xff\xff\xff\xf5v";

const PUT_WAIT_ELSEWHERE: &[u8] = b"\x2e\0\0\0\0\xc0\0\x81\x01\0\x02\0\0\0\0\0\0\0\x06\0\0\0\
    \x01\0\0\0\0\0\0\0\0\0\0\0\0\0\0\0\x05\0\0\0\0\0\0\0\
    \x07\0\0\0\0\0m\x0f\0\0\0\0\0\0\0\0\x05\xff\xff\xff\xf5k\x0f\0\0\0\0\x20\0\0\0\0\xff\xff\xff\xf5v";

/// A poll that waits without an end, and one without its timeout.
const POLL_WAIT: &[u8] = b"\x1e\0\0\0\0\xc0\0\x81\x03\0\x02\0\0\0\0\0\0\0\x0e\x01\0\0\
    \xff\xff\xff\xff\xff\xff\xff\xff\x07\0\0\0\0\x20q";

const POLL_WAIT_TIMELESS: &[u8] =
    b"\x16\0\0\0\0\xc0\0\x81\x03\0\x02\0\0\0\0\0\0\0\x0e\x01\0\0\x07\0\0\0\0\x20q";

/// A near cache of the map `m`, and one of no map.
const NEAR: &[u8] =
    b"\x16\0\0\0\0\xc0\0\x3f\x01\0\x06\0\0\0\0\0\0\0\xff\xff\xff\xff\x07\0\0\0\0\x20m";

const NEAR_NOTHING: &[u8] = b"\x16\0\0\0\0\xe0\0\x3f\x01\0\x02\0\0\0\0\0\0\0\xff\xff\xff\xff";

/// A ping, and a message of a type that no request has.
const PING: &[u8] = b"\x16\0\0\0\0\xe0\0\x0b\0\0\x02\0\0\0\0\0\0\0\xff\xff\xff\xff";

const UNKNOWN: &[u8] = b"\x16\0\0\0\0\xe0\0\x01\x02\0\x02\0\0\0\0\0\0\0\xff\xff\xff\xff";

/// How they are answered by member 0.
const ACCEPTED: &[u8] =
    b"\x29\0\0\0\0\xe0\x01\x01\0\0\0\0\0\0\0\0\0\0\0\0\0\0\0\0\0\0\0\0\0\x01\0\0\0\0\0\0\0\x0f\x01\0\0;";

const NOT_ACCEPTED: &[u8] =
    b"\x29\0\0\0\0\xe0\x01\x01\0\0\0\0\0\0\0\0\0\0\0\x01\x01\0\0\0\0\0\0\0\0\0\0\0\0\0\0\0\0\x0f\x01\0\0;";

/// The errors that answer a type of no request, and a call that can't be read.
const UNKNOWN_TYPE: &[u8] =
    b"\x1f\0\0\0\0\xe0\0\0\0\0\x02\0\0\0\0\0\0\0\0\x03\0\0\0\0\0\0\0\0\0\0\0;";

const BAD_CALL: &[u8] = b"\x1f\0\0\0\0\xe0\0\0\0\0\x02\0\0\0\0\0\0\0\0\x04\0\0\0\0\0\0\0\0\0\0\0;";

const PONG: &[u8] = b"\x13\0\0\0\0\xe0\x01\x0b\0\0\x02\0\0\0\0\0\0\0\0;";

/// What comes before a connection's first message.
const PREFIX: &[u8] = b"CP2";

/// The errors that answer a message before an authentication, and calls of partition 5 that state 6 and -1.
const NOT_AUTHENTICATED: &[u8] =
    b"\x1f\0\0\0\0\xe0\0\0\0\0\x02\0\0\0\0\0\0\0\0\x02\0\0\0\0\0\0\0\0\0\0\0;";

const NOT_IN_6: &[u8] =
    b"\x1f\0\0\0\0\xe0\0\0\0\0\x02\0\0\0\0\0\0\0\0\x05\0\0\0\x06\0\0\0\x05\0\0\0;";

const NOT_BELOW_0: &[u8] =
    b"\x1f\0\0\0\0\xe0\0\0\0\0\x02\0\0\0\0\0\0\0\0\x05\0\0\0\xff\xff\xff\xff\x05\0\0\0;";

/// What the calls of client 7 are told as.
const PUT_CALL: &[u8] =
    b"Call(Request { id: CallId { conn: 3, number: 1 }, correlation: 1, kind: 65792, \
     partition: 5, call: Map(Put { name: Bytes { content: [109] }, \
     key: Bytes { content: [0, 0, 0, 5, 255, 255, 255, 245, 107] }, \
     owner: Owner { client: Known(7), thread: 1 }, \
     value: Bytes { content: [0, 0, 0, 0, 255, 255, 255, 245, 118] }, ttl: 0 }) });";

const GET_CALL: &[u8] =
    b"Call(Request { id: CallId { conn: 3, number: 2 }, correlation: 2, kind: 66048, \
     partition: 5, call: Map(Get { name: Bytes { content: [109] }, \
     key: Bytes { content: [0, 0, 0, 5, 255, 255, 255, 245, 107] }, \
     owner: Owner { client: Known(7), thread: 1 } }) });";

const QUEUE_CALLS: &[u8] =
    b"Call(Request { id: CallId { conn: 3, number: 1 }, correlation: 4, kind: 196864, \
     partition: 270, call: Queue(Offer { name: Bytes { content: [113] }, \
     value: Bytes { content: [0, 0, 0, 0, 255, 255, 255, 245, 118] } }) });\
     Call(Request { id: CallId { conn: 3, number: 2 }, correlation: 2, kind: 197888, partition: 0, \
     call: Queue(Poll { name: Bytes { content: [113] } }) });\
     Call(Request { id: CallId { conn: 3, number: 3 }, correlation: 3, kind: 70144, \
     partition: 5, call: Map(IsLocked { name: Bytes { content: [109] }, \
     key: Bytes { content: [0, 0, 0, 5, 255, 255, 255, 245, 107] } }) });";

const LATE_POLL: &[u8] =
    b"Call(Request { id: CallId { conn: 3, number: 5 }, correlation: 2, kind: 197888, \
     partition: 0, call: Queue(Poll { name: Bytes { content: [113] } }) });";

const WAITS: &[u8] =
    b"Wait { request: Request { id: CallId { conn: 3, number: 1 }, correlation: 2, kind: 98560, \
     partition: 5, call: Map(Put { name: Bytes { content: [109] }, \
     key: Bytes { content: [0, 0, 0, 5, 255, 255, 255, 245, 107] }, \
     owner: Owner { client: Known(7), thread: 1 }, \
     value: Bytes { content: [0, 0, 0, 0, 255, 255, 255, 245, 118] }, ttl: 0 }) }, \
     timeout: 5 };\
     Wait { request: Request { id: CallId { conn: 3, number: 2 }, correlation: 2, \
     kind: 229632, partition: 270, call: Queue(Poll { name: Bytes { content: [113] } }) }, \
     timeout: -1 };";

const REGISTRATION: &[u8] =
    b"Register(Invalidations { correlation: 6, name: Bytes { content: [109] } });";

/// What connection 3 to member 0 gives of these bytes.
fn fed(alloc: Global, stream: &[u8]) -> Result<FedSession, Memory> {
    let mut session = Session::new(alloc, 3, 0);
    session.feed(alloc, stream)
}

fn item_text(alloc: Global, item: &Item) -> Result<String, Memory> {
    format!(in alloc; "{item:?}")
}

/// Appends the bytes of a reply, and what another item is told as.
fn tell(alloc: Global, item: &Item, out: &mut Vec<u8>) -> Result<(), Memory> {
    match item {
        Item::Reply(bytes) => out.extend_from_slice(bytes.as_slice())?,
        item => {
            let text = item_text(alloc, item)?;
            out.extend_from_slice(text.as_bytes())?;
        }
    }
    out.push(b';')?;
    Ok(())
}

fn tell_all(alloc: Global, items: &[Item]) -> Result<Vec<u8>, Memory> {
    let mut out = Vec::new(alloc);
    for item in items {
        tell(alloc, item, &mut out)?;
    }
    Ok(out)
}

fn told(alloc: Global, stream: &[u8]) -> Result<Vec<u8>, Memory> {
    let fed = fed(alloc, stream)?;
    tell_all(alloc, fed.items.as_slice())
}

/// These parts, one behind the other.
fn joined(alloc: Global, parts: &[&[u8]]) -> Result<Vec<u8>, Memory> {
    let mut whole = Vec::new(alloc);
    for part in parts {
        whole.extend_from_slice(part)?;
    }
    Ok(whole)
}

fn told_of(alloc: Global, messages: &[&[u8]]) -> Result<Vec<u8>, Memory> {
    let stream = joined(alloc, messages)?;
    told(alloc, stream.as_slice())
}

/// What a client sends, and what it gives.
const SESSIONS: &[(&[&[u8]], &[&[u8]])] = &[
    // calls behind an authentication
    (&[PREFIX, AUTH, PUT, GET], &[ACCEPTED, PUT_CALL, GET_CALL]),
    // each message is refused in its turn
    (
        &[
            PREFIX,
            UNKNOWN,
            AUTH,
            UNKNOWN,
            GET_WITHOUT_KEY,
            GET_ELSEWHERE,
            GET_BELOW_0,
        ],
        &[
            NOT_AUTHENTICATED,
            ACCEPTED,
            UNKNOWN_TYPE,
            BAD_CALL,
            NOT_IN_6,
            NOT_BELOW_0,
        ],
    ),
    // calls that no thread makes
    (
        &[PREFIX, AUTH, OFFER, POLL, IS_LOCKED],
        &[ACCEPTED, QUEUE_CALLS],
    ),
    // calls on queues that are refused
    (
        &[
            PREFIX,
            AUTH,
            POLL_AT_271,
            POLL_BELOW_0,
            POLL_WITHOUT_NAME,
            UNKNOWN_TO_QUEUES,
            POLL,
        ],
        &[
            ACCEPTED,
            BAD_CALL,
            BAD_CALL,
            BAD_CALL,
            UNKNOWN_TYPE,
            LATE_POLL,
        ],
    ),
    // calls that may wait
    (
        &[
            PREFIX,
            AUTH,
            PUT_WAIT,
            POLL_WAIT,
            PUT_WAIT_ELSEWHERE,
            POLL_WAIT_TIMELESS,
        ],
        &[ACCEPTED, WAITS, NOT_IN_6, BAD_CALL],
    ),
    // registrations
    (
        &[PREFIX, AUTH, NEAR, NEAR_NOTHING],
        &[ACCEPTED, REGISTRATION, BAD_CALL],
    ),
    // a client stays known past an authentication for another cluster
    (
        &[PREFIX, AUTH, AUTH_FOR_XYZ, GET, PING],
        &[ACCEPTED, NOT_ACCEPTED, GET_CALL, PONG],
    ),
];

#[test]
fn each_message_is_answered_or_a_call(rt: HostRuntime) -> Result<(), Fail> {
    for (messages, items) in SESSIONS {
        let told = told_of(rt.alloc(), messages)?;
        let wanted = joined(rt.alloc(), items)?;
        assert_eq!(rt; told.as_slice(), wanted.as_slice());
    }
    Ok(())
}
