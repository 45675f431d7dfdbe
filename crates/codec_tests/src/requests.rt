use grid_base::{Bytes, ClientKey, GridCall, MapCall, Memory, Owner, PartitionId, QueueCall};
use request_codecs::{FIRST_CORRELATION, write_opening, write_request};
use std::alloc::Global;
use std::test::Fail;

/// Client 1001 makes itself known, listens to the invalidations of the map `m`, and to rows.
const OPENING: &[u8] = b"CP2\x28\0\0\0\0\xc0\0\x01\0\0\x01\0\0\0\0\0\0\0\xff\xff\xff\xff\
    \0\0\0\0\0\0\0\0\0\xe9\x03\0\0\0\0\0\0\x01\x09\0\0\0\0\x20dev\
    \x16\0\0\0\0\xc0\0\x3f\x01\0\x02\0\0\0\0\0\0\0\xff\xff\xff\xff\x07\0\0\0\0\x20m\
    \x16\0\0\0\0\xe0\0\x03\0\0\x03\0\0\0\0\0\0\0\xff\xff\xff\xff";

/// It has no near cache.
const OPENING_WITHOUT_A_MAP: &[u8] =
    b"CP2\x28\0\0\0\0\xc0\0\x01\0\0\x01\0\0\0\0\0\0\0\xff\xff\xff\xff\
    \0\0\0\0\0\0\0\0\0\xe9\x03\0\0\0\0\0\0\x01\x09\0\0\0\0\x20dev\
    \x16\0\0\0\0\xe0\0\x03\0\0\x03\0\0\0\0\0\0\0\xff\xff\xff\xff";

fn opening(alloc: Global) -> Result<Bytes, Memory> {
    let map = Bytes::copied_from(alloc, b"m")?;
    write_opening(alloc, 1001, Some(&map))
}

#[test]
fn an_opening_is_written(rt: HostRuntime) -> Result<(), Fail> {
    let written = opening(rt.alloc())?;
    assert_eq!(rt; written.as_slice(), OPENING);
    Ok(())
}

#[test]
fn an_opening_without_a_near_cache_is_written(rt: HostRuntime) -> Result<(), Fail> {
    let written = write_opening(rt.alloc(), 1001, None)?;
    assert_eq!(rt; written.as_slice(), OPENING_WITHOUT_A_MAP);
    Ok(())
}

const KEY: &[u8] = b"\0\0\0\x05\xff\xff\xff\xf5k";

const VALUE: &[u8] = b"\0\0\0\0\xff\xff\xff\xf5v";

fn thread_1() -> Owner {
    Owner {
        client: ClientKey::Known(1001),
        thread: 1,
    }
}

/// The put in partition 5. Each request has the correlation 4.
const PUT: &[u8] = b"\x26\0\0\0\0\xc0\0\x01\x01\0\x04\0\0\0\0\0\0\0\x05\0\0\0\
    \x01\0\0\0\0\0\0\0\0\0\0\0\0\0\0\0\x07\0\0\0\0\0m\
    \x0f\0\0\0\0\0\0\0\0\x05\xff\xff\xff\xf5k\x0f\0\0\0\0\x20\0\0\0\0\xff\xff\xff\xf5v";

/// The run of the processor with the argument 2 there.
const EXECUTE: &[u8] = b"\x1e\0\0\0\0\xc0\0\x2e\x01\0\x04\0\0\0\0\0\0\0\x05\0\0\0\
    \x01\0\0\0\0\0\0\0\x07\0\0\0\0\0m\x0b\0\0\0\0\0\x01\0\0\0\x02\
    \x0f\0\0\0\0\x20\0\0\0\x05\xff\xff\xff\xf5k";

/// The poll of the queue `q` in partition 100.
const POLL: &[u8] = b"\x16\0\0\0\0\xc0\0\x05\x03\0\x04\0\0\0\0\0\0\0\x64\0\0\0\x07\0\0\0\0\x20q";

/// The request of a call, under the first correlation.
fn request(alloc: Global, partition: PartitionId, call: &GridCall) -> Result<Bytes, Memory> {
    write_request(alloc, FIRST_CORRELATION, partition, call)
}

/// The request of a put with no time to live.
fn put(alloc: Global, name: Bytes, key: Bytes, value: Bytes) -> Result<Bytes, Memory> {
    let call = GridCall::Map(MapCall::Put {
        name,
        key,
        owner: thread_1(),
        value,
        ttl: 0,
    });
    request(alloc, 5, &call)
}

fn put_request(alloc: Global) -> Result<Bytes, Memory> {
    let name = Bytes::copied_from(alloc, b"m")?;
    let key = Bytes::copied_from(alloc, KEY)?;
    put(alloc, name, key, Bytes::copied_from(alloc, VALUE)?)
}

/// The request of a run of the processor 1.
fn execute(alloc: Global, name: Bytes, key: Bytes, argument: Bytes) -> Result<Bytes, Memory> {
    let call = GridCall::Map(MapCall::ExecuteOnKey {
        name,
        key,
        owner: thread_1(),
        number: 1,
        argument,
    });
    request(alloc, 5, &call)
}

fn execute_request(alloc: Global) -> Result<Bytes, Memory> {
    let name = Bytes::copied_from(alloc, b"m")?;
    let key = Bytes::copied_from(alloc, KEY)?;
    execute(alloc, name, key, Bytes::copied_from(alloc, b"\x02")?)
}

fn poll(alloc: Global, name: Bytes) -> Result<Bytes, Memory> {
    let call = GridCall::Queue(QueueCall::Poll { name });
    request(alloc, 100, &call)
}

fn poll_request(alloc: Global) -> Result<Bytes, Memory> {
    poll(alloc, Bytes::copied_from(alloc, b"q")?)
}

#[test]
fn requests_are_written(rt: HostRuntime) -> Result<(), Fail> {
    let put = put_request(rt.alloc())?;
    assert_eq!(rt; put.as_slice(), PUT);
    let execute = execute_request(rt.alloc())?;
    assert_eq!(rt; execute.as_slice(), EXECUTE);
    let poll = poll_request(rt.alloc())?;
    assert_eq!(rt; poll.as_slice(), POLL);
    Ok(())
}
