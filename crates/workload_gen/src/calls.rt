//! The calls of a script's clients, on the map `m`.

ghost use Rattle.std.specs.Prelude.{◌≡◌, IfOk};
ghost use Rattle.workload_gen.specs.Calls.{client_on, conn_of, owner_of, stated_hash, key_of, put, get};

use grid_base::{Bytes, ClientKey, GridCall, MapCall, Memory, Owner, PARTITIONS, PartitionId};
use std::alloc::Global;

/// The name of the map.
const MAP: &[u8] = b"m";

/// How many members there are. A client is connected to each.
pub(crate) const MEMBERS: u32 = 4;

/// The number of the client that is connected to member 0. The others' follow.
const FIRST_CLIENT: u128 = 100;

/// How many bytes a key has, all of them before a content that is empty.
const KEY_LENGTH: usize = 8;

/// What stands behind the hash in a key: that a text follows.
const TEXT_TYPE: [u8; 4] = [0xff, 0xff, 0xff, 0xf5];

/// The client on a connection.
pub(crate) fn client_on(conn: u32) -> u128
    ensures { result ≡ client_on conn }
{
    FIRST_CLIENT + u128::from(conn)
}

/// The connection on which a partition's calls come.
pub(crate) fn conn_of(partition: PartitionId) -> u32
    ensures { result ≡ conn_of partition }
{
    u32::from(partition) % MEMBERS
}

/// Who calls a partition.
fn owner_of(partition: PartitionId) -> Owner
    ensures { result ≡ owner_of partition }
{
    Owner {
        client: ClientKey::Known(client_on(conn_of(partition))),
        thread: 0,
    }
}

/// The hash that a partition's key states.
fn stated_hash(partition: PartitionId) -> u32
    ensures { result ≡ stated_hash partition }
{
    if partition == 0 {
        u32::from(PARTITIONS)
    } else {
        u32::from(partition)
    }
}

/// The key of a partition.
fn key_of(alloc: Global, partition: PartitionId) -> Result<Bytes, Memory>
    ensures { IfOk result (λ key. key ≡ key_of partition) }
{
    let mut key = Vec::with_capacity(alloc, KEY_LENGTH)?;
    key.extend_from_slice(&stated_hash(partition).to_be_bytes())?;
    key.extend_from_slice(&TEXT_TYPE)?;
    Ok(Bytes::from_vec(key))
}

/// A round's number is put under the key of a partition.
pub(crate) fn put(alloc: Global, round: u32, partition: PartitionId) -> Result<GridCall, Memory>
    ensures { IfOk result (λ call. call ≡ put round partition) }
{
    Ok(GridCall::Map(MapCall::Put {
        name: Bytes::copied_from(alloc, MAP)?,
        key: key_of(alloc, partition)?,
        owner: owner_of(partition),
        value: Bytes::copied_from(alloc, &u64::from(round).to_be_bytes())?,
        ttl: 0,
    }))
}

/// What is under the key of a partition is got.
pub(crate) fn get(alloc: Global, partition: PartitionId) -> Result<GridCall, Memory>
    ensures { IfOk result (λ call. call ≡ get partition) }
{
    Ok(GridCall::Map(MapCall::Get {
        name: Bytes::copied_from(alloc, MAP)?,
        key: key_of(alloc, partition)?,
        owner: owner_of(partition),
    }))
}
