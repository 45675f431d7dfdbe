//! The calls that are counted.
ghost use Rattle.std.specs.Prelude.{◌≡◌, IfOk};
ghost use Rattle.grid_base.specs.Limits.{FitsFrame};
ghost use Rattle.call_engine.specs.Limits.{RequestFits};
ghost use Rattle.counted_calls.specs.Calls.{request_of, name_of};

use grid_base::{
    Bytes, CallId, ClientKey, GridCall, MapCall, MemberId, Memory, ObjectKey, Owner, PartitionId,
    Request,
};
use map_codecs::EXECUTE_ON_KEY_KIND;
use std::alloc::Global;

/// The partition that the calls are made in.
pub const PARTITION: PartitionId = 5;

/// The member that leads it, of three.
pub const LEADER: MemberId = 2;

/// Which of the member's four workers runs the partition's calls.
pub const THREAD: u8 = 1;

/// How many sessions make calls, with the connections' numbers from 0 on.
pub const SESSIONS: u32 = 4;

/// How many calls each makes.
pub const CALLS: u32 = 250;

/// The kind of these calls' requests.
pub const KIND: u32 = EXECUTE_ON_KEY_KIND;

const MAP: &[u8] = b"m";

/// The first processor.
const PROCESSOR: i32 = 1;

/// The number 1, the low byte first.
const ONE: &[u8] = &[1, 0, 0, 0, 0, 0, 0, 0];

/// A call of a connection, which runs the first processor with the argument 1 on a key of the map `m`.
pub(crate) fn request(alloc: Global, key: &Bytes, conn: u32, number: u32) -> Result<Request, Memory>
    requires { FitsFrame key.now }
    ensures is { IfOk result (λ request. request ≡ request_of key.now conn number) }
    ensures fits { IfOk result RequestFits }
{
    let call = GridCall::Map(MapCall::ExecuteOnKey {
        name: Bytes::copied_from(alloc, MAP)?,
        key: key.copied(alloc)?,
        owner: Owner {
            client: ClientKey::Known(100 + u128::from(conn)),
            thread: 0,
        },
        number: PROCESSOR,
        argument: Bytes::copied_from(alloc, ONE)?,
    });
    call.numbers_fit();
    Ok(Request {
        id: CallId { conn, number },
        correlation: i64::from(number),
        kind: KIND,
        partition: PARTITION,
        call,
    })
}

/// The entry that the calls are on.
pub(crate) fn entry(alloc: Global, key: &Bytes) -> Result<ObjectKey, Memory>
    ensures { IfOk result (λ name. name ≡ name_of key.now) }
{
    Ok(ObjectKey::Entry {
        map: Bytes::copied_from(alloc, MAP)?,
        key: key.copied(alloc)?,
    })
}
