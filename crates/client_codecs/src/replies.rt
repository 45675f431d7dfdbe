ghost use Rattle.std.specs.Prelude.{◌≡◌, IfOk};
ghost use Rattle.client_codecs.specs.Replies.{authentication_reply};

use crate::authentications::AUTHENTICATION_KIND;
use fixed_fields::{response_head, write_int32, write_single, write_uuid};
use grid_base::{Bytes, MemberId, Memory, PARTITIONS};
use std::alloc::Global;

/// The status of a client that is accepted.
const ACCEPTED: u8 = 0;

/// The status of a client that isn't.
const REFUSED: u8 = 1;

/// The reply to an authentication: whether the client is accepted, the member's UUID, which is its
/// number plus 1 and is told only then, and how many partitions there are.
pub fn write_authentication(
    alloc: Global,
    correlation: i64,
    accepted: bool,
    member: MemberId,
) -> Result<Bytes, Memory>
    ensures { IfOk result (λ reply. reply ≡ authentication_reply correlation accepted member) }
{
    let (status, uuid) = if accepted {
        (ACCEPTED, Some(u128::from(member) + 1))
    } else {
        (REFUSED, None)
    };
    let mut payload = response_head(alloc, AUTHENTICATION_KIND, correlation)?;
    payload.push(status)?;
    write_uuid(uuid, &mut payload)?;
    write_int32(i32::from(PARTITIONS), &mut payload)?;
    write_single(alloc, payload.as_slice())
}
