ghost use Rattle.fixed_fields.specs.Requests.{IsReadAs};
ghost use Rattle.client_codecs.specs.Authentications.{authentication_of};

use fixed_fields::{Cursor, byte_at, uuid_at};
use grid_base::{Bytes, CallRefused};
use message_frames::Message;
use std::alloc::Global;

/// The message type of an authentication.
pub const AUTHENTICATION_KIND: u32 = 0x00_01_00;

/// The message type of a ping.
pub const PING_KIND: u32 = 0x00_0b_00;

/// Where the first payload of an authentication has the client's UUID.
const CLIENT_OFFSET: usize = 16;

/// Where it has the version of the client's serialization.
const VERSION_OFFSET: usize = 33;

/// Who a client says that it is, and which cluster it wants.
#[derive(Debug, Drop)]
pub struct Authentication {
    /// The number that the client gave itself; `None` where it gave none.
    pub client: Option<u128>,
    /// The cluster's name, a text.
    pub name: Bytes,
}

/// The authentication that a message is. Its type isn't looked at.
///
/// `BadCall` where the client's UUID or the version of its serialization isn't wholly there, or the
/// frame behind the first isn't the cluster's name, a text. What follows is ignored. Costs the name,
/// copied once.
#[tactic(auto, unfolding(crate::specs::Authentications::authentication_of))]
pub fn read_authentication(alloc: Global, message: &Message) -> Result<Authentication, CallRefused>
    ensures { IsReadAs result (authentication_of message.now) }
{
    let Some((first, frames)) = message.frames.as_slice().split_first() else {
        return Err(CallRefused::BadCall);
    };
    let client = uuid_at(first, CLIENT_OFFSET)?;
    byte_at(first, VERSION_OFFSET)?;
    let name = Cursor::new(frames).text()?;
    Ok(Authentication {
        client,
        name: name.copied(alloc)?,
    })
}
