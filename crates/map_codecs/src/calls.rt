ghost use Rattle.std.specs.Prelude.{◌≡◌, IfOk};
ghost use Rattle.fixed_fields.specs.Requests.{IsReadAs, reader_of};
ghost use Rattle.map_codecs.specs.Calls.{call_by, map_calls, map_call_of};

use crate::kinds::{
    CONTAINS_KEY_KIND, DELETE_KIND, EXECUTE_ON_KEY_KIND, FORCE_UNLOCK_KIND, GET_KIND,
    IS_LOCKED_KIND, PUT_IF_ABSENT_KIND, PUT_KIND, PUT_MAX_IDLE_KIND, REMOVE_IF_SAME_KIND,
    REMOVE_KIND, REPLACE_IF_SAME_KIND, REPLACE_KIND, SET_KIND, SET_MAX_IDLE_KIND, TRY_LOCK_KIND,
    UNLOCK_KIND,
};
use crate::shapes::{
    Bare, Idle, Keyed, Stored, Valued, read_bare, read_compared, read_executed, read_idle_stored,
    read_keyed, read_leased, read_stored, read_valued,
};
use fixed_fields::kind_of;
use frame_codec::Frame;
use grid_base::{CallRefused, ClientKey, MapCall};
use message_frames::Message;
use std::alloc::Global;

/// The call of that type which begins with this frame, and goes on with those behind it.
fn read_call(
    alloc: Global,
    kind: u32,
    client: ClientKey,
    first: &Frame,
    frames: &[Frame],
) -> Result<MapCall, CallRefused>
    ensures { IsReadAs result (call_by client first.now.payload frames.now (reader_of kind map_calls)) }
{
    match kind {
        PUT_KIND => read_stored(alloc, Stored::Put, client, first, frames),
        GET_KIND => read_keyed(alloc, Keyed::Get, client, first, frames),
        REMOVE_KIND => read_keyed(alloc, Keyed::Remove, client, first, frames),
        REPLACE_KIND => read_valued(alloc, Valued::Replace, client, first, frames),
        REPLACE_IF_SAME_KIND => read_compared(alloc, client, first, frames),
        CONTAINS_KEY_KIND => read_keyed(alloc, Keyed::ContainsKey, client, first, frames),
        REMOVE_IF_SAME_KIND => read_valued(alloc, Valued::RemoveIfSame, client, first, frames),
        DELETE_KIND => read_keyed(alloc, Keyed::Delete, client, first, frames),
        PUT_IF_ABSENT_KIND => read_stored(alloc, Stored::PutIfAbsent, client, first, frames),
        SET_KIND => read_stored(alloc, Stored::Set, client, first, frames),
        TRY_LOCK_KIND => read_leased(alloc, client, first, frames),
        IS_LOCKED_KIND => read_bare(alloc, Bare::IsLocked, client, first, frames),
        UNLOCK_KIND => read_keyed(alloc, Keyed::Unlock, client, first, frames),
        EXECUTE_ON_KEY_KIND => read_executed(alloc, client, first, frames),
        FORCE_UNLOCK_KIND => read_bare(alloc, Bare::ForceUnlock, client, first, frames),
        PUT_MAX_IDLE_KIND => read_idle_stored(alloc, Idle::PutMaxIdle, client, first, frames),
        SET_MAX_IDLE_KIND => read_idle_stored(alloc, Idle::SetMaxIdle, client, first, frames),
        _ => Err(CallRefused::UnknownType),
    }
}

/// The call that a message is, made by a thread of the client `owner`.
///
/// `UnknownType` where no call on a map's entry has the message's type. `BadCall` where a field of the
/// first payload isn't wholly there, where the frames behind it aren't those of the call, each data, of
/// which the map's name is UTF-8, the key has at least eight bytes, and a processor at least four. What
/// follows these fields and frames is ignored, and the partition isn't looked at. Costs the name, the
/// key, and what else the call brings, each copied once.
#[tactic(auto, unfolding(crate::specs::Calls::map_call_of))]
pub fn read_map_call(
    alloc: Global,
    message: &Message,
    owner: ClientKey,
) -> Result<MapCall, CallRefused>
    ensures { IsReadAs result (map_call_of owner message.now) }
{
    let Some((first, frames)) = message.frames.as_slice().split_first() else {
        return Err(CallRefused::UnknownType);
    };
    match kind_of(first) {
        Some(kind) => read_call(alloc, kind, owner, first, frames),
        None => Err(CallRefused::UnknownType),
    }
}
