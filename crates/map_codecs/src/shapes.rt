ghost use Rattle.std.specs.Option.{ok_or};
ghost use Rattle.fixed_fields.specs.Requests.{IsReadAs};
ghost use Rattle.map_codecs.specs.Calls.{bare_in, keyed_in, leased_in, valued_in, compared_in, stored_in, idle_in, executed_in};
ghost use Rattle.map_codecs.specs.Shapes.{bare_call, keyed_call, valued_call, stored_call, idle_call};

use crate::parts::{read_idle, read_key, read_owner, read_processor, read_ttl};
use fixed_fields::Cursor;
use frame_codec::Frame;
use grid_base::{Bytes, CallRefused, ClientKey, MapCall};
use std::alloc::Global;

/// A call of an entry alone.
#[derive(Clone, Copy)]
pub(crate) enum Bare {
    IsLocked,
    ForceUnlock,
}

/// A caller's call on an entry.
#[derive(Clone, Copy)]
pub(crate) enum Keyed {
    Get,
    Remove,
    ContainsKey,
    Delete,
    Unlock,
}

/// A caller's call with a value.
#[derive(Clone, Copy)]
pub(crate) enum Valued {
    Replace,
    RemoveIfSame,
}

/// A caller's call with a value and its time to live.
#[derive(Clone, Copy)]
pub(crate) enum Stored {
    Put,
    PutIfAbsent,
    Set,
}

/// A caller's call with a value, its time to live and its max idle time.
#[derive(Clone, Copy)]
pub(crate) enum Idle {
    PutMaxIdle,
    SetMaxIdle,
}

pub(crate) fn read_bare(
    alloc: Global,
    which: Bare,
    client: ClientKey,
    first: &Frame,
    frames: &[Frame],
) -> Result<MapCall, CallRefused>
    ensures { IsReadAs result (ok_or (bare_in (bare_call which) client first.now.payload frames.now) CallRefused.BadCall) }
{
    let mut cursor = Cursor::new(frames);
    let name = cursor.text()?;
    let key = read_key(&mut cursor)?;
    let name = name.copied(alloc)?;
    let key = key.copied(alloc)?;
    Ok(match which {
        Bare::IsLocked => MapCall::IsLocked { name, key },
        Bare::ForceUnlock => MapCall::ForceUnlock { name, key },
    })
}

pub(crate) fn read_keyed(
    alloc: Global,
    which: Keyed,
    client: ClientKey,
    first: &Frame,
    frames: &[Frame],
) -> Result<MapCall, CallRefused>
    ensures { IsReadAs result (ok_or (keyed_in (keyed_call which) client first.now.payload frames.now) CallRefused.BadCall) }
{
    let mut cursor = Cursor::new(frames);
    let owner = read_owner(client, first)?;
    let name = cursor.text()?;
    let key = read_key(&mut cursor)?;
    let name = name.copied(alloc)?;
    let key = key.copied(alloc)?;
    Ok(match which {
        Keyed::Get => MapCall::Get { name, key, owner },
        Keyed::Remove => MapCall::Remove { name, key, owner },
        Keyed::ContainsKey => MapCall::ContainsKey { name, key, owner },
        Keyed::Delete => MapCall::Delete { name, key, owner },
        Keyed::Unlock => MapCall::Unlock { name, key, owner },
    })
}

/// Reads the try for a lock.
pub(crate) fn read_leased(
    alloc: Global,
    client: ClientKey,
    first: &Frame,
    frames: &[Frame],
) -> Result<MapCall, CallRefused>
    ensures { IsReadAs result (ok_or (leased_in MapCall.TryLock client first.now.payload frames.now) CallRefused.BadCall) }
{
    let mut cursor = Cursor::new(frames);
    let owner = read_owner(client, first)?;
    let lease = read_ttl(first)?;
    let name = cursor.text()?;
    let key = read_key(&mut cursor)?;
    Ok(MapCall::TryLock {
        name: name.copied(alloc)?,
        key: key.copied(alloc)?,
        owner,
        lease,
    })
}

pub(crate) fn read_valued(
    alloc: Global,
    which: Valued,
    client: ClientKey,
    first: &Frame,
    frames: &[Frame],
) -> Result<MapCall, CallRefused>
    ensures { IsReadAs result (ok_or (valued_in (valued_call which) client first.now.payload frames.now) CallRefused.BadCall) }
{
    let mut cursor = Cursor::new(frames);
    let owner = read_owner(client, first)?;
    let name = cursor.text()?;
    let key = read_key(&mut cursor)?;
    let value = cursor.data()?;
    let name = name.copied(alloc)?;
    let key = key.copied(alloc)?;
    let value = value.copied(alloc)?;
    Ok(match which {
        Valued::Replace => MapCall::Replace {
            name,
            key,
            owner,
            value,
        },
        Valued::RemoveIfSame => MapCall::RemoveIfSame {
            name,
            key,
            owner,
            test: value,
        },
    })
}

/// Reads the replacement of a value that equals another one.
pub(crate) fn read_compared(
    alloc: Global,
    client: ClientKey,
    first: &Frame,
    frames: &[Frame],
) -> Result<MapCall, CallRefused>
    ensures { IsReadAs result (ok_or (compared_in MapCall.ReplaceIfSame client first.now.payload frames.now) CallRefused.BadCall) }
{
    let mut cursor = Cursor::new(frames);
    let owner = read_owner(client, first)?;
    let name = cursor.text()?;
    let key = read_key(&mut cursor)?;
    let test = cursor.data()?;
    let value = cursor.data()?;
    Ok(MapCall::ReplaceIfSame {
        name: name.copied(alloc)?,
        key: key.copied(alloc)?,
        owner,
        test: test.copied(alloc)?,
        value: value.copied(alloc)?,
    })
}

pub(crate) fn read_stored(
    alloc: Global,
    which: Stored,
    client: ClientKey,
    first: &Frame,
    frames: &[Frame],
) -> Result<MapCall, CallRefused>
    ensures { IsReadAs result (ok_or (stored_in (stored_call which) client first.now.payload frames.now) CallRefused.BadCall) }
{
    let mut cursor = Cursor::new(frames);
    let owner = read_owner(client, first)?;
    let ttl = read_ttl(first)?;
    let name = cursor.text()?;
    let key = read_key(&mut cursor)?;
    let value = cursor.data()?;
    let name = name.copied(alloc)?;
    let key = key.copied(alloc)?;
    let value = value.copied(alloc)?;
    Ok(match which {
        Stored::Put => MapCall::Put {
            name,
            key,
            owner,
            value,
            ttl,
        },
        Stored::PutIfAbsent => MapCall::PutIfAbsent {
            name,
            key,
            owner,
            value,
            ttl,
        },
        Stored::Set => MapCall::Set {
            name,
            key,
            owner,
            value,
            ttl,
        },
    })
}

pub(crate) fn read_idle_stored(
    alloc: Global,
    which: Idle,
    client: ClientKey,
    first: &Frame,
    frames: &[Frame],
) -> Result<MapCall, CallRefused>
    ensures { IsReadAs result (ok_or (idle_in (idle_call which) client first.now.payload frames.now) CallRefused.BadCall) }
{
    let mut cursor = Cursor::new(frames);
    let owner = read_owner(client, first)?;
    let ttl = read_ttl(first)?;
    let idle = read_idle(first)?;
    let name = cursor.text()?;
    let key = read_key(&mut cursor)?;
    let value = cursor.data()?;
    let name = name.copied(alloc)?;
    let key = key.copied(alloc)?;
    let value = value.copied(alloc)?;
    Ok(match which {
        Idle::PutMaxIdle => MapCall::PutMaxIdle {
            name,
            key,
            owner,
            value,
            ttl,
            idle,
        },
        Idle::SetMaxIdle => MapCall::SetMaxIdle {
            name,
            key,
            owner,
            value,
            ttl,
            idle,
        },
    })
}

/// Reads the run of a processor.
pub(crate) fn read_executed(
    alloc: Global,
    client: ClientKey,
    first: &Frame,
    frames: &[Frame],
) -> Result<MapCall, CallRefused>
    ensures { IsReadAs result (ok_or (executed_in client first.now.payload frames.now) CallRefused.BadCall) }
{
    let mut cursor = Cursor::new(frames);
    let owner = read_owner(client, first)?;
    let name = cursor.text()?;
    let (number, argument) = read_processor(&mut cursor)?;
    let key = read_key(&mut cursor)?;
    Ok(MapCall::ExecuteOnKey {
        name: name.copied(alloc)?,
        key: key.copied(alloc)?,
        owner,
        number,
        argument: Bytes::copied_from(alloc, argument)?,
    })
}
