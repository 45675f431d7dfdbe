//! The words of a `say` line, read.
ghost use Rattle.std.specs.Prelude.{◌≡◌, IfOk};
ghost use Rattle.grid_base.specs.declared.names.ClientKey.{ClientKey};
ghost use Rattle.compose_words.specs.Waits.{plain_of};
ghost use Rattle.say_words.specs.Words.{IsCallBy, IsMadeBy, IsToldBy};

use crate::data::{
    or_refused, plain_text_data, read_argument, read_data, read_hex, read_text, refused,
};
use crate::numbers::{read_conn, read_i32};
use crate::options::{Options, read_options};
use crate::what::{Bare, Heard, Idle, Keyed, Named, Stored, Valued, What};
use client_codecs::Authentication;
use compose_words::{Listening, MapWait, QueueWait, Saying};
use grid_base::{Bytes, ClientKey, MapCall, Owner, PartitionId, QueueCall};
use murmur_partition::{key_hash, partition_of};
use script_lang::{LineRefused, LineWhy};
use std::alloc::Global;

/// The cluster that a client asks for which names none.
const CLUSTER: &[u8] = b"dev";

/// The thread that calls where none is said.
const THREAD: i64 = 1;

/// How many milliseconds a call waits where none are said: without an end.
const TIMEOUT: i64 = -1;

/// What words say.
#[derive(Debug, Drop)]
pub enum Told {
    /// A message, with the correlation that was said, if one was.
    Message {
        correlation: Option<i64>,
        saying: Saying,
    },
    /// These bytes.
    Raw(Bytes),
}

/// A line: what is said on a connection.
#[derive(Debug, Drop)]
pub struct SayLine {
    /// The connection, from 0 to 63.
    pub conn: u32,
    pub told: Told,
}

/// Who calls, and the times of a call.
#[derive(Clone, Copy)]
struct Terms {
    owner: Owner,
    ttl: i64,
    idle: i64,
    lease: i64,
}

fn read_bare(alloc: Global, which: Bare, map: &[u8], key: &[u8]) -> Result<MapCall, LineRefused>
    ensures { IfOk result (λ call. (client : ClientKey) → IsCallBy client call) }
{
    let name = read_text(alloc, map)?;
    let key = read_data(alloc, key)?;
    Ok(match which {
        Bare::IsLocked => MapCall::IsLocked { name, key },
        Bare::ForceUnlock => MapCall::ForceUnlock { name, key },
    })
}

fn read_keyed(
    alloc: Global,
    which: Keyed,
    map: &[u8],
    key: &[u8],
    owner: Owner,
) -> Result<MapCall, LineRefused>
    ensures { IfOk result (IsCallBy owner.client) }
{
    let name = read_text(alloc, map)?;
    let key = read_data(alloc, key)?;
    Ok(match which {
        Keyed::Get => MapCall::Get { name, key, owner },
        Keyed::ContainsKey => MapCall::ContainsKey { name, key, owner },
        Keyed::Remove => MapCall::Remove { name, key, owner },
        Keyed::Delete => MapCall::Delete { name, key, owner },
        Keyed::Unlock => MapCall::Unlock { name, key, owner },
    })
}

fn read_lock(alloc: Global, map: &[u8], key: &[u8], terms: Terms) -> Result<MapCall, LineRefused>
    ensures { IfOk result (IsCallBy terms.owner.client) }
{
    let name = read_text(alloc, map)?;
    let key = read_data(alloc, key)?;
    Ok(MapCall::TryLock {
        name,
        key,
        owner: terms.owner,
        lease: terms.lease,
    })
}

fn read_valued(
    alloc: Global,
    which: Valued,
    map: &[u8],
    key: &[u8],
    value: &[u8],
    owner: Owner,
) -> Result<MapCall, LineRefused>
    ensures { IfOk result (IsCallBy owner.client) }
{
    let name = read_text(alloc, map)?;
    let key = read_data(alloc, key)?;
    let value = read_data(alloc, value)?;
    Ok(match which {
        Valued::Replace => MapCall::Replace {
            name,
            key,
            owner,
            value,
        },
        Valued::RemoveIfSame => MapCall::RemoveIfSame {
            name,
            key,
            owner,
            test: value,
        },
    })
}

fn read_compared(
    alloc: Global,
    map: &[u8],
    key: &[u8],
    test: &[u8],
    value: &[u8],
    owner: Owner,
) -> Result<MapCall, LineRefused>
    ensures { IfOk result (IsCallBy owner.client) }
{
    let name = read_text(alloc, map)?;
    let key = read_data(alloc, key)?;
    let test = read_data(alloc, test)?;
    let value = read_data(alloc, value)?;
    Ok(MapCall::ReplaceIfSame {
        name,
        key,
        owner,
        test,
        value,
    })
}

fn read_stored(
    alloc: Global,
    which: Stored,
    map: &[u8],
    key: &[u8],
    value: &[u8],
    terms: Terms,
) -> Result<MapCall, LineRefused>
    ensures { IfOk result (IsCallBy terms.owner.client) }
{
    let Terms { owner, ttl, .. } = terms;
    let name = read_text(alloc, map)?;
    let key = read_data(alloc, key)?;
    let value = read_data(alloc, value)?;
    Ok(match which {
        Stored::Put => MapCall::Put {
            name,
            key,
            owner,
            value,
            ttl,
        },
        Stored::Set => MapCall::Set {
            name,
            key,
            owner,
            value,
            ttl,
        },
        Stored::PutIfAbsent => MapCall::PutIfAbsent {
            name,
            key,
            owner,
            value,
            ttl,
        },
    })
}

fn read_idle(
    alloc: Global,
    which: Idle,
    map: &[u8],
    key: &[u8],
    value: &[u8],
    terms: Terms,
) -> Result<MapCall, LineRefused>
    ensures { IfOk result (IsCallBy terms.owner.client) }
{
    let Terms {
        owner,
        ttl,
        idle,
        ..
    } = terms;
    let name = read_text(alloc, map)?;
    let key = read_data(alloc, key)?;
    let value = read_data(alloc, value)?;
    Ok(match which {
        Idle::PutMaxIdle => MapCall::PutMaxIdle {
            name,
            key,
            owner,
            value,
            ttl,
            idle,
        },
        Idle::SetMaxIdle => MapCall::SetMaxIdle {
            name,
            key,
            owner,
            value,
            ttl,
            idle,
        },
    })
}

fn read_processing(
    alloc: Global,
    map: &[u8],
    key: &[u8],
    number: &[u8],
    argument: &[u8],
    owner: Owner,
) -> Result<MapCall, LineRefused>
    ensures { IfOk result (IsCallBy owner.client) }
{
    let name = read_text(alloc, map)?;
    let key = read_data(alloc, key)?;
    let number = or_refused(read_i32(number), LineWhy::Number)?;
    let argument = read_argument(alloc, argument)?;
    Ok(MapCall::ExecuteOnKey {
        name,
        key,
        owner,
        number,
        argument,
    })
}

fn named_call(which: Named, name: Bytes) -> QueueCall {
    match which {
        Named::Poll => QueueCall::Poll { name },
        Named::Peek => QueueCall::Peek { name },
        Named::Size => QueueCall::Size { name },
        Named::RemainingCapacity => QueueCall::RemainingCapacity { name },
        Named::Clear => QueueCall::Clear { name },
    }
}

/// The partition of a queue's name, taken as a key.
fn partition_of_name(alloc: Global, name: &Bytes) -> Result<PartitionId, LineRefused> {
    let key = plain_text_data(alloc, name.as_slice())?;
    match key_hash(key.as_slice()) {
        Ok(hash) => Ok(partition_of(hash)),
        Err(_) => refused(LineWhy::Hex),
    }
}

/// The partition that was said, or else that of the queue's name.
fn queue_partition(
    alloc: Global,
    queue: &Bytes,
    said: Option<PartitionId>,
) -> Result<PartitionId, LineRefused> {
    match said {
        Some(partition) => Ok(partition),
        None => partition_of_name(alloc, queue),
    }
}

fn read_queue_call(alloc: Global, what: What, words: &[&[u8]]) -> Result<QueueCall, LineRefused> {
    match (what, words) {
        (What::Offer, [queue, value]) => {
            let name = read_text(alloc, queue)?;
            let value = read_data(alloc, value)?;
            Ok(QueueCall::Offer { name, value })
        }
        (What::Named(which), [queue]) => Ok(named_call(which, read_text(alloc, queue)?)),
        _ => refused(LineWhy::Count),
    }
}

fn read_map_call(
    alloc: Global,
    what: What,
    words: &[&[u8]],
    terms: Terms,
) -> Result<MapCall, LineRefused>
    ensures { IfOk result (IsCallBy terms.owner.client) }
{
    let owner = terms.owner;
    match (what, words) {
        (What::Bare(which), [map, key]) => read_bare(alloc, which, map, key),
        (What::Keyed(which), [map, key]) => read_keyed(alloc, which, map, key, owner),
        (What::TryLock, [map, key]) => read_lock(alloc, map, key, terms),
        (What::Valued(which), [map, key, value]) => {
            read_valued(alloc, which, map, key, value, owner)
        }
        (What::Stored(which), [map, key, value]) => {
            read_stored(alloc, which, map, key, value, terms)
        }
        (What::Idle(which), [map, key, value]) => read_idle(alloc, which, map, key, value, terms),
        (What::ReplaceIfSame, [map, key, test, value]) => {
            read_compared(alloc, map, key, test, value, owner)
        }
        (What::ExecuteOnKey, [map, key, number, argument]) => {
            read_processing(alloc, map, key, number, argument, owner)
        }
        _ => refused(LineWhy::Count),
    }
}

/// A call on a map's entry that may wait.
fn read_map_wait(
    alloc: Global,
    what: What,
    words: &[&[u8]],
    terms: Terms,
) -> Result<MapWait, LineRefused>
    ensures { IfOk result (λ wait. IsCallBy terms.owner.client (plain_of wait)) }
{
    let Terms {
        owner,
        ttl,
        lease,
        ..
    } = terms;
    match (what, words) {
        (What::LockWait, [map, key]) => {
            let name = read_text(alloc, map)?;
            let key = read_data(alloc, key)?;
            Ok(MapWait::Lock {
                name,
                key,
                owner,
                lease,
            })
        }
        (What::PutWait, [map, key, value]) => {
            let name = read_text(alloc, map)?;
            let key = read_data(alloc, key)?;
            let value = read_data(alloc, value)?;
            Ok(MapWait::Put {
                name,
                key,
                owner,
                value,
                ttl,
            })
        }
        _ => refused(LineWhy::Count),
    }
}

/// A call on a queue that may wait.
fn read_queue_wait(alloc: Global, what: What, words: &[&[u8]]) -> Result<QueueWait, LineRefused> {
    match (what, words) {
        (What::OfferWait, [queue, value]) => {
            let name = read_text(alloc, queue)?;
            let value = read_data(alloc, value)?;
            Ok(QueueWait::Offer { name, value })
        }
        (What::PollWait, [queue]) => Ok(QueueWait::Poll {
            name: read_text(alloc, queue)?,
        }),
        _ => refused(LineWhy::Count),
    }
}

/// What is listened to.
fn read_listening(alloc: Global, what: What, words: &[&[u8]]) -> Result<Listening, LineRefused> {
    match (what, words) {
        (What::Listen(heard), [map]) => {
            let name = read_text(alloc, map)?;
            Ok(match heard {
                Heard::Entries => Listening::Entries {
                    name,
                    with_value: false,
                },
                Heard::Values => Listening::Entries {
                    name,
                    with_value: true,
                },
                Heard::Invalidations => Listening::Invalidations { name },
            })
        }
        (What::ListenRows, []) => Ok(Listening::Rows),
        _ => refused(LineWhy::Count),
    }
}

/// What makes a client known.
fn hello(alloc: Global, options: &Options) -> Result<Saying, LineRefused>
    ensures { IfOk result (λ saying. (client : ClientKey) → IsMadeBy client saying) }
{
    let name = match &options.cluster {
        Some(name) => name.copied(alloc)?,
        None => Bytes::copied_from(alloc, CLUSTER)?,
    };
    Ok(Saying::Hello(Authentication {
        client: options.client,
        name,
    }))
}

/// Who calls, and when what ends. Of the caller the thread alone is said.
fn terms_of(client: ClientKey, options: &Options) -> Terms
    ensures { result.owner.client ≡ client }
{
    Terms {
        owner: Owner {
            client,
            thread: options.thread.unwrap_or(THREAD),
        },
        ttl: options.ttl.unwrap_or(0),
        idle: options.idle.unwrap_or(0),
        lease: options.lease.unwrap_or(0),
    }
}

/// What these words say, with these options behind them.
fn read_saying(
    alloc: Global,
    client: ClientKey,
    what: What,
    words: &[&[u8]],
    options: &Options,
) -> Result<Saying, LineRefused>
    ensures { IfOk result (IsMadeBy client) }
{
    match what {
        What::Hello => hello(alloc, options),
        What::Ping => Ok(Saying::Ping),
        What::Offer | What::Named(_) => {
            let call = read_queue_call(alloc, what, words)?;
            let partition = queue_partition(alloc, call.queue(), options.partition)?;
            Ok(Saying::OnQueue { partition, call })
        }
        What::LockWait | What::PutWait => {
            let wait = read_map_wait(alloc, what, words, terms_of(client, options))?;
            let timeout = options.timeout.unwrap_or(TIMEOUT);
            Ok(Saying::WaitOnMap { wait, timeout })
        }
        What::OfferWait | What::PollWait => {
            let wait = read_queue_wait(alloc, what, words)?;
            let partition = queue_partition(alloc, wait.queue(), options.partition)?;
            let timeout = options.timeout.unwrap_or(TIMEOUT);
            Ok(Saying::WaitOnQueue {
                partition,
                wait,
                timeout,
            })
        }
        What::Listen(_) | What::ListenRows => {
            Ok(Saying::Listen(read_listening(alloc, what, words)?))
        }
        _ => {
            let call = read_map_call(alloc, what, words, terms_of(client, options))?;
            Ok(Saying::OnMap(call))
        }
    }
}

/// Bytes to be said as they are.
fn read_raw(alloc: Global, words: &[&[u8]]) -> Result<Told, LineRefused>
    ensures { IfOk result (λ told. (client : ClientKey) → IsToldBy client told) }
{
    match words {
        [word] if !word.is_empty() => Ok(Told::Raw(read_hex(alloc, word)?)),
        [_] => refused(LineWhy::Hex),
        _ => refused(LineWhy::Count),
    }
}

/// A message of these words.
fn read_message(
    alloc: Global,
    client: ClientKey,
    word: &[u8],
    words: &[&[u8]],
) -> Result<Told, LineRefused>
    ensures { IfOk result (IsToldBy client) }
{
    let what = or_refused(What::of_word(word), LineWhy::Word)?;
    let (given, behind) = or_refused(words.split_at_checked(what.count()), LineWhy::Count)?;
    let options = read_options(alloc, what.settings(), behind)?;
    let saying = read_saying(alloc, client, what, given, &options)?;
    Ok(Told::Message {
        correlation: options.correlation,
        saying,
    })
}

/// What these words say behind `say` and its connection. The calls among it are that client's.
///
/// An error has the cause for which a `say` line is refused, or is want of memory. Costs the length of the words.
pub fn read_told(alloc: Global, client: ClientKey, words: &[&[u8]]) -> Result<Told, LineRefused>
    ensures { IfOk result (IsToldBy client) }
{
    match words {
        [word, words @ ..] if *word == b"raw".as_slice() => read_raw(alloc, words),
        [word, words @ ..] => read_message(alloc, client, word, words),
        [] => refused(LineWhy::Count),
    }
}

/// The `say` line of these words, behind the first. The calls among what it says are those of its connection.
pub fn read_say_line(alloc: Global, words: &[&[u8]]) -> Result<SayLine, LineRefused>
    ensures { IfOk result (λ line. IsToldBy (ClientKey.OfConn line.conn) line.told) }
{
    let [conn, words @ ..] = words else {
        return refused(LineWhy::Count);
    };
    if words.is_empty() {
        return refused(LineWhy::Count);
    }
    let conn = or_refused(read_conn(conn), LineWhy::Number)?;
    let told = read_told(alloc, ClientKey::OfConn(conn), words)?;
    Ok(SayLine { conn, told })
}
