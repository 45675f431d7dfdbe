ghost use Rattle.std.specs.Prelude.{◌≡◌, ◌+◌, ◌≤◌, ◌<◌, ◌^◌, length, IsErr, IfOk};
ghost use Rattle.fixed_fields.specs.Responses.{error_bytes};
ghost use Rattle.client_codecs.specs.Authentications.{authentication_of};
ghost use Rattle.event_codecs.specs.Registrations.{registration_of};
ghost use Rattle.fixed_fields.specs.Requests.{IsReadAs};
ghost use Rattle.session_core.specs.Places.{partition_of_key, partition_of_call, SaysWhere};
ghost use Rattle.session_core.specs.Items.{kind_of, correlation_of, stated_partition, is_accepted, client_of, identity_by, identity_after, identity_after_all, refused, authentication_item, call_of, call_item, wait_of, waiting, registration_item, wait_or_registration, asked, served, item_of, items_from};

use crate::item::Item;
use client_codecs::{
    AUTHENTICATION_KIND, Authentication, PING_KIND, read_authentication, write_authentication,
    write_error, write_void,
};
use event_codecs::read_registration;
use fixed_fields::{int32_at, int64_at};
use grid_base::errors::{BAD_CALL, NOT_AUTHENTICATED, UNKNOWN_TYPE, WRONG_PARTITION};
use grid_base::{CallId, CallRefused, ClientKey, GridCall, MemberId, Memory, PartitionId, Request};
use map_codecs::{read_map_call, read_map_wait};
use message_frames::Message;
use murmur_partition::{key_hash, partition_of};
use queue_codecs::{read_queue_call, read_queue_wait};
use std::alloc::{AllocError, Global};

/// The name of this grid's cluster.
const CLUSTER_NAME: &[u8] = b"dev";

/// Where the first payload of a message has the client's number for it.
const CORRELATION_OFFSET: usize = 4;

/// Where it has the partition.
const PARTITION_OFFSET: usize = 12;

/// The type of a message.
fn kind_of(message: &Message) -> u32
    ensures { result ≡ kind_of message.now }
{
    match message.frames.as_slice().first() {
        Some(first) => fixed_fields::kind_of(first).unwrap_or(0),
        None => 0,
    }
}

/// The client's own number for a message, which the answer repeats.
fn correlation_of(message: &Message) -> i64
    ensures { result ≡ correlation_of message.now }
{
    match message.frames.as_slice().first() {
        Some(first) => int64_at(first, CORRELATION_OFFSET).unwrap_or(0),
        None => 0,
    }
}

/// The partition that a message states.
fn stated_partition(message: &Message) -> i32
    ensures { result ≡ stated_partition message.now }
{
    match message.frames.as_slice().first() {
        Some(first) => int32_at(first, PARTITION_OFFSET).unwrap_or(0),
        None => 0,
    }
}

/// Whether a client asks for this grid's cluster.
fn is_accepted(authentication: &Authentication) -> bool
    ensures { result ≡ is_accepted authentication.now }
{
    authentication.name.as_slice() == CLUSTER_NAME
}

/// Who the client of a connection is that gave itself this number, or none.
fn client_of(conn: u32, number: Option<u128>) -> ClientKey
    ensures { result ≡ client_of conn number }
{
    match number {
        Some(number) => ClientKey::Known(number),
        None => ClientKey::OfConn(conn),
    }
}

/// The error that answers a message.
fn error_to(
    alloc: Global,
    message: &Message,
    code: i32,
    first: i32,
    second: i32,
) -> Result<Item, Memory>
    ensures { IfOk result (λ item. item ≡ Item.Reply (error_bytes (correlation_of message.now) code first second)) }
{
    let error = write_error(alloc, correlation_of(message), code, first, second)?;
    Ok(Item::Reply(error))
}

/// The error that answers a message which can't be read; want of memory answers none.
fn refused(alloc: Global, message: &Message, why: CallRefused) -> Result<Item, Memory>
    ensures item { IfOk result (λ item. item ≡ refused message.now why) }
    ensures memory { why ≡ CallRefused.Memory → IsErr result }
{
    let code = match why {
        CallRefused::UnknownType => UNKNOWN_TYPE,
        CallRefused::BadCall => BAD_CALL,
        CallRefused::Memory => return Err(AllocError),
    };
    error_to(alloc, message, code, 0, 0)
}

/// What a message gives, and who the client is after it.
#[derive(Debug, Drop)]
struct Given {
    item: Item,
    identity: Option<ClientKey>,
}

/// What an authentication gives.
fn authenticated(
    alloc: Global,
    member: MemberId,
    conn: u32,
    identity: Option<ClientKey>,
    message: &Message,
) -> Result<Given, Memory>
    ensures item { IfOk result (λ given. given.item ≡ authentication_item member message.now (authentication_of message.now)) }
    ensures identity { IfOk result (λ given. given.identity ≡ identity_by conn identity (authentication_of message.now)) }
{
    match read_authentication(alloc, message) {
        Ok(authentication) => {
            let accepted = is_accepted(&authentication);
            let reply = write_authentication(alloc, correlation_of(message), accepted, member)?;
            let identity = if accepted {
                Some(client_of(conn, authentication.client))
            } else {
                identity
            };
            Ok(Given {
                item: Item::Reply(reply),
                identity,
            })
        }
        Err(why) => Ok(Given {
            item: refused(alloc, message, why)?,
            identity,
        }),
    }
}

/// The partition of a key.
fn partition_of_key(key: &[u8]) -> PartitionId
    requires { 8 ≤ length key.now }
    ensures { result ≡ partition_of_key key.now }
{
    partition_of(key_hash(key).unwrap())
}

/// The partition that a call is in whose message states this one.
fn partition_of_call(stated: i32, call: &GridCall) -> PartitionId
    requires { SaysWhere stated call.now }
    ensures { result ≡ partition_of_call stated call.now }
{
    match call {
        GridCall::Map(call) => partition_of_key(call.key().as_slice()),
        GridCall::Queue(_) => stated as PartitionId,
    }
}

/// The call that a message of a client is.
fn read_call(alloc: Global, client: ClientKey, message: &Message) -> Result<GridCall, CallRefused>
    ensures { IsReadAs result (call_of client message.now) }
{
    match read_map_call(alloc, message, client) {
        Ok(call) => Ok(GridCall::Map(call)),
        Err(CallRefused::UnknownType) => Ok(GridCall::Queue(read_queue_call(alloc, message)?)),
        Err(why) => Err(why),
    }
}

/// The call that a message of a client has wait, and its timeout.
fn read_wait(
    alloc: Global,
    client: ClientKey,
    message: &Message,
) -> Result<(GridCall, i64), CallRefused>
    ensures { IsReadAs result (wait_of client message.now) }
{
    match read_map_wait(alloc, message, client) {
        Ok((call, timeout)) => Ok((GridCall::Map(call), timeout)),
        Err(CallRefused::UnknownType) => {
            let (call, timeout) = read_queue_wait(alloc, message)?;
            Ok((GridCall::Queue(call), timeout))
        }
        Err(why) => Err(why),
    }
}

/// The call of this type that was read of a message, or the error that answers one in another partition.
fn call_item(
    alloc: Global,
    id: CallId,
    kind: u32,
    message: &Message,
    call: GridCall,
) -> Result<Item, Memory>
    requires kind { kind ≡ kind_of message.now }
    requires place { SaysWhere (stated_partition message.now) call }
    ensures { IfOk result (λ item. item ≡ call_item id message.now (Ok call)) }
{
    let stated = stated_partition(message);
    let partition = partition_of_call(stated, &call);
    if stated != i32::from(partition) {
        return error_to(
            alloc,
            message,
            WRONG_PARTITION,
            stated,
            i32::from(partition),
        );
    }
    Ok(Item::Call(Request {
        id,
        correlation: correlation_of(message),
        kind,
        partition,
        call,
    }))
}

/// A call, that may wait so long; what was refused stays refused.
fn waiting(item: Item, timeout: i64) -> Item
    ensures { result ≡ waiting timeout item }
{
    match item {
        Item::Call(request) => Item::Wait { request, timeout },
        item => item,
    }
}

/// The registration that a message is, or the error that answers it.
fn registration_item(alloc: Global, message: &Message) -> Result<Item, Memory>
    ensures { IfOk result (λ item. item ≡ registration_item message.now (registration_of message.now)) }
{
    match read_registration(alloc, message) {
        Ok(registration) => Ok(Item::Register(registration)),
        Err(why) => refused(alloc, message, why),
    }
}

/// What a message of this type and client gives that is no call by its type, unless one that waits.
fn wait_or_registration(
    alloc: Global,
    id: CallId,
    client: ClientKey,
    kind: u32,
    message: &Message,
) -> Result<Item, Memory>
    requires { kind ≡ kind_of message.now }
    ensures { IfOk result (λ item. item ≡ wait_or_registration id client message.now) }
{
    match read_wait(alloc, client, message) {
        Ok((call, timeout)) => {
            let item = call_item(alloc, id, kind, message, call)?;
            Ok(waiting(item, timeout))
        }
        Err(CallRefused::UnknownType) => registration_item(alloc, message),
        Err(why) => refused(alloc, message, why),
    }
}

/// What a message of this type and client gives that the session doesn't answer itself, unless by an error.
fn asked(
    alloc: Global,
    id: CallId,
    client: ClientKey,
    kind: u32,
    message: &Message,
) -> Result<Item, Memory>
    requires { kind ≡ kind_of message.now }
    ensures { IfOk result (λ item. item ≡ asked id client message.now) }
{
    match read_call(alloc, client, message) {
        Ok(call) => call_item(alloc, id, kind, message, call),
        Err(CallRefused::UnknownType) => wait_or_registration(alloc, id, client, kind, message),
        Err(why) => refused(alloc, message, why),
    }
}

/// What a message of this type and client gives that is no authentication.
fn served(
    alloc: Global,
    id: CallId,
    client: ClientKey,
    kind: u32,
    message: &Message,
) -> Result<Item, Memory>
    requires { kind ≡ kind_of message.now }
    ensures { IfOk result (λ item. item ≡ served id client message.now) }
{
    if kind == PING_KIND {
        let reply = write_void(alloc, PING_KIND, correlation_of(message))?;
        return Ok(Item::Reply(reply));
    }
    asked(alloc, id, client, kind, message)
}

/// What the message of that id gives at a member, where the client is known or not.
fn given_by(
    alloc: Global,
    member: MemberId,
    id: CallId,
    identity: Option<ClientKey>,
    message: &Message,
) -> Result<Given, Memory>
    ensures item { IfOk result (λ given. given.item ≡ item_of member id identity message.now) }
    ensures identity { IfOk result (λ given. given.identity ≡ identity_after id.conn identity message.now) }
{
    let kind = kind_of(message);
    if kind == AUTHENTICATION_KIND {
        return authenticated(alloc, member, id.conn, identity, message);
    }
    let item = match identity {
        Some(client) => served(alloc, id, client, kind, message)?,
        None => error_to(alloc, message, NOT_AUTHENTICATED, 0, 0)?,
    };
    Ok(Given { item, identity })
}

/// What messages give, and who the client is after them.
#[derive(Debug, Drop)]
pub(crate) struct GivenAll {
    pub(crate) items: Vec<Item>,
    pub(crate) identity: Option<ClientKey>,
}

/// What messages give at a member, of which the first has that id and each other one the next number.
pub(crate) fn given_by_all(
    alloc: Global,
    member: MemberId,
    first: CallId,
    identity: Option<ClientKey>,
    messages: &[Message],
) -> Result<GivenAll, Memory>
    requires { first.number + length messages.now < 2 ^ 32 }
    ensures items { IfOk result (λ given. given.items.items ≡ items_from first.conn member first.number identity messages.now) }
    ensures identity { IfOk result (λ given. given.identity ≡ identity_after_all first.conn identity messages.now) }
{
    let mut items = Vec::with_capacity(alloc, messages.len())?;
    let mut identity = identity;
    let mut id = first;
    for message in messages {
        let given = given_by(alloc, member, id, identity, message)?;
        items.push(given.item)?;
        identity = given.identity;
        id.number += 1;
    }
    Ok(GivenAll { items, identity })
}
