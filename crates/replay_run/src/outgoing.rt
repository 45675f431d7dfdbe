//! What an event appends to the outputs of connections, at the member that it reaches: the row that the member adopted,
//! to those who listen to rows, and each answer that it released, behind the events of the answer's call.

ghost use Rattle.std.specs.Prelude.{◌≡◌, ◌++◌, ◌∷◌, [], List, OnOk, length};
ghost use Rattle.std.specs.List.{flat_map};
ghost use Rattle.grid_base.specs.Shelves.{meaning};
ghost use Rattle.listeners.specs.StandsFor.{StandFor};
ghost use Rattle.listeners.specs.declared.listener.Listener.{Listener as ListenerOf};
ghost use Rattle.partition_protocol.specs.Events.{Event as ProtocolEvent};
ghost use Rattle.partition_world.specs.Worlds.{StandsFor, run_of, node_count, waiting};
ghost use Rattle.replay_run.specs.Runs.{Run, hears, message_of, events_to, version_known, if_newer, row_messages, release_messages};
ghost use Rattle.replay_run.specs.LineTold.{all_told, message_told};
ghost use Rattle.replay_run.specs.Tables.{with_answer};
ghost use Rattle.replay_run.specs.Grids.{HasConnections};
ghost use Rattle.replay_run.specs.WorldCalls.{GivesOut, AreOfRun, IsAppended, MarksGoing};

use crate::connections::Connections;
use crate::messages::{message_of, own_answer, tell_message};
use grid_base::{Bytes, MemberId, Memory, PartitionId, Shelf};
use line_told::Told;
use listeners::Listeners;
use partition_table::Row;
use partition_world::{Records, World};
use primary_hold::CallAnswer;
use std::alloc::Global;

/// Where an event reaches a member: at which line, in which partition, with which version of its row known to the
/// member before, and on which connection, if the event is a call.
#[derive(Clone, Copy)]
pub(crate) struct Reaching {
    pub(crate) line: u32,
    pub(crate) partition: PartitionId,
    pub(crate) member: MemberId,
    pub(crate) known: u32,
    pub(crate) own: Option<u32>,
}

/// The version of the row that a member knows; 0 where the number is no member's.
pub(crate) fn version_known<S: Shelf, R: Records<S::Call>>(
    world: &World<S, R>,
    members: u8,
    member: MemberId,
) -> u32
    requires { members ≡ node_count world.now }
    ensures { (plan : S.Plan) (events : List (ProtocolEvent S.Call)) → let k = meaning S.model plan in
        StandsFor k R.records S.model.within_limits world.now events → result ≡ version_known (run_of k world.now events) member }
{
    if member < members {
        world.known(member).version
    } else {
        0
    }
}

/// Appends events, each to its listener's connection.
fn push_events(line: u32, events: Vec<(u32, Bytes)>, out: &mut Vec<Told>) -> Result<(), Memory>
    ensures { OnOk result (out.new.items ≡ out.old.items ++ all_told (events_to line events.items)) }
{
    for event in events {
        tell_message(out, own_answer(line, event.0, event.1))?;
    }
    Ok(())
}

/// Sends the row that a member knows to those who listen to rows there, where it knew another one before.
fn push_adopted(
    alloc: Global,
    at: Reaching,
    row: &Row,
    listeners: &Listeners,
    out: &mut Vec<Told>,
) -> Result<(), Memory>
    ensures { (all : List ListenerOf) → StandFor listeners.now all
        → OnOk result (out.new.items ≡ out.old.items ++ all_told (row_messages at.line at.partition all (if_newer at.known row.now))) }
{
    if row.version == at.known {
        return Ok(());
    }
    let rows = [(at.partition, row.copied(alloc)?)];
    let events = listeners.rows_of(&rows)?;
    push_events(at.line, events, out)
}

/// Gives out an answer: marks its call as answered, and appends it as a message.
fn give(
    connections: &mut Connections,
    line: u32,
    answer: CallAnswer,
    out: &mut Vec<Told>,
) -> Result<(), Memory>
    ensures table { connections.new ≡ with_answer connections.old answer.id line }
    ensures told { OnOk result (out.new.items ≡ out.old.items ++ message_told (message_of line answer)) }
{
    connections.answer(answer.id, line);
    tell_message(out, message_of(line, answer))
}

/// Whether an answer to a connection goes out: where that is open, or is the one of the call at hand, whose close comes
/// after all that its bytes bring.
fn goes_out(connections: &Connections, own: Option<u32>, conn: u32) -> bool
    ensures { (r : Run) → HasConnections connections.now r → result ≡ hears r own conn }
{
    own == Some(conn) || connections.is_open(conn)
}

/// Releases an answer: those who listen to the map whose value its call changed are told first, and then it goes out,
/// where its connection is open or is the one of the call at hand.
fn release(
    at: Reaching,
    answer: CallAnswer,
    listeners: &Listeners,
    connections: &mut Connections,
    out: &mut Vec<Told>,
) -> Result<(), Memory>
    ensures told { (r : Run) (all : List ListenerOf) → r.lines ≡ at.line → HasConnections connections.old r → StandFor listeners.now all
        → OnOk result (out.new.items ≡ out.old.items ++ all_told (release_messages r at.own at.partition all answer)) }
    ensures table { (r : Run) → HasConnections connections.old r → OnOk result (MarksGoing r at (answer ∷ []) connections.old connections.new) }
{
    let events = listeners.events_of(at.partition, &answer)?;
    push_events(at.line, events, out)?;
    if goes_out(connections, at.own, answer.id.conn) {
        give(connections, at.line, answer, out)?;
    }
    Ok(())
}

/// Takes the answers that wait at a member, the oldest first, and releases them.
fn give_out<S: Shelf, R: Records<S::Call>>(
    at: Reaching,
    world: &mut World<S, R>,
    listeners: &Listeners,
    connections: &mut Connections,
    out: &mut Vec<Told>,
) -> Result<(), Memory>
    ensures told { (r : Run) (all : List ListenerOf) → r.lines ≡ at.line → HasConnections connections.old r → StandFor listeners.now all
        → OnOk result (out.new.items ≡ out.old.items ++ all_told (flat_map (release_messages r at.own at.partition all) (waiting world.old at.member))) }
    ensures table { (r : Run) → HasConnections connections.old r → OnOk result (MarksGoing r at (waiting world.old at.member) connections.old connections.new) }
    ensures world { OnOk result (GivesOut (meaning S.model) R.records S.model.within_limits world.old world.new at.member) }
{
    while let Some(answer) = world.pop_released(at.member) {
        release(at, answer, listeners, connections, out)?;
    }
    Ok(())
}

/// Appends what an event did at the member that it reached, and takes the answers that waited there. Nothing waits for
/// the table service, which is no member.
///
/// Costs a constant and, for each answer, who listens to the map whose value its call changed.
pub(crate) fn append_reached<S: Shelf, R: Records<S::Call>>(
    alloc: Global,
    at: Reaching,
    world: &mut World<S, R>,
    listeners: &[Listeners],
    connections: &mut Connections,
    out: &mut Vec<Told>,
) -> Result<(), Memory>
    requires { length listeners.now ≡ node_count world.old }
    ensures told { (plan : S.Plan) (events : List (ProtocolEvent S.Call)) (r : Run) (all : List ListenerOf) → AreOfRun connections.old listeners.now at r all
        → OnOk result (IsAppended (meaning S.model plan) R.records S.model.within_limits world.old events at r all out.old.items out.new.items) }
    ensures table { (r : Run) → HasConnections connections.old r → OnOk result (MarksGoing r at (waiting world.old at.member) connections.old connections.new) }
    ensures world { OnOk result (GivesOut (meaning S.model) R.records S.model.within_limits world.old world.new at.member) }
{
    let Some(here) = listeners.get(usize::from(at.member)) else {
        return Ok(());
    };
    push_adopted(alloc, at, world.known(at.member), here, out)?;
    give_out(at, world, here, connections, out)
}
