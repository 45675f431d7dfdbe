ghost use Rattle.std.specs.Prelude.{◌≡◌, ◌<◌, List, Some, map, length, not, slice_get, IfOk};
ghost use Rattle.partition_table.specs.Rows.{is_among};
ghost use Rattle.partition_protocol.specs.Node.{Node as ProtocolNode};
ghost use Rattle.partition_protocol.specs.Service.{is_idle};
ghost use Rattle.partition_protocol.specs.World.{is_live, trail};
ghost use Rattle.partition_protocol.specs.Events.{Event as ProtocolEvent};
ghost use Rattle.partition_world.specs.ContentsOf.{pair_at, contents_at, holds_at};
ghost use Rattle.grid_base.specs.Shelves.{meaning};
ghost use Rattle.partition_world.specs.LinkOrder.{next_link, has_crowded_link};
ghost use Rattle.partition_world.specs.RecordedEntries.{entry_of};
ghost use Rattle.partition_world.specs.Recorders.{KeepsAll};
ghost use Rattle.partition_world.specs.Sending.{flying};
ghost use Rattle.partition_world.specs.Worlds.{StandsFor, run_of, steps_of, node_count};

use crate::history::Trail;
use crate::recorder::Recorder;
use crate::records::Records;
use crate::world::World;
use grid_base::{Bytes, CallId, MemberId, Memory, Shelf};
use link_net::Link;
use partition_table::Row;
use replica_node::Contents;
use std::alloc::Global;

impl<S: Shelf, R: Records<S::Call>> World<S, R> {
    /// How many events were run. Takes no memory.
    pub fn steps(&self) -> u32
        ensures { result ≡ steps_of self.now }
    {
        self.steps
    }

    /// Whether a member takes steps. Another number is no member's. Takes no memory.
    pub fn is_live(&self, member: MemberId) -> bool
        ensures { (plan : S.Plan) (events : List (ProtocolEvent S.Call)) → let k = meaning S.model plan in
            StandsFor k R.records S.model.within_limits self.now events → result ≡ is_live (run_of k self.now events) member }
    {
        member < self.members && !self.crashed.contains(&member)
    }

    /// Whether the table service was told that the member has crashed. Takes no memory.
    pub fn is_detected(&self, member: MemberId) -> bool
        ensures { (plan : S.Plan) (events : List (ProtocolEvent S.Call)) → let k = meaning S.model plan in
            StandsFor k R.records S.model.within_limits self.now events → result ≡ is_among (run_of k self.now events).service.detected member }
    {
        self.service.is_detected(member)
    }

    /// Whether a move is under way. Takes no memory.
    pub fn moving(&self) -> bool
        ensures { (plan : S.Plan) (events : List (ProtocolEvent S.Call)) → let k = meaning S.model plan in
            StandsFor k R.records S.model.within_limits self.now events → result ≡ not (is_idle (run_of k self.now events).service.move) }
    {
        self.service.moving()
    }

    /// The newest row, which the table service made. Takes no memory.
    pub fn row(&self) -> &Row
        ensures { (plan : S.Plan) (events : List (ProtocolEvent S.Call)) → let k = meaning S.model plan in
            StandsFor k R.records S.model.within_limits self.now events → result.now ≡ (run_of k self.now events).service.row }
    {
        self.service.row()
    }

    /// The newest row that a member has taken. Takes no memory.
    pub fn known(&self, member: MemberId) -> &Row
        requires { member < node_count self.now }
        ensures { (plan : S.Plan) (events : List (ProtocolEvent S.Call)) → let k = meaning S.model plan in
            StandsFor k R.records S.model.within_limits self.now events → (node : ProtocolNode) → slice_get (run_of k self.now events).nodes member ≡ Some node → result.now ≡ node.known }
    {
        self.nodes[usize::from(member)].known()
    }

    /// Whether a member executes no more in the version that it knows. Takes no memory.
    pub fn is_frozen(&self, member: MemberId) -> bool
        requires { member < node_count self.now }
        ensures { (plan : S.Plan) (events : List (ProtocolEvent S.Call)) → let k = meaning S.model plan in
            StandsFor k R.records S.model.within_limits self.now events → (node : ProtocolNode) → slice_get (run_of k self.now events).nodes member ≡ Some node → result ≡ node.frozen }
    {
        self.nodes[usize::from(member)].is_frozen()
    }

    /// What a member has of the partition, in constant time and with no memory.
    pub fn contents(&self, member: MemberId) -> Contents<'_, S>
        requires { member < node_count self.now }
        ensures pair { (plan : S.Plan) (events : List (ProtocolEvent S.Call)) → let k = meaning S.model plan in
            StandsFor k R.records S.model.within_limits self.now events → result.pair ≡ pair_at (run_of k self.now events) member }
        ensures state { (plan : S.Plan) (events : List (ProtocolEvent S.Call)) → let k = meaning S.model plan in
            StandsFor k R.records S.model.within_limits self.now events → S.model.state result.shelf.now ≡ contents_at k.object (run_of k self.now events) member }
    {
        self.nodes[usize::from(member)].contents()
    }

    /// Whether a member holds the answer of that call until its backups have what the call saw, at the cost of the
    /// member's answers. Another number is no member's. Takes no memory.
    pub fn holds(&self, member: MemberId, id: CallId) -> bool
        ensures { (plan : S.Plan) (events : List (ProtocolEvent S.Call)) → let k = meaning S.model plan in
            StandsFor k R.records S.model.within_limits self.now events → result ≡ holds_at (run_of k self.now events) member id }
    {
        match self.nodes.get(usize::from(member)) {
            Some(node) => node.holds(id),
            None => false,
        }
    }

    /// The messages in flight from one end to another, in the order in which they were sent. Takes no memory.
    pub fn in_flight(&self, from: u8, to: u8) -> &[Bytes]
        ensures { (plan : S.Plan) (events : List (ProtocolEvent S.Call)) → let k = meaning S.model plan in
            StandsFor k R.records S.model.within_limits self.now events → result.now ≡ flying k (run_of k self.now events) from to }
    {
        self.links.list(from, to)
    }

    /// The first link that has a message in flight, if one has, in order of senders and takers. These are the members by
    /// their numbers, and the table service by the number of members. In constant time and with no memory.
    pub fn next_link(&self) -> Option<Link>
        ensures { (plan : S.Plan) (events : List (ProtocolEvent S.Call)) → let k = meaning S.model plan in
            StandsFor k R.records S.model.within_limits self.now events → result ≡ next_link (run_of k self.now events) }
    {
        self.links.next_link()
    }

    /// Whether so many messages or more are in flight on a link. Takes no memory.
    ///
    /// Costs a constant while fewer are in flight in all, and else the number of links.
    pub fn has_crowded_link(&self, most: usize) -> bool
        ensures { (plan : S.Plan) (events : List (ProtocolEvent S.Call)) → let k = meaning S.model plan in
            StandsFor k R.records S.model.within_limits self.now events → result ≡ has_crowded_link most (run_of k self.now events) }
    {
        self.links.has_crowded_link(most)
    }
}

impl<S: Shelf> World<S, Recorder<S::Call>>
where
    S::Call: Drop,
{
    /// The history by which the partition stands. Costs a pass over the bases and one over the log for each version in
    /// which it goes on, and memory for the places of its entries.
    pub fn trail(&self, alloc: Global) -> Result<Trail<'_, S::Call>, Memory>
        ensures { (plan : S.Plan) (events : List (ProtocolEvent S.Call)) → let k = meaning S.model plan in
            StandsFor k KeepsAll S.model.within_limits self.now events → IfOk result (λ entries. map entry_of entries ≡ trail (run_of k self.now events)) }
    {
        self.recorder.trail(alloc, self.leading_pair())
    }

    /// How many entries that history has. Costs what `trail` does, but takes no memory.
    pub fn trail_len(&self) -> u128
        ensures { (plan : S.Plan) (events : List (ProtocolEvent S.Call)) → let k = meaning S.model plan in
            StandsFor k KeepsAll S.model.within_limits self.now events → result ≡ length (trail (run_of k self.now events)) }
    {
        self.recorder.trail_len(self.leading_pair())
    }
}
