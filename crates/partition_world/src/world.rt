ghost use Rattle.std.specs.Prelude.{◌≡◌, ◌≢◌, ℕ, ◌+◌, ◌<◌, ◌≤◌, ◌↔◌, ◌∷◌, List, [], map, length, vec_len, All, IsNone, IfSome, IfNone, IfOk};
ghost use Rattle.partition_protocol.specs.Node.{opening_node};
ghost use Rattle.partition_protocol.specs.Service.{numbers_below};
ghost use Rattle.partition_protocol.specs.Events.{Event as ProtocolEvent};
ghost use Rattle.replica_node.specs.Nodes.{node_of, contents_of, waiting as node_waiting, held_answers, ring_of, ends_of};
ghost use Rattle.grid_base.specs.Shelves.{meaning};
ghost use Rattle.partition_world.specs.Worlds.{StandsFor, IsReleased, run_of, setup_of, steps_of, waiting};

use crate::records::Records;
use grid_base::{MemberId, Memory, PartitionId, Shelf};
use link_net::Links;
use partition_table::Row;
use primary_hold::CallAnswer;
use replica_node::Node;
use std::alloc::Global;
use table_service::Service;

/// One partition: its members' nodes, the table service's part of it, the messages in flight, and what it records of its
/// history.
///
/// Its nodes keep each member's contents, the answers that are held or wait to be given out, and of a primary its 64
/// newest effects. Its links keep each message until it is delivered or lost. With `StandingRow` as its recorder nothing
/// else of it grows; with `Recorder` it also keeps every call that was executed.
///
/// To contracts a world stands for a list of events, whose calls keep to their limits and have names of their own: it is
/// as the protocol's run of them.
#[derive(Drop)]
pub struct World<S: Shelf, R: Records<S::Call>> {
    /// How many there are. At the ends of links this is the table service's number.
    pub(crate) members: u8,
    /// One of each member.
    pub(crate) nodes: Vec<Node<S>>,
    /// The last first.
    pub(crate) crashed: Vec<MemberId>,
    pub(crate) service: Service,
    pub(crate) links: Links,
    pub(crate) recorder: R,
    pub(crate) steps: u32,
}

impl<S: Shelf, R: Records<S::Call>> World<S, R> {
    /// A partition in its initial row, where nothing has happened. Takes memory for each member's node and for a link
    /// from each end to each.
    pub fn new(
        alloc: Global,
        partition: PartitionId,
        members: u8,
        backups: u8,
    ) -> Result<World<S, R>, Memory>
        requires some { 1 ≤ members }
        requires most { members ≤ 8 }
        ensures stands { IfOk result (λ world. (plan : S.Plan) → StandsFor (meaning S.model plan) R.records S.model.within_limits world []) }
        ensures setup { IfOk result (λ world. setup_of world ≡ record { partition = partition; members = members; backups = backups }) }
        ensures waiting { IfOk result (λ world. (member : ℕ) → waiting world member ≡ []) }
        ensures steps { IfOk result (λ world. steps_of world ≡ 0) }
    {
        let service = Service::new(alloc, partition, members, backups)?;
        let nodes = opening_nodes(alloc, members, service.row())?;
        let links = Links::new(alloc, members + 1)?;
        let recorder = R::new(alloc, service.row())?;
        Ok(World {
            members,
            nodes,
            crashed: Vec::new(alloc),
            service,
            links,
            recorder,
            steps: 0,
        })
    }

    /// Gives out the oldest released answer of a member that wasn't given out yet, in constant time and with no memory.
    pub fn pop_released(&mut self, member: MemberId) -> Option<CallAnswer>
        ensures given { IfSome result (λ answer. waiting self.old member ≡ answer ∷ waiting self.new member) }
        ensures none { IsNone result ↔ (waiting self.old member ≡ []) }
        ensures kept { IfNone result (waiting self.new member ≡ waiting self.old member) }
        ensures others { (other : ℕ) → other ≢ member → waiting self.new other ≡ waiting self.old other }
        ensures released { (plan : S.Plan) (events : List (ProtocolEvent S.Call)) → let k = meaning S.model plan in
            StandsFor k R.records S.model.within_limits self.old events → IfSome result (IsReleased (run_of k self.old events)) }

        // It is no event.
        ensures stands { (plan : S.Plan) (events : List (ProtocolEvent S.Call)) → let k = meaning S.model plan in
            StandsFor k R.records S.model.within_limits self.old events → StandsFor k R.records S.model.within_limits self.new events }
        ensures steps { steps_of self.new ≡ steps_of self.old }
        ensures setup { setup_of self.new ≡ setup_of self.old }
    {
        self.nodes.get_mut(usize::from(member))?.pop_released()
    }
}

/// The members' nodes at the start.
fn opening_nodes<S: Shelf>(alloc: Global, members: u8, row: &Row) -> Result<Vec<Node<S>>, Memory>
    requires { row.now.version ≡ 1 }
    ensures len { IfOk result (λ nodes. vec_len nodes ≡ members) }
    ensures nodes { IfOk result (λ nodes. map node_of nodes.items ≡ map (opening_node row.now) (numbers_below members)) }
    ensures empty { IfOk result (λ nodes. All (λ node. S.model.state (contents_of node) ≡ S.model.empty_state) nodes.items) }
    ensures waiting { IfOk result (λ nodes. All (λ node. node_waiting node ≡ []) nodes.items) }
    ensures held { IfOk result (λ nodes. All (λ node. held_answers node ≡ []) nodes.items) }
    ensures ring { IfOk result (λ nodes. All (λ node. ring_of node ≡ []) nodes.items) }
    ensures ends { IfOk result (λ nodes. map ends_of nodes.items ≡ map (λ m. record { member = m; service = members }) (numbers_below members)) }
{
    let mut nodes = Vec::with_capacity(alloc, usize::from(members))?;
    for member in 0..members {
        nodes.push(Node::new(alloc, member, members, row)?)?;
    }
    Ok(nodes)
}
