ghost use Rattle.std.specs.Prelude.{◌≡◌, ℕ, ◌<◌, List, Some, length, slice_get, true, IfOk, OnErr};
ghost use Rattle.partition_protocol.specs.Messages.{Message};
ghost use Rattle.partition_protocol.specs.Links.{link};
ghost use Rattle.partition_protocol.specs.World.{is_live};
ghost use Rattle.partition_protocol.specs.Events.{Event as ProtocolEvent, Deliver};
ghost use Rattle.link_net.specs.Links.{list_of};
ghost use Rattle.member_wire.specs.Said.{message_of, said_with};
ghost use Rattle.grid_base.specs.Shelves.{meaning};
ghost use Rattle.partition_world.specs.InFlight.{contents_in};
ghost use Rattle.partition_world.specs.Sending.{most_of};
ghost use Rattle.partition_world.specs.Worlds.{Comes, HasRun, IsKept, KeepsSetup, run_of};

use crate::base::Base;
use crate::event::Happened;
use crate::in_flight::{MOST_SENT, MOST_TOLD};
use crate::records::Records;
use crate::world::World;
use grid_base::{Memory, Shelf};
use member_wire::{MemberMessage, Took, read_member};
use replica_node::Taken;
use std::alloc::{AllocError, Global};

/// How many messages a member sends another one at most as it takes this one: a catch-up where it brings a row, and else
/// an answer, or two words to the table service.
fn most_sent(message: &MemberMessage) -> usize
    ensures { result ≡ most_of (message_of message.now) }
{
    match message {
        MemberMessage::NewRow { .. } | MemberMessage::Sync { .. } | MemberMessage::Bridge { .. } =>
            { MOST_SENT }
        _ => MOST_TOLD,
    }
}

impl<S: Shelf, R: Records<S::Call>> World<S, R> {
    /// The message at that place of a link is handed over: to the table service, to a live member, or to a crashed one,
    /// where it is dropped.
    pub(crate) fn deliver(
        &mut self,
        alloc: Global,
        from: u8,
        to: u8,
        place: usize,
    ) -> Result<Happened, Memory>
        requires { (plan : S.Plan) × (events : List (ProtocolEvent S.Call)) × Comes (meaning S.model plan) R.records S.model.within_limits self.old events (Deliver from to place) }
        ensures ok { (plan : S.Plan) (events : List (ProtocolEvent S.Call)) → let k = meaning S.model plan in
            Comes k R.records S.model.within_limits self.old events (Deliver from to place) → IfOk result (HasRun k R.records self.old self.new events (Deliver from to place)) }
        ensures err { (plan : S.Plan) (events : List (ProtocolEvent S.Call)) → let k = meaning S.model plan in
            Comes k R.records S.model.within_limits self.old events (Deliver from to place) → OnErr result (IsKept k R.records self.old self.new events) }
        ensures keeps { KeepsSetup self.old self.new }
    {
        if place >= self.links.list(from, to).len() {
            return Ok(Happened::Nothing);
        }
        if to == self.members {
            return self.deliver_to_service(alloc, from, place);
        }
        if !self.is_live(to) {
            self.links.lose(from, to, place);
            return Ok(Happened::Took(Took::Dropped));
        }
        self.deliver_to_member(alloc, from, to, place)
    }

    fn deliver_to_service(
        &mut self,
        alloc: Global,
        from: u8,
        place: usize,
    ) -> Result<Happened, Memory>
        requires comes { (plan : S.Plan) × (events : List (ProtocolEvent S.Call)) × Comes (meaning S.model plan) R.records S.model.within_limits self.old events (Deliver from self.old.members place) }
        requires there { place < length (list_of self.old.links from self.old.members) }
        ensures ok { (plan : S.Plan) (events : List (ProtocolEvent S.Call)) → let k = meaning S.model plan in let e = Deliver from self.old.members place in
            Comes k R.records S.model.within_limits self.old events e → IfOk result (HasRun k R.records self.old self.new events e) }
        ensures err { (plan : S.Plan) (events : List (ProtocolEvent S.Call)) → let k = meaning S.model plan in
            Comes k R.records S.model.within_limits self.old events (Deliver from self.old.members place) → OnErr result (IsKept k R.records self.old self.new events) }
        ensures keeps { KeepsSetup self.old self.new }
    {
        let message = self.message(alloc, from, self.members, place)?;
        self.links.lose(from, self.members, place);
        let took = self.service.take(&message);
        if let MemberMessage::Joined { .. } = message {
            self.recorder.stand(self.service.row());
        }
        Ok(Happened::Took(took))
    }

    /// All memory is taken before anything changes.
    fn deliver_to_member(
        &mut self,
        alloc: Global,
        from: u8,
        to: u8,
        place: usize,
    ) -> Result<Happened, Memory>
        requires comes { (plan : S.Plan) × (events : List (ProtocolEvent S.Call)) × Comes (meaning S.model plan) R.records S.model.within_limits self.old events (Deliver from to place) }
        requires lives { (plan : S.Plan) (events : List (ProtocolEvent S.Call)) → let k = meaning S.model plan in
            Comes k R.records S.model.within_limits self.old events (Deliver from to place) → is_live (run_of k self.old events) to ≡ true }
        requires there { place < length (list_of self.old.links from to) }
        ensures ok { (plan : S.Plan) (events : List (ProtocolEvent S.Call)) → let k = meaning S.model plan in
            Comes k R.records S.model.within_limits self.old events (Deliver from to place) → IfOk result (HasRun k R.records self.old self.new events (Deliver from to place)) }
        ensures err { (plan : S.Plan) (events : List (ProtocolEvent S.Call)) → let k = meaning S.model plan in
            Comes k R.records S.model.within_limits self.old events (Deliver from to place) → OnErr result (IsKept k R.records self.old self.new events) }
        ensures keeps { KeepsSetup self.old self.new }
    {
        let message = self.message(alloc, from, to, place)?;
        self.recorder.reserve()?;
        self.links.reserve(to, most_sent(&message))?;
        let node = &mut self.nodes[usize::from(to)];
        let known = node.known().version;
        let pair = node.contents().pair;
        let Taken { took, sent } = node.take(alloc, from, &message)?;
        let begins = node.known().version > known && node.is_primary();
        let base = Base::begun(node.known(), pair);
        self.recorder.begin_if(begins, base);
        self.links.lose(from, to, place);
        self.links.send_all(to, sent.into_vec());
        Ok(Happened::Took(took))
    }

    /// The message at that place of a link, from its bytes.
    fn message(
        &self,
        alloc: Global,
        from: u8,
        to: u8,
        place: usize,
    ) -> Result<MemberMessage, Memory>
        requires { place < length (list_of self.now.links from to) }
        ensures { (plan : S.Plan) (events : List (ProtocolEvent S.Call)) → let k = meaning S.model plan in
            Comes k R.records S.model.within_limits self.now events (Deliver from to place) → let w = run_of k self.now events in
            (msg : Message) → slice_get (link from to w.packets) place ≡ Some (record { from = from; to = to; message = msg }) → IfOk result (λ message. message ≡ said_with (contents_in k w) msg) }
    {
        match read_member(alloc, self.links.list(from, to)[place].as_slice()) {
            Ok(message) => Ok(message),
            Err(_) => Err(AllocError),
        }
    }
}
