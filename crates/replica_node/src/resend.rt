ghost use Rattle.std.specs.Prelude.{◌≡◌, IfOk};
ghost use Rattle.grid_base.specs.Objects.{IsSmall};
ghost use Rattle.replica_node.specs.Nodes.{contents_of};
ghost use Rattle.replica_node.specs.Taken.{HasSentAgain};

use crate::catch_up::send_joined;
use crate::node::Node;
use crate::reaction::write_drained;
use grid_base::{Memory, Shelf};
use member_wire::Outbox;
use std::alloc::Global;

impl<S: Shelf> Node<S> {
    /// What a primary sends again, since it may have been lost; no other member sends anything. Each backup that lags is
    /// sent what it lacks, and the service who has joined, and that the primary is frozen and holds nothing. Costs a
    /// snapshot of the contents at most, and what it writes.
    pub fn resend(&self, alloc: Global) -> Result<Option<Outbox>, Memory>
        requires { IsSmall S.model.within (S.model.state (contents_of self.now)) }
        ensures { IfOk result (HasSentAgain S.model.snapshot_of S.model.state self.now) }
    {
        if !self.facts.leads() {
            return Ok(None);
        }
        let mut out = Outbox::new(alloc);
        let view = self.facts.view();
        self.send_lagging(alloc, &view, &mut out)?;
        send_joined(alloc, self.service, &view, &mut out)?;
        let drained = self.facts.is_drained();
        write_drained(
            alloc,
            self.service,
            self.facts.known().version,
            drained,
            &mut out,
        )?;
        Ok(Some(out))
    }
}
