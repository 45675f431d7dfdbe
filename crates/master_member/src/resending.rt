ghost use Rattle.std.specs.Prelude.{◌≡◌, IfOk};
ghost use Rattle.masters_protocol.specs.Members.{sent_again, has_sent};
ghost use Rattle.master_member.specs.Steps.{AreWritten, IsSingle};

use crate::member::Member;
use crate::peers::{peers, to_each};
use crate::role::Role;
use crate::stepping::{Sent, stores};
use grid_base::{MemberId, Memory};
use master_wire::write_ask;
use std::alloc::Global;

impl Member {
    /// What it has sent as master and isn't answered, once more. Costs the log for each member to whom it goes.
    pub fn sent_again(&self, alloc: Global, size: u8, number: MemberId) -> Result<Sent, Memory>
        ensures sent { IfOk result (λ sent. AreWritten sent.items (sent_again size number self.now)) }
        ensures single { IfOk result (λ sent. IsSingle size sent.items) }
    {
        let peers = peers(alloc, size, number, self.told.as_slice())?;
        match &self.role {
            Role::Gathering { tells } => {
                let silent = tells.silent(alloc, peers.as_slice())?;
                to_each(alloc, &write_ask(alloc, number)?, silent.as_slice())
            }
            Role::Serving { counts } if self.has_sent(number) => {
                let behind = counts.behind(alloc, self.log.len(), peers.as_slice())?;
                stores(alloc, number, self.log.as_slice(), behind.as_slice())
            }
            _ => Ok(Vec::new(alloc)),
        }
    }

    /// Whether it has sent a `Store` where it serves: the first member serves from the start, and sends none before its
    /// first decision.
    fn has_sent(&self, number: MemberId) -> bool
        ensures { result ≡ has_sent number self.now }
    {
        number != 0 || !self.log.is_empty()
    }
}
