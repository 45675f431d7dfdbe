ghost use Rattle.std.specs.Prelude.{◌≡◌, ◌+◌, ◌<◌, ◌^◌, ℕ, true, List, [], Some, None, option_copied, map, IfOk, OnOk, OnErr};
ghost use Rattle.grid_base.specs.Objects.{IsSmall};
ghost use Rattle.partition_table.specs.declared.RowMember.{RowMember as MemberOf};
ghost use Rattle.partition_protocol.specs.Messages.{Effect};
ghost use Rattle.partition_protocol.specs.Execution.{Executes as IsExecuted, executing, reached, sent_on_executing};
ghost use Rattle.member_wire.specs.Said.{Contents};
ghost use Rattle.replica_node.specs.Calls.{reached_as, HasCalled, HasExecuted};
ghost use Rattle.replica_node.specs.Nodes.{node_of, contents_of, member_of, IsUnchanged};
ghost use Rattle.replica_node.specs.Sending.{Sends};

use crate::node::Node;
use backup_apply::ContentsChange;
use grid_base::{Bytes, CallId, Executes, Memory, Moment, PartitionRefused, Shelf};
use member_wire::Outbox;
use partition_table::RowMember;
use std::alloc::Global;

/// A call that was executed.
#[derive(Debug, Drop)]
pub struct Execution {
    /// The version in which it was executed.
    pub version: u32,
    /// The count of effects that it saw, its own included.
    pub seen: u32,
    /// A copy of its reply.
    pub reply: Bytes,
    /// Its answer waits for the backups. Else it is released, as are all before it.
    pub is_held: bool,
    /// Its effect, for each backup.
    pub sent: Outbox,
}

/// What became of a call.
#[derive(Debug, Drop)]
pub enum Called {
    Executed(Execution),
    /// The member executes none. Nothing has changed.
    Refused(PartitionRefused),
}

impl<S: Shelf> Node<S> {
    /// Executes a call that reaches the member, where it is primary and isn't frozen: makes its change, writes its
    /// effect for each backup, and holds its answer until each of them has what the call saw. Want of memory changes
    /// nothing, and comes only where the call would be executed.
    ///
    /// Costs what the shelf makes of the call, a copy of its reply, and a copy of its effect for each backup.
    pub fn call<N>(
        &mut self,
        alloc: Global,
        env: &N,
        id: CallId,
        call: &S::Call,
        now: Moment,
    ) -> Result<Called, Memory>
    where
        S: Executes<N>,
        requires limits { S.model.within_limits call.now }
        requires small { IsSmall S.model.within (S.model.state (contents_of self.old)) }
        requires fits { (node_of self.old).pair.count + 1 < 2 ^ 32 }
        ensures ok { IfOk result (HasCalled S.model (S.plan_of env.now) id call.now now self.old self.new) }
        ensures err { OnErr result (IsUnchanged S.model.state self.old self.new) }
        ensures wanted { OnErr result (reached (member_of self.old) (node_of self.old) ≡ IsExecuted) }
    {
        match self.refuses() {
            Some(why) => Ok(Called::Refused(why)),
            None => Ok(Called::Executed(self.execute(alloc, env, id, call, now)?)),
        }
    }

    /// Executes a call. All memory is taken before anything changes.
    fn execute<N>(
        &mut self,
        alloc: Global,
        env: &N,
        id: CallId,
        call: &S::Call,
        now: Moment,
    ) -> Result<Execution, Memory>
    where
        S: Executes<N>,
        requires limits { S.model.within_limits call.now }
        requires small { IsSmall S.model.within (S.model.state (contents_of self.old)) }
        requires fits { (node_of self.old).pair.count + 1 < 2 ^ 32 }
        requires reached { reached (member_of self.old) (node_of self.old) ≡ IsExecuted }
        ensures ok { IfOk result (HasExecuted S.model (S.plan_of env.now) id call.now now self.old self.new) }
        ensures err { OnErr result (IsUnchanged S.model.state self.old self.new) }
    {
        let executed = self.shelf.execute(alloc, env, call, now)?;
        let reply = executed.reply.copied(alloc)?;
        let sent = self.effect_for_each(alloc, executed.effect.as_ref())?;
        self.facts.reserve()?;
        let change = ContentsChange::of_effect(executed.effect.as_ref());
        change.perform(alloc, &mut self.shelf)?;
        self.facts.count_call(id, executed);
        let pair = self.facts.pair();
        self.facts.settle();
        Ok(Execution {
            version: pair.version,
            seen: pair.count,
            reply,
            is_held: self.facts.holds_any(),
            sent,
        })
    }

    /// Why it executes no call, if it does not.
    fn refuses(&self) -> Option<PartitionRefused>
        ensures { reached (member_of self.now) (node_of self.now) ≡ reached_as result }
    {
        let known = self.facts.known();
        let version = known.version;
        if known.lost {
            Some(PartitionRefused::PartitionLost { version })
        } else if !self.facts.leads() {
            Some(PartitionRefused::WrongTarget { version })
        } else if self.facts.is_frozen() {
            Some(PartitionRefused::Migrating { version })
        } else {
            None
        }
    }

    /// The effect of a call that is about to be counted, for each backup, if the call has one.
    fn effect_for_each(&self, alloc: Global, effect: Option<&Bytes>) -> Result<Outbox, Memory>
        requires { (node_of self.now).pair.count + 1 < 2 ^ 32 }
        ensures sent { (k : Contents) (bytes : List ℕ) (conn number : ℕ) → option_copied effect.entry ≡ Some bytes →
            let after = executing true conn number (node_of self.now) in
            k.effect after.pair.version after.pair.count ≡ bytes → IfOk result (Sends k (sent_on_executing true after) []) }
        ensures silent { option_copied effect.entry ≡ None → IfOk result (λ sent. sent ≡ []) }
    {
        let mut sent = Outbox::new(alloc);
        if let Some(effect) = effect {
            let pair = self.facts.pair();
            let backups = self.facts.known().backups();
            send_to_all(
                alloc,
                backups,
                pair.version,
                pair.count + 1,
                effect,
                &mut sent,
            )?;
        }
        Ok(sent)
    }
}

/// Writes the effect of a number to each of these members.
fn send_to_all(
    alloc: Global,
    backups: &[RowMember],
    version: u32,
    number: u32,
    effect: &Bytes,
    out: &mut Outbox,
) -> Result<(), Memory>
    ensures { (k : Contents) → k.effect version number ≡ effect.now →
        OnOk result (Sends k (map (λ (b : MemberOf). record { to = b.member; message = Effect version number }) backups.now) out.old out.new) }
{
    for backup in backups {
        out.write_effect(alloc, backup.member, version, number, effect)?;
    }
    Ok(())
}
