ghost use Rattle.std.specs.Prelude.{◌≡◌, ◌+◌, ◌≤◌, ◌<◌, ◌^◌, true, false, Some, OnOk};
ghost use Rattle.partition_table.specs.Rows.{is_primary, is_backup};
ghost use Rattle.partition_protocol.specs.Node.{settled, with_ack};
ghost use Rattle.partition_protocol.specs.Replica.{with_pair};
ghost use Rattle.primary_hold.specs.Changes.{Becomes, HasCounted, with_effect};
ghost use Rattle.primary_hold.specs.Facts.{node_of, member_of, answers_of, ring_of};
ghost use Rattle.primary_hold.specs.Rings.{ring_after};

use crate::answer::CallAnswer;
use crate::facts::Facts;
use grid_base::{Bytes, CallId, Executed, MemberId, Memory};
use partition_protocol::Pair;

impl Facts {
    /// A member that isn't primary has contents of that name from now on.
    pub fn rename(&mut self, pair: Pair)
        requires { is_primary (node_of self.old).known (member_of self.old) ≡ false }
        ensures { Becomes self.old self.new (with_pair (node_of self.old) pair.version pair.count) }
    {
        self.pair = pair;
    }

    /// A primary keeps what a backup acknowledged, if it is more than before. Goes over the acknowledgements once.
    pub fn keep_ack(&mut self, member: MemberId, count: u32)
        requires leads { is_primary (node_of self.old).known (member_of self.old) ≡ true }
        requires backup { is_backup (node_of self.old).known member ≡ true }
        ensures { let node = node_of self.old in
            Becomes self.old self.new (record node { acks = with_ack member count node.acks }) }
    {
        self.acks.keep(member, count);
    }

    /// Executes no more in the known version.
    pub fn freeze(&mut self)
        ensures { Becomes self.old self.new (record (node_of self.old) { frozen = true }) }
    {
        self.frozen = true;
    }

    /// Releases the answers that each backup has acknowledged, up to the first that one hasn't. Goes over the
    /// acknowledgements for each backup and released answer.
    pub fn settle(&mut self)
        ensures { Becomes self.old self.new (settled (node_of self.old)) }
    {
        while self.may_release() {
            self.answers.release_first();
        }
    }

    /// Makes room for one answer more. It may move them all, which is rare, as the room doubles.
    pub fn reserve(&mut self) -> Result<(), Memory>
        ensures same { Becomes self.old self.new (node_of self.old) }
        ensures answers { answers_of self.new ≡ answers_of self.old }
        ensures room { OnOk result (1 ≤ self.new.answers.spare) }
    {
        self.answers.reserve()
    }

    /// A primary counts a call that was executed, into the room that there is, and holds its answer. Takes no memory.
    pub fn count_call(&mut self, id: CallId, executed: Executed)
        requires leads { is_primary (node_of self.old).known (member_of self.old) ≡ true }
        requires room { 1 ≤ self.old.answers.spare }
        requires fits { (node_of self.old).pair.count + 1 < 2 ^ 32 }
        ensures { HasCounted self.old self.new id executed }
    {
        let Executed {
            reply,
            effect,
            change,
        } = executed;
        if let Some(bytes) = effect {
            self.count_effect(bytes);
        }
        self.answers.hold(CallAnswer {
            id,
            version: self.pair.version,
            seen: self.pair.count,
            reply,
            change,
        });
    }

    /// Counts an effect, and keeps it among the newest ones.
    fn count_effect(&mut self, bytes: Bytes)
        requires leads { is_primary (node_of self.old).known (member_of self.old) ≡ true }
        requires fits { (node_of self.old).pair.count + 1 < 2 ^ 32 }
        ensures node { node_of self.new ≡ with_effect (node_of self.old) }
        ensures answers { self.new.answers ≡ self.old.answers }
        ensures ring { ring_of self.new ≡ ring_after (Some bytes) (ring_of self.old) }
        ensures member { member_of self.new ≡ member_of self.old }
    {
        self.pair = Pair {
            version: self.pair.version,
            count: self.pair.count + 1,
        };
        self.recent += 1;
        self.effects.push_back(bytes);
    }
}
