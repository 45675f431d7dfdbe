ghost use Rattle.std.specs.Prelude.{◌≡◌};
ghost use Rattle.partition_protocol.specs.Service.{on_joined, on_frozen};
ghost use Rattle.member_wire.specs.Said.{message_of, took_of};

use crate::service::Service;
use grid_base::MemberId;
use member_wire::{MemberMessage, Took};

impl Service {
    ghost use Rattle.table_service.specs.Services.{service_of, setup_of};
    ghost use Rattle.table_service.specs.Steps.{taking_at_service};

    /// Takes a message, in one pass over the row's members and with no memory. A member of the newest row that has its
    /// contents may lead from now on, and a source that is frozen is drained. What is said to a member isn't for the
    /// service, and changes nothing.
    pub fn take(&mut self, message: &MemberMessage) -> Took
        ensures setup { setup_of self.new ≡ setup_of self.old }
        ensures service { service_of self.new ≡ (taking_at_service (message_of message.now) (service_of self.old)).service }
        ensures took { took_of result ≡ (taking_at_service (message_of message.now) (service_of self.old)).took }
    {
        match message {
            MemberMessage::Joined { version, member } => self.take_joined(*version, *member),
            MemberMessage::Frozen { version } => self.take_frozen(*version),
            _ => Took::Other,
        }
    }

    fn take_joined(&mut self, version: u32, member: MemberId) -> Took
        ensures setup { setup_of self.new ≡ setup_of self.old }
        ensures service { service_of self.new ≡ (on_joined version member (service_of self.old)).service }
        ensures took { took_of result ≡ (on_joined version member (service_of self.old)).took }
    {
        let row = self.row();
        if row.version != version || !row.contains(member) || row.is_eligible(member) {
            return Took::Stale;
        }
        self.phase = self.take_phase().joined(member);
        Took::Joined
    }

    fn take_frozen(&mut self, version: u32) -> Took
        ensures setup { setup_of self.new ≡ setup_of self.old }
        ensures service { service_of self.new ≡ (on_frozen version (service_of self.old)).service }
        ensures took { took_of result ≡ (on_frozen version (service_of self.old)).took }
    {
        let (phase, drained) = self.take_phase().drained(version);
        self.phase = phase;
        if drained { Took::Drained } else { Took::Stale }
    }
}
