//! What holds of every spelling: each function here has an empty body, and its contract is the law.

ghost use Rattle.std.specs.Prelude.{◌≡◌, ℕ, List, ◌++◌};
ghost use Rattle.member_wire.specs.declared.message.MemberMessage.{MemberMessage as MemberMessageOf};
ghost use Rattle.member_wire.specs.Spelling.{spelling, IsSpelled, LengthsFit};
ghost use Rattle.member_wire.specs.Said.{Contents, message_of, said_with};
ghost use Rattle.partition_protocol.specs.Messages.{Message};

/// No message has the spelling of another, and none begins with that of another.
pub fn spellings_stay_apart()
    ensures { (m n : MemberMessageOf) (x y : List ℕ) → IsSpelled m → IsSpelled n
        → spelling m ++ x ≡ spelling n ++ y → (m ≡ n) × (x ≡ y) }
{}

/// What has a spelling can be written.
pub fn spelled_lengths_fit()
    ensures { (m : MemberMessageOf) → IsSpelled m → LengthsFit m }
{}

/// What is written for a message of the protocol, whatever its contents, says that message.
pub fn what_is_written_is_said()
    ensures { (k : Contents) (m : Message) → message_of (said_with k m) ≡ m }
{}
