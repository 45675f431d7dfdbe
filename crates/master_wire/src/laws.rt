//! What holds of every spelling: each function here has an empty body, and its contract is the law.

ghost use Rattle.std.specs.Prelude.{◌≡◌, ℕ, List, ◌++◌, Ok};
ghost use Rattle.masters_protocol.specs.Members.{Message};
ghost use Rattle.master_wire.specs.declared.decision.Decision.{Decision as DecisionOf};
ghost use Rattle.master_wire.specs.Spelling.{spelling, IsSpelled};
ghost use Rattle.master_wire.specs.Reading.{reading};

/// What is written is read as itself.
pub fn what_is_written_is_read()
    ensures { (m : Message DecisionOf) → IsSpelled m → reading (spelling m) ≡ Ok m }
{}

/// No message has the spelling of another, and none begins with that of another.
pub fn spellings_stay_apart()
    ensures { (m n : Message DecisionOf) (x y : List ℕ) → IsSpelled m → IsSpelled n
        → spelling m ++ x ≡ spelling n ++ y → (m ≡ n) × (x ≡ y) }
{}
