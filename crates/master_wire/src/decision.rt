ghost use Rattle.std.specs.Prelude.{◌≡◌, IfOk};

use grid_base::{Bytes, MemberId, Memory};
use std::alloc::Global;

/// One thing that the table service of a partition does, as its masters decide it.
#[derive(Debug, Drop)]
pub enum Decision {
    /// A member has crashed.
    Detect {
        member: MemberId,
    },
    /// A member is to take another's place in the row.
    BeginMove {
        from: MemberId,
        to: MemberId,
    },
    /// A member is to join the row.
    BeginJoin {
        to: MemberId,
    },
    /// A backup is to lead in place of the primary, which leaves the row.
    BeginHandover {
        from: MemberId,
        to: MemberId,
    },
    /// The move under way takes its next step.
    Advance,
    /// The loss of a lost partition is accepted.
    Reopen,
    /// The service takes the message that stands at a place of the link from a member.
    Take {
        from: MemberId,
        place: u32,
        message: Bytes,
    },
}

impl Decision {
    /// The same decision once more, at the cost of the message that it takes.
    pub fn copied(&self, alloc: Global) -> Result<Decision, Memory>
        ensures { IfOk result (λ copy. copy ≡ self.now) }
    {
        Ok(match self {
            Decision::Detect { member } => Decision::Detect { member: *member },
            Decision::BeginMove { from, to } => Decision::BeginMove {
                from: *from,
                to: *to,
            },
            Decision::BeginJoin { to } => Decision::BeginJoin { to: *to },
            Decision::BeginHandover { from, to } => Decision::BeginHandover {
                from: *from,
                to: *to,
            },
            Decision::Advance => Decision::Advance,
            Decision::Reopen => Decision::Reopen,
            Decision::Take {
                from,
                place,
                message,
            } => Decision::Take {
                from: *from,
                place: *place,
                message: message.copied(alloc)?,
            },
        })
    }
}
