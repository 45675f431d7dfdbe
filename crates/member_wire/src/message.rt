use crate::kind::Kind;
use grid_base::{Bytes, MemberId};
use partition_table::Row;

/// The most members that a row has.
pub const MAX_MEMBERS: usize = 8;

/// What the members of a partition and the table service say to one another.
///
/// Contents travel as bytes, which only a shelf looks into.
#[derive(Debug, Drop)]
pub enum MemberMessage {
    /// The service made this row.
    NewRow {
        row: Row,
    },
    /// The primary's contents, whole, as they are in the row's version after so many effects.
    Sync {
        row: Row,
        count: u32,
        snapshot: Bytes,
    },
    /// The effect of that number in a version.
    Effect {
        version: u32,
        number: u32,
        effect: Bytes,
    },
    /// The sender has that version's contents after so many effects.
    Ack {
        version: u32,
        count: u32,
    },
    /// A joiner of that version has its contents.
    Joined {
        version: u32,
        member: MemberId,
    },
    /// The primary of that version is to execute no more.
    Freeze {
        version: u32,
    },
    /// The primary of that version executes no more, and holds no answer.
    Frozen {
        version: u32,
    },
    /// The row's version began with what the base version had after so many effects.
    Bridge {
        row: Row,
        base: u32,
        count: u32,
    },
}

impl MemberMessage {
    ghost use Rattle.std.specs.Prelude.{◌≡◌};
    ghost use Rattle.member_wire.specs.Spelling.{kind_of_message};

    pub fn kind(&self) -> Kind
        ensures { result ≡ kind_of_message self.now }
    {
        match self {
            MemberMessage::NewRow { .. } => Kind::NewRow,
            MemberMessage::Sync { .. } => Kind::Sync,
            MemberMessage::Effect { .. } => Kind::Effect,
            MemberMessage::Ack { .. } => Kind::Ack,
            MemberMessage::Joined { .. } => Kind::Joined,
            MemberMessage::Freeze { .. } => Kind::Freeze,
            MemberMessage::Frozen { .. } => Kind::Frozen,
            MemberMessage::Bridge { .. } => Kind::Bridge,
        }
    }
}
