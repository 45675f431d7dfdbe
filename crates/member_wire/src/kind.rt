ghost use Rattle.std.specs.Prelude.{◌≡◌};
ghost use Rattle.member_wire.specs.Kinds.{kind_byte, kind_of};

/// What a message is about, which its first byte says.
#[derive(Clone, Copy, Debug, PartialEq, Eq)]
pub enum Kind {
    NewRow = 1,
    Sync = 2,
    Effect = 3,
    Ack = 4,
    Joined = 5,
    Freeze = 6,
    Frozen = 7,
    Bridge = 8,
}

impl Kind {
    /// The byte that stands for this kind.
    pub fn byte(self) -> u8
        ensures { result ≡ kind_byte self }
    {
        self as u8
    }

    /// The kind that a byte stands for, if there is one.
    pub fn of_byte(byte: u8) -> Option<Kind>
        ensures { result ≡ kind_of byte }
    {
        match byte {
            1 => Some(Kind::NewRow),
            2 => Some(Kind::Sync),
            3 => Some(Kind::Effect),
            4 => Some(Kind::Ack),
            5 => Some(Kind::Joined),
            6 => Some(Kind::Freeze),
            7 => Some(Kind::Frozen),
            8 => Some(Kind::Bridge),
            _ => None,
        }
    }
}
