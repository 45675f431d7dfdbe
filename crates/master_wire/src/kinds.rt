ghost use Rattle.std.specs.Prelude.{◌≡◌};
ghost use Rattle.master_wire.specs.Kinds.{decision_byte, decision_of, message_byte, message_of};

/// What a decision is, which its first byte says.
#[derive(Clone, Copy, Debug, PartialEq, Eq)]
pub enum DecisionKind {
    Detect = 1,
    BeginMove = 2,
    BeginJoin = 3,
    BeginHandover = 4,
    Advance = 5,
    Reopen = 6,
    Take = 7,
}

impl DecisionKind {
    /// The byte that stands for this kind.
    pub fn byte(self) -> u8
        ensures { result ≡ decision_byte self }
    {
        self as u8
    }

    /// The kind that a byte stands for, if there is one.
    pub fn of_byte(byte: u8) -> Option<DecisionKind>
        ensures { result ≡ decision_of byte }
    {
        match byte {
            1 => Some(DecisionKind::Detect),
            2 => Some(DecisionKind::BeginMove),
            3 => Some(DecisionKind::BeginJoin),
            4 => Some(DecisionKind::BeginHandover),
            5 => Some(DecisionKind::Advance),
            6 => Some(DecisionKind::Reopen),
            7 => Some(DecisionKind::Take),
            _ => None,
        }
    }
}

/// What a master's message is about, which its first byte says.
#[derive(Clone, Copy, Debug, PartialEq, Eq)]
pub enum MessageKind {
    Store = 16,
    Stored = 17,
    Ask = 18,
    Tell = 19,
}

impl MessageKind {
    /// The byte that stands for this kind.
    pub fn byte(self) -> u8
        ensures { result ≡ message_byte self }
    {
        self as u8
    }

    /// The kind that a byte stands for, if there is one.
    pub fn of_byte(byte: u8) -> Option<MessageKind>
        ensures { result ≡ message_of byte }
    {
        match byte {
            16 => Some(MessageKind::Store),
            17 => Some(MessageKind::Stored),
            18 => Some(MessageKind::Ask),
            19 => Some(MessageKind::Tell),
            _ => None,
        }
    }
}
