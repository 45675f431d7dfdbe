/// What became of a message between masters.
#[derive(Clone, Copy, Debug, PartialEq, Eq)]
pub enum MasterTook {
    /// The member took the log where it was longer than its own, and said how long its own is now.
    Stored,
    /// The serving master of that term counts it.
    Counted,
    /// The member told its log.
    Asked,
    /// The gathering master of that term keeps the log.
    Told,
    /// The member has seen a greater term.
    Other,
    /// The member isn't the master that it is for.
    Stale,
    /// The member has crashed.
    Dropped,
    /// There is no message at that place.
    Nothing,
}
