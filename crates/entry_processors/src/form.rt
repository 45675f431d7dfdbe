/// The rule that a processor follows, as plain data. Contracts see the `ProcessorForm` that it is.
#[derive(Clone, Copy, Debug, PartialEq, Eq)]
pub enum Form {
    /// As the processor `Add`.
    Add,
    /// As the processor `AddUpTo` of this limit.
    AddUpTo(i64),
    /// As the processor `Append`.
    Append,
    /// As the processor `SetIfGreater`.
    SetIfGreater,
    /// As the processor `Clear`.
    Clear,
}
