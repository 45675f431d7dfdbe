use thiserror::Error;

/// Why the bytes of a link are outside its grammar. Nothing that follows a fault is read.
#[derive(Clone, Copy, Debug, PartialEq, Eq, Error)]
pub enum LinkFault {
    /// It does not begin with the number that a link begins with.
    #[error("this is no link of a grid's members, or one of another version")]
    NotALink,
    /// A batch is for a partition that no grid has.
    #[error("a batch is for a partition that there is not")]
    NoPartition,
    /// A batch would carry more bytes than one may.
    #[error("a batch is longer than a batch may be")]
    TooLong,
    /// The checksum of a batch is not that of its partition and its bytes.
    #[error("a batch differs from its checksum")]
    Checksum,
}
