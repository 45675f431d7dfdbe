use partition_protocol::Pair;

/// How a history goes on from version to version.
#[derive(Drop)]
pub(crate) struct Chain {
    /// The pairs whose entries it has, the newest first.
    pub(crate) pairs: Vec<Pair>,
    /// The reset of the reopening with whose history it begins, if it begins with one.
    pub(crate) anew: Option<u32>,
}
