use partition_protocol::Pair;

/// What a member has of a partition, and the pair that names it.
#[derive(Drop)]
pub struct Contents<'a, S> {
    pub pair: Pair,
    pub shelf: &'a S,
}
