/// The history at a reopening.
#[derive(Drop)]
pub(crate) struct Opening {
    /// The version of the reopened row.
    pub(crate) reset: u32,
    /// Where its entries stand in the log, its reset last.
    pub(crate) places: Vec<usize>,
}
