use entry_processors::Form;
use grid_base::PartitionId;

/// What a partition's cell is made for, as plain data.
#[derive(Drop)]
pub struct GridPlan {
    pub partition: PartitionId,
    /// How many members there are.
    pub members: u8,
    /// How many backups a row has at most.
    pub backups: u8,
    /// The forms of the processors that calls may name, in the order of their numbers.
    pub forms: Vec<Form>,
    /// How many values a queue may have.
    pub capacity: u32,
}
