use grid_base::PartitionId;
use std::marker::Model;

/// A partition was reopened, at a line.
#[derive(Clone, Copy)]
pub(crate) struct Reopened {
    pub(crate) partition: PartitionId,
    pub(crate) line: u32,
}

impl Model for Reopened {
    ghost use Rattle.replay_run.specs.Runs.{Reopened};

    ghost Value = { Reopened };

    ghost view = { λ x. record { partition = x.partition; line = x.line } };

    ghost inverse = { λ x. record { partition = x.partition; line = x.line } };
}
