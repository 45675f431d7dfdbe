ghost use Rattle.std.specs.Prelude.{◌≡◌};
ghost use Rattle.partition_table.specs.declared.row.Row.{Row};
ghost use Rattle.partition_protocol.specs.Node.{Node, no_pair};
ghost use Rattle.partition_protocol.specs.Replica.{is_ahead};

use std::marker::Model;

/// Names contents of a partition: a version, and how many effects they have.
#[derive(Clone, Copy, Debug, PartialEq, Eq)]
pub struct Pair {
    /// The version of the row in which they are these contents.
    pub version: u32,
    /// How many effects they have: the count goes on from version to version.
    pub count: u32,
}

impl Model for Pair {
    ghost use Rattle.partition_protocol.specs.Node.{Pair};

    ghost Value = { Pair };

    ghost view = { λ p. record { version = p.version; count = p.count } };

    ghost inverse = { λ p. record { version = p.version; count = p.count } };
}

impl Pair {
    /// The pair of a member that isn't in the row: no version, and nothing counted.
    pub fn none() -> Pair
        ensures { result ≡ no_pair }
    {
        Pair {
            version: 0,
            count: 0,
        }
    }

    /// Whether contents of this name are past those of the other: of a later version, or of the same
    /// one with more effects. A backup installs whole contents where they are ahead of its own.
    pub fn is_ahead_of(&self, other: &Pair) -> bool
        ensures { (row : Row) (node : Node) → row.version ≡ self.now.version → node.pair ≡ other.now → result ≡ is_ahead row self.now.count node }
    {
        other.version < self.version || (other.version == self.version && other.count < self.count)
    }
}
