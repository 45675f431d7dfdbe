ghost use Rattle.std.specs.Prelude.{◌≡◌, ◌<◌, List, Some};
ghost use Rattle.grid_base.specs.Shelves.{meaning};
ghost use Rattle.partition_protocol.specs.Node.{Node as ProtocolNode};
ghost use Rattle.partition_protocol.specs.Execution.{reached};
ghost use Rattle.partition_protocol.specs.Events.{Event as ProtocolEvent};
ghost use Rattle.partition_world.specs.Worlds.{StandsFor, run_of, node_count};
ghost use Rattle.waiting_protocol.specs.LineClaims.{standing};
ghost use Rattle.wait_sets.specs.ListLaws.{standing_as};

use crate::turn::Standing;
use grid_base::{MemberId, PartitionRefused, Shelf};
use partition_table::Row;
use partition_world::{Records, World};

/// What a member of a partition would do with a call now. Takes no memory.
pub fn standing_of<S: Shelf, R: Records<S::Call>>(world: &World<S, R>, member: MemberId) -> Standing
    requires { member < node_count world.now }
    ensures { (plan : S.Plan) (events : List (ProtocolEvent S.Call)) → let k = meaning S.model plan in
        StandsFor k R.records S.model.within_limits world.now events → standing_as result ≡ standing (run_of k world.now events) member }
{
    if world.is_live(member) {
        standing_by(world.known(member), world.is_frozen(member), member)
    } else {
        Standing::Gone
    }
}

/// What a live member that knows this row would do with a call.
fn standing_by(known: &Row, frozen: bool, member: MemberId) -> Standing
    ensures { (node : ProtocolNode) → known.now ≡ node.known → frozen ≡ node.frozen → standing_as result ≡ Some (reached member node) }
{
    let version = known.version;
    if known.lost {
        Standing::Refuses(PartitionRefused::PartitionLost { version })
    } else if !known.is_primary(member) {
        Standing::Refuses(PartitionRefused::WrongTarget { version })
    } else if frozen {
        Standing::Refuses(PartitionRefused::Migrating { version })
    } else {
        Standing::Serves
    }
}
