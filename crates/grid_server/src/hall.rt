//! The side of a server that clients meet.
ghost use Rattle.call_engine.specs.Limits.{RequestFits};
ghost use Rattle.live_grid.specs.Grids.{place_of};
ghost use Rattle.live_grid.specs.Histories.{live_key};
ghost use Rattle.live_server.specs.Standing.{MayServe};
ghost use Rattle.live_session.specs.Connections.{ServesCalls};
ghost use Rattle.grid_server.specs.Serving.{at_doors};
ghost use Rattle.grid_server.specs.Tasks.{HasServedClients};

use crate::stage::Stage;
use grid_edge::{Clock, DoorFault, Doors};
use live_grid::{Environment, LiveWorld};
use live_server::{Closed, Connections, serve};
use partition_threads::Gate;
use std::sync::Wait;

/// Serves the clients that come through the doors, and makes their calls on this thread where that can be. Answers its closing as
/// it was seen.
pub(crate) fn serve_hall<N: Environment, C: Clock, D: Doors, G: Gate, R: Wait>(
    rt: &R,
    stage: &Stage<N, D::Waker>,
    gate: &G,
    clock: &mut C,
    connections: &mut Connections<LiveWorld, D::From, D::To>,
    doors: &mut D,
) -> Result<Closed<D>, DoorFault>
    requires calls { ServesCalls RequestFits (place_of stage.now.grid) }
    requires may { MayServe live_key (place_of stage.now.grid) connections.old (D.book doors.old) }
    ensures served { HasServedClients D.empty_looks stage.now.grid (C.given clock.new) connections.new
        (at_doors (D.book doors.old) (D.empty_looks doors.old) (D.faults doors.old))
        (at_doors (D.book doors.new) (D.empty_looks doors.new) (D.faults doors.new)) result }
{
    let (alloc, place, closing) = (stage.alloc, stage.grid.workplace(), &stage.closing);
    let env = &stage.env;
    serve(
        rt,
        alloc,
        place,
        env,
        gate,
        connections,
        doors,
        clock,
        closing,
    )
}
