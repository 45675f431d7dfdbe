ghost use Rattle.std.specs.Prelude.{◌≡◌, IfOk};

use grid_base::MemberId;
use migration::{Arrived, Committed, Drained, Joined, Joining};
use partition_table::{Row, RowMember};
use std::alloc::Global;
use std::process::Abort;
use std::test::Fail;

/// One that may lead.
fn may(member: MemberId) -> RowMember {
    RowMember {
        member,
        eligible: true,
    }
}

/// Member 1 comes into the opening row of members 2 and 0, in the place of one of them.
fn joining(rt: &impl Abort, alloc: Global, source: MemberId) -> Result<Joining, Fail> {
    let row = Row::initial(alloc, 5, 3, 1)?.with_joiner(alloc, 1)?;
    assert!(rt; row.contains(1) && row.contains(source));
    Ok(Joining::start(Some(source), 1, row))
}

/// It has the contents.
fn joined(rt: &impl Abort, alloc: Global, source: MemberId) -> Result<Joined, Fail>
    ensures { IfOk result (λ joined. joined.row.version ≡ 2) }
{
    match joining(rt, alloc, source)?.joined(1, 2) {
        Ok(Arrived::Joined(joined)) => {
            assert_eq!(rt; joined.row().version, 2);
            Ok(joined)
        }
        _ => Err(Fail::from("the target hasn't joined")),
    }
}

/// The source, which is primary, executes nothing more.
fn drained(rt: &impl Abort, alloc: Global) -> Result<Drained, Fail>
    ensures { IfOk result (λ drained. drained.row.version ≡ 2) }
{
    Ok(joined(rt, alloc, 2)?.freeze()?.drained(2)?)
}

fn assert_committed(rt: &impl Abort, committed: Committed, members: &[RowMember]) {
    let row = committed.into_row();
    assert_eq!(rt; row.version, 3);
    assert_eq!(rt; row.members.as_slice(), members);
}

#[test]
fn a_backup_leaves_at_once(rt: HostRuntime) -> Result<(), Fail> {
    let committed = joined(&rt, rt.alloc(), 0)?.drop_source(rt.alloc())?;
    assert_committed(&rt, committed, &[may(2), may(1)]);
    Ok(())
}

#[test]
fn a_primary_leaves_once_it_is_drained(rt: HostRuntime) -> Result<(), Fail> {
    let committed = drained(&rt, rt.alloc())?.commit(rt.alloc())?;
    assert_committed(&rt, committed, &[may(1), may(0)]);
    Ok(())
}

#[test]
fn a_move_may_be_given_up(rt: HostRuntime) -> Result<(), Fail> {
    let cancelled = joined(&rt, rt.alloc(), 2)?.cancel();
    assert_eq!(rt; (cancelled.source(), cancelled.target()), (Some(2), 1));
    assert_eq!(rt; cancelled.into_row().version, 2);
    let early = joining(&rt, rt.alloc(), 0)?.cancel();
    assert_eq!(rt; early.into_row().version, 2);
    Ok(())
}
