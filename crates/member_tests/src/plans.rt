use grid_base::{MemberId, Memory, PartitionId};
use partition_table::{Row, RowMember, RowMembers};
use rebalance::{Plan, PlanRefused, Step, StepKind, are_undetected, plan};
use std::alloc::{AllocGlobal, Global};
use std::process::Abort;
use std::test::Fail;

/// The row whose members are the digits, the primary first; a lost one for no digit.
fn row_of(alloc: Global, digits: &str) -> Result<Row, Memory> {
    let mut members = Vec::new(alloc);
    for digit in digits.bytes() {
        if digit >= b'0' {
            members.push(RowMember {
                member: digit - b'0',
                eligible: true,
            })?;
        }
    }
    Ok(Row {
        version: 1,
        reset: 0,
        lost: members.is_empty(),
        members: RowMembers::from_vec(members),
    })
}

fn rows_of(alloc: Global, texts: &[&str]) -> Result<Vec<Row>, Memory> {
    let mut rows = Vec::new(alloc);
    for text in texts {
        rows.push(row_of(alloc, text)?)?;
    }
    Ok(rows)
}

/// The plan for three members of which none is detected, once its conditions are tested.
fn tested_plan(
    rt: &(impl Abort + AllocGlobal),
    rows: &[Row],
    moving: &[bool],
) -> Result<Plan, PlanRefused> {
    assert!(rt; moving.len() == rows.len() && rows.len() <= 271);
    if !are_undetected(rows, &[], 3) {
        panic!(rt; "a primary is detected");
    }
    plan(rt.alloc(), rows, moving, &[], 3)
}

fn step(partition: PartitionId, from: MemberId, to: MemberId, kind: StepKind) -> Step {
    Step {
        partition,
        from,
        to,
        kind,
    }
}

#[test]
fn leaves_lost_rows(rt: HostRuntime) -> Result<(), Fail> {
    let texts = [
        "0", "02", "-", "021", "-", "210", "-", "02", "01", "-", "0", "012",
    ];
    let rows = rows_of(rt.alloc(), &texts)?;
    let plan = tested_plan(&rt, &rows, &[false; 12])?;
    assert_eq!(rt; plan.targets.as_slice(), [3, 2, 3].as_slice());
    let steps = [
        step(0, 0, 1, StepKind::Move),
        step(1, 0, 1, StepKind::Move),
        step(3, 0, 2, StepKind::Handover),
        step(7, 0, 2, StepKind::Handover),
    ];
    assert_eq!(rt; plan.steps.as_slice(), steps.as_slice());
    Ok(())
}
