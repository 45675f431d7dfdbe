ghost use Rattle.std.specs.Prelude.{◌≡◌, ℕ, ◌<◌, ◌&&◌, ◌==◌, None, if◌then◌else◌, IfOk};
ghost use Rattle.partition_table.specs.Rows.{with_eligible};
ghost use Rattle.partition_protocol.specs.Service.{NoMove, Freezing as FreezingMove, Freezes as FreezesSource, MakesRow as RowMade, is_idle, is_freezing, is_in_move, move_in_row, move_after_loss, handover_refused, handing_over, advance_by, joined_move, drained_move};
ghost use Rattle.migration.specs.Steps.{joining_step, joined_step, service_at, step_of};
ghost use Rattle.migration.specs.Outcomes.{ongoing_step, arrived_step};
ghost use Rattle.table_service.specs.Phases.{phase_step, advance_step};

use grid_base::{MemberId, Memory};
use migration::{Arrived, Drained, Freezing, Joined, Joining, Ongoing};
use partition_table::{Row, RowMembers};
use std::alloc::Global;

/// The newest row of a partition, in the state of the move under way.
#[derive(Debug, Drop)]
pub(crate) enum Phase {
    Idle(Row),
    Joining(Joining),
    Joined(Joined),
    Freezing(Freezing),
    Drained(Drained),
}

/// What the next step of a move is to do.
#[derive(Debug, Drop)]
pub(crate) enum NextStep {
    Nothing,
    /// The source, which is primary, is to be told to freeze.
    Freezes { source: MemberId, target: MemberId },
    /// The move ends in this row.
    MakesRow { row: Row },
}

impl Phase {
    /// The phase of no partition, in the place of one that was taken out. Takes no memory.
    pub(crate) fn nothing(alloc: Global) -> Phase {
        Phase::Idle(Row {
            version: 0,
            reset: 0,
            lost: true,
            members: RowMembers::from_vec(Vec::new(alloc)),
        })
    }

    pub(crate) fn row(&self) -> &Row
        ensures { result.now ≡ (phase_step self.now).row }
    {
        match self {
            Phase::Idle(row) => row,
            Phase::Joining(joining) => joining.row(),
            Phase::Joined(joined) => joined.row(),
            Phase::Freezing(freezing) => freezing.row(),
            Phase::Drained(drained) => drained.row(),
        }
    }

    pub(crate) fn is_idle(&self) -> bool
        ensures { result ≡ is_idle (phase_step self.now).move }
    {
        matches!(self, Phase::Idle(_))
    }

    /// Whether the member is the move's source or target.
    fn involves(&self, member: MemberId) -> bool
        ensures { result ≡ is_in_move member (phase_step self.now).move }
    {
        match self {
            Phase::Idle(_) => false,
            Phase::Joining(joining) => joining_involves(joining, member),
            Phase::Joined(joined) => joined.source() == member || joined.target() == member,
            Phase::Freezing(freezing) => {
                freezing.source() == member || freezing.target() == member
            }
            Phase::Drained(drained) => drained.source() == member || drained.target() == member,
        }
    }

    /// The move in a new row, which thaws its source. Takes no memory.
    fn on_row(self, row: Row) -> Phase
        ensures { phase_step result ≡ record { row = row; move = move_in_row row (phase_step self).move } }
    {
        match self {
            Phase::Idle(_) => Phase::Idle(row),
            Phase::Joining(joining) => ongoing(joining.on_row(row)),
            Phase::Joined(joined) => ongoing(joined.on_row(row)),
            Phase::Freezing(freezing) => ongoing(freezing.on_row(row)),
            Phase::Drained(drained) => ongoing(drained.on_row(row)),
        }
    }

    /// The move in the row without a lost member, which ends it where the member was a part of it. Takes no memory.
    pub(crate) fn after_loss(self, member: MemberId, row: Row) -> Phase
        ensures { phase_step result ≡ record { row = row; move = move_after_loss member row (phase_step self).move } }
    {
        if row.lost || self.involves(member) {
            Phase::Idle(row)
        } else {
            self.on_row(row)
        }
    }

    /// A handover begins in the row of no move. Takes no memory.
    pub(crate) fn handing_over(self, from: MemberId, to: MemberId) -> Phase
        requires { handover_refused from to (service_at (phase_step self)) ≡ None }
        ensures { phase_step result ≡ step_of (handing_over from to (service_at (phase_step self))) }
    {
        match self {
            Phase::Idle(row) => Phase::Joined(Joined::start_handover(from, to, row)),
            _ => unreachable!(),
        }
    }

    /// The next step of the move, with the row that it makes. Goes over the members twice.
    pub(crate) fn next_step(&self, alloc: Global) -> Result<NextStep, Memory>
        requires { (phase_step self.now).row.version < u32.MAX }
        ensures { let step = phase_step self.now in
            IfOk result (λ next. advance_step next ≡ advance_by step.row step.move) }
    {
        match self {
            Phase::Joined(joined) => leaving(alloc, joined),
            Phase::Drained(drained) => Ok(NextStep::MakesRow {
                row: drained
                    .row()
                    .handed(alloc, drained.source(), drained.target())?,
            }),
            Phase::Idle(_) | Phase::Joining(_) | Phase::Freezing(_) => { Ok(NextStep::Nothing) }
        }
    }

    /// The source is told to freeze. Takes no memory.
    pub(crate) fn freezing(self) -> Phase
        ensures { let step = phase_step self in
            (source target : ℕ) → advance_by step.row step.move ≡ FreezesSource source target
            → phase_step result ≡ record { row = step.row; move = FreezingMove source target } }
    {
        match self {
            Phase::Joined(joined) => match joined.freeze() {
                Ok(freezing) => Phase::Freezing(freezing),
                Err(joined) => Phase::Joined(joined),
            },
            other => other,
        }
    }

    /// The move ends in the row that its next step made. Takes no memory.
    pub(crate) fn ended(self, row: Row) -> Phase
        requires { let step = phase_step self in advance_by step.row step.move ≡ RowMade row }
        ensures { phase_step result ≡ record { row = row; move = NoMove } }
    {
        match self {
            Phase::Joined(joined) => Phase::Idle(joined.dropped(row).into_row()),
            Phase::Drained(drained) => Phase::Idle(drained.committed(row).into_row()),
            _ => unreachable!(),
        }
    }

    /// A member of the row has its contents, and may lead from now on. Takes no memory.
    pub(crate) fn joined(self, member: MemberId) -> Phase
        ensures { let step = phase_step self in
            phase_step result ≡ record { row = with_eligible step.row member; move = joined_move member step.move } }
    {
        match self {
            Phase::Idle(mut row) => {
                row.mark_eligible(member);
                Phase::Idle(row)
            }
            Phase::Joining(joining) => target_or_other(joining, member),
            Phase::Joined(mut joined) => {
                joined.mark_eligible(member);
                Phase::Joined(joined)
            }
            Phase::Freezing(mut freezing) => {
                freezing.mark_eligible(member);
                Phase::Freezing(freezing)
            }
            Phase::Drained(mut drained) => {
                drained.mark_eligible(member);
                Phase::Drained(drained)
            }
        }
    }

    /// The source says that it is frozen in that version: whether it was told to be, in the row's. Takes no memory.
    pub(crate) fn drained(self, version: u32) -> (Phase, bool)
        ensures exact { let step = phase_step self in result.1 ≡ (is_freezing step.move && (step.row.version == version)) }
        ensures step { let step = phase_step self in let moved = drained_move step.move in
            phase_step result.0 ≡ (if result.1 then record { row = step.row; move = moved } else step) }
    {
        match self {
            Phase::Freezing(freezing) => match freezing.drained(version) {
                Ok(drained) => (Phase::Drained(drained), true),
                Err(freezing) => (Phase::Freezing(freezing), false),
            },
            other => (other, false),
        }
    }
}

fn joining_involves(joining: &Joining, member: MemberId) -> bool
    ensures { result ≡ is_in_move member (joining_step joining.now).move }
{
    match joining.source() {
        None => joining.target() == member,
        Some(source) => source == member || joining.target() == member,
    }
}

fn ongoing(ongoing: Ongoing) -> Phase
    ensures { phase_step result ≡ ongoing_step ongoing }
{
    match ongoing {
        Ongoing::Joining(joining) => Phase::Joining(joining),
        Ongoing::Joined(joined) => Phase::Joined(joined),
        Ongoing::Ended(row) => Phase::Idle(row),
    }
}

fn arrived(arrived: Arrived) -> Phase
    ensures { phase_step result ≡ arrived_step arrived }
{
    match arrived {
        Arrived::Joined(joined) => Phase::Joined(joined),
        Arrived::Ended(row) => Phase::Idle(row),
    }
}

/// How the source of a move whose target may lead is to leave: a primary freezes first.
fn leaving(alloc: Global, joined: &Joined) -> Result<NextStep, Memory>
    requires { joined.now.row.version < u32.MAX }
    ensures { let step = joined_step joined.now in
        IfOk result (λ next. advance_step next ≡ advance_by step.row step.move) }
{
    let source = joined.source();
    if joined.row().is_primary(source) {
        return Ok(NextStep::Freezes {
            source,
            target: joined.target(),
        });
    }
    Ok(NextStep::MakesRow {
        row: joined.row().without(alloc, source)?,
    })
}

/// A member of the row has its contents, and may lead. If the move waits for it, the target has arrived.
fn target_or_other(joining: Joining, member: MemberId) -> Phase
    ensures { let step = joining_step joining in
        phase_step result ≡ record { row = with_eligible step.row member; move = joined_move member step.move } }
{
    let version = joining.row().version;
    match joining.joined(member, version) {
        Ok(target) => arrived(target),
        Err(mut joining) => {
            joining.mark_eligible(member);
            Phase::Joining(joining)
        }
    }
}
