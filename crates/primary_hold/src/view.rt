ghost use Rattle.std.specs.Prelude.{◌≡◌, ◌-◌, true, Some, nat_le, min};
ghost use Rattle.partition_protocol.specs.Node.{acked, acked_by, is_at_least, is_released};
ghost use Rattle.partition_protocol.specs.CatchUp.{heard, heard_earlier, catch_up_by, recent_limit};
ghost use Rattle.partition_protocol.specs.Replica.{lags};
ghost use Rattle.primary_hold.specs.Views.{viewed, earlier_viewed, messages_of};

use crate::acks::{Acknowledged, EarlierView, acked_by};
use crate::room::RECENT;
use grid_base::MemberId;
use partition_protocol::Pair;
use partition_table::{Row, RowMember};

/// What a primary knows of its backups in a row: what it sends each of them to catch up follows from it.
#[derive(Clone, Copy)]
pub struct View<'a> {
    pub(crate) row: &'a Row,
    /// The pair that names the primary's contents, as its two numbers.
    pub(crate) version: u32,
    pub(crate) count: u32,
    pub(crate) opening: bool,
    pub(crate) acks: &'a [Acknowledged],
    /// One acknowledgement more: of this member, with this count.
    pub(crate) latest: Option<(MemberId, u32)>,
    pub(crate) earlier: Option<EarlierView<'a>>,
    pub(crate) recent: u32,
    pub(crate) adopted: u32,
}

/// What a backup is sent to catch up.
#[derive(Clone, Copy, Debug, PartialEq, Eq)]
pub enum CatchUp {
    /// The whole contents.
    Whole,
    /// The effects of the known version after this number.
    Effects { after: u32 },
    /// The effects of the version before after this pair up to where the known version began, the bridge to it, and
    /// the effects since.
    Bridged { base: Pair },
}

impl<'a> View<'a> {
    /// The row that it is of.
    pub fn row(&self) -> &Row
        ensures { result.now ≡ (viewed self.now).known }
    {
        self.row
    }

    /// How many effects the primary's contents have.
    pub fn count(&self) -> u32
        ensures { result ≡ (viewed self.now).pair.count }
    {
        self.count
    }

    /// How many effects they had as the primary adopted the row.
    pub fn adopted(&self) -> u32
        ensures { result ≡ (viewed self.now).adopted }
    {
        self.adopted
    }

    /// Whether a member has acknowledged less than all. Goes over the acknowledgements once, and takes no memory.
    pub fn lags(&self, member: MemberId) -> bool
        ensures { result ≡ lags (viewed self.now) member }
    {
        match self.acked(member) {
            None => true,
            Some(count) => count < self.count,
        }
    }

    /// What that backup is sent to catch up: effects where it may lead, has acknowledged something, and lacks no
    /// more than the recent ones. Goes over the acknowledgements once or twice, and takes no memory.
    pub fn catch_up(&self, backup: &RowMember) -> CatchUp
        ensures { let by = catch_up_by (viewed self.now) backup.now.eligible (heard (viewed self.now) backup.now.member) in
            messages_of (viewed self.now) result ≡ by }
    {
        if !backup.eligible {
            return CatchUp::Whole;
        }
        match self.heard(backup.member) {
            None => CatchUp::Whole,
            Some(pair) => self.catch_up_from(pair),
        }
    }

    /// What is sent to an eligible backup that has been heard with this pair.
    fn catch_up_from(&self, pair: Pair) -> CatchUp
        ensures { let by = catch_up_by (viewed self.now) true (Some pair) in
            messages_of (viewed self.now) result ≡ by }
    {
        if !self.covers(pair.count) {
            CatchUp::Whole
        } else if pair.version == self.row.version {
            CatchUp::Effects { after: pair.count }
        } else {
            CatchUp::Bridged { base: pair }
        }
    }

    /// Whether the effects after that number are among the recent ones.
    fn covers(&self, after: u32) -> bool
        ensures { let node = viewed self.now in
            result ≡ nat_le (node.pair.count - after) (min recent_limit node.recent) }
    {
        self.count.saturating_sub(after) <= self.recent.min(RECENT as u32)
    }

    /// What a member has acknowledged in the known version.
    pub fn acked(&self, member: MemberId) -> Option<u32>
        ensures { result ≡ acked (viewed self.now) member }
    {
        match self.acked_here(member) {
            Some(count) => Some(count),
            None => { if self.opening { Some(0) } else { None } }
        }
    }

    /// What was taken from a member in the known version.
    fn acked_here(&self, member: MemberId) -> Option<u32>
        ensures { result ≡ acked_by member (viewed self.now).acks }
    {
        let before = acked_by(self.acks, member);
        match self.latest {
            None => before,
            Some((latest, count)) => {
                if latest == member {
                    Some(count.max(before.unwrap_or(0)))
                } else {
                    before
                }
            }
        }
    }

    /// The newest pair that a member is known to have: acknowledged in the known version, or in the one before.
    pub(crate) fn heard(&self, member: MemberId) -> Option<Pair>
        ensures { result ≡ heard (viewed self.now) member }
    {
        match self.acked(member) {
            Some(count) => Some(Pair {
                version: self.row.version,
                count,
            }),
            None => heard_earlier(self.earlier, member),
        }
    }

    /// Whether each backup has acknowledged that count.
    pub(crate) fn is_released(&self, seen: u32) -> bool
        ensures { result ≡ is_released (viewed self.now) seen }
    {
        self.row
            .backups()
            .iter()
            .all(|backup| is_at_least(self.acked(backup.member), seen))
    }
}

/// What a member acknowledged in the version before the known one.
fn heard_earlier(earlier: Option<EarlierView<'_>>, member: MemberId) -> Option<Pair>
    ensures { result ≡ heard_earlier (earlier_viewed earlier.entry) member }
{
    let earlier = earlier?;
    let count = acked_by(earlier.acks, member)?;
    Some(Pair {
        version: earlier.version,
        count,
    })
}

fn is_at_least(acked: Option<u32>, seen: u32) -> bool
    ensures { result ≡ is_at_least seen acked }
{
    match acked {
        None => false,
        Some(count) => seen <= count,
    }
}
