ghost use Rattle.std.specs.Prelude.{◌≡◌, ◌&&◌, not};
ghost use Rattle.partition_table.specs.Rows.{is_empty};
ghost use Rattle.partition_protocol.specs.Node.{settled, with_ack};
ghost use Rattle.primary_hold.specs.Answering.{releases_first};
ghost use Rattle.primary_hold.specs.Facts.{node_of};
ghost use Rattle.primary_hold.specs.Views.{viewed, with_latest, bare, earlier_viewed};

use crate::acks::EarlierView;
use crate::facts::Facts;
use crate::view::View;
use grid_base::MemberId;

impl Facts {
    /// What the member knows of its backups. Takes no memory.
    pub fn view(&self) -> View<'_>
        ensures { viewed result ≡ bare (node_of self.now) }
    {
        self.view_after(None)
    }

    /// What it will know of them once it has kept one acknowledgement more. Takes no memory.
    fn view_with(&self, member: MemberId, count: u32) -> View<'_>
        ensures { let node = node_of self.now in
            viewed result ≡ bare (record node { acks = with_ack member count node.acks }) }
    {
        self.view_after(Some((member, count)))
    }

    fn view_after(&self, latest: Option<(MemberId, u32)>) -> View<'_>
        ensures { let node = node_of self.now in
            viewed result ≡ bare (record node { acks = with_latest latest node.acks }) }
    {
        let pair = self.pair();
        View {
            row: &self.known,
            version: pair.version,
            count: pair.count,
            opening: self.opening,
            acks: self.acks.as_slice(),
            latest,
            earlier: self.view_earlier(),
            recent: self.recent,
            adopted: self.adopted,
        }
    }

    fn view_earlier(&self) -> Option<EarlierView<'_>>
        ensures { earlier_viewed result ≡ (node_of self.now).earlier }
    {
        match &self.earlier {
            None => None,
            Some(earlier) => Some(earlier.view()),
        }
    }

    /// Whether the oldest held answer may be released.
    pub(crate) fn may_release(&self) -> bool
        ensures { let node = node_of self.now in
            result ≡ releases_first node node.held }
    {
        let view = self.view();
        match self.answers.first_held() {
            None => false,
            Some(answer) => view.is_released(answer.seen),
        }
    }

    /// Whether a frozen member that holds answers releases them all once it has kept one acknowledgement more. Goes over
    /// the acknowledgements for each backup and held answer, and only where it is frozen.
    pub fn drains_with(&self, member: MemberId, count: u32) -> bool
        ensures { let node = node_of self.now in
            let next = record node { acks = with_ack member count node.acks } in
            result ≡ (next.frozen && not (is_empty next.held) && is_empty (settled next).held) }
    {
        if !self.frozen || !self.holds_any() {
            return false;
        }
        let view = self.view_with(member, count);
        self.answers.are_released_by(&view)
    }
}
