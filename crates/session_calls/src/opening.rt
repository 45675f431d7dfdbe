//! How a session is opened, and how it is closed.
ghost use Rattle.std.specs.Prelude.{◌≡◌, ◌≤◌, ◌+◌, ◌*◌, [], length, map, Some, vec_len, IfOk, OnOk, OnErr};
ghost use Rattle.std.specs.Vec.{vec_capacity};
ghost use Rattle.hand_cell.specs.declared.names.Names.TheVariants.{One};
ghost use Rattle.partition_threads.specs.Workplaces.{AreTokensAt};
ghost use Rattle.session_calls.specs.Openings.{IsOpened, HasAllPasses};
ghost use Rattle.session_calls.specs.Passes.{ArePassesOf, HaveNumber, AreJoinedWith, giving_up, given};
ghost use Rattle.session_calls.specs.Sessions.{IsSessionOf};

use crate::session::SessionPass;
use crate::sharing::{join_at, split_at, split_tokens};
use grid_base::{MemberId, Memory};
use hand_cell::{Names, Pass, Served};
use job_queues::QueuePass;
use partition_threads::{THREADS, Workplace};
use std::alloc::Global;

impl<T: Served> SessionPass<T> {
    /// Opens a session of a connection to a member, with a part of each of these passes, which give up the connection's
    /// number, and with a second token of each of the member's workers. Takes memory for a place for each cell; without
    /// it nothing has changed. Costs the cells, and waits for nobody.
    pub fn open(
        alloc: Global,
        place: &Workplace<T>,
        passes: &mut Vec<Pass<T>>,
        tokens: &mut Vec<QueuePass<T>>,
        conn: u32,
        member: MemberId,
    ) -> Result<SessionPass<T>, Memory>
        requires passes { ArePassesOf place.now.cells.items passes.old.items }
        requires named { HaveNumber conn passes.old.items }
        requires tokens { AreTokensAt place.now tokens.old.items }
        requires member { 4 * member + 4 ≤ length tokens.old.items }
        ensures opened { IfOk result (λ session. IsOpened place.now passes.old.items conn member session) }
        ensures left { OnOk result (passes.new.items ≡ map (giving_up (One conn)) passes.old.items) }
        ensures err { OnErr result (passes.new.items ≡ passes.old.items) }
        ensures kept { ArePassesOf place.now.cells.items passes.new.items }
        ensures tokens_stay { tokens.new.items ≡ tokens.old.items }
    {
        let places = Vec::with_capacity(alloc, passes.len())?;
        let first = THREADS * usize::from(member);
        let tokens = split_tokens(alloc, place, tokens, first, THREADS)?;
        Ok(SessionPass {
            conn,
            member,
            passes: split_places(place, passes, places, conn),
            tokens,
        })
    }

    /// Closes the session, of which no call is under way: each of its passes is joined to the one of its cell among
    /// these, as `Cell::join` does, and its tokens are dropped. Takes no memory. Costs the cells, and waits for nobody.
    pub fn close(self, place: &Workplace<T>, passes: &mut Vec<Pass<T>>)
        requires session { IsSessionOf place.now self }
        requires rests { HasAllPasses self }
        requires passes { ArePassesOf place.now.cells.items passes.old.items }
        ensures joined { AreJoinedWith T.key_of passes.old.items self.passes.items passes.new.items }
        ensures kept { ArePassesOf place.now.cells.items passes.new.items }
    {
        let SessionPass {
            passes: mut left,
            ..
        } = self;
        while let Some(part) = left.pop() {
            join_at(place, passes, left.len(), part.unwrap());
        }
    }
}

/// A part of each pass, which has this number for its name, put into places for which there is room.
fn split_places<T: Served>(
    place: &Workplace<T>,
    passes: &mut Vec<Pass<T>>,
    places: Vec<Option<Pass<T>>>,
    conn: u32,
) -> Vec<Option<Pass<T>>>
    requires passes { ArePassesOf place.now.cells.items passes.old.items }
    requires named { HaveNumber conn passes.old.items }
    requires empty { places.items ≡ [] }
    requires room { vec_len passes.old ≤ vec_capacity places }
    ensures parts { result.items ≡ map (λ pass. Some (given (One conn) pass)) passes.old.items }
    ensures left { passes.new.items ≡ map (giving_up (One conn)) passes.old.items }
    ensures kept { ArePassesOf place.now.cells.items passes.new.items }
{
    let mut parts = places;
    for at in 0..passes.len() {
        parts.push_reserved(Some(split_at(place, passes, at, Names::One(conn))));
    }
    parts
}
