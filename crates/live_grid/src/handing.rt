//! How the passes of a grid are handed out among threads, and taken back.
ghost use Rattle.std.specs.Prelude.{◌≡◌, ℕ, ◌<◌, ◌≤◌, ◌+◌, ◌*◌, [], length, map, Some, IfOk, OnOk, OnErr};
ghost use Rattle.hand_cell.specs.declared.names.Names.TheVariants.{One};
ghost use Rattle.partition_threads.specs.Workplaces.{IsTokenAt};
ghost use Rattle.session_calls.specs.Openings.{IsOpened, HasAllPasses};
ghost use Rattle.session_calls.specs.Passes.{HaveNumber, MayGiveAt, AreJoinedWith, giving_up, given};
ghost use Rattle.session_calls.specs.Sessions.{IsSessionOf};
ghost use Rattle.live_grid.specs.Grids.{IsGridPassOf, place_of};
ghost use Rattle.live_grid.specs.Histories.{live_key};

use crate::grid::{GridPass, LiveGrid};
use crate::world::LiveWorld;
use grid_base::{MemberId, Memory};
use hand_cell::Names;
use partition_threads::{THREADS, WorkerTokens};
use session_calls::{SessionPass, join_passes, split_passes, split_tokens};
use std::alloc::Global;

/// How many calls a worker holds at most. While it holds as many it takes no job.
const HELD_CALLS: usize = 1024;

impl LiveGrid {
    /// Opens a session of a connection to a member, as `SessionPass::open`: the grid's pass gives up the connection's
    /// number. Takes memory for a place for each partition; without it nothing has changed.
    pub fn session(
        &self,
        alloc: Global,
        pass: &mut GridPass,
        conn: u32,
        member: MemberId,
    ) -> Result<SessionPass<LiveWorld>, Memory>
        requires pass { IsGridPassOf self.now pass.old }
        requires named { HaveNumber conn pass.old.passes.items }
        requires member { 4 * member + 4 ≤ length pass.old.tokens.items }
        ensures opened { IfOk result (λ session. IsOpened (place_of self.now) pass.old.passes.items conn member session) }
        ensures left { OnOk result (pass.new.passes.items ≡ map (giving_up (One conn)) pass.old.passes.items) }
        ensures err { OnErr result (pass.new.passes.items ≡ pass.old.passes.items) }
        ensures tokens_stay { pass.new.tokens.items ≡ pass.old.tokens.items }
        ensures kept { IsGridPassOf self.now pass.new }
    {
        SessionPass::open(
            alloc,
            self.workplace(),
            &mut pass.passes,
            &mut pass.tokens,
            conn,
            member,
        )
    }

    /// Takes a session back of which no call is under way, as `SessionPass::close`. Takes no memory.
    pub fn join(&self, pass: &mut GridPass, session: SessionPass<LiveWorld>)
        requires pass { IsGridPassOf self.now pass.old }
        requires session { IsSessionOf (place_of self.now) session }
        requires rests { HasAllPasses session }
        ensures joined { AreJoinedWith live_key pass.old.passes.items session.passes.items pass.new.passes.items }
        ensures tokens_stay { pass.new.tokens.items ≡ pass.old.tokens.items }
        ensures kept { IsGridPassOf self.now pass.new }
    {
        session.close(self.workplace(), &mut pass.passes);
    }

    /// Cuts the grid's pass in two: the second one gets these names, which the first loses, and a token of each worker's
    /// queue; the first keeps Control. Takes memory for a place for each partition and for each worker; without it
    /// nothing has changed.
    pub fn split(
        &self,
        alloc: Global,
        pass: &mut GridPass,
        names: Names,
    ) -> Result<GridPass, Memory>
        requires pass { IsGridPassOf self.now pass.old }
        requires may { (at : ℕ) → MayGiveAt names pass.old.passes.items at }
        ensures parts { IfOk result (λ other. other.passes.items ≡ map (given names) pass.old.passes.items) }
        ensures workers { IfOk result (λ other. length other.tokens.items ≡ length pass.old.tokens.items) }
        ensures other { IfOk result (λ other. IsGridPassOf self.now other) }
        ensures left { OnOk result (pass.new.passes.items ≡ map (giving_up names) pass.old.passes.items) }
        ensures err { OnErr result (pass.new.passes.items ≡ pass.old.passes.items) }
        ensures tokens_stay { pass.new.tokens.items ≡ pass.old.tokens.items }
        ensures kept { IsGridPassOf self.now pass.new }
    {
        let place = self.workplace();
        let workers = pass.tokens.len();
        let tokens = split_tokens(alloc, place, &mut pass.tokens, 0, workers)?;
        let passes = split_passes(alloc, place, &mut pass.passes, names)?;
        Ok(GridPass { passes, tokens })
    }

    /// Takes another pass of the grid in, as `join_passes`. Its tokens are dropped. Takes no memory.
    pub fn gather(&self, pass: &mut GridPass, other: GridPass)
        requires pass { IsGridPassOf self.now pass.old }
        requires other { IsGridPassOf self.now other }
        ensures joined { AreJoinedWith live_key pass.old.passes.items (map (λ part. Some part) other.passes.items) pass.new.passes.items }
        ensures tokens_stay { pass.new.tokens.items ≡ pass.old.tokens.items }
        ensures kept { IsGridPassOf self.now pass.new }
    {
        join_passes(self.workplace(), &mut pass.passes, other.passes);
    }

    /// What one worker of a member needs: a second token of its queue, and room for the calls that it may hold. Takes
    /// memory for these.
    pub fn tokens(
        &self,
        alloc: Global,
        pass: &mut GridPass,
        member: MemberId,
        number: u8,
    ) -> Result<WorkerTokens<LiveWorld>, Memory>
        requires pass { IsGridPassOf self.now pass.old }
        requires worker { 4 * member + number < length pass.old.tokens.items }
        ensures token { IfOk result (λ tokens. IsTokenAt (place_of self.now) (4 * member + number) tokens.queue) }
        ensures none_held { IfOk result (λ tokens. tokens.held.items ≡ []) }
        ensures passes_stay { pass.new.passes.items ≡ pass.old.passes.items }
        ensures tokens_stay { pass.new.tokens.items ≡ pass.old.tokens.items }
        ensures kept { IsGridPassOf self.now pass.new }
    {
        let worker = THREADS * usize::from(member) + usize::from(number);
        let queue = self
            .workplace()
            .split_token(worker, &mut pass.tokens[worker]);
        WorkerTokens::new(alloc, queue, HELD_CALLS)
    }
}
