//! Snapshots.
ghost use Rattle.std.specs.Prelude.{◌≡◌, map, IfOk};
ghost use Rattle.std.specs.List.{zip};
ghost use Rattle.machine.specs.Looked.{condition_of, running_seen, waiting_seen};

use super::Machine;
use rm_base::entry::{Account, EndCounts, MoveSeen};
use rm_base::listed::Listed;
use rm_base::snapshot::{Condition, RunningSeen, SessionSeen, Snapshot, WaitingSeen};
use rm_rules::state::{Phase, Reserve, Runner, Session, Waiter};
use std::alloc::{AllocError, Global};

/// What a query is doing, without how it ended.
fn condition_of(phase: Phase) -> Condition
    ensures { result ≡ condition_of phase }
{
    match phase {
        Phase::Idle => Condition::Idle,
        Phase::Waiting => Condition::Waiting,
        Phase::Running => Condition::Running,
        Phase::Ended(_) => Condition::Ended,
    }
}

fn waiting_seen(w: &Waiter) -> WaitingSeen
    ensures { result ≡ waiting_seen w.now }
{
    WaitingSeen {
        query: w.query,
        session: w.session,
        pool: w.pool,
        queued: w.queued,
    }
}

fn running_seen(r: &Runner, account: Account) -> RunningSeen
    ensures { result ≡ running_seen (r.now, account) }
{
    RunningSeen {
        query: r.query,
        session: r.session,
        account,
        start: r.start,
        moves: r.moves,
    }
}

fn queue_seen(alloc: Global, waiting: &[Waiter]) -> Result<Vec<WaitingSeen>, AllocError>
    ensures { IfOk result (λ seen. seen.items ≡ map waiting_seen waiting.now) }
{
    let mut seen = Vec::with_capacity(alloc, waiting.len())?;
    for w in waiting {
        seen.push_reserved(waiting_seen(w));
    }
    Ok(seen)
}

fn sizes_seen(alloc: Global, reserves: &[Reserve]) -> Result<Vec<u64>, AllocError>
    ensures { IfOk result (λ seen. seen.items ≡ map (λ e. e.size) reserves.now) }
{
    let mut seen = Vec::with_capacity(alloc, reserves.len())?;
    for e in reserves {
        seen.push_reserved(e.size);
    }
    Ok(seen)
}

fn counters_seen(alloc: Global, counters: &[EndCounts]) -> Result<Vec<EndCounts>, AllocError>
    ensures { IfOk result (λ seen. seen.items ≡ counters.now) }
{
    counters.to_vec(alloc)
}

fn moves_seen(alloc: Global, moves: &[MoveSeen]) -> Result<Vec<MoveSeen>, AllocError>
    ensures { IfOk result (λ seen. seen.items ≡ moves.now) }
{
    moves.to_vec(alloc)
}

impl Machine {
    ghost use Rattle.rm_rules.specs.Holdings.{holdings_of};
    ghost use Rattle.rm_rules.specs.Accounting.{accounts};
    ghost use Rattle.rm_rules.specs.Healthy.{AreNumbered};
    ghost use Rattle.machine.specs.Looked.{session_seen, running_seen, snapshot_of};

    fn session_seen(&self, x: &Session) -> SessionSeen
        ensures { result ≡ session_seen self.now.definitions x.now }
    {
        SessionSeen {
            session: x.number,
            user: x.user,
            pool: self.session_pool(x),
            cap_ms: x.cap_ms,
            condition: condition_of(x.phase),
        }
    }

    fn sessions_seen(&self, alloc: Global) -> Result<Vec<SessionSeen>, AllocError>
        ensures { IfOk result (λ seen.
            seen.items ≡ map (session_seen self.now.definitions) self.now.sessions) }
    {
        let mut seen = Vec::with_capacity(alloc, self.sessions.len())?;
        for x in self.sessions.rows() {
            seen.push_reserved(self.session_seen(x));
        }
        Ok(seen)
    }

    fn runs_seen(&self, alloc: Global) -> Result<Vec<RunningSeen>, AllocError>
        requires { AreNumbered self.now.last_query self.now.waiting self.now.running }
        ensures { IfOk result (λ seen.
            seen.items ≡ map running_seen (zip self.now.running (accounts (holdings_of self.now)))) }
    {
        let accounts = self.runs.accounts();
        let mut seen = Vec::with_capacity(alloc, self.runs.len())?;
        for i in 0..self.runs.len() {
            let r = self.runs.at(i);
            seen.push_reserved(running_seen(&r, accounts.account_of(r.query)));
        }
        Ok(seen)
    }

    /// The state as it stands.
    pub fn look(&self, alloc: Global) -> Result<Snapshot, AllocError>
        requires { AreNumbered self.now.last_query self.now.waiting self.now.running }
        ensures { IfOk result (λ snapshot. snapshot ≡ snapshot_of self.now) }
    {
        Ok(Snapshot {
            in_force: self.runs.accounts().in_force(),
            actual: Listed::of(sizes_seen(alloc, self.runs.accounts().reserves())?),
            sessions: Listed::of(self.sessions_seen(alloc)?),
            running: Listed::of(self.runs_seen(alloc)?),
            waiting: Listed::of(queue_seen(alloc, &self.waiting.to_vec(alloc)?)?),
            counters: Listed::of(counters_seen(alloc, self.counters.rows())?),
            moves: Listed::of(moves_seen(alloc, self.moves.rows())?),
            definitions: self.definitions.copy(alloc)?,
        })
    }
}
