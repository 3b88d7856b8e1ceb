//! The heads of the pools, and which of them is entitled.
ghost use Rattle.std.specs.Prelude.{◌≡◌, ◌≤◌, Some, None, true, false, not};
ghost use Rattle.rm_rules.specs.Definitions.{pool_row};
ghost use Rattle.rm_rules.specs.Ask.{is_too_large};
ghost use Rattle.rm_rules.specs.Sound.{IsSound, has_pool};
ghost use Rattle.pool_queue.specs.Heads.{head_of, stands_before, first_of, with_head, entitled, heads_of, candidates_of};
ghost use Rattle.std.specs.List.{list_all};
ghost use Rattle.pool_queue.specs.Queue.{is_large};
ghost use Rattle.pool_queue.specs.Lines.{AreFilled};

use crate::lines::{Arrived, Line};
use rm_base::definitions::Definitions;
use rm_rules::readings::pool_row;
use rm_rules::room::Room;
use rm_rules::state::Judged;

/// The first waiting query of a pool: its number, the number of its arrival, the pool's priority, and how it
/// fits.
#[derive(Clone, Copy, Debug)]
pub struct Head {
    pub query: u64,
    pub number: i64,
    pub priority: i32,
    pub judged: Judged,
}

/// What matters of the heads seen so far: the first in queue order that its pool lets in, and the first that fits and
/// needs none of GENERAL's bytes. A head that its pool does not let in neither fits nor blocks another.
#[derive(Clone, Copy, Debug)]
pub struct Candidates {
    pub let_in: Option<Head>,
    pub needs_none: Option<Head>,
}

/// The waiting query as a head.
fn head_of<R: Room>(definitions: &Definitions, room: &R, a: &Arrived) -> Head
    requires sound { IsSound definitions.now }
    requires same { R.definitions room.now ≡ definitions.now }
    requires known { has_pool definitions.now a.now.waiter.pool ≡ true }
    requires small { is_too_large definitions.now (pool_row definitions.now a.now.waiter.pool) a.now.waiter.user a.now.waiter.floor ≡ false }
    ensures { result ≡ head_of definitions.now (R.holdings room.now) a.now }
{
    Head {
        query: a.waiter.query,
        number: a.number,
        priority: pool_row(definitions, a.waiter.pool).priority,
        judged: room.judge(a.waiter.pool, a.waiter.user, a.waiter.floor),
    }
}

/// The first stands before the second in queue order: by priority, falling, and by the numbers of arrival where priorities
/// are equal.
fn stands_before(a: &Head, b: &Head) -> bool
    ensures { result ≡ stands_before a.now b.now }
{
    a.priority > b.priority || a.priority >= b.priority && a.number < b.number
}

/// The first in queue order, of the best so far and another head.
fn first_of(best: Option<Head>, head: Head) -> Option<Head>
    ensures { result ≡ first_of best (Some head) }
{
    match best {
        Some(best) if !stands_before(&head, &best) => Some(best),
        _ => Some(head),
    }
}

impl Candidates {
    /// No head was seen yet.
    pub fn none() -> Candidates
        ensures { result ≡ record { let_in = None; needs_none = None } }
    {
        Candidates {
            let_in: None,
            needs_none: None,
        }
    }

    /// With another head.
    pub fn with(self, head: Head) -> Candidates
        ensures { result ≡ with_head self head }
    {
        Candidates {
            let_in: if head.judged.poolfit {
                first_of(self.let_in, head)
            } else {
                self.let_in
            },
            needs_none: if head.judged.fits && head.judged.need == 0 {
                first_of(self.needs_none, head)
            } else {
                self.needs_none
            },
        }
    }

    /// The entitled head's query. The first that its pool lets in is entitled if it fits. If not, it is blocked, and no
    /// other takes GENERAL's bytes.
    pub fn entitled(self) -> Option<u64>
        ensures { result ≡ entitled self }
    {
        match self.let_in {
            Some(head) if head.judged.fits => Some(head.query),
            _ => self.needs_none.map(|head| head.query),
        }
    }
}

/// The candidates among the first of each list. The room is asked once for each.
pub fn heads_seen<R: Room>(definitions: &Definitions, room: &R, lines: &[Line]) -> Candidates
    requires sound { IsSound definitions.now }
    requires same { R.definitions room.now ≡ definitions.now }
    requires filled { AreFilled lines.now }
    requires known { list_all (λ a. has_pool definitions.now a.waiter.pool) (heads_of lines.now) ≡ true }
    requires small { list_all (λ a. not (is_large definitions.now a.waiter)) (heads_of lines.now) ≡ true }
    ensures { result ≡ candidates_of definitions.now (R.holdings room.now) (heads_of lines.now) }
{
    let mut candidates = Candidates::none();
    for line in lines {
        candidates = candidates.with(head_of(definitions, room, &line.waiters.rows()[0]));
    }
    candidates
}
