//! The waiting queries.
ghost use Rattle.std.specs.Prelude.{◌≡◌, ◌<◌, ◌≤◌, ◌-◌, [], ◌∷◌, ◌++◌, true, false, find, length, is_some, option_map, slice_get, ◌==◌, Some, IfOk, IfSome, vec_len, vec_capacity};
ghost use Rattle.rm_base.specs.declared.limits.TheConstants.{SESSIONS_MOST};
ghost use Rattle.rm_rules.specs.Sound.{IsSound};
ghost use Rattle.pool_queue.specs.Lines.{AreEmpty};

use crate::first::{Called, Due, Nowait, OfSession, Test};
use crate::heads::heads_seen;
use crate::lines::{
    Arrivals, Arrived, Line, close_if_empty, count_below, first_such, line_of, place, take_out,
    take_spare,
};
use crate::numbers::{Numbers, make_room};
use crate::sequence::{behind, queries};
use crate::transfer::transfer_line;
use rm_base::bounded::Bounded;
use rm_base::definitions::Definitions;
use rm_base::limits::SESSIONS_MOST;
use rm_base::moment::Moment;
use rm_base::name::Name;
use rm_rules::room::Room;
use rm_rules::state::Waiter;
use std::alloc::{AllocError, Global};
use std::marker::Model;

/// The waiting queries in the order in which they joined: one list for each pool in which a query waits, and the lists for
/// pools to come.
#[derive(Debug, Drop)]
pub struct Queue {
    lines: Vec<Line>,
    spare: Bounded<Arrivals, SESSIONS_MOST>,
    given: Bounded<i64, SESSIONS_MOST>,
    numbers: Numbers,
    count: u32,
}

impl Model for Queue {
    ghost use Rattle.std.specs.Prelude.{List};
    ghost use Rattle.rm_rules.specs.declared.state.Waiter.{Waiter};

    ghost Value = { List Waiter };

    ghost use Rattle.pool_queue.specs.Kept.{waiting, IsKept};

    ghost view = { waiting };

    ghost invariant = { IsKept };
}

/// The query that was found.
fn waiter_in(found: Option<Arrived>) -> Option<Waiter>
    ensures { result ≡ option_map (λ a. a.waiter) found }
{
    found.map(|a| a.waiter)
}

/// Lists for as many pools as there can be.
fn empty_lists(alloc: Global) -> Result<Bounded<Arrivals, SESSIONS_MOST>, AllocError>
    ensures count { IfOk result (λ lists. length lists ≡ SESSIONS_MOST) }
    ensures empty { IfOk result (λ lists. AreEmpty lists) }
{
    let mut lists = Bounded::new(alloc)?;
    for _ in 0..SESSIONS_MOST {
        lists.add(Bounded::new(alloc)?);
    }
    Ok(lists)
}

impl Queue {
    ghost use Rattle.rm_rules.specs.State.{without, waiter_of};
    ghost use Rattle.rm_rules.specs.Admission.{first_in_queue};
    ghost use Rattle.rm_rules.specs.Deadlines.{is_due, is_nowait};
    ghost use Rattle.pool_queue.specs.Queue.{is_query, has_query, query_of, place_of_query, are_pools_known, is_large};
    ghost use Rattle.rm_rules.specs.DropPool.{transferred};

    /// No query waits yet. All memory that the queue will ever use is taken here.
    pub fn new(alloc: Global) -> Result<Queue, AllocError>
        ensures empty { IfOk result (λ queue. queue ≡ []) }
    {
        Ok(Queue {
            lines: Vec::with_capacity(alloc, SESSIONS_MOST)?,
            spare: empty_lists(alloc)?,
            given: Bounded::new(alloc)?,
            numbers: Numbers { least: 0, next: 0 },
            count: 0,
        })
    }

    /// A query begins to wait, behind the others.
    pub fn join(&mut self, item: Waiter)
        requires room { length self.old < SESSIONS_MOST }
        requires absent { has_query self.old item.query ≡ false }
        ensures items { self.new ≡ self.old ++ item ∷ [] }
    {
        let pool = item.pool;
        let before = self.numbers;
        let numbers = make_room(&mut self.lines, before, &mut self.given, 0, 1);
        let mut block = take_spare(&mut self.spare);
        let last = numbers.arrived(item);
        block.add(last);
        place(&mut self.lines, &mut self.spare, pool, block, false);
        let given = numbers.given(1, false);
        self.numbers = numbers.with(&given, false);
        self.count += 1;
    }

    /// A query waits no longer.
    pub fn leave(&mut self, query: u64) -> Waiter
        requires present { has_query self.old query ≡ true }
        ensures waiter { find (is_query query) self.old ≡ Some result }
        ensures items { self.new ≡ without (is_query query) self.old }
    {
        let gone = first_such(&self.lines, &Called { query }).unwrap();
        let index = line_of(&self.lines, gone.waiter.pool).unwrap();
        let line = &mut self.lines[index];
        take_out(line, &gone);
        close_if_empty(&mut self.lines, &mut self.spare, index);
        self.count -= 1;
        gone.waiter
    }

    /// All queries that wait in the pool become GENERAL's, with their queued moments and in their order: before all others
    /// where they are to be in front, else behind them.
    pub fn transfer(&mut self, from: Name, front: bool)
        ensures items { self.new ≡ transferred self.old from front }
    {
        let before = self.numbers;
        let count = self.count;
        let numbers = make_room(&mut self.lines, before, &mut self.given, count, count);
        let after = transfer_line(&mut self.lines, &mut self.spare, &numbers, from, front);
        self.numbers = after;
    }

    /// The first query that passes a test of the caller's.
    pub fn first_that<T: Test>(&self, test: &T) -> Option<Waiter>
        requires { T.ready test.now }
        ensures { result ≡ find (T.passes test.now) self.now }
    {
        waiter_in(first_such(&self.lines, test))
    }

    /// The first query whose deadline is at this moment or before it.
    pub fn due(&self, definitions: &Definitions, at: Moment) -> Option<u64>
        ensures value { result ≡ query_of (find (is_due definitions.now at) self.now) }
    {
        let due = Due { definitions, at };
        self.first_that(&due).map(|w| w.query)
    }

    /// The first query of a pool in which none may wait.
    pub fn first_nowait(&self, definitions: &Definitions) -> Option<u64>
        ensures value { result ≡ query_of (find (is_nowait definitions.now) self.now) }
    {
        let nowait = Nowait { definitions };
        self.first_that(&nowait).map(|w| w.query)
    }

    /// The waiting query of this session.
    pub fn waiter_of(&self, session: u32) -> Option<Waiter>
        ensures { result ≡ waiter_of self.now session }
    {
        self.first_that(&OfSession { session })
    }

    /// The waiting query of this number.
    pub fn waiter_called(&self, query: u64) -> Option<Waiter>
        ensures { result ≡ find (is_query query) self.now }
    {
        self.first_that(&Called { query })
    }

    /// The query that is to be admitted next, if the room has a place for one. The room is asked once for each head.
    pub fn first_entitled<R: Room>(&self, definitions: &Definitions, room: &R) -> Option<u64>
        requires sound { IsSound definitions.now }
        requires same { R.definitions room.now ≡ definitions.now }
        requires known { are_pools_known definitions.now self.now ≡ true }
        requires small { find (is_large definitions.now) self.now ≡ None }
        ensures value { result ≡ query_of (first_in_queue definitions.now (R.holdings room.now) self.now) }
    {
        heads_seen(definitions, room, &self.lines).entitled()
    }

    /// The place of the query, counted from 1; none where it does not wait.
    pub fn place_of(&self, query: u64) -> Option<u64>
        ensures value { result ≡ place_of_query self.now query }
        ensures waits { is_some result ≡ has_query self.now query }
    {
        match first_such(&self.lines, &Called { query }) {
            Some(found) => Some(count_below(&self.lines, &found) as u64 + 1),
            None => None,
        }
    }

    /// How many queries wait.
    pub fn len(&self) -> u32
        ensures value { result ≡ length self.now }
        ensures most { result ≤ SESSIONS_MOST }
    {
        self.count
    }

    pub fn is_empty(&self) -> bool
        ensures value { result ≡ (length self.now == 0) }
    {
        self.count == 0
    }

    /// The query in this place, counted from 1.
    pub fn waiter_at(&self, place: u32) -> Waiter
        requires first { 1 ≤ place }
        requires last { place ≤ length self.now }
        ensures waiter { slice_get self.now (place - 1) ≡ Some result }
    {
        let found = behind(&self.lines, place as usize - 1).unwrap();
        found.waiter
    }

    /// The waiting queries, in the order in which they joined.
    pub fn to_vec(&self, alloc: Global) -> Result<Vec<Waiter>, AllocError>
        ensures { IfOk result (λ waiting. waiting.items ≡ self.now) }
    {
        queries(alloc, &self.lines)
    }
}
