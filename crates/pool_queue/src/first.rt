//! What the first waiting query can be asked for.
ghost use Rattle.std.specs.Prelude.{◌≡◌, ◌==◌, Bool};
ghost use Rattle.rm_rules.specs.Deadlines.{is_due, is_nowait};
ghost use Rattle.pool_queue.specs.Queue.{is_query};
ghost use Rattle.rm_rules.specs.declared.state.Waiter.{Waiter};

use crate::deadlines::{is_due, is_nowait};
use rm_base::definitions::Definitions;
use rm_base::moment::Moment;
use rm_rules::state::Waiter;

/// A test of a waiting query.
pub trait Test {
    /// The test may be made.
    ghost ready: { Self → Type 0 };

    /// The query passes.
    ghost passes: { Self → Waiter → Bool };

    /// Whether the query passes.
    fn passes(&self, w: &Waiter) -> bool
        requires { ready self.now }
        ensures { result ≡ passes self.now w.now };
}

/// The query has this number.
#[derive(Clone, Copy)]
pub struct Called {
    pub query: u64,
}

impl Test for Called {
    ghost ready = { λ _. Unit {0} };

    ghost passes = { λ test w. is_query test.query w };

    fn passes(&self, w: &Waiter) -> bool {
        w.query == self.query
    }
}

/// The query is this session's.
#[derive(Clone, Copy)]
pub struct OfSession {
    pub session: u32,
}

impl Test for OfSession {
    ghost ready = { λ _. Unit {0} };

    ghost passes = { λ test w. w.session == test.session };

    fn passes(&self, w: &Waiter) -> bool {
        w.session == self.session
    }
}

/// The query's deadline is at this moment or before it.
#[derive(Drop)]
pub struct Due<'a> {
    pub definitions: &'a Definitions,
    pub at: Moment,
}

impl Test for Due<'_> {
    ghost ready = { λ _. Unit {0} };

    ghost passes = { λ test w. is_due test.definitions.now test.at w };

    fn passes(&self, w: &Waiter) -> bool {
        is_due(self.definitions, w, self.at)
    }
}

/// No query of its pool may wait.
#[derive(Drop)]
pub struct Nowait<'a> {
    pub definitions: &'a Definitions,
}

impl Test for Nowait<'_> {
    ghost ready = { λ _. Unit {0} };

    ghost passes = { λ test w. is_nowait test.definitions.now w };

    fn passes(&self, w: &Waiter) -> bool {
        is_nowait(self.definitions, w)
    }
}
