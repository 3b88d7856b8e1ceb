//! The running queries: what they hold is in the accounts, and all else that is known of them stands beside it.
ghost use Rattle.std.specs.Prelude.{◌≡◌, ◌<◌, ◌≤◌, ◌+◌, ◌==◌, ◌∷◌, ◌++◌, [], Some, true, false, map, length, slice_index_or, position, count_by, ℕ, IfOk, IfSome};
ghost use Rattle.rm_base.specs.declared.limits.TheConstants.{POOLS_MOST, SESSIONS_MOST};
ghost use Rattle.rm_base.specs.Name.{same_name, general};
ghost use Rattle.rm_rules.specs.Sound.{IsSound};
ghost use Rattle.machine.specs.Runs.{runner, run_of, run_beside};

use accounts::Accounts;
use rm_base::bounded::Bounded;
use rm_base::definitions::Definitions;
use rm_base::limits::SESSIONS_MOST;
use rm_base::moment::Moment;
use rm_base::name::Name;
use rm_rules::dropped::named_in_place;
use rm_rules::state::{Holding, Runner};
use std::alloc::{AllocError, Global};
use std::marker::Model;

/// What is known of a running query beside its number, its pool and its grant.
#[derive(Clone, Copy, Debug)]
pub struct Run {
    pub session: u32,
    pub user: Name,
    pub floor: u64,
    pub start: Moment,
    pub ran: u64,
    pub moves: u32,
    pub leaving: Option<Name>,
    pub cancelled: bool,
}

fn run_of(r: &Runner) -> Run
    ensures { result ≡ run_of r.now }
{
    Run {
        session: r.session,
        user: r.user,
        floor: r.floor,
        start: r.start,
        ran: r.ran,
        moves: r.moves,
        leaving: r.leaving,
        cancelled: r.cancelled,
    }
}

fn runner(g: &Holding, x: &Run) -> Runner
    ensures { result ≡ runner (g.now, x.now) }
{
    Runner {
        query: g.query,
        session: x.session,
        user: x.user,
        pool: g.pool,
        floor: x.floor,
        grant: g.bytes,
        start: x.start,
        ran: x.ran,
        moves: x.moves,
        leaving: x.leaving,
        cancelled: x.cancelled,
    }
}

/// Where the row of the session stands.
fn place_in(rows: &[Run], session: u32) -> Option<usize>
    ensures value { result ≡ position (λ x. x.session == session) rows.now }
    ensures within { IfSome result (λ place. place < length rows.now) }
{
    rows.iter().position(|x| x.session == session)
}

/// The query, beside a pool that is gone.
fn run_beside(pool: Name, x: Run) -> Run
    ensures { result ≡ run_beside pool x }
{
    Run {
        leaving: named_in_place(pool, x.leaving),
        ..x
    }
}

fn put_rows_beside(rows: &mut Bounded<Run, SESSIONS_MOST>, pool: Name)
    ensures { rows.new ≡ map (run_beside pool) rows.old }
{
    for i in 0..rows.len() {
        let x = run_beside(pool, rows.rows()[i]);
        rows.set(i, x);
    }
}

/// The running queries in the order in which they began, and the bytes.
#[derive(Debug, Drop)]
pub struct Runs {
    accounts: Accounts,
    rows: Bounded<Run, SESSIONS_MOST>,
}

impl Model for Runs {
    ghost use Rattle.machine.specs.Runs.{RunsSeen, seen_runs, AreBeside};

    ghost Value = { RunsSeen };

    ghost view = { seen_runs };

    ghost invariant = { AreBeside };
}

impl Runs {
    ghost use Rattle.rm_rules.specs.State.{runner_of, without_runner};
    ghost use Rattle.rm_rules.specs.Holdings.{holding, reserve_names};
    ghost use Rattle.rm_rules.specs.Accounting.{need, free};
    ghost use Rattle.rm_rules.specs.DropPool.{runner_beside, folded};
    ghost use Rattle.rm_rules.specs.Moving.{with_runner_as};
    ghost use Rattle.rm_rules.specs.Shuffle.{shuffled};
    ghost use Rattle.accounts.specs.Accounts.{names_in, has_name, has_query, account_of, first_holdings, taken, given_back, with_pool};
    ghost use Rattle.accounts.specs.Moves.{if_moved, moved_to};

    /// No query runs yet. All memory that is ever used for them is taken here.
    pub fn new(alloc: Global, definitions: &Definitions) -> Result<Runs, AllocError>
        requires sound { IsSound definitions.now }
        ensures accounts { IfOk result (λ runs. runs.accounts ≡ first_holdings definitions.now) }
        ensures running { IfOk result (λ runs. runs.running ≡ []) }
    {
        Ok(Runs {
            accounts: Accounts::new(alloc, definitions)?,
            rows: Bounded::new(alloc)?,
        })
    }

    /// The bytes.
    pub fn accounts(&self) -> &Accounts
        ensures { result.now ≡ self.now.accounts }
    {
        &self.accounts
    }

    /// How many queries run.
    pub fn len(&self) -> usize
        ensures value { result ≡ length self.now.running }
        ensures room { length self.now.running ≤ SESSIONS_MOST }
    {
        self.rows.len()
    }

    /// The query that runs in this place.
    pub fn at(&self, place: usize) -> Runner
        requires { place < length self.now.running }
        ensures { result ≡ slice_index_or self.now.running place result }
    {
        let g = self.accounts.grants()[place];
        let x = self.rows.rows()[place];
        runner(&g, &x)
    }

    /// Where the session's query stands.
    fn place_of(&self, session: u32) -> Option<usize>
        ensures value { result ≡ position (λ r. r.session == session) self.now.running }
        ensures within { IfSome result (λ place. place < length self.now.running) }
        ensures room { length self.now.running ≤ SESSIONS_MOST }
    {
        place_in(self.rows.rows(), session)
    }

    /// Where the query stands, which runs.
    fn place_of_runner(&self, r: &Runner) -> usize
        requires { runner_of self.now.running r.now.session ≡ Some r.now }
        ensures value { position (λ x. x.session == r.now.session) self.now.running ≡ Some result }
        ensures within { result < length self.now.running }
        ensures room { length self.now.running ≤ SESSIONS_MOST }
    {
        self.place_of(r.session).unwrap()
    }

    /// The session's query.
    pub fn of(&self, session: u32) -> Option<Runner>
        ensures { result ≡ runner_of self.now.running session }
    {
        let place = self.place_of(session)?;
        Some(self.at(place))
    }

    /// A query begins to run, behind the others.
    pub fn begin(&mut self, r: &Runner)
        requires room { length self.old.running < SESSIONS_MOST }
        requires absent { has_query self.old.accounts.grants r.now.query ≡ false }
        requires known { has_name self.old.accounts.reserves r.now.pool ≡ true }
        requires fits { need self.old.accounts r.now.pool r.now.grant ≤ free self.old.accounts }
        ensures accounts { self.new.accounts ≡ taken self.old.accounts r.now.query r.now.pool r.now.grant }
        ensures running { self.new.running ≡ self.old.running ++ r.now ∷ [] }
    {
        self.accounts.take(r.query, r.pool, r.grant);
        self.rows.add(run_of(r));
    }

    /// A query runs no longer, and gives back what it held.
    pub fn end(&mut self, r: &Runner)
        requires runs { runner_of self.old.running r.now.session ≡ Some r.now }
        requires once { (query : ℕ) → count_by (λ x. x.query == query) self.old.running ≤ 1 }
        ensures accounts { self.new.accounts ≡ given_back self.old.accounts r.now.query }
        ensures running { self.new.running ≡ without_runner r.now.session self.old.running }
    {
        let place = self.place_of_runner(r);
        self.accounts.give_back(r.query);
        self.rows.remove(place);
    }

    /// A query goes on in another pool with the same grant, behind all others.
    pub fn go_on(&mut self, r: &Runner, now: &Runner)
        requires runs { runner_of self.old.running r.now.session ≡ Some r.now }
        requires once { (query : ℕ) → count_by (λ x. x.query == query) self.old.running ≤ 1 }
        requires holds { holding now.now ≡ record { query = r.now.query; pool = now.now.pool; bytes = r.now.grant } }
        requires known { has_name self.old.accounts.reserves now.now.pool ≡ true }
        requires fits { (if_moved self.old.accounts r.now.query now.now.pool).need ≤ (if_moved self.old.accounts r.now.query now.now.pool).free }
        ensures accounts { self.new.accounts ≡ moved_to self.old.accounts r.now.query now.now.pool }
        ensures running { self.new.running ≡ without_runner r.now.session self.old.running ++ now.now ∷ [] }
    {
        let place = self.place_of_runner(r);
        self.accounts.move_to(r.query, now.pool);
        self.rows.remove(place);
        self.rows.add(run_of(now));
    }

    /// A query runs on with the same grant and with other marks.
    pub fn mark(&mut self, r: &Runner, now: &Runner)
        requires runs { runner_of self.old.running r.now.session ≡ Some r.now }
        requires holds { holding now.now ≡ holding r.now }
        ensures accounts { self.new.accounts ≡ self.old.accounts }
        ensures running { self.new.running ≡ with_runner_as (λ _. now.now) r.now.session self.old.running }
    {
        let place = self.place_of_runner(r);
        self.rows.set(place, run_of(now));
    }

    /// A pool is gone: its bytes and its queries are GENERAL's, in their places and with their grants.
    pub fn fold_into_general(&mut self, pool: Name)
        requires known { has_name self.old.accounts.reserves pool ≡ true }
        requires not_general { same_name pool general ≡ false }
        ensures accounts { self.new.accounts ≡ folded self.old.accounts pool }
        ensures running { self.new.running ≡ map (runner_beside pool) self.old.running }
    {
        self.accounts.fold_into_general(pool);
        put_rows_beside(&mut self.rows, pool);
    }

    /// One pool more, with no bytes of its own yet.
    pub fn add_pool(&mut self, pool: Name)
        requires absent { has_name self.old.accounts.reserves pool ≡ false }
        requires room { length self.old.accounts.reserves + 1 < POOLS_MOST }
        ensures accounts { self.new.accounts ≡ with_pool self.old.accounts pool }
        ensures running { self.new.running ≡ self.old.running }
    {
        self.accounts.add_pool(pool);
    }

    /// Sizes follow the declared ones, and the memory in force the total.
    pub fn shuffle(&mut self, definitions: &Definitions)
        requires sound { IsSound definitions.now }
        requires same_pools { names_in definitions.now ≡ reserve_names self.old.accounts.reserves }
        ensures accounts { self.new.accounts ≡ shuffled definitions.now self.old.accounts }
        ensures running { self.new.running ≡ self.old.running }
    {
        self.accounts.shuffle(definitions);
    }
}
