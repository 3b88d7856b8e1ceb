//! The accounts of the running queries.
ghost use Rattle.std.specs.Prelude.{◌≡◌, ◌<◌, ◌≤◌, ◌+◌, ◌^◌, true, false, length, Some, find, position, slice_index, IfOk, IfSome};
ghost use Rattle.rm_base.specs.declared.limits.TheConstants.{MEMORY_MOST, POOLS_MOST, SESSIONS_MOST};
ghost use Rattle.rm_base.specs.Name.{same_name, general};
ghost use Rattle.rm_rules.specs.Sound.{IsSound};
ghost use Rattle.rm_rules.specs.State.{without};
ghost use Rattle.accounts.specs.Numbers.{usage_made, size_at};

use crate::bytes::{kept_back, lent};
use crate::moves::{IfMoved, hand_over};
use crate::numbers::{Numbers, Usage, account_made, first_numbers, recount};
use crate::sizes::{are_settled, fall, first_reserves, grow};
use places::Guesses;
use rm_base::bounded::Bounded;
use rm_base::definitions::Definitions;
use rm_base::entry::Account;
use rm_base::limits::{POOLS_MOST, SESSIONS_MOST};
use rm_base::name::Name;
use rm_rules::readings::total;
use rm_rules::state::{Holding, Reserve};
use std::alloc::{AllocError, Global};
use std::marker::Model;

/// The memory in force, the pools with their actual sizes, the running queries with their grants, and the numbers of these.
#[derive(Debug, Drop)]
pub struct Accounts {
    in_force: u64,
    reserves: Bounded<Reserve, POOLS_MOST>,
    grants: Bounded<Holding, SESSIONS_MOST>,
    kept: Numbers,
    places: Guesses,
}

impl Model for Accounts {
    ghost use Rattle.rm_rules.specs.Holdings.{Holdings};

    ghost Value = { Holdings };

    ghost use Rattle.accounts.specs.Kept.{seen_holdings, AreKept};

    ghost view = { seen_holdings };

    ghost invariant = { AreKept };
}

impl Accounts {
    ghost use Rattle.rm_rules.specs.Holdings.{reserve_names};
    ghost use Rattle.rm_rules.specs.Accounting.{used, running_in, reserve_of, actual_of, own_of, unused_of, lent, free, need, accounts};
    ghost use Rattle.rm_rules.specs.Shuffle.{shuffled};
    ghost use Rattle.accounts.specs.Accounts.{names_in, has_name, is_of, has_query, queries, grant_of, account_of, first_holdings, taken, given_back, with_pool};
    ghost use Rattle.rm_rules.specs.DropPool.{is_reserve_of, folded};
    ghost use Rattle.accounts.specs.Moves.{if_moved, moved_to};

    /// No query runs yet. All memory that the accounts will ever use is taken here.
    pub fn new(alloc: Global, definitions: &Definitions) -> Result<Accounts, AllocError>
        requires sound { IsSound definitions.now }
        ensures { IfOk result (λ accounts. accounts ≡ first_holdings definitions.now) }
    {
        let in_force = total(definitions);
        let reserves = first_reserves(alloc, definitions.pools.rows())?;
        let kept = first_numbers(alloc, in_force, reserves.rows())?;
        let places = Guesses::of(reserves.rows());
        Ok(Accounts {
            in_force,
            reserves,
            grants: Bounded::new(alloc)?,
            kept,
            places,
        })
    }

    /// The memory in force.
    pub fn in_force(&self) -> u64
        ensures value { result ≡ self.now.in_force }
        ensures most { result ≤ MEMORY_MOST }
    {
        self.in_force
    }

    /// The pools but GENERAL with their actual sizes, in their order.
    pub fn reserves(&self) -> &[Reserve]
        ensures { result.now ≡ self.now.reserves }
    {
        self.reserves.rows()
    }

    /// The running queries with their grants, in their order.
    pub fn grants(&self) -> &[Holding]
        ensures { result.now ≡ self.now.grants }
    {
        self.grants.rows()
    }

    /// The accounts of the running queries, in their order.
    pub fn accounts(&self) -> &[Account]
        ensures { result.now ≡ accounts self.now }
    {
        self.kept.accounts.rows()
    }

    /// The reserves are found where they stand now.
    fn note_places(&mut self)
        ensures { self.new ≡ self.old }
    {
        self.places = Guesses::of(self.reserves.rows());
    }

    /// Where the pool's reserve stands; GENERAL has none.
    fn place_of_reserve(&self, pool: Name) -> Option<usize>
        ensures value { result ≡ position (is_reserve_of pool) self.now.reserves }
        ensures within { IfSome result (λ place. place < length self.now.reserves) }
    {
        let reserves = self.reserves.rows();
        if pool.same(Name::general()) {
            return None;
        }
        self.places.place_of(reserves, pool)
    }

    /// The size of the pool whose reserve stands in this place; GENERAL reserves nothing.
    fn size_at(&self, place: Option<usize>) -> u64
        requires { IfSome place (λ i. i < length self.now.reserves) }
        ensures { result ≡ size_at self.now.reserves place }
    {
        match place {
            Some(i) => self.reserves.rows()[i].size,
            None => 0,
        }
    }

    /// The usage of the pool; of one that is not there nothing is used.
    fn usage(&self, pool: Name) -> Usage
        ensures value { result ≡ usage_made (actual_of self.now pool) (used pool self.now.grants) (running_in pool self.now.grants) }
        ensures most { result.used ≤ MEMORY_MOST }
        ensures few { result.running ≤ length self.now.grants }
    {
        match self.place_of_reserve(pool) {
            Some(i) => self.kept.usages.rows()[i],
            None => {
                if pool.same(Name::general()) {
                    self.kept.general
                } else {
                    Usage::none()
                }
            }
        }
    }

    /// What the pool's queries hold.
    pub fn used(&self, pool: Name) -> u64
        ensures value { result ≡ used pool self.now.grants }
        ensures most { result ≤ MEMORY_MOST }
    {
        self.usage(pool).used
    }

    /// GENERAL's use: its own queries' grants, and all that pools have borrowed.
    pub fn lent(&self) -> u64
        ensures value { result ≡ lent self.now }
        ensures most { result ≤ MEMORY_MOST }
    {
        self.kept.lent
    }

    /// GENERAL's free bytes.
    pub fn free(&self) -> u64
        ensures value { result ≡ free self.now }
        ensures most { result ≤ MEMORY_MOST }
    {
        self.kept.free
    }

    /// The pool's reserve; GENERAL has none.
    fn reserve_of(&self, pool: Name) -> Option<Reserve>
        ensures { result ≡ reserve_of self.now pool }
    {
        let reserves = self.reserves.rows();
        reserves.iter().copied().find(|e| e.pool.same(pool))
    }

    /// The pool's actual size; GENERAL has none.
    pub fn actual(&self, pool: Name) -> u64
        ensures { result ≡ actual_of self.now pool }
    {
        match self.reserve_of(pool) {
            Some(e) => e.size,
            None => 0,
        }
    }

    /// What a query of so many bytes would need of GENERAL's, beyond what its pool has unused.
    pub fn need(&self, pool: Name, bytes: u64) -> u64
        ensures value { result ≡ need self.now pool bytes }
        ensures most { result ≤ bytes }
    {
        let unused = self.actual(pool).saturating_sub(self.usage(pool).own);
        bytes - bytes.min(unused)
    }

    /// How many queries run in the pool.
    pub fn running(&self, pool: Name) -> u32
        ensures value { result ≡ running_in pool self.now.grants }
        ensures most { result ≤ SESSIONS_MOST }
    {
        // No more run in the pool than run.
        let _few = self.count();
        self.usage(pool).running
    }

    /// How many queries run.
    pub fn count(&self) -> u32
        ensures value { result ≡ length self.now.grants }
        ensures most { result ≤ SESSIONS_MOST }
    {
        self.grants.len() as u32
    }

    /// The number of the query that runs in this place.
    pub fn query_at(&self, index: u32) -> u64
        requires { index < length self.now.grants }
        ensures { result ≡ slice_index (queries self.now.grants) index }
    {
        self.grants.rows()[index as usize].query
    }

    /// Where the query's grant stands.
    fn place_of(&self, query: u64) -> Option<usize>
        ensures value { result ≡ position (is_of query) self.now.grants }
        ensures within { IfSome result (λ place. place < length self.now.grants) }
        ensures most { length self.now.grants ≤ SESSIONS_MOST }
    {
        let grants = self.grants.rows();
        grants.iter().position(|g| g.query == query)
    }

    /// What the query holds of its pool's own bytes, which go to the pool's queries in their order, and what it has
    /// borrowed. A query that does not run holds nothing.
    pub fn account_of(&self, query: u64) -> Account
        ensures { result ≡ account_of self.now query }
    {
        match self.place_of(query) {
            Some(place) => self.kept.accounts.rows()[place],
            None => Account {
                pool: Name::general(),
                own: 0,
                borrowed: 0,
            },
        }
    }

    /// A query begins to run, behind the others.
    pub fn take(&mut self, query: u64, pool: Name, grant: u64)
        requires room { length self.old.grants < SESSIONS_MOST }
        requires absent { has_query self.old.grants query ≡ false }
        requires known { has_name self.old.reserves pool ≡ true }
        requires fits { need self.old pool grant ≤ free self.old }
        ensures { self.new ≡ taken self.old query pool grant }
    {
        let place = self.place_of_reserve(pool);
        let size = self.size_at(place);
        let usage = self.kept.usage_at(place);
        let now = Usage::made(size, usage.used + grant, usage.running + 1);
        self.kept.set_usage(place, now);
        let account = account_made(pool, size, usage.used, grant);
        self.kept.accounts.add(account);
        self.grants.add(Holding {
            query,
            pool,
            bytes: grant,
        });
    }

    /// A query ends, and what it held is handed back. One that does not run held nothing.
    pub fn give_back(&mut self, query: u64) -> u64
        ensures state { self.new ≡ given_back self.old query }
        ensures grant { result ≡ grant_of self.old.grants query }
    {
        match self.place_of(query) {
            Some(place) => {
                let g = self.grants.rows()[place];
                let home = self.place_of_reserve(g.pool);
                let size = self.size_at(home);
                let usage = self.kept.usage_at(home);
                let now = Usage::made(size, usage.used - g.bytes, usage.running - 1);
                self.kept.set_usage(home, now);
                self.kept.accounts.remove(place);
                self.grants.remove(place);
                recount(&mut self.kept.accounts, self.grants.rows(), g.pool, size);
                g.bytes
            }
            None => 0,
        }
    }

    /// The usage of the pool with this running query taken out.
    fn usage_beside(&self, g: Holding, pool: Name) -> Usage
        requires { find (is_of g.query) self.now.grants ≡ Some g }
        ensures value { result ≡ usage_made (actual_of self.now pool) (used pool (without (is_of g.query) self.now.grants)) (running_in pool (without (is_of g.query) self.now.grants)) }
        ensures most { result.used ≤ MEMORY_MOST }
    {
        let usage = self.usage(pool);
        if g.pool.same(pool) {
            Usage::made(self.actual(pool), usage.used - g.bytes, usage.running - 1)
        } else {
            usage
        }
    }

    /// What decides whether the pool takes the query, which is taken out of the running ones for this, with all else as it is.
    pub fn if_moved(&self, query: u64, pool: Name) -> IfMoved
        requires runs { has_query self.now.grants query ≡ true }
        ensures value { result ≡ if_moved self.now query pool }
        ensures used_most { result.used ≤ MEMORY_MOST }
    {
        let place = self.place_of(query).unwrap();
        let g = self.grants.rows()[place];
        let home = self.usage(g.pool).borrowed();
        let left = self.usage_beside(g, g.pool).borrowed();
        let returned = home - left;
        let there = self.usage_beside(g, pool);
        let unused = self.actual(pool).saturating_sub(there.own);
        IfMoved {
            need: g.bytes - g.bytes.min(unused),
            free: self.kept.free + returned,
            used: there.used,
            lent: self.kept.lent - returned,
            running: there.running,
        }
    }

    /// A query goes on in another pool with the same grant: it leaves its place, and joins the others behind them.
    pub fn move_to(&mut self, query: u64, pool: Name)
        requires runs { has_query self.old.grants query ≡ true }
        requires known { has_name self.old.reserves pool ≡ true }
        requires fits { (if_moved self.old query pool).need ≤ (if_moved self.old query pool).free }
        ensures { self.new ≡ moved_to self.old query pool }
    {
        // There is room for the one that leaves its place.
        let _few = self.grants.len();
        let bytes = self.give_back(query);
        self.take(query, pool, bytes);
    }

    /// A pool is gone: its bytes go back to GENERAL, and its queries become GENERAL's, in their places and with their grants.
    pub fn fold_into_general(&mut self, pool: Name)
        requires known { has_name self.old.reserves pool ≡ true }
        requires not_general { same_name pool general ≡ false }
        ensures { self.new ≡ folded self.old pool }
    {
        let place = self.place_of_reserve(pool).unwrap();
        // The two counts are those of queries that run.
        let _few = self.count();
        let size = self.reserves.rows()[place].size;
        self.kept.fold(place, size);
        self.reserves.remove(place);
        hand_over(&mut self.grants, pool);
        recount(
            &mut self.kept.accounts,
            self.grants.rows(),
            Name::general(),
            0,
        );
        self.note_places();
    }

    /// One pool more, behind the others. It has no bytes of its own until the sizes are shuffled.
    pub fn add_pool(&mut self, pool: Name)
        requires absent { has_name self.old.reserves pool ≡ false }
        requires room { length self.old.reserves + 1 < POOLS_MOST }
        ensures { self.new ≡ with_pool self.old pool }
    {
        self.kept.usages.add(Usage::none());
        self.reserves.add(Reserve { pool, size: 0 });
        self.note_places();
    }

    /// Whether each pool has its MEMORYSIZE and the total is in force: then the shuffle changes nothing.
    fn is_settled(&self, definitions: &Definitions) -> bool
        requires sound { IsSound definitions.now }
        requires same_pools { names_in definitions.now ≡ reserve_names self.now.reserves }
        ensures { result ≡ true → shuffled definitions.now self.now ≡ self.now }
    {
        self.in_force == total(definitions) && are_settled(definitions, self.reserves.rows())
    }

    /// The shuffle where a size or the memory in force may change.
    fn resize(&mut self, definitions: &Definitions)
        requires sound { IsSound definitions.now }
        requires same_pools { names_in definitions.now ≡ reserve_names self.old.reserves }
        ensures { self.new ≡ shuffled definitions.now self.old }
    {
        let grants = self.grants.rows();
        fall(definitions, grants, &mut self.reserves);
        let kept_back = kept_back(self.reserves.rows());
        let lent = lent(grants, self.reserves.rows());
        self.in_force = total(definitions).max(kept_back + lent);
        let spare = self.in_force - kept_back - lent;
        grow(definitions, grants, &mut self.reserves, spare);
        self.kept
            .settle(self.in_force, self.reserves.rows(), grants);
    }

    /// Actual sizes follow the declared ones as far as bytes in use let them, and the memory in force the total.
    pub fn shuffle(&mut self, definitions: &Definitions)
        requires sound { IsSound definitions.now }
        requires same_pools { names_in definitions.now ≡ reserve_names self.old.reserves }
        ensures { self.new ≡ shuffled definitions.now self.old }
    {
        if !self.is_settled(definitions) {
            self.resize(definitions);
        }
    }
}
