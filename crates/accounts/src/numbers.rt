//! The numbers that are kept beside the lists of reserves and grants.
ghost use Rattle.std.specs.Prelude.{◌≡◌, ◌<◌, ◌≤◌, ◌+◌, ◌-◌, ◌^◌, ◌++◌, ◌∷◌, [], length, min, find, sum_by, slice_index_or, IfSome, IfOk};
ghost use Rattle.rm_base.specs.Name.{general};
ghost use Rattle.rm_base.specs.declared.limits.TheConstants.{POOLS_MOST};
ghost use Rattle.rm_rules.specs.Accounting.{kept_back};
ghost use Rattle.rm_rules.specs.DropPool.{is_reserve_of};
ghost use Rattle.accounts.specs.Numbers.{no_usage, numbers_of, usage_made, borrowed, usage_at, with_usage, account_made, account_anew, used_before, recounted, size_in, accounts_at, usages_folded, usages_resized};
ghost use Rattle.accounts.specs.Sizes.{held};

use crate::bytes::{kept_back, used};
use rm_base::bounded::Bounded;
use rm_base::entry::Account;
use rm_base::limits::{POOLS_MOST, SESSIONS_MOST};
use rm_base::name::Name;
use rm_rules::state::{Holding, Reserve};
use std::alloc::{AllocError, Global};

/// What a pool's queries hold, how much of its own bytes they use, and how many run. GENERAL stands here as a pool that
/// reserves nothing.
#[derive(Clone, Copy, Debug, PartialEq, Eq)]
pub struct Usage {
    pub used: u64,
    pub own: u64,
    pub running: u32,
}

/// Beside each reserve its usage, beside each grant its account, GENERAL's own queries, its use and its free bytes.
#[derive(Debug, Drop)]
pub struct Numbers {
    pub usages: Bounded<Usage, POOLS_MOST>,
    pub general: Usage,
    pub lent: u64,
    pub free: u64,
    pub accounts: Bounded<Account, SESSIONS_MOST>,
}

impl Usage {
    /// That of a pool in which no query runs.
    pub fn none() -> Usage
        ensures { result ≡ no_usage }
    {
        Usage {
            used: 0,
            own: 0,
            running: 0,
        }
    }

    /// That of a pool of this size whose queries hold so much.
    pub fn made(size: u64, used: u64, running: u32) -> Usage
        ensures { result ≡ usage_made size used running }
    {
        Usage {
            used,
            own: used.min(size),
            running,
        }
    }

    /// What the pool has borrowed beyond its own bytes.
    pub fn borrowed(&self) -> u64
        ensures value { result ≡ borrowed self.now }
        ensures most { result ≤ self.now.used }
    {
        self.used.saturating_sub(self.own)
    }
}

impl Numbers {
    /// The usage of the pool whose reserve stands in this place, and GENERAL's at none.
    pub fn usage_at(&self, place: Option<usize>) -> Usage
        requires { IfSome place (λ i. i < length self.now.usages) }
        ensures { result ≡ usage_at self.now place }
    {
        match place {
            Some(i) => self.usages.rows()[i],
            None => self.general,
        }
    }

    /// The pool's usage becomes this one. What it had borrowed is free, and what it has borrowed now is lent.
    pub fn set_usage(&mut self, place: Option<usize>, usage: Usage)
        requires within { IfSome place (λ i. i < length self.old.usages) }
        requires borrowed { borrowed (usage_at self.old place) ≤ self.old.lent }
        requires lent { self.old.lent < 2 ^ 62 }
        requires free { self.old.free < 2 ^ 62 }
        requires used { usage.used < 2 ^ 62 }
        ensures { self.new ≡ with_usage self.old place usage }
    {
        let before = self.usage_at(place).borrowed();
        let now = usage.borrowed();
        self.lent = self.lent.saturating_sub(before) + now;
        self.free = (self.free + before).saturating_sub(now);
        match place {
            Some(i) => self.usages.set(i, usage),
            None => self.general = usage,
        }
    }

    /// The pool in this place is gone, and its queries are GENERAL's.
    pub fn fold(&mut self, place: usize, size: u64)
        requires within { place < length self.old.usages }
        requires used { self.old.general.used + (slice_index_or self.old.usages place no_usage).used < 2 ^ 64 }
        requires running { self.old.general.running + (slice_index_or self.old.usages place no_usage).running < 2 ^ 32 }
        requires lent { self.old.lent + (slice_index_or self.old.usages place no_usage).own < 2 ^ 64 }
        requires free { self.old.free + size < 2 ^ 64 }
        ensures { self.new ≡ usages_folded self.old place size }
    {
        let gone = self.usages.remove(place);
        let used = self.general.used + gone.used;
        let running = self.general.running + gone.running;
        self.general = Usage::made(0, used, running);
        self.lent += gone.own;
        self.free = (self.free + size).saturating_sub(gone.own);
    }
}

impl Numbers {
    /// The numbers where the pools have these sizes, and so much memory is in force.
    pub fn settle(&mut self, in_force: u64, reserves: &[Reserve], grants: &[Holding])
        requires pools { length self.old.usages ≡ length reserves.now }
        requires queries { length self.old.accounts ≡ length grants.now }
        requires granted { held grants.now < 2 ^ 64 }
        requires kept_back { kept_back reserves.now < 2 ^ 64 }
        requires fits { borrowed self.old.general + sum_by borrowed (usages_resized reserves.now self.old.usages) < 2 ^ 64 }
        ensures usages { self.new.usages ≡ usages_resized reserves.now self.old.usages }
        ensures general { self.new.general ≡ self.old.general }
        ensures lent { self.new.lent ≡ borrowed self.old.general + sum_by borrowed self.new.usages }
        ensures free { self.new.free ≡ (in_force - kept_back reserves.now) - self.new.lent }
        ensures accounts { self.new.accounts ≡ accounts_at reserves.now [] grants.now }
    {
        resize(&mut self.usages, reserves);
        self.lent = self.general.borrowed() + borrowed_by(self.usages.rows());
        let general_size = in_force.saturating_sub(kept_back(reserves));
        self.free = general_size.saturating_sub(self.lent);
        hand_out(&mut self.accounts, reserves, grants);
    }
}

/// What pools of these usages have borrowed.
fn borrowed_by(usages: &[Usage]) -> u64
    requires { sum_by borrowed usages.now < 2 ^ 64 }
    ensures { result ≡ sum_by borrowed usages.now }
{
    let mut sum = 0;
    for usage in usages {
        sum += usage.borrowed();
    }
    sum
}

/// The pools have these sizes now.
fn resize(usages: &mut Bounded<Usage, POOLS_MOST>, reserves: &[Reserve])
    requires { length usages.old ≡ length reserves.now }
    ensures { usages.new ≡ usages_resized reserves.now usages.old }
{
    for (i, e) in reserves.iter().enumerate() {
        let usage = usages.rows()[i];
        usages.set(i, Usage::made(e.size, usage.used, usage.running));
    }
}

/// The pool's reserve; GENERAL has none.
fn reserve_in(reserves: &[Reserve], pool: Name) -> Option<Reserve>
    ensures { result ≡ find (is_reserve_of pool) reserves.now }
{
    reserves.iter().copied().find(|e| e.pool.same(pool))
}

/// The size of the pool; GENERAL reserves nothing.
fn size_in(reserves: &[Reserve], pool: Name) -> u64
    ensures { result ≡ size_in reserves.now pool }
{
    match reserve_in(reserves, pool) {
        Some(e) => e.size,
        None => 0,
    }
}

/// All accounts made anew, by other sizes.
fn hand_out(
    accounts: &mut Bounded<Account, SESSIONS_MOST>,
    reserves: &[Reserve],
    grants: &[Holding],
)
    requires beside { length accounts.old ≡ length grants.now }
    requires granted { held grants.now < 2 ^ 64 }
    ensures { accounts.new ≡ accounts_at reserves.now [] grants.now }
{
    for (i, g) in grants.iter().enumerate() {
        let before = used(&grants[..i], g.pool);
        accounts.set(
            i,
            account_made(g.pool, size_in(reserves, g.pool), before, g.bytes),
        );
    }
}

/// The numbers of these pools while no query runs.
pub fn first_numbers(
    alloc: Global,
    in_force: u64,
    reserves: &[Reserve],
) -> Result<Numbers, AllocError>
    requires room { length reserves.now ≤ POOLS_MOST }
    requires fits { kept_back reserves.now < 2 ^ 64 }
    ensures { IfOk result (λ numbers. numbers ≡ numbers_of (record { in_force = in_force; reserves = reserves.now; grants = [] })) }
{
    let mut usages = Bounded::new(alloc)?;
    for e in reserves {
        usages.add(Usage::made(e.size, 0, 0));
    }
    Ok(Numbers {
        usages,
        general: Usage::none(),
        lent: 0,
        free: in_force.saturating_sub(kept_back(reserves)),
        accounts: Bounded::new(alloc)?,
    })
}

/// The account of a query of the pool, whose size and what of it stands before the query these are.
pub fn account_made(pool: Name, size: u64, before: u64, bytes: u64) -> Account
    ensures { result ≡ account_made pool size before bytes }
{
    let own = if pool.same(Name::general()) {
        bytes
    } else {
        bytes.min(size.saturating_sub(before))
    };
    Account {
        pool,
        own,
        borrowed: bytes - own,
    }
}

/// What stands before the next query of the pool, if this one is of the pool.
fn before_next(pool: Name, before: u64, g: &Holding) -> u64
    requires { before + g.now.bytes < 2 ^ 64 }
    ensures { result ≡ used_before pool before g.now }
{
    if g.pool.same(pool) {
        before + g.bytes
    } else {
        before
    }
}

/// The account of this query, made anew if it is of the pool.
fn account_anew(pool: Name, size: u64, before: u64, g: &Holding, account: Account) -> Account
    ensures { result ≡ account_anew pool size before g.now account }
{
    if g.pool.same(pool) {
        account_made(pool, size, before, g.bytes)
    } else {
        account
    }
}

/// The own bytes of the pool, handed out anew to its queries in their order.
pub fn recount(
    accounts: &mut Bounded<Account, SESSIONS_MOST>,
    grants: &[Holding],
    pool: Name,
    size: u64,
)
    requires beside { length accounts.old ≡ length grants.now }
    requires granted { held grants.now < 2 ^ 64 }
    ensures { accounts.new ≡ recounted pool size 0 grants.now accounts.old }
{
    let mut before = 0;
    for (i, g) in grants.iter().enumerate() {
        let account = account_anew(pool, size, before, g, accounts.rows()[i]);
        before = before_next(pool, before, g);
        accounts.set(i, account);
    }
}
