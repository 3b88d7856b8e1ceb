//! Bytes, as sums over the lists of reserves and grants.
ghost use Rattle.std.specs.Prelude.{◌≡◌, ◌<◌, ◌≤◌, ◌+◌, ◌-◌, ◌^◌, sum_by};
ghost use Rattle.rm_base.specs.Name.{general};
ghost use Rattle.rm_rules.specs.Accounting.{used, own, debt, kept_back};
ghost use Rattle.accounts.specs.Sizes.{held};

use rm_base::name::Name;
use rm_rules::state::{Holding, Reserve};

/// What these queries of the pool hold, as a sum that fits.
fn sum_in(grants: &[Holding], pool: Name) -> u64
    requires { used pool grants.now < 2 ^ 64 }
    ensures { result ≡ used pool grants.now }
{
    grants
        .iter()
        .map(|g| if g.pool.same(pool) { g.bytes } else { 0 })
        .sum()
}

/// What these queries of the pool hold.
#[tactic(auto, using(crate::proofs::Sums::used_held))]
pub fn used(grants: &[Holding], pool: Name) -> u64
    requires { held grants.now < 2 ^ 64 }
    ensures value { result ≡ used pool grants.now }
    ensures most { result ≤ held grants.now }
{
    sum_in(grants, pool)
}

/// How much of its own bytes the pool uses.
pub fn own(grants: &[Holding], e: &Reserve) -> u64
    requires { held grants.now < 2 ^ 64 }
    ensures { result ≡ own grants.now e.now }
{
    used(grants, e.pool).min(e.size)
}

/// What the pool has borrowed beyond its own bytes.
pub fn debt(grants: &[Holding], e: &Reserve) -> u64
    requires { held grants.now < 2 ^ 64 }
    ensures value { result ≡ debt grants.now e.now }
    ensures most { result ≤ held grants.now }
{
    let used = used(grants, e.pool);
    used - used.min(e.size)
}

/// What all these pools have borrowed beyond their own bytes.
fn debts(grants: &[Holding], reserves: &[Reserve]) -> u64
    requires granted { held grants.now < 2 ^ 64 }
    requires fits { sum_by (debt grants.now) reserves.now < 2 ^ 64 }
    ensures { result ≡ sum_by (debt grants.now) reserves.now }
{
    let mut sum = 0;
    for e in reserves {
        sum += debt(grants, e);
    }
    sum
}

/// GENERAL's use: its own queries' grants, and all debts.
pub fn lent(grants: &[Holding], reserves: &[Reserve]) -> u64
    requires granted { held grants.now < 2 ^ 64 }
    requires fits { used general grants.now + sum_by (debt grants.now) reserves.now < 2 ^ 64 }
    ensures { result ≡ used general grants.now + sum_by (debt grants.now) reserves.now }
{
    used(grants, Name::general()) + debts(grants, reserves)
}

/// What the pools reserve.
pub fn kept_back(reserves: &[Reserve]) -> u64
    requires { kept_back reserves.now < 2 ^ 64 }
    ensures { result ≡ kept_back reserves.now }
{
    reserves.iter().map(|e| e.size).sum()
}
