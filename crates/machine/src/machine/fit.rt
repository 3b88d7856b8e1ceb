//! How a query fits in a pool, by the definitions and the bytes.
ghost use Rattle.std.specs.Prelude.{◌≡◌, ◌≤◌, ◌*◌, IsTrue};
ghost use Rattle.rm_base.specs.Ranges.{is_pool_in_range};
ghost use Rattle.rm_base.specs.declared.limits.TheConstants.{MEMORY_MOST};
ghost use Rattle.rm_rules.specs.Definitions.{pool_row};
ghost use Rattle.rm_rules.specs.Accounting.{running_in};
ghost use Rattle.rm_rules.specs.Fit.{has_place, poolfit, can_lend, judged};
ghost use Rattle.rm_rules.specs.Moving.{allows_grant};
ghost use Rattle.rm_rules.specs.Sound.{IsSound};
ghost use Rattle.machine.specs.Taking.{lets_in, lends, takes_grant};

use super::Machine;
use accounts::{Accounts, IfMoved};
use budgets::{cap, row_asked, row_cap, row_threshold, threshold};
use rm_base::definitions::Definitions;
use rm_base::name::Name;
use rm_base::rows::PoolRow;
use rm_rules::readings::pool_row;
use rm_rules::room::Room;
use rm_rules::state::Judged;

/// Fewer queries run in the pool of this row than its MAXCONCURRENCY.
fn has_place(accounts: &Accounts, row: &PoolRow, pool: Name) -> bool
    ensures { result ≡ has_place row.now (running_in pool accounts.now.grants) }
{
    match row.concurrency {
        Some(most) => accounts.running(pool) < most,
        None => true,
    }
}

/// The pool, whose row it is, lets in a query of so many bytes.
fn poolfit(
    definitions: &Definitions,
    accounts: &Accounts,
    row: &PoolRow,
    pool: Name,
    bytes: u64,
) -> bool
    requires sound { IsSound definitions.now }
    requires row { row.now ≡ pool_row definitions.now pool }
    requires in_range { IsTrue (is_pool_in_range row.now) }
    requires bytes { bytes ≤ 2 * MEMORY_MOST }
    ensures { result ≡ poolfit definitions.now accounts.now pool bytes }
{
    let used = accounts.used(pool);
    has_place(accounts, row, pool)
        && used <= row_threshold(definitions, row)
        && used + bytes <= row_cap(definitions, row)
}

/// GENERAL has so many free bytes, and its use is within its threshold.
fn can_lend(definitions: &Definitions, accounts: &Accounts, bytes: u64) -> bool
    requires { IsSound definitions.now }
    ensures { result ≡ can_lend definitions.now accounts.now bytes }
{
    accounts.lent() <= threshold(definitions, Name::general()) && bytes <= accounts.free()
}

/// How a query of so many bytes fits in the pool, whose row it is.
fn judged(
    definitions: &Definitions,
    accounts: &Accounts,
    row: &PoolRow,
    pool: Name,
    bytes: u64,
) -> Judged
    requires sound { IsSound definitions.now }
    requires row { row.now ≡ pool_row definitions.now pool }
    requires in_range { IsTrue (is_pool_in_range row.now) }
    requires bytes { bytes ≤ 2 * MEMORY_MOST }
    ensures { result ≡ judged definitions.now accounts.now pool bytes }
{
    let poolfit = poolfit(definitions, accounts, row, pool, bytes);
    let need = accounts.need(pool, bytes);
    let fits = poolfit && (need == 0 || can_lend(definitions, accounts, need));
    Judged {
        poolfit,
        need,
        fits,
    }
}

/// By these numbers of it, the pool lets in a query of so many bytes.
fn lets_in(definitions: &Definitions, seen: &IfMoved, pool: Name, bytes: u64) -> bool
    requires sound { IsSound definitions.now }
    requires bytes { bytes ≤ 2 * MEMORY_MOST }
    requires used { seen.now.used ≤ MEMORY_MOST }
    ensures { result ≡ lets_in definitions.now seen.now pool bytes }
{
    let most = pool_row(definitions, pool).concurrency;
    most.is_none_or(|most| seen.running < most)
        && seen.used <= threshold(definitions, pool)
        && seen.used + bytes <= cap(definitions, pool)
}

/// By these numbers, GENERAL lends what is needed.
fn lends(definitions: &Definitions, seen: &IfMoved) -> bool
    requires { IsSound definitions.now }
    ensures { result ≡ lends definitions.now seen.now }
{
    seen.need == 0
        || (seen.lent <= threshold(definitions, Name::general()) && seen.need <= seen.free)
}

/// The pool's MAXQUERYMEMORYSIZE allows the grant.
fn allows_grant(definitions: &Definitions, pool: Name, grant: u64) -> bool
    ensures { result ≡ allows_grant definitions.now pool grant }
{
    let most = pool_row(definitions, pool).query_max;
    most.is_none_or(|most| grant <= most)
}

/// By these numbers of it, the pool takes a running query with this grant.
pub fn takes_grant(definitions: &Definitions, seen: &IfMoved, pool: Name, grant: u64) -> bool
    requires sound { IsSound definitions.now }
    requires grant { grant ≤ 2 * MEMORY_MOST }
    requires used { seen.now.used ≤ MEMORY_MOST }
    ensures { result ≡ takes_grant definitions.now seen.now pool grant }
{
    lets_in(definitions, seen, pool, grant)
        && lends(definitions, seen)
        && allows_grant(definitions, pool, grant)
}

/// The machine knows how a query would fit now.
impl Room for Machine {
    ghost use Rattle.rm_rules.specs.Holdings.{holdings_of};

    ghost definitions = { λ m. m.definitions };

    ghost holdings = { holdings_of };

    fn judge(&self, pool: Name, user: Name, floor: u64) -> Judged {
        let row = self.row(pool);
        let bytes = row_asked(&self.definitions, &row, user, floor);
        judged(&self.definitions, self.runs.accounts(), &row, pool, bytes)
    }
}
