//! What a snapshot tells of the bytes, as the rules speak of them.
ghost use Rattle.std.specs.Prelude.{◌≡◌, ◌<◌, ◌+◌, ◌^◌, map, IfOk};
ghost use Rattle.rm_rules.specs.Accounting.{used, running_in, debt};
ghost use Rattle.accounts.specs.Sizes.{held};
ghost use Rattle.system_tables.specs.Seen.{holding_seen};

use rm_base::name::Name;
use rm_base::snapshot::RunningSeen;
use rm_rules::state::{Holding, Reserve};
use std::alloc::{AllocError, Global};

fn holding_seen(r: &RunningSeen) -> Holding
    requires { r.now.account.own + r.now.account.borrowed < 2 ^ 64 }
    ensures { result ≡ holding_seen r.now }
{
    Holding {
        query: r.query,
        pool: r.account.pool,
        bytes: r.account.own + r.account.borrowed,
    }
}

/// What the running queries hold, in their order.
pub fn grants_seen(alloc: Global, running: &[RunningSeen]) -> Result<Vec<Holding>, AllocError>
    requires { held (map holding_seen running.now) < 2 ^ 64 }
    ensures { IfOk result (λ grants. grants.items ≡ map holding_seen running.now) }
{
    let mut grants = Vec::with_capacity(alloc, running.len())?;
    for r in running {
        grants.push_reserved(holding_seen(r));
    }
    Ok(grants)
}

/// What these queries of the pool hold, as a sum that fits.
fn sum_in(grants: &[Holding], pool: Name) -> u64
    requires { used pool grants.now < 2 ^ 64 }
    ensures { result ≡ used pool grants.now }
{
    grants
        .iter()
        .map(|g| if g.pool.same(pool) { g.bytes } else { 0 })
        .sum()
}

/// What these queries of the pool hold.
#[tactic(auto, using(accounts::proofs::Sums::used_held))]
pub fn used(grants: &[Holding], pool: Name) -> u64
    requires { held grants.now < 2 ^ 64 }
    ensures { result ≡ used pool grants.now }
{
    sum_in(grants, pool)
}

/// How many of these queries run in the pool.
pub fn running_in(grants: &[Holding], pool: Name) -> usize
    ensures { result ≡ running_in pool grants.now }
{
    grants.iter().filter(|g| g.pool.same(pool)).count()
}

/// What of the pool's use is beyond its actual size.
pub fn debt(grants: &[Holding], e: &Reserve) -> u64
    requires { held grants.now < 2 ^ 64 }
    ensures { result ≡ debt grants.now e.now }
{
    let used = used(grants, e.pool);
    used - used.min(e.size)
}
