//! DROP RESOURCE POOL: what it leaves, and what it is refused with.
ghost use Rattle.std.specs.Prelude.{◌≡◌, find, map};
ghost use Rattle.rm_base.specs.declared.name.Name.{Name};
ghost use Rattle.rm_rules.specs.DropPool.{is_named, user_beside, role_beside, names_pool, without_pool, pool_built_in, pool_needed, drop_pool_refusal};

use crate::refusals::{changes_full, first_refusal, pool_missing, refused_if};
use rm_base::bounded::Bounded;
use rm_base::definitions::Definitions;
use rm_base::name::Name;
use rm_base::refusal::Refusal;
use rm_base::rows::{GrantRow, PoolRow, RoleRow, UserRow};
use rm_rules::dropped::in_place;

/// Whether it is this pool that is named.
fn is_named(pool: Name, name: Option<Name>) -> bool
    ensures { result ≡ is_named pool name }
{
    match name {
        None => false,
        Some(name) => name.same(pool),
    }
}

/// A row that may have a pool.
pub trait PooledRow: Copy {
    ghost beside: { Name → Self → Self };

    /// The row where this pool is dropped.
    fn beside(&self, pool: Name) -> Self
        ensures { result ≡ beside pool self.now };
}

impl PooledRow for UserRow {
    ghost beside = { user_beside };

    fn beside(&self, pool: Name) -> Self {
        UserRow {
            name: self.name,
            pool: self.pool.map(|name| in_place(pool, name)),
            memory_cap: self.memory_cap,
            cap_ms: self.cap_ms,
        }
    }
}

impl PooledRow for RoleRow {
    ghost beside = { role_beside };

    fn beside(&self, pool: Name) -> Self {
        let had = is_named(pool, self.pool);
        RoleRow {
            name: self.name,
            pool: if had { None } else { self.pool },
        }
    }
}

/// Each row as one beside which the pool is dropped, in its place.
fn leave<T: PooledRow, const MOST: usize>(rows: &mut Bounded<T, MOST>, pool: Name)
    ensures { rows.new ≡ map (T.beside pool) rows.old }
{
    for place in 0..rows.len() {
        let row = rows.rows()[place].beside(pool);
        rows.set(place, row);
    }
}

/// Whether the grant is one of the pool.
fn names_pool(pool: Name, grant: &GrantRow) -> bool
    ensures { result ≡ names_pool pool grant.now }
{
    match grant {
        GrantRow::PoolToUser(p, _) => p.same(pool),
        GrantRow::PoolToRole(p, _) => p.same(pool),
        GrantRow::RoleToUser(..) => false,
    }
}

/// Takes the pool away, with the grants of it: its users have GENERAL then, and its roles no pool.
pub fn drop_pool(definitions: &mut Definitions, name: Name)
    ensures { definitions.new ≡ without_pool definitions.old name }
{
    definitions.pools.retain(|p| !p.name.same(name));
    leave(&mut definitions.users, name);
    leave(&mut definitions.roles, name);
    definitions.grants.retain(|g| !names_pool(name, g));
}

fn pool_built_in(name: Name) -> Option<Refusal>
    ensures { result ≡ pool_built_in name }
{
    refused_if(name.same(Name::general()), Refusal::BuiltIn)
}

/// The first pool that cascades to this one.
fn dependent(pools: &[PoolRow], name: Name) -> Option<PoolRow>
    ensures { result ≡ find (λ r. is_named name r.cascade) pools.now }
{
    pools.iter().copied().find(|r| is_named(name, r.cascade))
}

fn pool_needed(pools: &[PoolRow], name: Name) -> Option<Refusal>
    ensures { result ≡ pool_needed pools.now name }
{
    match dependent(pools, name) {
        None => None,
        Some(r) => Some(Refusal::Dependents(r.name)),
    }
}

/// Why a pool is not dropped.
pub fn drop_pool_refusal(definitions: &Definitions, name: Name) -> Option<Refusal>
    ensures { result ≡ drop_pool_refusal definitions.now name }
{
    first_refusal(&[
        pool_missing(definitions, name),
        pool_built_in(name),
        pool_needed(definitions.pools.rows(), name),
        changes_full(definitions),
    ])
}
