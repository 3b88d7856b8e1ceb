//! Whether definitions are sound.
ghost use Rattle.std.specs.Prelude.{◌≡◌, ◌-◌, ◌≤◌, ◌↔◌, ◌++◌, IsTrue, map, nat_le};
ghost use Rattle.std.specs.List.{list_all, list_any};
ghost use Rattle.rm_base.specs.declared.limits.TheConstants.{MEMORY_MOST, CONCURRENCY_MOST, SPAN_MOST, CHAIN_MOST};
ghost use Rattle.rm_base.specs.Name.{same_name};
ghost use Rattle.rm_rules.specs.Sound.{IsSound, begins_with_general, are_distinct, is_within_max, has_pool, chain_ends, is_grant_known, are_grants_distinct};
ghost use Rattle.rm_base.specs.Ranges.{passes_if_set, is_between, is_priority, is_pool_in_range, is_user_in_range};
ghost use Rattle.pool_table.specs.Soundness.{are_numbers_in_range, are_counts_in_range, are_values_in_range, are_names_right, is_total_right, are_links_right};

use crate::chains::chain_ends;
use crate::grants::has_grant;
use crate::known::{has_pool, has_role, has_user};
use rm_base::definitions::Definitions;
use rm_base::limits::{
    CHAIN_MOST, CHANGES_MOST, CONCURRENCY_MOST, CORES_MOST, GENERAL_PART, GRANTS_MOST,
    MEMORY_LEAST, MEMORY_MOST, POOLS_MOST, PRIORITY_MOST, ROLES_MOST, SPAN_MOST,
    THRESHOLD_SECONDS_MOST, TOTAL_LEAST, USERS_MOST,
};
use rm_base::name::Name;
use rm_base::rows::{GrantRow, PoolRow, RoleRow, UserRow};
use rm_rules::readings::{reserved, total};

/// Whether the definitions are sound: what every accepted statement keeps.
pub fn sound(definitions: &Definitions) -> bool
    ensures { IsTrue result ↔ IsSound definitions.now }
{
    are_numbers_in_range(definitions)
        && (are_counts_in_range(definitions)
            && (are_values_in_range(definitions)
                && (are_names_right(definitions)
                    && (is_total_right(definitions) && are_links_right(definitions)))))
}

fn are_numbers_in_range(definitions: &Definitions) -> bool
    ensures { result ≡ are_numbers_in_range definitions.now }
{
    (MEMORY_LEAST <= definitions.memory && definitions.memory <= MEMORY_MOST)
        && ((1 <= definitions.cores && definitions.cores <= CORES_MOST)
            && definitions.changes <= CHANGES_MOST)
}

fn are_counts_in_range(definitions: &Definitions) -> bool
    ensures { result ≡ are_counts_in_range definitions.now }
{
    definitions.pools.len() <= POOLS_MOST
        && (definitions.users.len() <= USERS_MOST
            && (definitions.roles.len() <= ROLES_MOST && definitions.grants.len() <= GRANTS_MOST))
}

fn are_values_in_range(definitions: &Definitions) -> bool
    ensures { result ≡ are_values_in_range definitions.now }
{
    let pools = definitions.pools.rows();
    are_pools_in_range(pools)
        && (are_users_in_range(definitions.users.rows()) && are_pools_within_max(pools))
}

fn are_names_right(definitions: &Definitions) -> bool
    ensures { result ≡ are_names_right definitions.now }
{
    let pools = definitions.pools.rows();
    let users = definitions.users.rows();
    begins_with_general(pools)
        && (has_user(definitions, Name::dbadmin())
            && (are_pools_distinct(pools) && are_users_distinct(users, definitions.roles.rows())))
}

fn is_total_right(definitions: &Definitions) -> bool
    requires memory { definitions.now.memory ≤ MEMORY_MOST }
    requires pools { IsTrue (list_all is_pool_in_range definitions.now.pools) }
    ensures { result ≡ is_total_right definitions.now }
{
    let total = total(definitions);
    let reserved = reserved(definitions);
    TOTAL_LEAST <= total
        && (total <= definitions.memory
            && (reserved <= total && total <= GENERAL_PART * total.saturating_sub(reserved)))
}

fn are_links_right(definitions: &Definitions) -> bool
    ensures { result ≡ are_links_right definitions.now }
{
    let grants = definitions.grants.rows();
    do_chains_end(definitions.pools.rows())
        && (are_user_pools_there(definitions)
            && (are_role_pools_there(definitions)
                && (are_grants_known(definitions) && are_grants_distinct(grants))))
}

fn are_pools_in_range(pools: &[PoolRow]) -> bool
    ensures { result ≡ list_all is_pool_in_range pools.now }
{
    pools.iter().all(is_pool_in_range)
}

fn are_users_in_range(users: &[UserRow]) -> bool
    ensures { result ≡ list_all is_user_in_range users.now }
{
    users.iter().all(is_user_in_range)
}

fn are_pools_within_max(pools: &[PoolRow]) -> bool
    ensures { result ≡ list_all is_within_max pools.now }
{
    pools.iter().all(is_within_max)
}

fn do_chains_end(pools: &[PoolRow]) -> bool
    ensures { result ≡ list_all (λ r. chain_ends pools.now (CHAIN_MOST - 1) r.cascade) pools.now }
{
    pools
        .iter()
        .all(|r| chain_ends(pools, r.cascade, CHAIN_MOST - 1))
}

fn are_user_pools_there(definitions: &Definitions) -> bool
    ensures { result ≡ list_all (λ u. passes_if_set (has_pool definitions.now) u.pool) definitions.now.users }
{
    let users = definitions.users.rows();
    users.iter().all(|u| is_pool_there(definitions, u.pool))
}

fn are_role_pools_there(definitions: &Definitions) -> bool
    ensures { result ≡ list_all (λ r. passes_if_set (has_pool definitions.now) r.pool) definitions.now.roles }
{
    let roles = definitions.roles.rows();
    roles.iter().all(|r| is_pool_there(definitions, r.pool))
}

fn are_grants_known(definitions: &Definitions) -> bool
    ensures { result ≡ list_all (is_grant_known definitions.now) definitions.now.grants }
{
    let grants = definitions.grants.rows();
    grants.iter().all(|g| is_grant_known(definitions, g))
}

fn is_within_bytes(bytes: Option<u64>) -> bool
    ensures { result ≡ passes_if_set (λ n. nat_le n MEMORY_MOST) bytes }
{
    bytes.is_none_or(|n| n <= MEMORY_MOST)
}

fn is_concurrency(number: Option<u32>) -> bool
    ensures { result ≡ passes_if_set (is_between 1 CONCURRENCY_MOST) number }
{
    number.is_none_or(|n| 1 <= n && n <= CONCURRENCY_MOST)
}

fn is_cap(ms: Option<u64>) -> bool
    ensures { result ≡ passes_if_set (is_between 1 SPAN_MOST) ms }
{
    ms.is_none_or(|n| 1 <= n && n <= SPAN_MOST)
}

fn is_timeout(ms: Option<u64>) -> bool
    ensures { result ≡ passes_if_set (λ n. nat_le n SPAN_MOST) ms }
{
    ms.is_none_or(|n| n <= SPAN_MOST)
}

fn is_priority(priority: i32) -> bool
    ensures { result ≡ is_priority priority }
{
    -PRIORITY_MOST <= priority && priority <= PRIORITY_MOST
}

fn is_pool_in_range(r: &PoolRow) -> bool
    ensures { result ≡ is_pool_in_range r.now }
{
    r.memory <= MEMORY_MOST
        && (is_within_bytes(r.max)
            && (is_within_bytes(r.query_max)
                && (is_concurrency(r.parallel)
                    && (is_priority(r.priority)
                        && (r.threshold_s <= THRESHOLD_SECONDS_MOST
                            && (is_timeout(r.queue_ms)
                                && (is_concurrency(r.planned)
                                    && (is_concurrency(r.concurrency) && is_cap(r.cap_ms)))))))))
}

fn is_user_in_range(u: &UserRow) -> bool
    ensures { result ≡ is_user_in_range u.now }
{
    is_within_bytes(u.memory_cap) && is_cap(u.cap_ms)
}

fn is_within_max(r: &PoolRow) -> bool
    ensures { result ≡ is_within_max r.now }
{
    r.max.is_none_or(|most| r.memory <= most)
}

fn begins_with_general(pools: &[PoolRow]) -> bool
    ensures { result ≡ begins_with_general pools.now }
{
    match pools {
        [] => false,
        [first, ..] => first.name.same(Name::general()) && first.memory == 0,
    }
}

fn is_pool_name(name: Name, pools: &[PoolRow]) -> bool
    ensures { result ≡ list_any (same_name name) (map (λ r. r.name) pools.now) }
{
    pools.iter().map(|r| r.name).any(|n| name.same(n))
}

fn is_user_name(name: Name, users: &[UserRow]) -> bool
    ensures { result ≡ list_any (same_name name) (map (λ u. u.name) users.now) }
{
    users.iter().map(|u| u.name).any(|n| name.same(n))
}

fn is_role_name(name: Name, roles: &[RoleRow]) -> bool
    ensures { result ≡ list_any (same_name name) (map (λ r. r.name) roles.now) }
{
    roles.iter().map(|r| r.name).any(|n| name.same(n))
}

fn are_pools_distinct(pools: &[PoolRow]) -> bool
    ensures { result ≡ are_distinct (map (λ r. r.name) pools.now) }
{
    match pools {
        [] => true,
        [first, rest @ ..] => !is_pool_name(first.name, rest) && are_pools_distinct(rest),
    }
}

fn are_roles_distinct(roles: &[RoleRow]) -> bool
    ensures { result ≡ are_distinct (map (λ r. r.name) roles.now) }
{
    match roles {
        [] => true,
        [first, rest @ ..] => !is_role_name(first.name, rest) && are_roles_distinct(rest),
    }
}

/// Whether the name is one of the users' or of the roles'.
fn is_owner_name(name: Name, users: &[UserRow], roles: &[RoleRow]) -> bool
    ensures { result ≡ list_any (same_name name) (map (λ u. u.name) users.now ++ map (λ r. r.name) roles.now) }
{
    is_user_name(name, users) || is_role_name(name, roles)
}

/// Whether no name stands twice among the users and the roles.
fn are_users_distinct(users: &[UserRow], roles: &[RoleRow]) -> bool
    ensures { result ≡ are_distinct (map (λ u. u.name) users.now ++ map (λ r. r.name) roles.now) }
{
    match users {
        [] => are_roles_distinct(roles),
        [first, rest @ ..] => {
            !is_owner_name(first.name, rest, roles) && are_users_distinct(rest, roles)
        }
    }
}

fn is_pool_there(definitions: &Definitions, pool: Option<Name>) -> bool
    ensures { result ≡ passes_if_set (has_pool definitions.now) pool }
{
    match pool {
        None => true,
        Some(name) => has_pool(definitions, name),
    }
}

fn is_grant_known(definitions: &Definitions, grant: &GrantRow) -> bool
    ensures { result ≡ is_grant_known definitions.now grant.now }
{
    match grant {
        GrantRow::PoolToUser(pool, user) => {
            has_pool(definitions, *pool) && has_user(definitions, *user)
        }
        GrantRow::PoolToRole(pool, role) => {
            has_pool(definitions, *pool) && has_role(definitions, *role)
        }
        GrantRow::RoleToUser(role, user) => {
            has_role(definitions, *role) && has_user(definitions, *user)
        }
    }
}

fn are_grants_distinct(grants: &[GrantRow]) -> bool
    ensures { result ≡ are_grants_distinct grants.now }
{
    match grants {
        [] => true,
        [first, rest @ ..] => !has_grant(rest, first) && are_grants_distinct(rest),
    }
}
