//! What the definitions give: USAGE to users and roles, and a default pool to each user.
ghost use Rattle.std.specs.Prelude.{◌≡◌};
ghost use Rattle.std.specs.List.{list_any};
ghost use Rattle.rm_base.specs.Name.{same_name, general, dbadmin};
ghost use Rattle.rm_rules.specs.Definitions.{is_member_by, is_member, gives_usage, usage, gives_role, role_usage, pool_by_role, role_pool, default_pool};

use rm_base::definitions::Definitions;
use rm_base::name::Name;
use rm_base::rows::{GrantRow, RoleRow};
use rm_rules::readings::{role_called, user_called};

/// Whether the user may use the pool. Everyone may use GENERAL, and `dbadmin` every pool.
pub fn usage(definitions: &Definitions, user: Name, pool: Name) -> bool
    ensures { result ≡ usage definitions.now user pool }
{
    is_general(pool) || (is_dbadmin(user) || is_granted(definitions.grants.rows(), user, pool))
}

/// Whether the role may use the pool: GENERAL, and what a grant gives to it.
pub fn role_usage(definitions: &Definitions, role: Name, pool: Name) -> bool
    ensures { result ≡ role_usage definitions.now role pool }
{
    is_general(pool) || is_granted_to_role(definitions.grants.rows(), role, pool)
}

/// The user's own pool, else that of its first role that has one, in the order of the grants, else GENERAL.
pub fn default_pool(definitions: &Definitions, user: Name) -> Name
    ensures { result ≡ default_pool definitions.now user }
{
    let own = user_called(definitions.users.rows(), user).and_then(|row| row.pool);
    let by_role = role_pool(definitions.roles.rows(), user, definitions.grants.rows());
    own.unwrap_or(by_role.unwrap_or(Name::general()))
}

fn is_general(pool: Name) -> bool
    ensures { result ≡ same_name pool general }
{
    pool.same(Name::general())
}

fn is_dbadmin(user: Name) -> bool
    ensures { result ≡ same_name user dbadmin }
{
    user.same(Name::dbadmin())
}

/// Whether the grant makes the user a member of the role.
fn is_member_by(user: Name, role: Name, grant: GrantRow) -> bool
    ensures { result ≡ is_member_by user role grant }
{
    match grant {
        GrantRow::RoleToUser(r, u) => r.same(role) && u.same(user),
        GrantRow::PoolToUser(..) | GrantRow::PoolToRole(..) => false,
    }
}

fn is_member(grants: &[GrantRow], user: Name, role: Name) -> bool
    ensures { result ≡ is_member grants.now user role }
{
    grants.iter().any(|g| is_member_by(user, role, *g))
}

/// Whether the grant gives the pool to the user, or to a role of the user.
fn gives_usage(grants: &[GrantRow], user: Name, pool: Name, grant: GrantRow) -> bool
    ensures { result ≡ gives_usage grants.now user pool grant }
{
    match grant {
        GrantRow::PoolToUser(p, u) => p.same(pool) && u.same(user),
        GrantRow::PoolToRole(p, r) => p.same(pool) && is_member(grants, user, r),
        GrantRow::RoleToUser(..) => false,
    }
}

/// Whether some grant gives the pool to the user, or to a role of the user.
fn is_granted(grants: &[GrantRow], user: Name, pool: Name) -> bool
    ensures { result ≡ list_any (gives_usage grants.now user pool) grants.now }
{
    grants.iter().any(|g| gives_usage(grants, user, pool, *g))
}

/// Whether the grant gives the pool to the role.
fn gives_role(role: Name, pool: Name, grant: GrantRow) -> bool
    ensures { result ≡ gives_role role pool grant }
{
    match grant {
        GrantRow::PoolToRole(p, r) => p.same(pool) && r.same(role),
        GrantRow::PoolToUser(..) | GrantRow::RoleToUser(..) => false,
    }
}

fn is_granted_to_role(grants: &[GrantRow], role: Name, pool: Name) -> bool
    ensures { result ≡ list_any (gives_role role pool) grants.now }
{
    grants.iter().any(|g| gives_role(role, pool, *g))
}

/// The pool of a role, where the grant makes the user a member of it.
fn pool_by_role(roles: &[RoleRow], user: Name, grant: GrantRow) -> Option<Name>
    ensures { result ≡ pool_by_role roles.now user grant }
{
    match grant {
        GrantRow::RoleToUser(r, u) => {
            if u.same(user) {
                role_called(roles, r).and_then(|row| row.pool)
            } else {
                None
            }
        }
        GrantRow::PoolToUser(..) | GrantRow::PoolToRole(..) => None,
    }
}

/// The pool of the first role, in the order of the grants, that has one.
fn role_pool(roles: &[RoleRow], user: Name, grants: &[GrantRow]) -> Option<Name>
    ensures { result ≡ role_pool roles.now user grants.now }
{
    for grant in grants {
        let pool = pool_by_role(roles, user, *grant);
        if pool.is_some() {
            return pool;
        }
    }
    None
}
