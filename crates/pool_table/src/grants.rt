//! GRANT and REVOKE: what they leave, and what they are refused with.
ghost use Rattle.std.specs.Prelude.{◌≡◌, ◌≤◌, length};
ghost use Rattle.rm_base.specs.declared.limits.TheConstants.{GRANTS_MOST};
ghost use Rattle.rm_base.specs.declared.rows.GrantRow.TheVariants.{RoleToUser};
ghost use Rattle.rm_rules.specs.Sound.{same_grant, has_grant};
ghost use Rattle.rm_rules.specs.GrantStatements.{usage_grant, with_grant, without_grant, grants_full, grant_usage_refusal, revoke_usage_refusal, grant_role_refusal, revoke_role_refusal};

use crate::known::has_user;
use crate::refusals::{
    changes_full, first_refusal, grantee_missing, pool_missing, role_missing, table_full,
    user_missing,
};
use rm_base::definitions::Definitions;
use rm_base::limits::GRANTS_MOST;
use rm_base::name::Name;
use rm_base::refusal::{Refusal, TableKind};
use rm_base::rows::GrantRow;

fn same_grant(a: &GrantRow, b: &GrantRow) -> bool
    ensures { result ≡ same_grant a.now b.now }
{
    match a {
        GrantRow::PoolToUser(pool, user) => match b {
            GrantRow::PoolToUser(p, u) => pool.same(*p) && user.same(*u),
            GrantRow::PoolToRole(..) | GrantRow::RoleToUser(..) => false,
        },
        GrantRow::PoolToRole(pool, role) => match b {
            GrantRow::PoolToRole(p, r) => pool.same(*p) && role.same(*r),
            GrantRow::PoolToUser(..) | GrantRow::RoleToUser(..) => false,
        },
        GrantRow::RoleToUser(role, user) => match b {
            GrantRow::RoleToUser(r, u) => role.same(*r) && user.same(*u),
            GrantRow::PoolToUser(..) | GrantRow::PoolToRole(..) => false,
        },
    }
}

pub fn has_grant(grants: &[GrantRow], grant: &GrantRow) -> bool
    ensures { result ≡ has_grant grants.now grant.now }
{
    grants.iter().any(|g| same_grant(grant, g))
}

/// The grant of USAGE of a pool: to the user of the name, or else to the role.
fn usage_grant(definitions: &Definitions, pool: Name, grantee: Name) -> GrantRow
    ensures { result ≡ usage_grant definitions.now pool grantee }
{
    if has_user(definitions, grantee) {
        GrantRow::PoolToUser(pool, grantee)
    } else {
        GrantRow::PoolToRole(pool, grantee)
    }
}

/// Puts the grant behind the others, unless it is one of them.
fn grant(definitions: &mut Definitions, grant: GrantRow)
    requires { length (with_grant definitions.old grant).grants ≤ GRANTS_MOST }
    ensures { definitions.new ≡ with_grant definitions.old grant }
{
    if !has_grant(definitions.grants.rows(), &grant) {
        definitions.grants.add(grant);
    }
}

/// Takes the grant away, where it is there.
fn revoke(definitions: &mut Definitions, grant: GrantRow)
    ensures { definitions.new ≡ without_grant definitions.old grant }
{
    definitions.grants.retain(|g| !same_grant(&grant, g));
}

pub fn grant_usage(definitions: &mut Definitions, pool: Name, grantee: Name)
    requires { length (with_grant definitions.old (usage_grant definitions.old pool grantee)).grants ≤ GRANTS_MOST }
    ensures { definitions.new ≡ with_grant definitions.old (usage_grant definitions.old pool grantee) }
{
    let row = usage_grant(definitions, pool, grantee);
    grant(definitions, row);
}

pub fn revoke_usage(definitions: &mut Definitions, pool: Name, grantee: Name)
    ensures { definitions.new ≡ without_grant definitions.old (usage_grant definitions.old pool grantee) }
{
    let row = usage_grant(definitions, pool, grantee);
    revoke(definitions, row);
}

pub fn grant_role(definitions: &mut Definitions, role: Name, user: Name)
    requires { length (with_grant definitions.old (RoleToUser role user)).grants ≤ GRANTS_MOST }
    ensures { definitions.new ≡ with_grant definitions.old (RoleToUser role user) }
{
    grant(definitions, GrantRow::RoleToUser(role, user));
}

pub fn revoke_role(definitions: &mut Definitions, role: Name, user: Name)
    ensures { definitions.new ≡ without_grant definitions.old (RoleToUser role user) }
{
    revoke(definitions, GrantRow::RoleToUser(role, user));
}

fn grants_full(definitions: &Definitions, grant: GrantRow) -> Option<Refusal>
    ensures { result ≡ grants_full definitions.now grant }
{
    if has_grant(definitions.grants.rows(), &grant) {
        return None;
    }
    let count = definitions.grants.len() as u32;
    table_full(TableKind::Grants, GRANTS_MOST as u32, count)
}

/// Why USAGE of a pool is not granted.
pub fn grant_usage_refusal(definitions: &Definitions, pool: Name, grantee: Name) -> Option<Refusal>
    ensures { result ≡ grant_usage_refusal definitions.now pool grantee }
{
    first_refusal(&[
        pool_missing(definitions, pool),
        grantee_missing(definitions, grantee),
        grants_full(definitions, usage_grant(definitions, pool, grantee)),
        changes_full(definitions),
    ])
}

/// Why USAGE of a pool is not revoked.
pub fn revoke_usage_refusal(definitions: &Definitions, pool: Name, grantee: Name) -> Option<Refusal>
    ensures { result ≡ revoke_usage_refusal definitions.now pool grantee }
{
    first_refusal(&[
        pool_missing(definitions, pool),
        grantee_missing(definitions, grantee),
        changes_full(definitions),
    ])
}

/// Why a role is not granted to a user.
pub fn grant_role_refusal(definitions: &Definitions, role: Name, user: Name) -> Option<Refusal>
    ensures { result ≡ grant_role_refusal definitions.now role user }
{
    first_refusal(&[
        user_missing(definitions, user),
        role_missing(definitions, role),
        grants_full(definitions, GrantRow::RoleToUser(role, user)),
        changes_full(definitions),
    ])
}

/// Why a role is not revoked from a user.
pub fn revoke_role_refusal(definitions: &Definitions, role: Name, user: Name) -> Option<Refusal>
    ensures { result ≡ revoke_role_refusal definitions.now role user }
{
    first_refusal(&[
        user_missing(definitions, user),
        role_missing(definitions, role),
        changes_full(definitions),
    ])
}
