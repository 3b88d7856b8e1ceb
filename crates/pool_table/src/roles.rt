//! CREATE, ALTER and DROP ROLE: what they leave, and what they are refused with.
ghost use Rattle.std.specs.Prelude.{◌≡◌, ◌≤◌, length};
ghost use Rattle.rm_base.specs.declared.limits.TheConstants.{ROLES_MOST};
ghost use Rattle.rm_rules.specs.Definitions.{role_usage};
ghost use Rattle.rm_rules.specs.UserStatements.{role_with, with_role, names_role, without_role, roles_full, not_granted, create_role_refusal, alter_role_refusal, drop_role_refusal};

use crate::refusals::{
    changes_full, first_refusal, given_pool_missing, grantee_taken, refused_if, role_missing,
    table_full,
};
use crate::rights::role_usage;
use crate::tables::put;
use rm_base::definitions::Definitions;
use rm_base::limits::ROLES_MOST;
use rm_base::name::Name;
use rm_base::refusal::{Refusal, TableKind};
use rm_base::rows::{GrantRow, RoleRow};

/// Gives the role its pool, or none: the role that is there, or else a new one.
pub fn set_role(definitions: &mut Definitions, name: Name, pool: Option<Name>)
    requires { length (with_role definitions.old (role_with name pool)).roles ≤ ROLES_MOST }
    ensures { definitions.new ≡ with_role definitions.old (role_with name pool) }
{
    put(&mut definitions.roles, RoleRow { name, pool });
}

/// Whether the grant is one of the role, or to it.
fn names_role(role: Name, grant: &GrantRow) -> bool
    ensures { result ≡ names_role role grant.now }
{
    match grant {
        GrantRow::PoolToUser(..) => false,
        GrantRow::PoolToRole(_, r) => r.same(role),
        GrantRow::RoleToUser(r, _) => r.same(role),
    }
}

/// Takes the role away, with the grants that name it.
pub fn drop_role(definitions: &mut Definitions, name: Name)
    ensures { definitions.new ≡ without_role definitions.old name }
{
    definitions.roles.retain(|r| !r.name.same(name));
    definitions.grants.retain(|g| !names_role(name, g));
}

fn roles_full(definitions: &Definitions) -> Option<Refusal>
    ensures { result ≡ roles_full definitions.now }
{
    let count = definitions.roles.len() as u32;
    table_full(TableKind::Roles, ROLES_MOST as u32, count)
}

fn not_granted(definitions: &Definitions, role: Name, pool: Option<Name>) -> Option<Refusal>
    ensures { result ≡ not_granted (role_usage definitions.now role) pool }
{
    match pool {
        None => None,
        Some(pool) => refused_if(
            !role_usage(definitions, role, pool),
            Refusal::NotGranted(pool),
        ),
    }
}

/// Why a role is not created.
pub fn create_role_refusal(definitions: &Definitions, name: Name) -> Option<Refusal>
    ensures { result ≡ create_role_refusal definitions.now name }
{
    first_refusal(&[
        grantee_taken(definitions, name),
        roles_full(definitions),
        changes_full(definitions),
    ])
}

/// Why a role is not altered.
pub fn alter_role_refusal(
    definitions: &Definitions,
    name: Name,
    pool: Option<Name>,
) -> Option<Refusal>
    ensures { result ≡ alter_role_refusal definitions.now name pool }
{
    first_refusal(&[
        given_pool_missing(definitions, pool),
        role_missing(definitions, name),
        changes_full(definitions),
        not_granted(definitions, name, pool),
    ])
}

/// Why a role is not dropped.
pub fn drop_role_refusal(definitions: &Definitions, name: Name) -> Option<Refusal>
    ensures { result ≡ drop_role_refusal definitions.now name }
{
    first_refusal(&[role_missing(definitions, name), changes_full(definitions)])
}
