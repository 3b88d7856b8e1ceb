//! CREATE, ALTER and DROP USER: what they leave, and what they are refused with.
ghost use Rattle.std.specs.Prelude.{◌≡◌, ◌≤◌, length};
ghost use Rattle.rm_base.specs.declared.limits.TheConstants.{USERS_MOST};
ghost use Rattle.rm_rules.specs.Definitions.{usage};
ghost use Rattle.rm_rules.specs.Sound.{IsSound};
ghost use Rattle.rm_rules.specs.UserStatements.{user_row, changed_user, created_user, altered_user, given_pool, with_user, names_user, without_user, user_built_in, users_full, not_granted, create_user_refusal, alter_user_refusal, drop_user_refusal};

use crate::refusals::{
    changes_full, first_refusal, given_pool_missing, grantee_taken, refused_if, table_full,
    user_missing,
};
use crate::rights::usage;
use crate::sizes::limit_or;
use crate::tables::put;
use rm_base::definitions::{Definitions, default_user_row};
use rm_base::limits::USERS_MOST;
use rm_base::name::Name;
use rm_base::refusal::{Refusal, TableKind};
use rm_base::rows::{GrantRow, UserRow};
use rm_base::statement::UserChange;
use rm_rules::readings::{total, user_called};

/// The user's row; a user that is not there is read as one with all defaults.
fn user_row(definitions: &Definitions, name: Name) -> UserRow
    ensures { result ≡ user_row definitions.now name }
{
    user_called(definitions.users.rows(), name).unwrap_or(default_user_row(name))
}

fn changed_user(definitions: &Definitions, user: &UserRow, change: &UserChange) -> UserRow
    requires { IsSound definitions.now }
    ensures { result ≡ changed_user definitions.now user.now change.now }
{
    let total = total(definitions);
    UserRow {
        name: user.name,
        pool: change.pool.unwrap_or(user.pool),
        memory_cap: limit_or(total, change.memory_cap, user.memory_cap),
        cap_ms: change.cap_ms.unwrap_or(user.cap_ms),
    }
}

fn created_user(definitions: &Definitions, name: Name, change: &UserChange) -> UserRow
    requires { IsSound definitions.now }
    ensures { result ≡ created_user definitions.now name change.now }
{
    changed_user(definitions, &default_user_row(name), change)
}

fn altered_user(definitions: &Definitions, name: Name, change: &UserChange) -> UserRow
    requires { IsSound definitions.now }
    ensures { result ≡ altered_user definitions.now name change.now }
{
    changed_user(definitions, &user_row(definitions, name), change)
}

pub fn create_user(definitions: &mut Definitions, name: Name, change: &UserChange)
    requires sound { IsSound definitions.old }
    requires room { length (with_user definitions.old (created_user definitions.old name change.now)).users ≤ USERS_MOST }
    ensures { definitions.new ≡ with_user definitions.old (created_user definitions.old name change.now) }
{
    let row = created_user(definitions, name, change);
    put(&mut definitions.users, row);
}

pub fn alter_user(definitions: &mut Definitions, name: Name, change: &UserChange)
    requires sound { IsSound definitions.old }
    requires room { length (with_user definitions.old (altered_user definitions.old name change.now)).users ≤ USERS_MOST }
    ensures { definitions.new ≡ with_user definitions.old (altered_user definitions.old name change.now) }
{
    let row = altered_user(definitions, name, change);
    put(&mut definitions.users, row);
}

/// Whether the grant is one to the user.
fn names_user(user: Name, grant: &GrantRow) -> bool
    ensures { result ≡ names_user user grant.now }
{
    match grant {
        GrantRow::PoolToUser(_, u) => u.same(user),
        GrantRow::PoolToRole(..) => false,
        GrantRow::RoleToUser(_, u) => u.same(user),
    }
}

/// Takes the user away, with the grants that name it.
pub fn drop_user(definitions: &mut Definitions, name: Name)
    ensures { definitions.new ≡ without_user definitions.old name }
{
    definitions.users.retain(|u| !u.name.same(name));
    definitions.grants.retain(|g| !names_user(name, g));
}

/// The pool that a statement gives the user, or none.
fn given_pool(change: &UserChange) -> Option<Name>
    ensures { result ≡ given_pool change.now }
{
    change.pool.unwrap_or(None)
}

fn user_built_in(name: Name) -> Option<Refusal>
    ensures { result ≡ user_built_in name }
{
    refused_if(name.same(Name::dbadmin()), Refusal::BuiltIn)
}

fn users_full(definitions: &Definitions) -> Option<Refusal>
    ensures { result ≡ users_full definitions.now }
{
    let count = definitions.users.len() as u32;
    table_full(TableKind::Users, USERS_MOST as u32, count)
}

fn not_granted(definitions: &Definitions, user: Name, pool: Option<Name>) -> Option<Refusal>
    ensures { result ≡ not_granted (usage definitions.now user) pool }
{
    match pool {
        None => None,
        Some(pool) => refused_if(!usage(definitions, user, pool), Refusal::NotGranted(pool)),
    }
}

/// Why a user is not created.
pub fn create_user_refusal(
    definitions: &Definitions,
    name: Name,
    change: &UserChange,
) -> Option<Refusal>
    ensures { result ≡ create_user_refusal definitions.now name change.now }
{
    let pool = given_pool(change);
    first_refusal(&[
        grantee_taken(definitions, name),
        given_pool_missing(definitions, pool),
        users_full(definitions),
        changes_full(definitions),
        not_granted(definitions, name, pool),
    ])
}

/// Why a user is not altered.
pub fn alter_user_refusal(
    definitions: &Definitions,
    name: Name,
    change: &UserChange,
) -> Option<Refusal>
    ensures { result ≡ alter_user_refusal definitions.now name change.now }
{
    let pool = given_pool(change);
    first_refusal(&[
        given_pool_missing(definitions, pool),
        user_missing(definitions, name),
        changes_full(definitions),
        not_granted(definitions, name, pool),
    ])
}

/// Why a user is not dropped.
pub fn drop_user_refusal(definitions: &Definitions, name: Name) -> Option<Refusal>
    ensures { result ≡ drop_user_refusal definitions.now name }
{
    first_refusal(&[
        user_missing(definitions, name),
        user_built_in(name),
        changes_full(definitions),
    ])
}
