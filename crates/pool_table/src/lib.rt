//! Which statements are accepted, what an accepted statement leaves, and what the definitions give a user. It takes no
//! memory.
#![tactic(auto)]

ghost use Rattle.std.specs.Prelude.{◌≡◌, Ok, Err, None, IsTrue, IsOk, IfErr, OnOk};
ghost use Rattle.rm_base.specs.Ranges.{is_statement_in_range};
ghost use Rattle.rm_rules.specs.Sound.{IsSound};
ghost use Rattle.rm_rules.specs.Acceptance.{refusal_of, left_by, accepted};

mod after;
mod chains;
mod dropping;
mod grants;
mod known;
mod pools;
mod refusals;
mod rights;
mod roles;
mod sizes;
mod soundness;
mod tables;
mod users;

use crate::dropping::{drop_pool, drop_pool_refusal};
use crate::grants::{
    grant_role, grant_role_refusal, grant_usage, grant_usage_refusal, revoke_role,
    revoke_role_refusal, revoke_usage, revoke_usage_refusal,
};
use crate::pools::{
    alter_pool, alter_pool_refusal, altered_pool, create_pool, create_pool_refusal, created_pool,
};
use crate::roles::{
    alter_role_refusal, create_role_refusal, drop_role, drop_role_refusal, set_role,
};
use crate::users::{
    alter_user, alter_user_refusal, create_user, create_user_refusal, drop_user, drop_user_refusal,
};
pub use rights::{default_pool, usage};
use rm_base::definitions::Definitions;
use rm_base::refusal::Refusal;
use rm_base::statement::Statement;
pub use soundness::sound;

/// Whether a statement is accepted, or the first of the refusals that hold, in the order of their numbers.
pub fn accept(definitions: &Definitions, statement: &Statement) -> Result<(), Refusal>
    requires sound { IsSound definitions.now }
    requires formed { IsTrue (is_statement_in_range statement.now) }
    ensures ok { OnOk result (IsOk (accepted definitions.now statement.now)) }
    ensures err { IfErr result (λ refusal. accepted definitions.now statement.now ≡ Err refusal) }
{
    match refusal_of(definitions, statement) {
        None => Ok(()),
        Some(refusal) => Err(refusal),
    }
}

/// Makes the change of an accepted statement.
pub fn apply(definitions: &mut Definitions, statement: &Statement)
    requires sound { IsSound definitions.old }
    requires formed { IsTrue (is_statement_in_range statement.now) }
    requires accepted { IsOk (accepted definitions.old statement.now) }
    ensures changed { accepted definitions.old statement.now ≡ Ok definitions.new }
    ensures sound { IsSound definitions.new }
{
    change(definitions, statement);
    definitions.changes += 1;
}

/// Why a statement is refused.
fn refusal_of(definitions: &Definitions, statement: &Statement) -> Option<Refusal>
    requires sound { IsSound definitions.now }
    requires formed { IsTrue (is_statement_in_range statement.now) }
    ensures { result ≡ refusal_of definitions.now statement.now }
{
    match statement {
        Statement::CreatePool(name, change) => {
            let row = created_pool(definitions, *name, change);
            create_pool_refusal(definitions, *name, &row)
        }
        Statement::AlterPool(name, change) => {
            let row = altered_pool(definitions, *name, change);
            alter_pool_refusal(definitions, *name, change, &row)
        }
        Statement::DropPool(name) => drop_pool_refusal(definitions, *name),
        Statement::CreateUser(name, change) => create_user_refusal(definitions, *name, change),
        Statement::AlterUser(name, change) => alter_user_refusal(definitions, *name, change),
        Statement::DropUser(name) => drop_user_refusal(definitions, *name),
        Statement::CreateRole(name) => create_role_refusal(definitions, *name),
        Statement::AlterRole(name, pool) => alter_role_refusal(definitions, *name, *pool),
        Statement::DropRole(name) => drop_role_refusal(definitions, *name),
        Statement::GrantUsage(pool, grantee) => grant_usage_refusal(definitions, *pool, *grantee),
        Statement::RevokeUsage(pool, grantee) => revoke_usage_refusal(definitions, *pool, *grantee),
        Statement::GrantRole(role, user) => grant_role_refusal(definitions, *role, *user),
        Statement::RevokeRole(role, user) => revoke_role_refusal(definitions, *role, *user),
    }
}

/// Makes the change of a statement that is not refused, but does not count it.
fn change(definitions: &mut Definitions, statement: &Statement)
    requires sound { IsSound definitions.old }
    requires formed { IsTrue (is_statement_in_range statement.now) }
    requires left { IsSound (left_by definitions.old statement.now) }
    ensures { definitions.new ≡ left_by definitions.old statement.now }
{
    match statement {
        Statement::CreatePool(name, change) => create_pool(definitions, *name, change),
        Statement::AlterPool(name, change) => alter_pool(definitions, *name, change),
        Statement::DropPool(name) => drop_pool(definitions, *name),
        Statement::CreateUser(name, change) => create_user(definitions, *name, change),
        Statement::AlterUser(name, change) => alter_user(definitions, *name, change),
        Statement::DropUser(name) => drop_user(definitions, *name),
        Statement::CreateRole(name) => set_role(definitions, *name, None),
        Statement::AlterRole(name, pool) => set_role(definitions, *name, *pool),
        Statement::DropRole(name) => drop_role(definitions, *name),
        Statement::GrantUsage(pool, grantee) => grant_usage(definitions, *pool, *grantee),
        Statement::RevokeUsage(pool, grantee) => revoke_usage(definitions, *pool, *grantee),
        Statement::GrantRole(role, user) => grant_role(definitions, *role, *user),
        Statement::RevokeRole(role, user) => revoke_role(definitions, *role, *user),
    }
}
