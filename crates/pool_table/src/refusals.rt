//! Refusals that several statements have, and the first of several.
ghost use Rattle.std.specs.Prelude.{◌≡◌};
ghost use Rattle.rm_rules.specs.Refusals.{refused_if, first_refusal, pool_taken, grantee_taken, pool_missing, given_pool_missing, user_missing, grantee_missing, role_missing, table_full, changes_full};

use crate::known::{has_grantee, has_pool, has_role, has_user};
use rm_base::definitions::Definitions;
use rm_base::limits::CHANGES_MOST;
use rm_base::name::Name;
use rm_base::refusal::{Refusal, TableKind};

pub fn refused_if(holds: bool, refusal: Refusal) -> Option<Refusal>
    ensures { result ≡ refused_if holds refusal }
{
    if holds { Some(refusal) } else { None }
}

/// The first refusal of these.
pub fn first_refusal(refusals: &[Option<Refusal>]) -> Option<Refusal>
    ensures { result ≡ first_refusal refusals.now }
{
    match refusals {
        [] => None,
        [first, rest @ ..] => match first {
            None => first_refusal(rest),
            Some(refusal) => Some(*refusal),
        },
    }
}

pub fn pool_taken(definitions: &Definitions, name: Name) -> Option<Refusal>
    ensures { result ≡ pool_taken definitions.now name }
{
    refused_if(has_pool(definitions, name), Refusal::NameTaken)
}

pub fn grantee_taken(definitions: &Definitions, name: Name) -> Option<Refusal>
    ensures { result ≡ grantee_taken definitions.now name }
{
    refused_if(has_grantee(definitions, name), Refusal::NameTaken)
}

pub fn pool_missing(definitions: &Definitions, name: Name) -> Option<Refusal>
    ensures { result ≡ pool_missing definitions.now name }
{
    refused_if(!has_pool(definitions, name), Refusal::NoSuchPool(name))
}

pub fn given_pool_missing(definitions: &Definitions, pool: Option<Name>) -> Option<Refusal>
    ensures { result ≡ given_pool_missing definitions.now pool }
{
    match pool {
        None => None,
        Some(pool) => pool_missing(definitions, pool),
    }
}

pub fn user_missing(definitions: &Definitions, name: Name) -> Option<Refusal>
    ensures { result ≡ user_missing definitions.now name }
{
    refused_if(!has_user(definitions, name), Refusal::NoSuchUser(name))
}

pub fn grantee_missing(definitions: &Definitions, name: Name) -> Option<Refusal>
    ensures { result ≡ grantee_missing definitions.now name }
{
    refused_if(!has_grantee(definitions, name), Refusal::NoSuchUser(name))
}

pub fn role_missing(definitions: &Definitions, name: Name) -> Option<Refusal>
    ensures { result ≡ role_missing definitions.now name }
{
    refused_if(!has_role(definitions, name), Refusal::NoSuchRole(name))
}

pub fn table_full(kind: TableKind, most: u32, count: u32) -> Option<Refusal>
    ensures { result ≡ table_full kind most count }
{
    refused_if(most <= count, Refusal::TableFull(kind, most))
}

pub fn changes_full(definitions: &Definitions) -> Option<Refusal>
    ensures { result ≡ changes_full definitions.now }
{
    table_full(TableKind::Changes, CHANGES_MOST, definitions.changes)
}
