//! USAGE and default pools.

use super::defined::{defined, named};
use pool_table::{default_pool, sound, usage};
use std::test::Fail;

/// Pools, users and roles, and who may use what: bob as himself, cy by a role, dee by another role, one of two.
static GRANTED: &str =
    "pool etl, pool web, user ann, user bob, user cy, user dee, role loader, role reader, \
    usage etl bob, shared etl loader, shared web reader, member loader cy, member reader dee, member loader dee, \
    shared web loader, usage web cy";

/// A user, and after `=` the pools that it may use.
static USAGE: &str = "\
dbadmin=general etl web
ann=general
bob=general etl
cy=general etl web
dee=general etl web
loader=general
nobody=general
";

#[test]
fn usage_comes_by_grants_and_by_roles(rt: HostRuntime) -> Result<(), Fail> {
    let definitions = defined(rt.alloc(), GRANTED)?;
    assert!(rt; sound(&definitions));
    for line in USAGE.lines() {
        let (user, pools) = line.split_once('=').ok_or(line)?;
        let user = named(user)?;
        let mut found = String::new(rt.alloc());
        for pool in ["general", "etl", "web"] {
            if usage(&definitions, user, named(pool)?) {
                found.push_str(pool)?;
                found.push(' ')?;
            }
        }
        assert_eq!(rt; found.as_str().trim_end(), pools, "{line:?}");
    }
    Ok(())
}

/// Roles of which one has no pool, one is granted before the other, and a user with a pool of its own.
static IN_ROLES: &str =
    "pool etl, pool web, pool all, user ann all, user bob, user cy, user dee, role plain, \
    role loader etl, role reader web, member plain bob, member reader cy, member loader bob, member reader bob, \
    member loader cy, member loader ann, member plain dee, shared all plain, usage all dee";

/// A user, and after `=` its default pool.
static DEFAULTS: &str = "\
ann=all
bob=etl
cy=web
dee=general
dbadmin=general
nobody=general
";

#[test]
fn the_first_role_with_a_pool_gives_it(rt: HostRuntime) -> Result<(), Fail> {
    let definitions = defined(rt.alloc(), IN_ROLES)?;
    assert!(rt; sound(&definitions));
    for line in DEFAULTS.lines() {
        let (user, pool) = line.split_once('=').ok_or(line)?;
        let found = default_pool(&definitions, named(user)?);
        assert_eq!(rt; found.as_str(), pool, "{line:?}");
    }
    Ok(())
}
