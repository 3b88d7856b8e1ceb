//! Statements, accepted and applied.
ghost use Rattle.std.specs.Prelude.{IsTrue};
ghost use Rattle.rm_base.specs.Ranges.{is_statement_in_range};

use super::defined::{defined, named};
use pool_table::{accept, apply, default_pool, sound, usage};
use rm_base::definitions::Definitions;
use rm_base::refusal::Refusal;
use rm_base::statement::{Statement, UserChange};
use std::process::Abort;
use std::test::Fail;

/// The statement is accepted and applied, or refused.
fn define(
    rt: &impl Abort,
    definitions: &mut Definitions,
    statement: &Statement,
) -> Result<(), Refusal>
    requires { IsTrue (is_statement_in_range statement.now) }
{
    assert!(rt; sound(definitions));
    accept(definitions, statement)?;
    apply(definitions, statement);
    Ok(())
}

#[test]
fn a_user_is_given_a_pool_that_is_granted_to_it(rt: HostRuntime) -> Result<(), Fail> {
    let mut definitions = defined(rt.alloc(), "pool etl, user ann")?;
    let etl = named("etl")?;
    let ann = named("ann")?;
    let given = Statement::AlterUser(
        ann,
        UserChange {
            pool: Some(Some(etl)),
            memory_cap: None,
            cap_ms: None,
        },
    );
    let granted = Statement::GrantUsage(etl, ann);
    assert_eq!(rt;
        define(&rt, &mut definitions, &given),
        Err(Refusal::NotGranted(etl))
    );
    assert_eq!(rt; define(&rt, &mut definitions, &granted), Ok(()));
    assert_eq!(rt; define(&rt, &mut definitions, &given), Ok(()));
    assert_eq!(rt; default_pool(&definitions, ann).as_str(), "etl");
    assert_eq!(rt; definitions.changes, 2);
    Ok(())
}

/// A pool to which two others cascade, one of them in a chain.
static CASCADING: &str = "pool last, pool etl, pool web last, pool all last, pool first web";

/// Pools that are dropped one after the other, and after `=` the refusal where there is one.
static DROPS: &str = "\
general=refused 10
nobody=refused 7 nobody
last=refused 16 web
web=refused 16 first
etl=
etl=refused 7 etl
first=
web=
last=refused 16 all
all=
last=
general=refused 10
";

#[test]
fn a_pool_is_dropped_when_no_other_cascades_to_it(rt: HostRuntime) -> Result<(), Fail> {
    let mut definitions = defined(rt.alloc(), CASCADING)?;
    for line in DROPS.lines() {
        let (pool, answer) = line.split_once('=').ok_or(line)?;
        let drop = Statement::DropPool(named(pool)?);
        let mut found = String::new(rt.alloc());
        if let Err(refusal) = define(&rt, &mut definitions, &drop) {
            found = format!(in rt.alloc(); "{refusal}")?;
        }
        assert_eq!(rt; found.as_str(), answer, "{line:?}");
    }
    assert_eq!(rt; definitions.pools.len(), 1);
    assert_eq!(rt; definitions.changes, 5);
    Ok(())
}

/// Users whose pool is etl: one has it, one by its first role, one by a grant alone; and its second role has another.
static IN_ETL: &str =
    "pool etl, pool web, user ann etl, user bob, user cy, role loader etl, role reader web, \
    usage etl ann, shared etl loader, usage web cy, usage etl cy, member loader bob, member reader bob, shared web reader";

#[test]
fn nobody_has_a_dropped_pool(rt: HostRuntime) -> Result<(), Fail> {
    let mut definitions = defined(rt.alloc(), IN_ETL)?;
    let etl = named("etl")?;
    let (ann, bob, cy) = (named("ann")?, named("bob")?, named("cy")?);
    assert_eq!(rt; default_pool(&definitions, bob).as_str(), "etl");
    let drop = Statement::DropPool(etl);
    assert_eq!(rt; define(&rt, &mut definitions, &drop), Ok(()));
    assert!(rt; sound(&definitions));
    assert_eq!(rt; default_pool(&definitions, ann).as_str(), "general");
    assert_eq!(rt; default_pool(&definitions, bob).as_str(), "web");
    assert!(rt; usage(&definitions, cy, named("web")?));
    for user in [ann, bob, cy] {
        assert!(rt; !usage(&definitions, user, etl));
    }
    assert_eq!(rt; definitions.grants.len(), 4);
    Ok(())
}
