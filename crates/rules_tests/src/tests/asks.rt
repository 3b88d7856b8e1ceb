//! Shares, caps and asks, each worked out by hand from the rules.

use super::defined::named;
use budgets::{ask, asked, budget, cap, least_cap, planned, threshold};
use pool_table::sound;
use rm_base::definitions::{Definitions, default_pool_row, default_user_row};
use rm_base::name::Name;
use rm_rules::state::Cap;
use std::alloc::Global;
use std::process::Abort;
use std::test::Fail;

/// PLANNEDCONCURRENCY in force, the threshold, the budget and the cap of a pool.
fn shares(
    rt: &impl Abort,
    alloc: Global,
    definitions: &Definitions,
    pool: Name,
) -> Result<String, Fail> {
    assert!(rt; sound(definitions));
    let planned = planned(definitions, pool);
    let threshold = threshold(definitions, pool);
    let budget = budget(definitions, pool);
    let cap = cap(definitions, pool);
    Ok(format!(in alloc; "{planned} {threshold} {budget} {cap}")?)
}

/// GENERAL's MAXMEMORYSIZE on a machine of 16 GiB and 8 cores, where it is alone, and its shares. AUTO is four at least,
/// then one for each 2 GiB of the total, up to the cores.
static ALONE: [(Option<u64>, &str); 6] = [
    (None, "7 15504831937 2214975991 16320875724"),
    (Some(1_048_576), "4 996147 249036 1048576"),
    (Some(10_737_418_239), "4 10200547327 2550136831 10737418239"),
    (Some(10_737_418_240), "5 10200547328 2040109465 10737418240"),
    (Some(17_179_869_183), "7 16320875723 2331553674 17179869183"),
    (Some(17_179_869_184), "8 16320875724 2040109465 17179869184"),
];

#[test]
fn general_alone_shares_the_total(rt: HostRuntime) -> Result<(), Fail> {
    let mut general = default_pool_row(Name::general());
    for (max, wanted) in ALONE {
        general.max = max;
        let mut definitions = Definitions::new(rt.alloc(), 17_179_869_184, 8)?;
        definitions.pools.set(0, general);
        let found = shares(&rt, rt.alloc(), &definitions, general.name)?;
        assert_eq!(rt; found.as_str(), wanted, "{max:?}");
    }
    Ok(())
}

/// GENERAL of 80 MiB beside `etl` and `web`, of 20 MiB each, and `all`, of 0. Users have MEMORYCAPs of 10 and 15 MiB, of
/// what no pool reserves, 40 MiB, and of a byte less.
fn beside_others(alloc: Global) -> Result<Definitions, Fail> {
    let mut general = default_pool_row(Name::general());
    general.max = Some(83_886_080);
    let mut etl = default_pool_row(named("etl")?);
    etl.memory = 20_971_520;
    etl.max = Some(41_943_040);
    etl.planned = Some(2);
    let mut web = default_pool_row(named("web")?);
    web.memory = 20_971_520;
    web.query_max = Some(15_728_640);
    web.planned = Some(3);
    let mut all = default_pool_row(named("all")?);
    all.query_max = Some(41_943_040);
    all.planned = Some(1);
    let mut definitions = Definitions::new(alloc, 104_857_600, 8)?;
    definitions.pools.set(0, general);
    definitions.pools.add(etl);
    definitions.pools.add(web);
    definitions.pools.add(all);
    for (user, cap) in CAPPED {
        let mut row = default_user_row(named(user)?);
        row.memory_cap = Some(cap);
        if !definitions.users.is_full() {
            definitions.users.add(row);
        }
    }
    Ok(definitions)
}

static CAPPED: [(&str, u64); 4] = [
    ("ann", 10_485_760),
    ("bob", 15_728_640),
    ("cy", 41_943_040),
    ("dee", 41_943_039),
];

/// A pool, and after `=` its shares.
static BESIDE: &str = "\
general=4 79691776 19922944 41943040
etl=2 39845888 10485760 41943040
web=3 79691776 6990506 62914560
all=1 79691776 79691776 41943040
";

#[test]
fn pools_share_what_they_reserve(rt: HostRuntime) -> Result<(), Fail> {
    let definitions = beside_others(rt.alloc())?;
    for line in BESIDE.lines() {
        let (pool, wanted) = line.split_once('=').ok_or(line)?;
        let found = shares(&rt, rt.alloc(), &definitions, named(pool)?)?;
        assert_eq!(rt; found.as_str(), wanted, "{line:?}");
    }
    Ok(())
}

/// A pool, a user and a floor, and after `=` the least cap with its kind, and what the query asks for or why it is
/// refused. Of equal caps the pool's is named before its MAXQUERYMEMORYSIZE, and that before the user's.
static ASKS: &str = "\
general dbadmin 0=pool 41943040, 19922944
general dbadmin 19922945=pool 41943040, 19922945
general dbadmin 41943040=pool 41943040, 41943040
general dbadmin 41943041=pool 41943040, refused 19 pool 41943041 41943040
general cy 41943041=pool 41943040, refused 19 pool 41943041 41943040
general dee 41943039=user 41943039, 41943039
general dee 41943040=user 41943039, refused 19 user 41943040 41943039
general ann 0=user 10485760, 10485760
etl bob 0=user 15728640, 10485760
etl bob 10485761=user 15728640, 10485761
etl bob 15728640=user 15728640, 15728640
etl bob 15728641=user 15728640, refused 19 user 15728641 15728640
web dbadmin 0=query 15728640, 6990506
web dbadmin 15728640=query 15728640, 15728640
web dbadmin 15728641=query 15728640, refused 19 query 15728641 15728640
web bob 15728641=query 15728640, refused 19 query 15728641 15728640
web ann 15728641=user 10485760, refused 19 user 15728641 10485760
all dbadmin 0=pool 41943040, 41943040
all cy 41943041=pool 41943040, refused 19 pool 41943041 41943040
all dee 1=user 41943039, 41943039
";

#[test]
fn asks_stay_within_the_least_cap(rt: HostRuntime) -> Result<(), Fail> {
    let definitions = beside_others(rt.alloc())?;
    for line in ASKS.lines() {
        let (query, wanted) = line.split_once('=').ok_or(line)?;
        let found = answer(&rt, rt.alloc(), &definitions, query)?;
        assert_eq!(rt; found.as_str(), wanted, "{line:?}");
    }
    Ok(())
}

/// The least cap on a query, and what it asks for or why it is refused.
fn answer(
    rt: &impl Abort,
    alloc: Global,
    definitions: &Definitions,
    query: &str,
) -> Result<String, Fail> {
    let (pool, rest) = query.split_once(' ').ok_or(query)?;
    let (user, floor) = rest.split_once(' ').ok_or(query)?;
    let pool = named(pool)?;
    let user = named(user)?;
    let floor = floor.parse::<u64>()?;
    assert!(rt; sound(definitions));
    let Cap { kind, bytes } = least_cap(definitions, pool, user);
    let number = asked(definitions, pool, user, floor);
    match ask(definitions, pool, user, floor) {
        Ok(answer) => {
            assert_eq!(rt; answer, number);
            Ok(format!(in alloc; "{kind} {bytes}, {answer}")?)
        }
        Err(refusal) => {
            assert_eq!(rt; number, bytes);
            Ok(format!(in alloc; "{kind} {bytes}, {refusal}")?)
        }
    }
}
