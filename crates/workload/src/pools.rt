//! The pools of a workload, and the statements that make them.

ghost use Rattle.std.specs.Prelude.{◌≡◌, true};
ghost use Rattle.workload.specs.Pools.{w0, w1, w2, is_workload_pool, pool_of_query, no_timeout, create_w0, create_w1, create_w2};

use rm_base::name::Name;
use rm_base::statement::{PoolChange, Size, Statement};

fn w0() -> Name
    ensures { result ≡ w0 }
{
    Name::of("w0").unwrap()
}

fn w1() -> Name
    ensures { result ≡ w1 }
{
    Name::of("w1").unwrap()
}

fn w2() -> Name
    ensures { result ≡ w2 }
{
    Name::of("w2").unwrap()
}

/// The pool in which the query of this number runs.
pub fn pool_of_query(query: u32) -> Name
    ensures value { result ≡ pool_of_query query }
    ensures own { is_workload_pool result ≡ true }
{
    match query % 3 {
        0 => w0(),
        1 => w1(),
        _ => w2(),
    }
}

/// Nothing is named but that nobody waits too long.
fn no_timeout() -> PoolChange
    ensures { result ≡ no_timeout }
{
    PoolChange {
        memory: None,
        max: None,
        query_max: None,
        parallel: None,
        priority: None,
        runtime_priority: None,
        threshold_s: None,
        queue_ms: Some(None),
        planned: None,
        concurrency: None,
        cap_ms: None,
        cascade: None,
    }
}

/// The first pool reserves a tenth of the total for two queries at a time.
pub fn create_w0() -> Statement
    ensures { result ≡ create_w0 }
{
    let change = PoolChange {
        memory: Some(Size::Percent(10)),
        planned: Some(Some(2)),
        ..no_timeout()
    };
    Statement::CreatePool(w0(), change)
}

/// The second pool has the defaults.
pub fn create_w1() -> Statement
    ensures { result ≡ create_w1 }
{
    Statement::CreatePool(w1(), no_timeout())
}

/// The third pool has a tenth of the total alone, for one query at a time.
pub fn create_w2() -> Statement
    ensures { result ≡ create_w2 }
{
    let change = PoolChange {
        memory: Some(Size::Percent(10)),
        max: Some(Some(Size::Percent(10))),
        planned: Some(Some(1)),
        ..no_timeout()
    };
    Statement::CreatePool(w2(), change)
}
