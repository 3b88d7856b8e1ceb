//! What rows hold of a grant, and runs of rows.

ghost use Rattle.std.specs.Prelude.{◌≡◌, [], ◌∷◌, IfOk};
ghost use Rattle.rm_base.specs.declared.value.Value.TheVariants.{Int};

use rm_base::row::Row;
use rm_base::value::Value;
use rm_outside::memory_spool::MemorySpool;
use rm_outside::spool::Spool;
use spill_files::error::RunError;
use spill_files::meter::{Meter, Over};
use spill_files::row_run::RowRun;
use std::alloc::{AllocError, Global};
use std::test::Fail;
use tuples::tuple::Tuple;

/// A row of one number, which measures 24.
fn row_of(alloc: Global, number: i64) -> Result<Row, AllocError>
    ensures { IfOk result (λ row. row ≡ Int number ∷ []) }
{
    let mut values = Vec::new(alloc);
    values.push(Value::Int(number))?;
    Ok(Row::of(values))
}

#[test]
fn no_more_is_held_than_granted(rt: HostRuntime) -> Result<(), Fail> {
    let mut meter = Meter::new(103);
    assert_eq!(rt; meter.grant(), 103);
    assert_eq!(rt; meter.quarter(), 25);
    meter.take(3);
    assert_eq!(rt; meter.charge(101), Err(Over));
    assert_eq!(rt; meter.charge(100), Ok(()));
    assert_eq!(rt; meter.charge(1), Err(Over));
    meter.release(1);
    assert_eq!(rt; meter.charge(1), Ok(()));
    Ok(())
}

/// Whether two rows that measure 48 go into a run under this grant.
fn two_fit(alloc: Global, grant: u64) -> Result<bool, Fail> {
    let mut meter = Meter::new(grant);
    let mut spool = MemorySpool::new(alloc);
    let mut run = RowRun::new(alloc);
    run.push(row_of(alloc, 1)?, &mut meter, &mut spool)?;
    match run.push(row_of(alloc, 2)?, &mut meter, &mut spool) {
        Ok(()) => Ok(true),
        Err(RunError::NeedsSpill) => Ok(false),
        Err(e) => Err(e)?,
    }
}

#[test]
fn a_run_takes_rows_up_to_a_quarter_of_the_grant(rt: HostRuntime) -> Result<(), Fail> {
    assert!(rt; two_fit(rt.alloc(), 192)?);
    assert!(rt; !two_fit(rt.alloc(), 191)?);
    Ok(())
}

#[test]
fn a_run_hands_out_its_rows_and_what_it_holds(rt: HostRuntime) -> Result<(), Fail> {
    let mut meter = Meter::new(192);
    let mut spool = MemorySpool::new(rt.alloc());
    let lent = row_of(rt.alloc(), 2)?;
    let mut run = RowRun::new(rt.alloc());
    run.push(row_of(rt.alloc(), 1)?, &mut meter, &mut spool)?;
    run.push_joined(Tuple::one(&lent), &mut meter, &mut spool)?;
    assert_eq!(rt; run.charge(), 48);
    assert_eq!(rt; run.rows().len(), 2);
    let first = run.next(rt.alloc(), &mut spool)?;
    let second = run.next(rt.alloc(), &mut spool)?;
    assert!(rt; first.is_some_and(|row| row < lent) && second.is_some_and(|row| row == lent));
    assert!(rt; run.next(rt.alloc(), &mut spool)?.is_none());
    run.rewind();
    assert!(rt;
        run.next(rt.alloc(), &mut spool)?
            .is_some_and(|row| row < lent)
    );
    assert_eq!(rt; meter.charge(145), Err(Over));
    run.end(&mut meter, &mut spool)?;
    assert_eq!(rt; meter.charge(192), Ok(()));
    assert_eq!(rt; spool.calls(), 0);
    Ok(())
}
