//! Rows side by side, and what is asked of them.

use crate::tests::values::{row_of, value_of};
use rm_base::reply::Reply;
use rm_base::select::{Item, Op, Operand, Test};
use rm_outside::stopping_watch::StoppingWatch;
use std::alloc::{AllocError, Global};
use std::test::Fail;
use tuples::comparing::all_true;
use tuples::hashing::key_hash;
use tuples::pace::Pace;
use tuples::showing::{shown, shown_measure};
use tuples::tuple::Tuple;

/// A comparison of a column with a value.
fn test_of(alloc: Global, column: u32, op: Op, value: &str) -> Result<Test, AllocError> {
    Ok(Test {
        left: Operand::Column(column),
        op,
        right: Operand::Fixed(value_of(alloc, value)?),
    })
}

#[test]
fn rows_side_by_side_are_one_row(rt: HostRuntime) -> Result<(), Fail> {
    let first = row_of(rt.alloc(), "1 'ab")?;
    let second = row_of(rt.alloc(), "NULL")?;
    let third = row_of(rt.alloc(), "-2 3")?;
    let whole = row_of(rt.alloc(), "1 'ab NULL -2 3")?;
    let pair = Tuple::one(&first).with(&second);
    assert!(rt; pair.has_place());
    let tuple = pair.with(&third);
    assert!(rt; !tuple.has_place());
    for (c, value) in (0u32..5).zip(whole.as_slice()) {
        assert!(rt; tuple.column(c).is_some_and(|found| found == value));
    }
    assert!(rt; tuple.column(5).is_none());
    assert_eq!(rt; tuple.measure(), 59);
    assert!(rt; tuple.copy(rt.alloc())? == whole);
    Ok(())
}

#[test]
fn tuples_are_compared_and_shown_by_their_columns(rt: HostRuntime) -> Result<(), Fail> {
    let first = row_of(rt.alloc(), "1 'ab")?;
    let second = row_of(rt.alloc(), "NULL")?;
    let third = row_of(rt.alloc(), "-2 3")?;
    let tuple = Tuple::one(&first).with(&second).with(&third);
    let mut tests = Vec::new(rt.alloc());
    tests.push(test_of(rt.alloc(), 1, Op::AtLeast, "'aa")?)?;
    tests.push(test_of(rt.alloc(), 3, Op::Less, "0")?)?;
    assert!(rt; all_true(&tests, tuple));
    tests.push(test_of(rt.alloc(), 2, Op::Unequal, "0")?)?;
    assert!(rt; !all_true(&tests, tuple));
    let items = [Item::Column(4), Item::Column(1), Item::Column(9)];
    assert!(rt; shown(rt.alloc(), &items, tuple)? == row_of(rt.alloc(), "3 'ab NULL")?);
    assert_eq!(rt; shown_measure(&items, tuple), 43);
    Ok(())
}

#[test]
fn equal_keys_share_a_hash(rt: HostRuntime) -> Result<(), Fail> {
    let first = row_of(rt.alloc(), "1 'ab")?;
    let second = row_of(rt.alloc(), "NULL")?;
    let third = row_of(rt.alloc(), "-2 3")?;
    let whole = row_of(rt.alloc(), "1 'ab NULL -2 3")?;
    let tuple = Tuple::one(&first).with(&second).with(&third);
    assert_eq!(rt; key_hash(&[0], tuple), 15_041_795_452_915_637_202);
    assert_eq!(rt; key_hash(&[3, 1, 2], tuple), 9_835_206_630_128_938_588);
    assert_eq!(rt;
        key_hash(&[3, 1, 2], Tuple::one(&whole)),
        9_835_206_630_128_938_588
    );
    Ok(())
}

#[test]
fn a_step_waits_for_others(rt: HostRuntime) -> Result<(), Fail> {
    let mut pace = Pace::new();
    let mut watch = StoppingWatch::new(0, Reply::Stopping);
    pace.step(&mut watch)?;
    assert_eq!(rt; pace.steps(), 1);
    assert_eq!(rt; watch.handed(), 0);
    Ok(())
}
