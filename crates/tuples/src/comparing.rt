//! Whether comparisons are true of a tuple.

ghost use Rattle.std.specs.Prelude.{◌≡◌};
ghost use Rattle.rm_rules.specs.Comparing.{admits, all_true, compares, is_true, operand};
ghost use Rattle.tuples.specs.Known.{known};
ghost use Rattle.tuples.specs.Tuple.{tuple_values};

use crate::tuple::Tuple;
use rm_base::select::{Op, Operand, Test};
use rm_base::value::Value;
use std::cmp::Ordering;

fn operand<'a>(tuple: Tuple<'a>, side: &'a Operand) -> Option<&'a Value>
    ensures { known result ≡ operand (tuple_values tuple.entry) side.now }
{
    match side {
        Operand::Column(c) => tuple.column(*c),
        Operand::Fixed(value) => Some(value),
    }
}

fn admits(op: Op, order: Ordering) -> bool
    ensures { result ≡ admits op order }
{
    match op {
        Op::Equal => order.is_eq(),
        Op::Unequal => order.is_ne(),
        Op::Less => order.is_lt(),
        Op::AtMost => order.is_le(),
        Op::Greater => order.is_gt(),
        Op::AtLeast => order.is_ge(),
    }
}

fn compares(a: Option<&Value>, op: Op, b: Option<&Value>) -> bool
    ensures { result ≡ compares (known a.entry) op (known b.entry) }
{
    match (a, b) {
        (Some(Value::Null), _) => false,
        (Some(_), Some(Value::Null)) => false,
        (Some(a), Some(b)) => admits(op, a.cmp(b)),
        (Some(_), None) => false,
        (None, _) => false,
    }
}

fn is_true(tuple: Tuple, test: &Test) -> bool
    ensures { result ≡ is_true (tuple_values tuple.entry) test.now }
{
    compares(
        operand(tuple, &test.left),
        test.op,
        operand(tuple, &test.right),
    )
}

/// Whether all of the comparisons are true of the tuple.
pub fn all_true(tests: &[Test], tuple: Tuple) -> bool
    ensures { result ≡ all_true tests.now (tuple_values tuple.entry) }
{
    tests.iter().all(|test| is_true(tuple, test))
}
