//! What a group keeps of its rows for one item.

ghost use Rattle.std.specs.Prelude.{◌≡◌, [], OnOk};
ghost use Rattle.rm_base.specs.Values.{value_cmp};
ghost use Rattle.rm_rules.specs.Grouping.{falling_cmp};
ghost use Rattle.tuples.specs.Known.{known};
ghost use Rattle.tuples.specs.Tuple.{tuple_values};
ghost use Rattle.grouping.specs.Tallying.{counted_value, is_first, kept, picked, added, tally_of};

use crate::totals::Sums;
use rm_base::select::Item;
use rm_base::value::Value;
use std::alloc::{AllocError, Global};
use tuples::tuple::Tuple;

/// A count stands still at its greatest value.
#[derive(Debug, Drop)]
pub enum Tally {
    /// A column of the key.
    Key(u32),
    /// How many rows.
    Rows(u64),
    /// How many values of a column are not Null.
    Present(u32, u64),
    /// Their sum.
    Total(u32, Sums),
    /// The least of them.
    Least(u32, Option<Value>),
    /// The greatest of them.
    Most(u32, Option<Value>),
}

fn count(n: u64, value: Option<&Value>) -> u64
    ensures { result ≡ counted_value (known value.entry) n }
{
    match value {
        None => n,
        Some(Value::Null) => n,
        Some(Value::Int(_)) => n.saturating_add(1),
        Some(Value::Words(_)) => n.saturating_add(1),
    }
}

fn is_below(value: &Value, best: &Option<Value>) -> bool
    ensures { result ≡ is_first value_cmp value.now best.now }
{
    match best {
        Some(best) => value.cmp(best).is_lt(),
        None => true,
    }
}

fn is_above(value: &Value, best: &Option<Value>) -> bool
    ensures { result ≡ is_first falling_cmp value.now best.now }
{
    match best {
        Some(best) => best.cmp(value).is_lt(),
        None => true,
    }
}

fn keep_least(alloc: Global, best: &mut Option<Value>, value: &Value) -> Result<(), AllocError>
    ensures { OnOk result (best.new ≡ kept value_cmp value.now best.old) }
{
    if is_below(value, best) {
        *best = Some(value.copy(alloc)?);
    }
    Ok(())
}

fn keep_most(alloc: Global, best: &mut Option<Value>, value: &Value) -> Result<(), AllocError>
    ensures { OnOk result (best.new ≡ kept falling_cmp value.now best.old) }
{
    if is_above(value, best) {
        *best = Some(value.copy(alloc)?);
    }
    Ok(())
}

fn pick_least(
    alloc: Global,
    best: &mut Option<Value>,
    value: Option<&Value>,
) -> Result<(), AllocError>
    ensures { OnOk result (best.new ≡ picked value_cmp (known value.entry) best.old) }
{
    match value {
        None => Ok(()),
        Some(value) => match value {
            Value::Null => Ok(()),
            Value::Int(_) => keep_least(alloc, best, value),
            Value::Words(_) => keep_least(alloc, best, value),
        },
    }
}

fn pick_most(
    alloc: Global,
    best: &mut Option<Value>,
    value: Option<&Value>,
) -> Result<(), AllocError>
    ensures { OnOk result (best.new ≡ picked falling_cmp (known value.entry) best.old) }
{
    match value {
        None => Ok(()),
        Some(value) => match value {
            Value::Null => Ok(()),
            Value::Int(_) => keep_most(alloc, best, value),
            Value::Words(_) => keep_most(alloc, best, value),
        },
    }
}

impl Tally {
    /// The tally of no rows.
    pub fn new(item: Item) -> Tally
        ensures { result ≡ tally_of [] item }
    {
        match item {
            Item::Column(c) => Tally::Key(c),
            Item::CountAll => Tally::Rows(0),
            Item::Count(c) => Tally::Present(c, 0),
            Item::Sum(c) => Tally::Total(c, Sums::new()),
            Item::Min(c) => Tally::Least(c, None),
            Item::Max(c) => Tally::Most(c, None),
        }
    }

    /// Adds a row.
    pub fn add(&mut self, alloc: Global, tuple: Tuple) -> Result<(), AllocError>
        ensures { OnOk result (self.new ≡ added self.old (tuple_values tuple.entry)) }
    {
        match self {
            Tally::Key(_) => {}
            Tally::Rows(n) => *n = n.saturating_add(1),
            Tally::Present(c, n) => *n = count(*n, tuple.column(*c)),
            Tally::Total(c, sums) => sums.add(tuple.column(*c)),
            Tally::Least(c, best) => return pick_least(alloc, best, tuple.column(*c)),
            Tally::Most(c, best) => return pick_most(alloc, best, tuple.column(*c)),
        }
        Ok(())
    }
}
