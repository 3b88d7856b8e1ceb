//! The sum of the numbers of a group.

ghost use Rattle.std.specs.Prelude.{◌≡◌, pos};
ghost use Rattle.tuples.specs.Known.{known};
ghost use Rattle.grouping.specs.Totals.{Totaled, totaled, totaled_number};

use rm_base::value::Value;
use std::marker::Model;

/// How many numbers there were, and their sum, which always fits.
#[derive(Debug, Drop)]
pub struct Sums {
    count: u64,
    sum: i128,
}

impl Model for Sums {
    ghost use Rattle.grouping.specs.Totals.{Totaled, IsWithin};

    ghost Value = { Totaled };

    ghost view = { λ t. record { count = t.count; sum = t.sum } };

    ghost invariant = { λ t. IsWithin t.count t.sum };
}

impl Sums {
    pub fn new() -> Sums
        ensures count { result.count ≡ 0 }
        ensures sum { result.sum ≡ pos 0 }
    {
        Sums { count: 0, sum: 0 }
    }

    pub fn count(&self) -> u64
        ensures { result ≡ self.now.count }
    {
        self.count
    }

    pub fn sum(&self) -> i128
        ensures { result ≡ self.now.sum }
    {
        self.sum
    }

    fn add_number(&mut self, number: i64)
        ensures { self.new ≡ totaled_number number self.old }
    {
        if self.count < u64::MAX {
            self.count += 1;
            self.sum += number as i128;
        }
    }

    /// Adds a value; Null is left out, and what is no number counts as 0.
    pub fn add(&mut self, value: Option<&Value>)
        ensures { self.new ≡ totaled (known value.entry) self.old }
    {
        match value {
            None => {}
            Some(Value::Null) => {}
            Some(Value::Int(number)) => self.add_number(*number),
            Some(Value::Words(_)) => self.add_number(0),
        }
    }
}
