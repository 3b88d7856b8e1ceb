//! What a group keeps of its rows.

ghost use Rattle.std.specs.Prelude.{◌≡◌, [], IfOk, OnOk};
ghost use Rattle.tuples.specs.Tuple.{tuple_values};
ghost use Rattle.grouping.specs.Tallying.{all_added, tallies_of};

use crate::tally::Tally;
use rm_base::select::Item;
use std::alloc::{AllocError, Global};
use std::marker::Model;
use tuples::tuple::Tuple;

/// The tallies of a group, one for each item.
#[derive(Debug, Drop)]
pub struct Tallies {
    tallies: Vec<Tally>,
}

impl Model for Tallies {
    ghost use Rattle.std.specs.Prelude.{List};
    ghost use Rattle.grouping.specs.declared.tally.Tally as one;

    ghost Value = { List one.Tally };

    ghost view = { λ t. t.tallies.items };
}

fn add_all(alloc: Global, tallies: &mut [Tally], tuple: Tuple) -> Result<(), AllocError>
    ensures { OnOk result (tallies.new ≡ all_added (tuple_values tuple.entry) tallies.old) }
{
    for tally in tallies.iter_mut() {
        tally.add(alloc, tuple)?;
    }
    Ok(())
}

impl Tallies {
    /// The tallies of no rows.
    pub fn new(alloc: Global, items: &[Item]) -> Result<Tallies, AllocError>
        ensures { IfOk result (λ tallies. tallies ≡ tallies_of items.now []) }
    {
        let mut tallies = Vec::with_capacity(alloc, items.len())?;
        for item in items {
            tallies.push(Tally::new(*item))?;
        }
        Ok(Tallies { tallies })
    }

    /// Adds a row. Where there is no memory, some tallies may have it and others not.
    pub fn add(&mut self, alloc: Global, tuple: Tuple) -> Result<(), AllocError>
        ensures { OnOk result (self.new ≡ all_added (tuple_values tuple.entry) self.old) }
    {
        add_all(alloc, &mut self.tallies, tuple)
    }

    pub fn as_slice(&self) -> &[Tally]
        ensures { result.now ≡ self.now }
    {
        &self.tallies
    }
}
