//! The places of numbers in a list, which are found by buckets of the numbers.

ghost use Rattle.std.specs.Prelude.{◌≡◌, ◌<◌, ◌++◌, [], ◌∷◌, length, slice_index, take, IfOk, OnOk, OnErr};
ghost use Rattle.grouping.specs.Places.{bucket, buckets, last_place};

use std::alloc::{AllocError, Global};
use std::marker::Model;

/// How many buckets there are at first. Odd counts spread the numbers by all of the bits that they use.
const FIRST_COUNT: usize = 255;

/// Numbers in a list, and how many buckets there are for them.
#[derive(Drop)]
pub struct Places {
    numbers: Vec<u64>,
    /// The last place in each bucket, counted from 1, or 0.
    last: Vec<usize>,
    /// Behind each place the last one before it in the same bucket, counted from 1, or 0.
    before: Vec<usize>,
}

impl Model for Places {
    ghost use Rattle.std.specs.Prelude.{◌<◌, length};
    ghost use Rattle.grouping.specs.Places.{IsLinked, Placed, buckets};

    ghost Value = { Placed };

    ghost view = { λ p. record { count = length p.last.items; numbers = p.numbers.items } };

    ghost invariant = { λ p. (0 < length p.last.items)
        × IsLinked (buckets (length p.last.items) p.numbers.items) p.last.items p.before.items };
}

fn bucket(number: u64, count: usize) -> usize
    requires { 0 < count }
    ensures value { result ≡ bucket count number }
    ensures within { result < count }
{
    ((number >> 32) % count as u64) as usize
}

/// These numbers in so many buckets.
fn spread(alloc: Global, numbers: &[u64], count: usize) -> Result<Places, AllocError>
    requires { 0 < count }
    ensures { IfOk result (λ places. places.numbers ≡ numbers.now) }
{
    let mut places = Places::with_count(alloc, count)?;
    for number in numbers {
        places.put(*number)?;
    }
    Ok(places)
}

impl Places {
    fn with_count(alloc: Global, count: usize) -> Result<Places, AllocError>
        requires { 0 < count }
        ensures { IfOk result (λ places. places.numbers ≡ []) }
    {
        Ok(Places {
            numbers: Vec::new(alloc),
            last: vec![in alloc; 0; count]?,
            before: Vec::new(alloc),
        })
    }

    pub fn new(alloc: Global) -> Result<Places, AllocError>
        ensures { IfOk result (λ places. places.numbers ≡ []) }
    {
        Places::with_count(alloc, FIRST_COUNT)
    }

    /// The last place in the bucket of a number, counted from 1, or 0.
    pub fn last(&self, number: u64) -> usize
        ensures { result ≡ last_place (bucket self.now.count number) (buckets self.now.count self.now.numbers) }
    {
        self.last[bucket(number, self.last.len())]
    }

    /// The last place before a place in the same bucket, counted from 1, or 0.
    pub fn before(&self, place: usize) -> usize
        requires { place < length self.now.numbers }
        ensures { result ≡ last_place (slice_index (buckets self.now.count self.now.numbers) place)
            (take place (buckets self.now.count self.now.numbers)) }
    {
        self.before[place]
    }

    /// Puts a number behind the others.
    fn put(&mut self, number: u64) -> Result<(), AllocError>
        ensures ok { OnOk result (self.new.numbers ≡ self.old.numbers ++ number ∷ []) }
        ensures err { OnErr result (self.new ≡ self.old) }
    {
        self.numbers.reserve(1)?;
        self.before.reserve(1)?;
        let bucket = bucket(number, self.last.len());
        let earlier = self.last[bucket];
        self.numbers.push_reserved(number);
        self.before.push_reserved(earlier);
        self.last[bucket] = self.numbers.len();
        Ok(())
    }

    /// Puts a number behind the others. There are twice as many buckets at least as numbers.
    pub fn push(&mut self, alloc: Global, number: u64) -> Result<(), AllocError>
        ensures ok { OnOk result (self.new.numbers ≡ self.old.numbers ++ number ∷ []) }
        ensures err { OnErr result (self.new.numbers ≡ self.old.numbers) }
    {
        if self.numbers.len() >= self.last.len() / 2 {
            *self = spread(alloc, &self.numbers, 2 * self.last.len() + 1)?;
        }
        self.put(number)
    }
}
