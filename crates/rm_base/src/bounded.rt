ghost use Rattle.std.specs.Prelude.{◌≡◌, ◌<◌, ◌≤◌, ◌↔◌, [], ◌∷◌, ◌++◌, length, slice_set, slice_index_or, remove, IfOk, IsTrue};
ghost use Rattle.std.specs.Fn.{CalledAt};
ghost use Rattle.std.specs.List.Retain.{IsFiltered};

use std::alloc::{AllocError, Global};
use std::marker::Model;

/// A list in order, with room for the most that it may hold: no call but `new` and `copy` takes memory.
#[derive(Debug, Drop)]
pub struct Bounded<T, const MOST: usize> {
    rows: Vec<T>,
}

impl<T, const MOST: usize> Model for Bounded<T, MOST> {
    ghost use Rattle.std.specs.Prelude.{List, ◌≤◌, vec_len, vec_capacity};

    ghost Value = { List T };

    ghost view = { λ b. b.rows.items };

    ghost invariant = { λ b. (vec_len b.rows ≤ MOST) × (MOST ≤ vec_capacity b.rows) };
}

impl<T, const MOST: usize> Bounded<T, MOST> {
    /// An empty list. It takes all memory that it will ever use.
    pub fn new(alloc: Global) -> Result<Self, AllocError>
        ensures { IfOk result (λ list. list ≡ []) }
    {
        Ok(Bounded {
            rows: Vec::with_capacity(alloc, MOST)?,
        })
    }

    pub fn rows(&self) -> &[T]
        ensures rows { result.now ≡ self.now }
        ensures room { length self.now ≤ MOST }
    {
        &self.rows
    }

    pub fn len(&self) -> usize
        ensures value { result ≡ length self.now }
        ensures room { length self.now ≤ MOST }
    {
        self.rows.len()
    }

    pub fn is_empty(&self) -> bool
        ensures { IsTrue result ↔ (self.now ≡ []) }
    {
        self.rows.is_empty()
    }

    /// Whether there is room for no more.
    pub fn is_full(&self) -> bool
        ensures full { IsTrue result ↔ (length self.now ≡ MOST) }
        ensures room { length self.now ≤ MOST }
    {
        self.rows.len() == MOST
    }

    /// Puts a row behind the others.
    pub fn add(&mut self, row: T)
        requires { length self.old < MOST }
        ensures { self.new ≡ self.old ++ row ∷ [] }
    {
        self.rows.push_reserved(row);
    }

    /// Takes a row out, and the later ones move up.
    pub fn remove(&mut self, index: usize) -> T
        requires { index < length self.old }
        ensures row { result ≡ slice_index_or self.old index result }
        ensures rest { self.new ≡ remove self.old index }
    {
        self.rows.remove(index)
    }
}

impl<T: Drop, const MOST: usize> Bounded<T, MOST> {
    /// Keeps the rows that pass the test, in their order.
    pub fn retain<F: FnMut(&T) -> bool>(&mut self, keep: F)
        requires { F.IsAlwaysCallable keep }
        ensures { IsFiltered (CalledAt F.FnMut) keep self.old self.new }
    {
        self.rows.retain(keep);
    }
}

impl<T: Copy, const MOST: usize> Bounded<T, MOST> {
    /// A list of the same rows, with the same room.
    pub fn copy(&self, alloc: Global) -> Result<Self, AllocError>
        ensures { IfOk result (λ list. list ≡ self.now) }
    {
        let mut rows = Vec::with_capacity(alloc, MOST)?;
        rows.extend_from_slice(&self.rows)?;
        Ok(Bounded { rows })
    }

    /// Puts a row in the place of the one that stands there.
    pub fn set(&mut self, index: usize, row: T)
        requires { index < length self.old }
        ensures { self.new ≡ slice_set self.old index row }
    {
        self.rows[index] = row;
    }
}
