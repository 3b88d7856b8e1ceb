//! The first rows of an answer in order, of rows that are taken one by one.

ghost use Rattle.std.specs.Prelude.{◌≡◌, ◌+◌, ◌-◌, ◌<◌, ◌≤◌, ◌^◌, ◌++◌, [], ◌∷◌, true, List, IfErr, IfOk, IfSome, OnErr, OnOk, false, length, take, IsSorted};
ghost use Rattle.rm_base.specs.declared.select.OrderSpec as order_of;
ghost use Rattle.rm_base.specs.declared.value.Value as cell;
ghost use Rattle.rm_base.specs.Values.{row_measure};
ghost use Rattle.rm_rules.specs.Meaning.{shown};
ghost use Rattle.rm_rules.specs.Ordering.{in_order, order_cmp};
ghost use Rattle.spill_files.specs.declared.error.RunError.TheVariants.{NeedsSpill};
ghost use Rattle.spill_files.specs.Errors.{IsOfMemory};
ghost use Rattle.tuples.specs.Tuple.{tuple_values};
ghost use Rattle.grouping.specs.Batching.{IsFront, StandFor, Takes, most_of};

use crate::order::{is_before, is_shown_before, sort_rows};
use rm_base::row::Row;
use rm_base::select::{Item, OrderKey, OrderSpec};
use spill_files::error::RunError;
use std::alloc::{AllocError, Global};
use std::marker::Model;
use tuples::showing::{shown, shown_measure};
use tuples::tuple::Tuple;

/// How many rows are kept at least beyond a LIMIT.
const SPARE_ROWS: usize = 1_024;

/// Whether a row is not before the last of these.
fn is_behind(keys: &[OrderKey], front: &[Row], row: &Row) -> bool
    ensures { (order : order_of.OrderSpec) (kept more : List (List cell.Value)) → order.keys ≡ keys.now → IsFront order kept front.now
        → result ≡ true → in_order order (kept ++ row.now ∷ more) ≡ in_order order (kept ++ more) }
{
    if front.is_empty() {
        return true;
    }
    !is_before(keys, row, &front[front.len() - 1])
}

/// Whether the row that items show of a tuple is not before the last of these.
fn is_shown_behind(keys: &[OrderKey], front: &[Row], items: &[Item], tuple: Tuple) -> bool
    ensures { (order : order_of.OrderSpec) (kept more : List (List cell.Value)) → order.keys ≡ keys.now → IsFront order kept front.now
        → result ≡ true → in_order order (kept ++ shown items.now (tuple_values tuple.entry) ∷ more) ≡ in_order order (kept ++ more) }
{
    if front.is_empty() {
        return true;
    }
    !is_shown_before(keys, items, tuple, &front[front.len() - 1])
}

/// Puts rows in order, and lets go those behind the LIMIT. It takes no memory.
fn put_in_order(order: &OrderSpec, rows: &mut Vec<Row>)
    ensures { rows.new.items ≡ in_order order.now rows.old.items }
{
    sort_rows(order.keys.as_slice(), rows);
    if let Some(limit) = order.limit {
        rows.truncate(limit as usize);
    }
}

/// Lets go the rows that come behind the first LIMIT, where there are many of them, and answers whether it did. It takes
/// no memory.
fn prune(order: &OrderSpec, rows: &mut Vec<Row>) -> bool
    ensures rows { StandFor order.now rows.new.items rows.old.items }
    ensures front { result ≡ true → IsSorted (order_cmp order.now.keys) (take (most_of order.now.limit) rows.new.items) }
    ensures most { result ≡ true → most_of order.now.limit ≤ length rows.new.items }
    ensures others { result ≡ false → rows.new.items ≡ rows.old.items }
{
    if let Some(limit) = order.limit {
        if rows.len() >= 2 * (limit as usize + SPARE_ROWS) {
            put_in_order(order, rows);
            return true;
        }
    }
    false
}

/// The rows that may be in an answer, of all rows that were taken, which are all charged. Seen as these.
#[derive(Drop)]
pub struct Batch {
    order: OrderSpec,
    room: u64,
    charge: u64,
    kept: Vec<Row>,
    /// As many of the first rows kept as there is a LIMIT are in order.
    is_firm: bool,
}

impl Model for Batch {
    ghost use Rattle.std.specs.Prelude.{◌≡◌, ◌≤◌, ◌<◌, ◌-◌, ◌^◌, true, length, take, IsSorted};
    ghost use Rattle.rm_rules.specs.Ordering.{order_cmp};
    ghost use Rattle.grouping.specs.Batching.{Batched, most_of};

    ghost Value = { Batched };

    ghost view = { λ b. record { order = b.order; room = b.room; charge = b.charge; kept = b.kept.items } };

    ghost invariant = { λ b. (b.charge ≤ b.room)
        × (b.room < 2 ^ 64 - 1)
        × (b.is_firm ≡ true → IsSorted (order_cmp b.order.keys) (take (most_of b.order.limit) b.kept.items))
        × (b.is_firm ≡ true → most_of b.order.limit ≤ length b.kept.items) };
}

impl Batch {
    /// No rows.
    pub fn new(alloc: Global, order: &OrderSpec, room: u64) -> Result<Batch, AllocError>
        requires { room < 2 ^ 64 - 1 }
        ensures takes { IfOk result (λ batch. Takes order.now [] batch) }
        ensures room { IfOk result (λ batch. batch.room ≡ room) }
    {
        Ok(Batch {
            order: OrderSpec {
                keys: order.keys.copy(alloc)?,
                limit: order.limit,
            },
            room,
            charge: 0,
            kept: Vec::new(alloc),
            is_firm: false,
        })
    }

    /// Charges a row that measures this much.
    fn charge(&mut self, bytes: u64) -> Result<(), RunError>
        ensures ok { OnOk result (self.new ≡ record self.old { charge = self.old.charge + bytes }) }
        ensures fits { OnOk result (self.old.charge + bytes ≤ self.old.room) }
        ensures spills { IfErr result (λ e. e ≡ NeedsSpill) }
        ensures beyond { OnErr result (self.old.room < self.old.charge + bytes) }
        ensures err { OnErr result (self.new ≡ self.old) }
        ensures room { self.new.room ≡ self.old.room }
        ensures narrow { self.old.room < 2 ^ 64 - 1 }
    {
        if bytes > self.room - self.charge {
            return Err(RunError::NeedsSpill);
        }
        self.charge += bytes;
        Ok(())
    }

    /// The first LIMIT rows, where they are in order.
    fn front(&self) -> Option<&[Row]>
        ensures { IfSome result (λ front. IsFront self.now.order self.now.kept front.now) }
    {
        if !self.is_firm {
            return None;
        }
        match self.order.limit {
            Some(limit) => Some(&self.kept[..limit as usize]),
            None => None,
        }
    }

    fn keep(&mut self, row: Row) -> Result<(), AllocError>
        ensures order { self.new.order ≡ self.old.order }
        ensures room { self.new.room ≡ self.old.room }
        ensures charge { self.new.charge ≡ self.old.charge }
        ensures kept { OnOk result (StandFor self.old.order self.new.kept (self.old.kept ++ row ∷ [])) }
    {
        self.kept.push(row)?;
        if prune(&self.order, &mut self.kept) {
            self.is_firm = true;
        }
        Ok(())
    }

    /// Whether a row may be let go.
    fn lets_go(&self, row: &Row) -> bool
        ensures { result ≡ true → StandFor self.now.order self.now.kept (self.now.kept ++ row.now ∷ []) }
    {
        match self.front() {
            Some(front) => is_behind(self.order.keys.as_slice(), front, row),
            None => false,
        }
    }

    /// Whether the row that items show of a tuple may be let go.
    fn lets_go_shown(&self, items: &[Item], tuple: Tuple) -> bool
        ensures { result ≡ true → StandFor self.now.order self.now.kept (self.now.kept ++ shown items.now (tuple_values tuple.entry) ∷ []) }
    {
        match self.front() {
            Some(front) => is_shown_behind(self.order.keys.as_slice(), front, items, tuple),
            None => false,
        }
    }

    /// Takes a row. After an error the batch can only be let go.
    pub fn add(&mut self, row: Row) -> Result<(), RunError>
        ensures takes { (order : order_of.OrderSpec) (rows : List (List cell.Value)) → Takes order rows self.old
            → OnOk result (Takes order (rows ++ row ∷ []) self.new) }
        ensures room { self.new.room ≡ self.old.room }
        ensures fits { OnOk result (self.old.charge + row_measure row ≤ self.old.room) }
        ensures spills { IfErr result (λ e. e ≡ NeedsSpill → self.old.room < self.old.charge + row_measure row) }
        ensures only { IfErr result IsOfMemory }
    {
        self.charge(Tuple::one(&row).measure())?;
        if self.lets_go(&row) {
            return Ok(());
        }
        self.keep(row)?;
        Ok(())
    }

    /// Takes the row that items show of a tuple.
    pub fn add_shown(&mut self, alloc: Global, items: &[Item], tuple: Tuple) -> Result<(), RunError>
        ensures takes { (order : order_of.OrderSpec) (rows : List (List cell.Value)) → Takes order rows self.old
            → OnOk result (Takes order (rows ++ shown items.now (tuple_values tuple.entry) ∷ []) self.new) }
        ensures room { self.new.room ≡ self.old.room }
        ensures fits { OnOk result (self.old.charge + row_measure (shown items.now (tuple_values tuple.entry)) ≤ self.old.room) }
        ensures spills { IfErr result (λ e. e ≡ NeedsSpill
            → self.old.room < self.old.charge + row_measure (shown items.now (tuple_values tuple.entry))) }
        ensures only { IfErr result IsOfMemory }
    {
        self.charge(shown_measure(items, tuple))?;
        if self.lets_go_shown(items, tuple) {
            return Ok(());
        }
        self.keep(shown(alloc, items, tuple)?)?;
        Ok(())
    }

    /// The first rows in order. It takes no memory.
    pub fn finish(self) -> Vec<Row>
        ensures { (order : order_of.OrderSpec) (rows : List (List cell.Value)) → Takes order rows self → result.items ≡ in_order order rows }
    {
        let order = self.order;
        let mut kept = self.kept;
        put_in_order(&order, &mut kept);
        kept
    }
}
