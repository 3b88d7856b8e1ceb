//! Groups of rows with equal keys, which are taken one by one.

ghost use Rattle.std.specs.Prelude.{◌≡◌, ◌+◌, ◌-◌, ◌<◌, ◌≤◌, ◌^◌, ◌++◌, [], ◌∷◌, false, List, length, min, slice_index_or, slice_set, true, None, IfOk, IfErr, IfNone, IfSome, IsPermutation, OnOk};
ghost use Rattle.std.specs.List.{list_any};
ghost use Rattle.rm_base.specs.declared.select.GroupSpec as spec_of;
ghost use Rattle.rm_base.specs.declared.value.Value as cell;
ghost use Rattle.rm_base.specs.Values.{same_row};
ghost use Rattle.rm_rules.specs.AllFits.{group_charge, group_rows_fit, groups_charge, item_charge};
ghost use Rattle.rm_rules.specs.Comparing.{columns};
ghost use Rattle.rm_rules.specs.Grouping.{first_bad, grouped};
ghost use Rattle.spill_files.specs.declared.error.RunError.TheVariants.{NeedsSpill};
ghost use Rattle.spill_files.specs.Errors.{IsOfMemory};
ghost use Rattle.tuples.specs.Hashing.{key_hash};
ghost use Rattle.tuples.specs.Tuple.{tuple_values};
ghost use Rattle.grouping.specs.Ending.{IsGrouped, IsGroupedInOrder};
ghost use Rattle.grouping.specs.Finishing.{bad_from, groups_in_order};
ghost use Rattle.grouping.specs.Gathering.{gathered, groups_seen, hashes_of, items_charge, keys_of, row_hash};
ghost use Rattle.grouping.specs.Tallying.{all_added, tallies_of};
ghost use Rattle.grouping.specs.declared.tally.Tally as one;

use crate::cells::{cell_rows, first_bad, first_cell_rows, sort_groups};
use crate::keys::{has_key, key_of};
use crate::places::Places;
use crate::tallies::Tallies;
use rm_base::limits::{BEST_CHARGE, COUNT_CHARGE};
use rm_base::row::Row;
use rm_base::row_list::RowList;
use rm_base::select::{GroupSpec, Item, OrderSpec};
use spill_files::error::RunError;
use std::alloc::{AllocError, Global};
use std::marker::Model;
use tuples::hashing::key_hash;
use tuples::tuple::Tuple;

fn item_charge(item: Item) -> u64
    ensures { result ≡ item_charge item }
{
    match item {
        Item::Column(_) => 0,
        Item::CountAll => COUNT_CHARGE,
        Item::Count(_) => COUNT_CHARGE,
        Item::Sum(_) => COUNT_CHARGE,
        Item::Min(_) => BEST_CHARGE,
        Item::Max(_) => BEST_CHARGE,
    }
}

/// What a group is charged for these items; it stands still at its greatest value.
fn items_charge(items: &[Item]) -> u64
    ensures { result ≡ min (items_charge items.now) (2 ^ 64 - 1) }
{
    let mut charge: u64 = 0;
    for item in items {
        charge = charge.saturating_add(item_charge(*item));
    }
    charge
}

/// The place of the one group there is without columns to group by.
fn sole_place(groups: &[(Row, Tallies)], keys: &[u32], tuple: Tuple) -> Option<usize>
    ensures within { IfSome result (λ place. place < length groups.now) }
    ensures found { IfSome result (λ place. slice_index_or (keys_of groups.now) place [] ≡ columns keys.now (tuple_values tuple.entry)) }
{
    if !keys.is_empty() || groups.is_empty() {
        return None;
    }
    if has_key(keys, tuple, &groups[0].0) {
        Some(0)
    } else {
        None
    }
}

/// The place of the group with a tuple's key.
fn place_of(
    groups: &[(Row, Tallies)],
    places: &Places,
    keys: &[u32],
    hash: u64,
    tuple: Tuple,
) -> Option<usize>
    requires places { places.now.numbers ≡ hashes_of groups.now }
    requires hash { hash ≡ key_hash keys.now (tuple_values tuple) }
    ensures within { IfSome result (λ place. place < length groups.now) }
    ensures found { IfSome result (λ place. slice_index_or (keys_of groups.now) place [] ≡ columns keys.now (tuple_values tuple.entry)) }
    ensures none { IfNone result (list_any (same_row (columns keys.now (tuple_values tuple.entry))) (keys_of groups.now) ≡ false) }
{
    if let Some(place) = sole_place(groups, keys, tuple) {
        return Some(place);
    }
    let mut place = places.last(hash);
    while place > 0 {
        place -= 1;
        if has_key(keys, tuple, &groups[place].0) {
            return Some(place);
        }
        place = places.before(place);
    }
    None
}

/// Adds a row to the group at a place.
fn add_at(
    alloc: Global,
    groups: &mut [(Row, Tallies)],
    place: usize,
    tuple: Tuple,
) -> Result<(), AllocError>
    requires { place < length groups.old }
    ensures ok { (none : List cell.Value × List one.Tally) → OnOk result (groups.new ≡ slice_set groups.old place
        ((slice_index_or groups.old place none).0, all_added (tuple_values tuple.entry) (slice_index_or groups.old place none).1)) }
    ensures keys { hashes_of groups.new ≡ hashes_of groups.old }
{
    groups[place].1.add(alloc, tuple)
}

/// The first sum out of range in the order of keys.
fn first_bad_in_order(items: &[Item], mut groups: Vec<(Row, Tallies)>) -> Option<(usize, i128)>
    ensures first { (spec : spec_of.GroupSpec) (rows : List (List cell.Value))
        → items.now ≡ spec.items
        → IsPermutation (groups_in_order spec rows) groups.items
        → result ≡ first_bad spec rows }
    ensures none { IfNone result (bad_from 0 items.now groups.items ≡ None) }
    ensures within { IfSome result (λ bad. bad.0 ≤ length items.now) }
{
    sort_groups(&mut groups);
    first_bad(items, &groups)
}

/// What groups end with: their rows, or the first sum out of range, with its output column, counted from 1.
#[derive(Debug, Drop)]
pub enum GroupsEnd {
    Rows(RowList),
    SumOutOfRange(u32, i128),
}

/// With all rows of the groups, in any order.
fn end_of(
    alloc: Global,
    spec: &GroupSpec,
    groups: Vec<(Row, Tallies)>,
    room: u64,
) -> Result<GroupsEnd, RunError>
    requires items { length spec.now.items < 2 ^ 32 - 1 }
    requires room { room < 2 ^ 64 - 1 }
    ensures ok { (rows : List (List cell.Value)) → length rows < 2 ^ 63 → groups.items ≡ groups_seen spec.now rows
        → IfOk result (λ end. IsGrouped spec.now rows end) }
    ensures fits { (rows : List (List cell.Value)) → length rows < 2 ^ 63 → groups.items ≡ groups_seen spec.now rows
        → OnOk result (group_rows_fit room (first_bad spec.now rows) (grouped spec.now rows) ≡ true) }
    ensures spills { (rows : List (List cell.Value)) → length rows < 2 ^ 63 → groups.items ≡ groups_seen spec.now rows
        → IfErr result (λ e. e ≡ NeedsSpill → group_rows_fit room (first_bad spec.now rows) (grouped spec.now rows) ≡ false) }
    ensures only { IfErr result IsOfMemory }
{
    match first_bad(spec.items.as_slice(), &groups) {
        None => match cell_rows(alloc, spec.keys.as_slice(), &groups, room) {
            Ok(rows) => Ok(GroupsEnd::Rows(RowList::of(rows))),
            Err(error) => Err(error),
        },
        Some(_) => match first_bad_in_order(spec.items.as_slice(), groups) {
            Some((column, sum)) => Ok(GroupsEnd::SumOutOfRange(column as u32, sum)),
            None => unreachable!(),
        },
    }
}

/// With the first rows of the groups in order.
fn ordered_end_of(
    alloc: Global,
    spec: &GroupSpec,
    order: &OrderSpec,
    groups: Vec<(Row, Tallies)>,
    room: u64,
) -> Result<GroupsEnd, RunError>
    requires items { length spec.now.items < 2 ^ 32 - 1 }
    requires room { room < 2 ^ 64 - 1 }
    ensures ok { (rows : List (List cell.Value)) → length rows < 2 ^ 63 → groups.items ≡ groups_seen spec.now rows
        → IfOk result (λ end. IsGroupedInOrder spec.now order.now rows end) }
    ensures fits { (rows : List (List cell.Value)) → length rows < 2 ^ 63 → groups.items ≡ groups_seen spec.now rows
        → OnOk result (group_rows_fit room (first_bad spec.now rows) (grouped spec.now rows) ≡ true) }
    ensures spills { (rows : List (List cell.Value)) → length rows < 2 ^ 63 → groups.items ≡ groups_seen spec.now rows
        → IfErr result (λ e. e ≡ NeedsSpill → group_rows_fit room (first_bad spec.now rows) (grouped spec.now rows) ≡ false) }
    ensures only { IfErr result IsOfMemory }
{
    match first_bad(spec.items.as_slice(), &groups) {
        None => match first_cell_rows(alloc, spec.keys.as_slice(), order, &groups, room) {
            Ok(rows) => Ok(GroupsEnd::Rows(RowList::of(rows))),
            Err(error) => Err(error),
        },
        Some(_) => match first_bad_in_order(spec.items.as_slice(), groups) {
            Some((column, sum)) => Ok(GroupsEnd::SumOutOfRange(column as u32, sum)),
            None => unreachable!(),
        },
    }
}

/// The groups of rows, in the order in which their keys first stand, seen as these.
#[derive(Drop)]
pub struct Groups {
    spec: GroupSpec,
    group_charge: u64,
    room: u64,
    charge: u64,
    groups: Vec<(Row, Tallies)>,
    /// The hashes of their keys.
    places: Places,
}

impl Model for Groups {
    ghost use Rattle.std.specs.Prelude.{◌≡◌, ◌≤◌, ◌<◌, ◌-◌, ◌^◌, min};
    ghost use Rattle.grouping.specs.Gathering.{Gathered, hashes_of, items_charge};

    ghost Value = { Gathered };

    ghost view = { λ g. record { spec = g.spec; room = g.room; charge = g.charge; groups = g.groups.items } };

    ghost invariant = { λ g. (g.group_charge ≡ min (items_charge g.spec.items) (2 ^ 64 - 1))
        × (g.charge ≤ g.room)
        × (g.room < 2 ^ 64 - 1)
        × (g.places.numbers ≡ hashes_of g.groups.items) };
}

impl Groups {
    /// The groups of no rows: without columns there is one.
    pub fn new(alloc: Global, spec: &GroupSpec, room: u64) -> Result<Groups, RunError>
        requires { room < 2 ^ 64 - 1 }
        ensures ok { IfOk result (λ groups. groups ≡ gathered spec.now room []) }
        ensures fits { OnOk result (groups_charge spec.now [] ≤ room) }
        ensures spills { IfErr result (λ e. e ≡ NeedsSpill → room < groups_charge spec.now []) }
        ensures only { IfErr result IsOfMemory }
    {
        let mut groups = Groups {
            spec: GroupSpec {
                keys: spec.keys.copy(alloc)?,
                items: spec.items.copy(alloc)?,
            },
            group_charge: items_charge(spec.items.as_slice()),
            room,
            charge: 0,
            groups: Vec::new(alloc),
            places: Places::new(alloc)?,
        };
        if spec.keys.as_slice().is_empty() {
            let tallies = Tallies::new(alloc, spec.items.as_slice())?;
            groups.put(alloc, 0, Row::of(Vec::new(alloc)), tallies)?;
        }
        Ok(groups)
    }

    /// Puts a group behind the others.
    fn put(&mut self, alloc: Global, hash: u64, key: Row, tallies: Tallies) -> Result<(), RunError>
        requires { hash ≡ row_hash key }
        ensures ok { OnOk result (self.new ≡ record self.old {
          charge = self.old.charge + group_charge self.old.spec.items key;
          groups = self.old.groups ++ (key, tallies) ∷ [];
        }) }
        ensures fits { OnOk result (self.old.charge + group_charge self.old.spec.items key ≤ self.old.room) }
        ensures spills { IfErr result (λ e. e ≡ NeedsSpill → self.old.room < self.old.charge + group_charge self.old.spec.items key) }
        ensures only { IfErr result IsOfMemory }
    {
        let bytes = Tuple::one(&key).measure().saturating_add(self.group_charge);
        if bytes > self.room - self.charge {
            return Err(RunError::NeedsSpill);
        }
        self.groups.reserve(1)?;
        self.places.push(alloc, hash)?;
        self.groups.push_reserved((key, tallies));
        self.charge += bytes;
        Ok(())
    }

    /// Puts the group of a tuple behind the others.
    fn put_new(&mut self, alloc: Global, hash: u64, tuple: Tuple) -> Result<(), RunError>
        requires { hash ≡ key_hash self.old.spec.keys (tuple_values tuple) }
        ensures ok { OnOk result (self.new ≡ record self.old {
          charge = self.old.charge + group_charge self.old.spec.items (columns self.old.spec.keys (tuple_values tuple.entry));
          groups = self.old.groups ++ (columns self.old.spec.keys (tuple_values tuple.entry), all_added (tuple_values tuple.entry) (tallies_of self.old.spec.items [])) ∷ [];
        }) }
        ensures fits { OnOk result (self.old.charge + group_charge self.old.spec.items (columns self.old.spec.keys (tuple_values tuple.entry)) ≤ self.old.room) }
        ensures spills { IfErr result (λ e. e ≡ NeedsSpill → self.old.room < self.old.charge + group_charge self.old.spec.items (columns self.old.spec.keys (tuple_values tuple.entry))) }
        ensures only { IfErr result IsOfMemory }
    {
        let key = key_of(alloc, self.spec.keys.as_slice(), tuple)?;
        let mut tallies = Tallies::new(alloc, self.spec.items.as_slice())?;
        tallies.add(alloc, tuple)?;
        self.put(alloc, hash, key, tallies)
    }

    /// Takes one row more. After an error the groups can only be let go.
    pub fn add(&mut self, alloc: Global, tuple: Tuple) -> Result<(), RunError>
        ensures ok { (spec : spec_of.GroupSpec) (rows : List (List cell.Value))
            → length rows < 2 ^ 63
            → self.old ≡ gathered spec self.old.room rows
            → OnOk result (self.new ≡ gathered spec self.old.room (rows ++ tuple_values tuple.entry ∷ [])) }
        ensures fits { (spec : spec_of.GroupSpec) (rows : List (List cell.Value))
            → self.old ≡ gathered spec self.old.room rows
            → OnOk result (groups_charge spec (rows ++ tuple_values tuple.entry ∷ []) ≤ self.old.room) }
        ensures spills { (spec : spec_of.GroupSpec) (rows : List (List cell.Value))
            → self.old ≡ gathered spec self.old.room rows
            → IfErr result (λ e. e ≡ NeedsSpill → self.old.room < groups_charge spec (rows ++ tuple_values tuple.entry ∷ [])) }
        ensures only { IfErr result IsOfMemory }
    {
        let keys = self.spec.keys.as_slice();
        let hash = key_hash(keys, tuple);
        match place_of(&self.groups, &self.places, keys, hash, tuple) {
            Some(place) => {
                add_at(alloc, &mut self.groups, place, tuple)?;
                Ok(())
            }
            None => self.put_new(alloc, hash, tuple),
        }
    }

    /// All rows that the groups give, in any order. They may measure as much as the room.
    pub fn finish(self, alloc: Global) -> Result<GroupsEnd, RunError>
        requires { length self.spec.items < 2 ^ 32 - 1 }
        ensures ok { (spec : spec_of.GroupSpec) (rows : List (List cell.Value))
            → length rows < 2 ^ 63
            → self ≡ gathered spec self.room rows
            → IfOk result (λ end. IsGrouped spec rows end) }
        ensures fits { (spec : spec_of.GroupSpec) (rows : List (List cell.Value))
            → length rows < 2 ^ 63
            → self ≡ gathered spec self.room rows
            → OnOk result (group_rows_fit self.room (first_bad spec rows) (grouped spec rows) ≡ true) }
        ensures spills { (spec : spec_of.GroupSpec) (rows : List (List cell.Value))
            → length rows < 2 ^ 63
            → self ≡ gathered spec self.room rows
            → IfErr result (λ e. e ≡ NeedsSpill → group_rows_fit self.room (first_bad spec rows) (grouped spec rows) ≡ false) }
        ensures only { IfErr result IsOfMemory }
    {
        let spec = self.spec;
        let groups = self.groups;
        end_of(alloc, &spec, groups, self.room)
    }

    /// The first rows in order that the groups give. All their rows may measure as much as the room.
    pub fn finish_in_order(self, alloc: Global, order: &OrderSpec) -> Result<GroupsEnd, RunError>
        requires { length self.spec.items < 2 ^ 32 - 1 }
        ensures ok { (spec : spec_of.GroupSpec) (rows : List (List cell.Value))
            → length rows < 2 ^ 63
            → self ≡ gathered spec self.room rows
            → IfOk result (λ end. IsGroupedInOrder spec order.now rows end) }
        ensures fits { (spec : spec_of.GroupSpec) (rows : List (List cell.Value))
            → length rows < 2 ^ 63
            → self ≡ gathered spec self.room rows
            → OnOk result (group_rows_fit self.room (first_bad spec rows) (grouped spec rows) ≡ true) }
        ensures spills { (spec : spec_of.GroupSpec) (rows : List (List cell.Value))
            → length rows < 2 ^ 63
            → self ≡ gathered spec self.room rows
            → IfErr result (λ e. e ≡ NeedsSpill → group_rows_fit self.room (first_bad spec rows) (grouped spec rows) ≡ false) }
        ensures only { IfErr result IsOfMemory }
    {
        let spec = self.spec;
        let groups = self.groups;
        ordered_end_of(alloc, &spec, order, groups, self.room)
    }
}
