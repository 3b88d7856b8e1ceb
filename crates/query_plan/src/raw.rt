//! What the words of a SELECT say, its names not yet looked up.

ghost use Rattle.std.specs.Prelude.{◌≡◌, IfOk};

use rm_base::limits::{GROUP_COLUMNS_MOST, ITEMS_MOST, ORDER_KEYS_MOST, TESTS_MOST};
use rm_base::listed::Listed;
use rm_base::name::Name;
use rm_base::select::Op;
use rm_base::text::Text;
use std::alloc::{AllocError, Global};

/// A column as a text names it.
#[derive(Clone, Copy, Debug)]
pub struct Reference {
    /// What its table is called by, where that stands before it.
    pub qualifier: Option<Name>,
    pub column: Name,
}

/// What is taken of a column's values in a group.
#[derive(Clone, Copy, Debug)]
pub enum Function {
    Count,
    Sum,
    Min,
    Max,
}

/// What an item gives.
#[derive(Clone, Copy, Debug)]
pub enum RawValue {
    Column(Reference),
    /// `COUNT(*)`
    CountAll,
    Of(Function, Reference),
}

/// An item of the select list.
#[derive(Clone, Copy, Debug)]
pub struct RawItem {
    /// Where its first word starts.
    pub place: u64,
    pub value: RawValue,
    /// Its name behind AS.
    pub name: Option<Name>,
}

/// A table, and what it is called by: its second name, or its own.
#[derive(Clone, Copy, Debug)]
pub struct RawTable {
    pub name: Name,
    pub call: Name,
}

/// What is compared: a column, or what stands in the text.
#[derive(Debug, Drop)]
pub enum RawOperand {
    Column(Reference),
    Int(i64),
    Words(Text),
}

/// A comparison.
#[derive(Debug, Drop)]
pub struct RawTest {
    pub left: RawOperand,
    pub op: Op,
    /// Where the operator starts.
    pub place: u64,
    pub right: RawOperand,
}

/// A comparison of ON or WHERE, and how many tables stand before it.
#[derive(Debug, Drop)]
pub struct RawCondition {
    pub test: RawTest,
    pub tables: usize,
}

/// What an answer is ordered by: an output column's name, or its number from 1 on.
#[derive(Clone, Copy, Debug)]
pub enum KeyBy {
    Name(Name),
    Number(u64),
}

/// A key of ORDER BY.
#[derive(Clone, Copy, Debug)]
pub struct RawKey {
    pub by: KeyBy,
    pub falling: bool,
}

/// A part of a SELECT, as the text has one behind the other.
#[derive(Debug, Drop)]
pub enum RawPart {
    /// `*`, and where it stands.
    All(u64),
    Item(RawItem),
    Table(RawTable),
    Test(RawTest),
    /// A column of GROUP BY.
    Group(Reference),
    Key(RawKey),
    Limit(u32),
}

/// What is due in a SELECT.
#[derive(Clone, Copy, Debug)]
pub enum Slot {
    /// `*`, or the first item of the select list.
    List,
    Item,
    /// The first table.
    Table,
    /// A table behind JOIN.
    Joined,
    /// A comparison of ON.
    On,
    /// A comparison of WHERE.
    Test,
    Group,
    Key,
    Limit,
}

/// A SELECT as its text has it.
#[derive(Debug, Drop)]
pub struct RawSelect {
    /// Where `*` stands, if it stands in place of items.
    pub all: Option<u64>,
    pub items: Listed<RawItem>,
    pub tables: Listed<RawTable>,
    /// The comparisons of ON and WHERE.
    pub tests: Listed<RawCondition>,
    pub groups: Listed<Reference>,
    pub keys: Listed<RawKey>,
    pub limit: Option<u32>,
}

impl RawSelect {
    ghost use Rattle.query_plan.specs.Raw.{added, empty, has_room};

    /// Nothing is read yet.
    pub fn empty(alloc: Global) -> RawSelect
        ensures { result ≡ empty }
    {
        RawSelect {
            all: None,
            items: Listed::new(alloc),
            tables: Listed::new(alloc),
            tests: Listed::new(alloc),
            groups: Listed::new(alloc),
            keys: Listed::new(alloc),
            limit: None,
        }
    }

    /// One part more.
    pub fn with(self, part: RawPart) -> Result<RawSelect, AllocError>
        ensures { IfOk result (λ raw. raw ≡ added self part) }
    {
        let mut raw = self;
        match part {
            RawPart::All(place) => raw.all = Some(place),
            RawPart::Item(item) => raw.items.push(item)?,
            RawPart::Table(table) => raw.tables.push(table)?,
            RawPart::Test(test) => {
                let tables = raw.tables.as_slice().len();
                raw.tests.push(RawCondition { test, tables })?;
            }
            RawPart::Group(column) => raw.groups.push(column)?,
            RawPart::Key(key) => raw.keys.push(key)?,
            RawPart::Limit(rows) => raw.limit = Some(rows),
        }
        Ok(raw)
    }

    /// Whether there may be one more of what is due.
    pub fn has_room(&self, slot: Slot) -> bool
        ensures { result ≡ has_room self.now slot }
    {
        match slot {
            Slot::Item => self.items.as_slice().len() < ITEMS_MOST,
            Slot::On | Slot::Test => self.tests.as_slice().len() < TESTS_MOST,
            Slot::Group => self.groups.as_slice().len() < GROUP_COLUMNS_MOST,
            Slot::Key => self.keys.as_slice().len() < ORDER_KEYS_MOST,
            Slot::List | Slot::Table | Slot::Joined | Slot::Limit => true,
        }
    }
}
