//! The data of a SELECT. Columns are counted from 0 through the columns of all its tables in order.

ghost use Rattle.std.specs.Prelude.{◌≡◌, IfOk};

use crate::listed::Listed;
use crate::name::Name;
use crate::text::Text;
use crate::value::Value;
use std::alloc::{AllocError, Global};

/// How a comparison compares.
#[derive(Clone, Copy, Debug, PartialEq, Eq)]
pub enum Op {
    Equal,
    Unequal,
    Less,
    AtMost,
    Greater,
    AtLeast,
}

/// What a comparison compares: the value in a column, or a fixed one.
#[derive(Debug, Drop)]
pub enum Operand {
    Column(u32),
    Fixed(Value),
}

impl Operand {
    pub fn copy(&self, alloc: Global) -> Result<Operand, AllocError>
        ensures { IfOk result (λ operand. operand ≡ self.now) }
    {
        match self {
            Operand::Column(column) => Ok(Operand::Column(*column)),
            Operand::Fixed(value) => Ok(Operand::Fixed(value.copy(alloc)?)),
        }
    }
}

/// A comparison.
#[derive(Debug, Drop)]
pub struct Test {
    pub left: Operand,
    pub op: Op,
    pub right: Operand,
}

impl Test {
    pub fn copy(&self, alloc: Global) -> Result<Test, AllocError>
        ensures { IfOk result (λ test. test ≡ self.now) }
    {
        let left = self.left.copy(alloc)?;
        let right = self.right.copy(alloc)?;
        Ok(Test {
            left,
            op: self.op,
            right,
        })
    }
}

/// What an output column has: a column's value, or an aggregate over a group, as the count of its rows or of a column's
/// values that are not Null.
#[derive(Clone, Copy, Debug, PartialEq, Eq)]
pub enum Item {
    Column(u32),
    CountAll,
    Count(u32),
    Sum(u32),
    Min(u32),
    Max(u32),
}

/// An output column by which an answer is ordered.
#[derive(Clone, Copy, Debug, PartialEq, Eq)]
pub struct OrderKey {
    pub column: u32,
    pub falling: bool,
}

/// How an answer is ordered, and how many rows it has at most, where that is limited.
#[derive(Debug, Drop)]
pub struct OrderSpec {
    pub keys: Listed<OrderKey>,
    pub limit: Option<u32>,
}

/// The columns by which rows are grouped, and what each group gives. Without columns all rows are one group.
#[derive(Debug, Drop)]
pub struct GroupSpec {
    pub keys: Listed<u32>,
    pub items: Listed<Item>,
}

/// How rows are joined with a side, a further table: the key columns of both, which have to be equal, the comparisons on
/// the side alone, and the further ones on the joined row. `side` and `filters` count the side's own columns.
#[derive(Debug, Drop)]
pub struct Keys {
    pub left: Listed<u32>,
    pub side: Listed<u32>,
    pub filters: Listed<Test>,
    pub tests: Listed<Test>,
}

/// A SELECT: its tables, the comparisons of ON and WHERE, its output columns and their names, the columns of GROUP BY, and
/// the order. `groups` is `None` where there is neither GROUP BY nor an aggregate.
#[derive(Debug, Drop)]
pub struct Select {
    pub tables: Listed<Name>,
    pub tests: Listed<Test>,
    pub items: Listed<Item>,
    pub names: Listed<Text>,
    pub groups: Option<Listed<u32>>,
    pub order: OrderSpec,
}

/// What stands before a further table in a SELECT with a LEFT JOIN: whether it is a LEFT JOIN, and the comparisons of its
/// ON. There the tests of the SELECT are those of WHERE alone.
#[derive(Debug, Drop)]
pub struct OuterPart {
    pub left: bool,
    pub on: Listed<Test>,
}

/// How rows are joined with a side by a LEFT JOIN: as `Keys` say, and a row that finds none is filled with Nulls, of which
/// `width` is the number, the side's columns. The comparisons `after` are tried on what comes out.
#[derive(Debug, Drop)]
pub struct OuterKeys {
    pub left: Listed<u32>,
    pub side: Listed<u32>,
    pub filters: Listed<Test>,
    pub tests: Listed<Test>,
    pub after: Listed<Test>,
    pub width: u32,
}
