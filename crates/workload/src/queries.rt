//! The four queries of a workload, read once.

ghost use Rattle.std.specs.Prelude.{◌≡◌, ℕ, Ok, IfOk};
ghost use Rattle.query_plan.specs.Reading.{read_of};
ghost use Rattle.workload.specs.Queries.{catalog, text_at, select_at, counting, joining, grouping, summing};

use query_plan::plan::Plan;
use query_plan::reading::{ReadError, read_select};
use rm_base::catalog::Catalog;
use std::alloc::{AllocError, Global};

/// The text of each query is the SELECT that it is taken for.
pub fn texts_are_read()
    ensures { (i : ℕ) → read_of catalog (text_at i) ≡ Ok (select_at i) }
{}

/// The text of the query of this number.
fn text_at(query: u32) -> &'static str
    ensures { result.now ≡ text_at query }
{
    match query % 4 {
        0 => "SELECT COUNT(*) FROM a",
        1 => "SELECT COUNT(*) FROM a JOIN b ON a.k = b.k",
        2 => "SELECT k, COUNT(*) FROM a GROUP BY k",
        _ => "SELECT SUM(v) FROM a",
    }
}

/// Reads the text of the query of this number.
fn read_plan(alloc: Global, tables: &Catalog, query: u32) -> Result<Plan, AllocError>
    requires { tables.now ≡ catalog }
    ensures { IfOk result (λ plan. plan ≡ select_at query) }
{
    match read_select(alloc, text_at(query), tables) {
        Ok(plan) => Ok(plan),
        Err(ReadError::Memory) => Err(AllocError),
        Err(ReadError::Refused(_)) => unreachable!(),
    }
}

/// The plans of the four texts.
#[derive(Drop)]
pub struct Queries {
    counted: Plan,
    joined: Plan,
    grouped: Plan,
    summed: Plan,
    ghost counts: { counted ≡ counting },
    ghost joins: { joined ≡ joining },
    ghost groups: { grouped ≡ grouping },
    ghost sums: { summed ≡ summing },
}

impl Queries {
    /// Reads the four texts.
    pub fn read(alloc: Global, tables: &Catalog) -> Result<Queries, AllocError>
        requires { tables.now ≡ catalog }
    {
        Ok(Queries {
            counted: read_plan(alloc, tables, 0)?,
            joined: read_plan(alloc, tables, 1)?,
            grouped: read_plan(alloc, tables, 2)?,
            summed: read_plan(alloc, tables, 3)?,
        })
    }

    /// The plan of the query of this number.
    pub fn plan(&self, query: u32) -> &Plan
        ensures { result.now ≡ select_at query }
    {
        match query % 4 {
            0 => &self.counted,
            1 => &self.joined,
            2 => &self.grouped,
            _ => &self.summed,
        }
    }
}
