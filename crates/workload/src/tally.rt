//! What the queries of a workload have come to.

ghost use Rattle.std.specs.Prelude.{◌≡◌, ◌+◌, ◌^◌, ◌<◌, ◌≤◌, ◌+ℤ◌, length};
ghost use Rattle.rm_rules.specs.Grouping.{int_sum};
ghost use Rattle.workload.specs.Summary.{first_column};

use grouping::totals::Sums;
use rm_base::row::Row;
use std::marker::Model;

/// How many rows an answer has at most.
pub const ANSWER_ROWS_MOST: usize = 1_048_576;

/// The completed queries, their rows, the sum of the first column of these, and all grants.
#[derive(Drop)]
pub struct Tally {
    queries: u32,
    rows: u64,
    total: Sums,
    granted: u128,
}

impl Model for Tally {
    ghost use Rattle.std.specs.Prelude.{◌*◌, ◌≤◌};
    ghost use Rattle.workload.specs.Summary.{Tallied};
    ghost use Rattle.workload.specs.declared.tally.TheConstants.{ANSWER_ROWS_MOST};

    ghost Value = { Tallied };

    ghost view = { λ t. record { queries = t.queries; rows = t.rows; total = t.total.sum; granted = t.granted } };

    ghost invariant = { λ t. (t.total.count ≤ t.rows) × (t.rows ≤ ANSWER_ROWS_MOST * t.queries) };
}

impl Tally {
    ghost use Rattle.std.specs.Prelude.{◌≡◌, ◌+◌, ◌^◌, ◌<◌, ◌≤◌, pos, length};
    ghost use Rattle.rm_base.specs.declared.limits.TheConstants.{WORKLOAD_QUERIES_MOST};
    ghost use Rattle.workload.specs.Tallying.{granted, completed};
    ghost use Rattle.workload.specs.declared.tally.TheConstants.{ANSWER_ROWS_MOST};

    /// No query yet.
    pub fn new() -> Tally
        ensures { result ≡ record { queries = 0; rows = 0; total = pos 0; granted = 0 } }
    {
        Tally {
            queries: 0,
            rows: 0,
            total: Sums::new(),
            granted: 0,
        }
    }

    /// Counts a grant.
    pub fn grant(&mut self, grant: u64)
        requires { self.old.granted + grant < 2 ^ 128 }
        ensures { self.new ≡ granted self.old grant }
    {
        self.granted += u128::from(grant);
    }

    /// Counts a completed query and its answer.
    pub fn complete(&mut self, answer: &[Row])
        requires few { self.old.queries < WORKLOAD_QUERIES_MOST }
        requires small { length answer.now ≤ ANSWER_ROWS_MOST }
        ensures { self.new ≡ completed self.old answer.now }
    {
        add_first_column(&mut self.total, answer);
        self.queries += 1;
        self.rows += answer.len() as u64;
    }

    /// How many queries are completed.
    pub fn queries(&self) -> u32
        ensures { result ≡ self.now.queries }
    {
        self.queries
    }

    /// How many rows their answers have.
    pub fn rows(&self) -> u64
        ensures { result ≡ self.now.rows }
    {
        self.rows
    }

    /// The sum of the first column of these rows, in which Null counts 0.
    pub fn total(&self) -> i128
        ensures { result ≡ self.now.total }
    {
        self.total.sum()
    }

    /// The sum of all grants, in bytes.
    pub fn granted(&self) -> u128
        ensures { result ≡ self.now.granted }
    {
        self.granted
    }
}

/// Adds the first column of rows.
fn add_first_column(total: &mut Sums, rows: &[Row])
    requires { total.old.count + length rows.now < 2 ^ 63 }
    ensures sum { total.new.sum ≡ total.old.sum +ℤ int_sum (first_column rows.now) }
    ensures count { total.new.count ≤ total.old.count + length rows.now }
{
    for row in rows {
        total.add(row.as_slice().first());
    }
}
