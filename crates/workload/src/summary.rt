//! The text that a workload prints.

ghost use Rattle.std.specs.Prelude.{◌≡◌, IfOk, string_bytes};
ghost use Rattle.workload.specs.Summary.{summary_lines, failed_line};

use crate::tally::Tally;
use std::alloc::{AllocError, Global};

/// The five lines of a workload whose queries came to this.
pub fn summary_lines(alloc: Global, tally: &Tally, free: u64) -> Result<String, AllocError>
    ensures { IfOk result (λ text. string_bytes text ≡ summary_lines tally.now free) }
{
    let queries = tally.queries();
    let rows = tally.rows();
    let total = tally.total();
    let granted = tally.granted();
    format!(in alloc;
        "queries {queries}\nrows {rows}\ntotal {total}\ngranted {granted}\nfree {free}\n"
    )
}

/// The line of a workload that ended at a query.
pub fn failed_line(alloc: Global, query: u32) -> Result<String, AllocError>
    ensures { IfOk result (λ text. string_bytes text ≡ failed_line query) }
{
    format!(in alloc; "failed {query}\n")
}
