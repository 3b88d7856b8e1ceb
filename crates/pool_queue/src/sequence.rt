//! The waiting queries of all pools in the order in which they joined.
ghost use Rattle.std.specs.Prelude.{◌≡◌, ◌≤◌, ◌==◌, find, length, IfOk};
ghost use Rattle.std.specs.Int.Signed.{lt_z};
ghost use Rattle.rm_base.specs.declared.limits.TheConstants.{SESSIONS_MOST};
ghost use Rattle.pool_queue.specs.Lines.{merge, merged, queries, first_of_lines, count_below, IsRising, IsOrdered};

use crate::lines::{Arrived, Line, count_below, earlier};
use rm_rules::state::Waiter;
use std::alloc::{AllocError, Global};

/// The arrival of the list behind so many of all.
fn behind_in(waiters: &[Arrived], lines: &[Line], count: usize) -> Option<Arrived>
    requires { length (merged lines.now) ≤ SESSIONS_MOST }
    ensures { result ≡ find (λ a. count_below a.number lines.now == count) waiters.now }
{
    for a in waiters {
        if count_below(lines, a) == count {
            return Some(*a);
        }
    }
    None
}

/// The arrival behind so many of all.
pub fn behind(lines: &[Line], count: usize) -> Option<Arrived>
    requires { length (merged lines.now) ≤ SESSIONS_MOST }
    ensures { result ≡ first_of_lines (λ a. count_below a.number lines.now == count) lines.now }
{
    let mut first = None;
    for line in lines {
        first = earlier(first, behind_in(line.waiters.rows(), lines, count));
    }
    first
}

/// The first has the lower number.
fn is_below(a: &Arrived, b: &Arrived) -> bool
    ensures { result ≡ lt_z a.now.number b.now.number }
{
    a.number < b.number
}

/// Two lists of arrivals, merged by their numbers.
fn merge(alloc: Global, first: &[Arrived], second: &[Arrived]) -> Result<Vec<Arrived>, AllocError>
    requires first { IsRising first.now }
    requires second { IsRising second.now }
    ensures { IfOk result (λ both. both.items ≡ merge first.now second.now) }
{
    let mut both = Vec::new(alloc);
    let mut i = 0;
    let mut j = 0;
    while i < first.len() && j < second.len() {
        let below = is_below(&first[i], &second[j]);
        if below {
            both.push(first[i])?;
            i += 1;
        } else {
            both.push(second[j])?;
            j += 1;
        }
    }
    both.extend_from_slice(&first[i..])?;
    both.extend_from_slice(&second[j..])?;
    Ok(both)
}

/// The lists of all pools, merged by the numbers of arrival.
fn merged(alloc: Global, lines: &[Line]) -> Result<Vec<Arrived>, AllocError>
    requires { IsOrdered lines.now }
    ensures { IfOk result (λ whole. whole.items ≡ merged lines.now) }
{
    let mut whole = Vec::new(alloc);
    let mut i = lines.len();
    while i > 0 {
        i -= 1;
        whole = merge(alloc, lines[i].waiters.rows(), &whole)?;
    }
    Ok(whole)
}

/// The waiting queries, in the order in which they joined.
pub fn queries(alloc: Global, lines: &[Line]) -> Result<Vec<Waiter>, AllocError>
    requires { IsOrdered lines.now }
    ensures { IfOk result (λ waiting. waiting.items ≡ queries (merged lines.now)) }
{
    let mut waiting = Vec::new(alloc);
    for a in &merged(alloc, lines)? {
        waiting.push(a.waiter)?;
    }
    Ok(waiting)
}
