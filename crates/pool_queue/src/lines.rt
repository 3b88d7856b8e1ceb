//! The lists of the pools in which queries wait.
ghost use Rattle.std.specs.Prelude.{◌≡◌, ◌≤◌, ◌<◌, ◌+◌, [], ◌∷◌, ◌++◌, filter, find, length, position, remove, replicate, slice_set, vec_len, vec_capacity, count_by, not, is_some, IfSome};
ghost use Rattle.std.specs.Int.Signed.{lt_z};
ghost use Rattle.rm_base.specs.declared.limits.TheConstants.{SESSIONS_MOST};
ghost use Rattle.pool_queue.specs.Lines.{is_line, with_block, joined, merged, AreEmpty, has_other_number, with_kept, earlier, first_of_lines, count_below, without_empty, AreFilled};

use crate::first::Test;
use rm_base::bounded::Bounded;
use rm_base::limits::SESSIONS_MOST;
use rm_base::name::Name;
use rm_rules::state::Waiter;
use std::mem;

/// A waiting query and the number of its arrival.
#[derive(Clone, Copy, Debug)]
pub struct Arrived {
    pub number: i64,
    pub waiter: Waiter,
}

/// As many arrivals as can wait.
pub type Arrivals = Bounded<Arrived, SESSIONS_MOST>;

/// The queries that wait in one pool, in the order in which they joined.
#[derive(Debug, Drop)]
pub struct Line {
    pub pool: Name,
    pub waiters: Arrivals,
}

/// Where the pool's list stands.
pub fn line_of(lines: &[Line], pool: Name) -> Option<usize>
    ensures value { result ≡ position (is_line pool) lines.now }
    ensures within { IfSome result (λ i. i < length lines.now) }
{
    lines.iter().position(|l| l.pool.same(pool))
}

/// Puts the second list behind the first, and gives it back empty.
fn append(first: &mut Arrivals, second: Arrivals) -> Arrivals
    requires { length first.old + length second ≤ SESSIONS_MOST }
    ensures first { first.new ≡ first.old ++ second }
    ensures second { result ≡ [] }
{
    let mut second = second;
    for i in 0..second.len() {
        first.add(second.rows()[i]);
    }
    second.retain(|_| false);
    second
}

/// Puts the block before or behind those of the list, and gives back a list that is empty now.
fn add_block(line: &mut Line, block: Arrivals, front: bool) -> Arrivals
    requires { length line.old.waiters + length block ≤ SESSIONS_MOST }
    ensures line { line.new ≡ with_block front block line.old }
    ensures empty { result ≡ [] }
{
    if front {
        let others = mem::replace(&mut line.waiters, block);
        append(&mut line.waiters, others)
    } else {
        append(&mut line.waiters, block)
    }
}

/// A list out of the spare ones.
pub fn take_spare(spare: &mut Bounded<Arrivals, SESSIONS_MOST>) -> Arrivals
    requires some { 1 ≤ length spare.old }
    requires empty { AreEmpty spare.old }
    ensures list { result ≡ [] }
    ensures count { length spare.new + 1 ≡ length spare.old }
    ensures spare { AreEmpty spare.new }
{
    let last = spare.len() - 1;
    spare.remove(last)
}

/// The block joins the pool's list, which is begun where there is none.
pub fn place(
    lines: &mut Vec<Line>,
    spare: &mut Bounded<Arrivals, SESSIONS_MOST>,
    pool: Name,
    block: Arrivals,
    front: bool,
)
    requires room { vec_len lines.old < vec_capacity lines.old }
    requires spare { length spare.old < SESSIONS_MOST }
    requires fits { length (merged lines.old.items) + length block ≤ SESSIONS_MOST }
    ensures lines { lines.new.items ≡ joined front pool block lines.old.items }
    ensures capacity { vec_capacity lines.new ≡ vec_capacity lines.old }
    ensures lists { vec_len lines.new + length spare.new ≡ vec_len lines.old + length spare.old + 1 }
    ensures spare { AreEmpty spare.old → AreEmpty spare.new }
{
    match line_of(lines, pool) {
        Some(index) => {
            let line = &mut lines[index];
            let empty = add_block(line, block, front);
            spare.add(empty);
        }
        None => lines.push_reserved(Line {
            pool,
            waiters: block,
        }),
    }
}

/// Another arrival than this.
fn has_other_number(a: &Arrived, than: &Arrived) -> bool
    ensures { result ≡ has_other_number than.now.number a.now }
{
    a.number < than.number || a.number > than.number
}

/// Takes this arrival out of the list.
pub fn take_out(line: &mut Line, gone: &Arrived)
    ensures { line.new ≡ with_kept (has_other_number gone.now.number) line.old }
{
    line.waiters.retain(|a| has_other_number(a, gone));
}

/// Gives the list in this place to the spare ones, if it is empty.
pub fn close_if_empty(
    lines: &mut Vec<Line>,
    spare: &mut Bounded<Arrivals, SESSIONS_MOST>,
    index: usize,
)
    requires within { index < vec_len lines.old }
    requires spare { length spare.old < SESSIONS_MOST }
    ensures lines { lines.new.items ≡ without_empty index lines.old.items }
    ensures capacity { vec_capacity lines.new ≡ vec_capacity lines.old }
    ensures lists { vec_len lines.new + length spare.new ≡ vec_len lines.old + length spare.old }
    ensures spare { AreEmpty spare.old → AreEmpty spare.new }
{
    if lines[index].waiters.len() == 0 {
        let line = lines.remove(index);
        spare.add(line.waiters);
    }
}

/// The first of the list that passes the test.
fn first_in<T: Test>(waiters: &[Arrived], test: &T) -> Option<Arrived>
    requires { T.ready test.now }
    ensures { result ≡ find (λ a. T.passes test.now a.waiter) waiters.now }
{
    for a in waiters {
        if test.passes(&a.waiter) {
            return Some(*a);
        }
    }
    None
}

/// Of two arrivals, that of the lower number.
pub fn earlier(first: Option<Arrived>, second: Option<Arrived>) -> Option<Arrived>
    ensures { result ≡ earlier first second }
{
    let Some(b) = second else {
        return first;
    };
    match first {
        Some(a) if a.number <= b.number => Some(a),
        _ => Some(b),
    }
}

/// The first that passes the test, in any of the lists.
pub fn first_such<T: Test>(lines: &[Line], test: &T) -> Option<Arrived>
    requires { T.ready test.now }
    ensures { result ≡ first_of_lines (λ a. T.passes test.now a.waiter) lines.now }
{
    let mut first = None;
    for line in lines {
        first = earlier(first, first_in(line.waiters.rows(), test));
    }
    first
}

/// How many of the list have lower numbers.
fn count_lower(waiters: &[Arrived], than: &Arrived) -> usize
    ensures { result ≡ count_by (λ a. lt_z a.number than.now.number) waiters.now }
{
    waiters.iter().filter(|a| a.number < than.number).count()
}

/// How many in the lists have lower numbers.
pub fn count_below(lines: &[Line], than: &Arrived) -> usize
    requires { length (merged lines.now) ≤ SESSIONS_MOST }
    ensures { result ≡ count_below than.now.number lines.now }
{
    let mut count = 0;
    for line in lines {
        count += count_lower(line.waiters.rows(), than);
    }
    count
}
