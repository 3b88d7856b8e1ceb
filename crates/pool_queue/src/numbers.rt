//! The numbers of arrival.
ghost use Rattle.std.specs.Prelude.{◌≡◌, ◌≤◌, ◌+◌, [], ◌++◌, map, length, vec_len, vec_capacity, ◌+ℤ◌, pos, if◌then◌else◌};
ghost use Rattle.rm_base.specs.declared.limits.TheConstants.{SESSIONS_MOST};
ghost use Rattle.pool_queue.specs.Lines.{merged, IsOrdered, AreWithin, HasRoom, IsSameQueue};
ghost use Rattle.pool_queue.specs.Numbers.{given, with_given, numbers_of, ranked, ranked_line};

use crate::lines::{Arrived, Line};
use rm_base::bounded::Bounded;
use rm_base::limits::SESSIONS_MOST;
use rm_rules::state::Waiter;

/// No number of arrival passes this on either side of 0.
const NUMBER_MOST: i64 = 1 << 62;

/// The numbers that are given: from the least, up to the next.
#[derive(Clone, Copy, Debug)]
pub struct Numbers {
    pub least: i64,
    pub next: i64,
}

impl Numbers {
    /// The query, as it arrives behind all others.
    pub fn arrived(&self, waiter: Waiter) -> Arrived
        ensures { result ≡ record { number = self.now.next; waiter = waiter } }
    {
        Arrived {
            number: self.next,
            waiter,
        }
    }

    /// The numbers of so many that arrive in front of all others, or behind them.
    pub fn given(&self, count: u32, front: bool) -> Numbers
        requires { HasRoom (if front then count else 0) (if front then 0 else count) self.now.least self.now.next }
        ensures { result ≡ given front count self.now }
    {
        if front {
            Numbers {
                least: self.least - i64::from(count),
                next: self.least,
            }
        } else {
            Numbers {
                least: self.next,
                next: self.next + i64::from(count),
            }
        }
    }

    /// These and those that were given in front of them, or behind them.
    pub fn with(&self, given: &Numbers, front: bool) -> Numbers
        ensures { result ≡ with_given front given.now self.now }
    {
        if front {
            Numbers {
                least: given.least,
                next: self.next,
            }
        } else {
            Numbers {
                least: self.least,
                next: given.next,
            }
        }
    }
}

/// Puts the numbers of the list behind others.
fn add_numbers(given: &mut Bounded<i64, SESSIONS_MOST>, waiters: &[Arrived])
    requires { length given.old + length waiters.now ≤ SESSIONS_MOST }
    ensures { given.new ≡ given.old ++ map (λ a. a.number) waiters.now }
{
    for a in waiters {
        given.add(a.number);
    }
}

/// Writes down the numbers in the lists.
fn list_numbers(given: &mut Bounded<i64, SESSIONS_MOST>, lines: &[Line])
    requires { length (merged lines.now) ≤ SESSIONS_MOST }
    ensures { given.new ≡ numbers_of lines.now }
{
    given.retain(|_| false);
    for line in lines {
        add_numbers(given, line.waiters.rows());
    }
}

/// The arrival, numbered by how many have lower numbers.
fn ranked(given: &[i64], a: &Arrived) -> Arrived
    requires { length given.now ≤ SESSIONS_MOST }
    ensures { result ≡ ranked given.now a.now }
{
    let lower = given.iter().filter(|n| **n < a.number).count();
    Arrived {
        number: lower as i64,
        waiter: a.waiter,
    }
}

/// Numbers the list of a pool so.
fn rank_line(given: &[i64], line: &mut Line)
    requires { length given.now ≤ SESSIONS_MOST }
    ensures { line.new ≡ ranked_line given.now line.old }
{
    for i in 0..line.waiters.len() {
        let a = ranked(given, &line.waiters.rows()[i]);
        line.waiters.set(i, a);
    }
}

/// Numbers the lists so.
fn rank_lines(given: &[i64], lines: &mut Vec<Line>)
    requires { length given.now ≤ SESSIONS_MOST }
    ensures lines { lines.new.items ≡ map (ranked_line given.now) lines.old.items }
    ensures capacity { vec_capacity lines.new ≡ vec_capacity lines.old }
{
    for i in 0..lines.len() {
        let line = &mut lines[i];
        rank_line(given, line);
    }
}

/// Numbers the arrivals anew from 0.
fn number_anew(lines: &mut Vec<Line>, given: &mut Bounded<i64, SESSIONS_MOST>) -> Numbers
    requires few { length (merged lines.old.items) ≤ SESSIONS_MOST }
    requires ordered { IsOrdered lines.old.items }
    ensures same { IsSameQueue lines.old.items lines.new.items }
    ensures ordered { IsOrdered lines.new.items }
    ensures within { AreWithin result.least result.next (merged lines.new.items) }
    ensures numbers { result ≡ record { least = pos 0; next = pos (length (merged lines.old.items)) } }
    ensures capacity { vec_capacity lines.new ≡ vec_capacity lines.old }
{
    list_numbers(given, lines);
    rank_lines(given.rows(), lines);
    Numbers {
        least: 0,
        next: given.len() as i64,
    }
}

/// Numbers the arrivals anew from 0, if there is no room for so many below them or above them.
pub fn make_room(
    lines: &mut Vec<Line>,
    numbers: Numbers,
    given: &mut Bounded<i64, SESSIONS_MOST>,
    below: u32,
    above: u32,
) -> Numbers
    requires below { below ≤ SESSIONS_MOST }
    requires above { above ≤ SESSIONS_MOST }
    requires few { length (merged lines.old.items) ≤ SESSIONS_MOST }
    requires ordered { IsOrdered lines.old.items }
    requires within { AreWithin numbers.least numbers.next (merged lines.old.items) }
    requires limits { HasRoom 0 0 numbers.least numbers.next }
    ensures same { IsSameQueue lines.old.items lines.new.items }
    ensures ordered { IsOrdered lines.new.items }
    ensures within { AreWithin result.least result.next (merged lines.new.items) }
    ensures room { HasRoom below above result.least result.next }
    ensures capacity { vec_capacity lines.new ≡ vec_capacity lines.old }
{
    let fits = numbers.least - i64::from(below) >= -NUMBER_MOST;
    if fits && numbers.next + i64::from(above) <= NUMBER_MOST {
        return numbers;
    }
    number_anew(lines, given)
}
