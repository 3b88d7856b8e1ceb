//! The waiting queries of a pool that is gone.
ghost use Rattle.std.specs.Prelude.{◌≡◌, ◌≤◌, ◌<◌, ◌+◌, ◌+ℤ◌, pos, true, false, length, vec_len, vec_capacity};
ghost use Rattle.rm_base.specs.declared.limits.TheConstants.{SESSIONS_MOST};
ghost use Rattle.rm_rules.specs.DropPool.{as_generals, transferred};
ghost use Rattle.pool_queue.specs.Lines.{merged, queries, IsOrdered, AreFilled, AreWithin, AreEmpty, HasRoom};
ghost use Rattle.pool_queue.specs.Transfer.{as_generals_from};

use crate::lines::{Arrivals, Arrived, Line, line_of, place};
use crate::numbers::Numbers;
use rm_base::bounded::Bounded;
use rm_base::limits::SESSIONS_MOST;
use rm_base::name::Name;
use rm_rules::state::Waiter;

/// The arrival as one of GENERAL's, with the number in this place of those that are given.
fn as_generals(a: &Arrived, given: &Numbers, index: usize) -> Arrived
    requires within { index < SESSIONS_MOST }
    requires room { HasRoom 0 0 given.now.least given.now.next }
    ensures { result ≡ record { number = given.now.least +ℤ pos index; waiter = as_generals a.now.waiter } }
{
    let waiter = a.waiter;
    Arrived {
        number: given.least + index as i64,
        waiter: Waiter {
            pool: Name::general(),
            ..waiter
        },
    }
}

/// The arrivals become GENERAL's, with the numbers that are given, in their order.
fn make_generals(block: &mut Arrivals, given: &Numbers)
    requires { HasRoom 0 0 given.now.least given.now.next }
    ensures { block.new ≡ as_generals_from given.now.least block.old }
{
    for i in 0..block.len() {
        let a = as_generals(&block.rows()[i], given, i);
        block.set(i, a);
    }
}

/// The pool's queries become GENERAL's: before all others where they are to be in front, else behind them.
pub fn transfer_line(
    lines: &mut Vec<Line>,
    spare: &mut Bounded<Arrivals, SESSIONS_MOST>,
    numbers: &Numbers,
    from: Name,
    front: bool,
) -> Numbers
    requires ordered { IsOrdered lines.old.items }
    requires filled { AreFilled lines.old.items }
    requires within { AreWithin numbers.now.least numbers.now.next (merged lines.old.items) }
    requires room { HasRoom (length (merged lines.old.items)) (length (merged lines.old.items)) numbers.now.least numbers.now.next }
    requires few { length (merged lines.old.items) ≤ SESSIONS_MOST }
    requires lists { vec_len lines.old + length spare.old ≡ SESSIONS_MOST }
    requires capacity { SESSIONS_MOST ≤ vec_capacity lines.old }
    requires spare { AreEmpty spare.old }
    ensures items { queries (merged lines.new.items) ≡ transferred (queries (merged lines.old.items)) from front }
    ensures ordered { IsOrdered lines.new.items }
    ensures filled { AreFilled lines.new.items }
    ensures within { AreWithin result.least result.next (merged lines.new.items) }
    ensures room { HasRoom 0 0 result.least result.next }
    ensures count { length (merged lines.new.items) ≡ length (merged lines.old.items) }
    ensures lists { vec_len lines.new + length spare.new ≡ SESSIONS_MOST }
    ensures capacity { vec_capacity lines.new ≡ vec_capacity lines.old }
    ensures spare { AreEmpty spare.new }
{
    let Some(index) = line_of(lines, from) else {
        return *numbers;
    };
    let line = lines.remove(index);
    let mut block = line.waiters;
    let given = numbers.given(block.len() as u32, front);
    make_generals(&mut block, &given);
    place(lines, spare, Name::general(), block, front);
    numbers.with(&given, front)
}
