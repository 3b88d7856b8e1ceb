//! How long the pool of a waiting query lets it wait.
ghost use Rattle.std.specs.Prelude.{◌≡◌, ◌+◌, nat_le, unwrap_or};
ghost use Rattle.rm_rules.specs.Deadlines.{timeout_of, deadline_of, is_due, is_nowait};
ghost use Rattle.rm_rules.specs.Sound.{IsSound};

use rm_base::definitions::Definitions;
use rm_base::moment::Moment;
use rm_rules::readings::pool_row;
use rm_rules::state::Waiter;

/// The QUEUETIMEOUT of the pool in which the query waits, in milliseconds.
fn timeout_of(definitions: &Definitions, w: &Waiter) -> Option<u64>
    ensures { result ≡ timeout_of definitions.now w.now }
{
    pool_row(definitions, w.pool).queue_ms
}

/// When the query was queued, and its pool's QUEUETIMEOUT behind that, in milliseconds. Where the pool has none, it is when
/// the query was queued.
pub fn deadline(definitions: &Definitions, w: &Waiter) -> u64
    requires { IsSound definitions.now }
    ensures { result ≡ unwrap_or (deadline_of definitions.now w.now) w.now.queued }
{
    let queued = w.queued.ms();
    match pool_row(definitions, w.pool).queue_ms {
        Some(timeout) => queued + timeout,
        None => queued,
    }
}

/// So long or longer is it from one moment to another.
fn has_waited(queued: Moment, at: Moment, timeout: u64) -> bool
    ensures { result ≡ nat_le (queued + timeout) at }
{
    queued.ms() <= at.ms() && timeout <= at.ms() - queued.ms()
}

/// The query's deadline is at this moment or before it.
pub fn is_due(definitions: &Definitions, w: &Waiter, at: Moment) -> bool
    ensures { result ≡ is_due definitions.now at w.now }
{
    match timeout_of(definitions, w) {
        Some(timeout) => has_waited(w.queued, at, timeout),
        None => false,
    }
}

/// No query of its pool may wait.
pub fn is_nowait(definitions: &Definitions, w: &Waiter) -> bool
    ensures { result ≡ is_nowait definitions.now w.now }
{
    match timeout_of(definitions, w) {
        Some(timeout) => timeout == 0,
        None => false,
    }
}
