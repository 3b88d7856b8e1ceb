//! Runtime caps and cascades: how long a query has run, what a check of it comes to, and the pool in which it is to go
//! on. Times are in milliseconds. It takes no memory.
#![tactic(auto)]

ghost use Rattle.std.specs.Prelude.{◌≡◌, ◌<◌, ◌≤◌, ◌*◌, IsTrue, IfSome};
ghost use Rattle.rm_base.specs.declared.limits.TheConstants.{MOMENT_MOST, MOVES_MOST};
ghost use Rattle.rm_base.specs.declared.name.Name.{Name};
ghost use Rattle.rm_rules.specs.declared.verdict.Verdict.TheVariants.{GoesTo};
ghost use Rattle.rm_rules.specs.Sound.{IsSound, has_pool};
ghost use Rattle.rm_rules.specs.Target.{running_time, target, verdict};

mod caps;
mod chains;

use crate::caps::{ended_by, pool_verdict, user_runtime_cap};
use crate::chains::first_with_time;
use rm_base::definitions::Definitions;
use rm_base::limits::MOVES_MOST;
use rm_base::moment::Moment;
use rm_base::name::Name;
use rm_base::reply::{CapOwner, Reply};
use rm_rules::state::Runner;
use rm_rules::verdict::Verdict;

/// How long the query has run by this moment. What it waited is not counted.
pub fn running_time(query: &Runner, moment: Moment) -> u64
    requires started { query.now.start ≤ moment }
    requires ran { query.now.ran ≤ MOMENT_MOST }
    ensures value { result ≡ running_time query.now moment }
    ensures most { result ≤ 2 * MOMENT_MOST }
{
    query.ran + (moment.ms() - query.start.ms())
}

/// The pool in which a query goes on that has run this long and exceeded this pool's cap. There is none where no pool
/// along CASCADE TO leaves it time, or where it was moved as often as it may be.
pub fn target(definitions: &Definitions, pool: Name, running: u64, moves: u32) -> Option<Name>
    requires { IsSound definitions.now }
    ensures value { result ≡ target definitions.now pool running moves }
    ensures there { IfSome result (λ to. IsTrue (has_pool definitions.now to)) }
{
    if moves >= MOVES_MOST {
        return None;
    }
    first_with_time(definitions, pool, running)
}

/// What a check comes to for a query that has run this long in a session with this cap of its own. Where it is to go on
/// elsewhere, that pool is there, and the query was not yet moved as often as it may be.
pub fn verdict(
    definitions: &Definitions,
    query: &Runner,
    session_cap: Option<u64>,
    running: u64,
) -> Verdict
    requires { IsSound definitions.now }
    ensures value { result ≡ verdict definitions.now query.now session_cap running }
    ensures there { (to : Name) → result ≡ GoesTo to → IsTrue (has_pool definitions.now to) }
    ensures moves { (to : Name) → result ≡ GoesTo to → query.now.moves < MOVES_MOST }
{
    if query.cancelled {
        return Verdict::Says(Reply::Stopping);
    }
    if let Some(pool) = query.leaving {
        return Verdict::Says(Reply::GiveWay(pool));
    }
    let user_cap = user_runtime_cap(definitions, query.user);
    if let Some(ended) = ended_by(CapOwner::User, user_cap, running) {
        return ended;
    }
    if let Some(ended) = ended_by(CapOwner::Session, session_cap, running) {
        return ended;
    }
    pool_verdict(definitions, query, running)
}
