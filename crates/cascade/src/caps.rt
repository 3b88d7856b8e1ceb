//! What each runtime cap comes to.
ghost use Rattle.std.specs.Prelude.{◌≡◌, ◌∷◌, [], not, option_map};
ghost use Rattle.rm_base.specs.declared.reply.CapOwner.TheVariants as owner;
ghost use Rattle.rm_base.specs.declared.reply.Reply.TheVariants.{Go};
ghost use Rattle.rm_rules.specs.declared.verdict.Verdict.TheVariants.{GoesTo};
ghost use Rattle.rm_rules.specs.Sound.{IsSound};
ghost use Rattle.rm_rules.specs.Target.{pool_runtime_cap, user_runtime_cap, is_exceeded, target};
ghost use Rattle.rm_rules.specs.Target.{says_if, ended_by, first_verdict};

use crate::target;
use rm_base::definitions::Definitions;
use rm_base::name::Name;
use rm_base::reply::{CapOwner, Reply};
use rm_rules::readings::{pool_row, user_called};
use rm_rules::state::Runner;
use rm_rules::verdict::Verdict;

/// The user's RUNTIMECAP.
pub fn user_runtime_cap(definitions: &Definitions, user: Name) -> Option<u64>
    ensures { result ≡ user_runtime_cap definitions.now user }
{
    user_called(definitions.users.rows(), user).and_then(|row| row.cap_ms)
}

/// The end of a query that has run this long, where that is above the cap.
pub fn ended_by(which: CapOwner, cap: Option<u64>, running: u64) -> Option<Verdict>
    ensures { result ≡ ended_by which cap running }
{
    match cap {
        Some(cap) if cap < running => Some(Verdict::Says(Reply::CapEnded {
            which,
            ran: running,
            cap,
        })),
        _ => None,
    }
}

/// What the cap of its pool comes to for the query.
pub fn pool_verdict(definitions: &Definitions, query: &Runner, running: u64) -> Verdict
    requires { IsSound definitions.now }
    ensures { let cap = pool_runtime_cap definitions.now query.now.pool in
        result ≡ first_verdict (
        says_if (not (is_exceeded cap running)) Go
        ∷ option_map GoesTo (target definitions.now query.now.pool running query.now.moves)
        ∷ ended_by owner.Pool cap running
        ∷ []) }
{
    let cap = pool_row(definitions, query.pool).cap_ms;
    match ended_by(CapOwner::Pool, cap, running) {
        None => Verdict::Says(Reply::Go),
        Some(ended) => match target(definitions, query.pool, running, query.moves) {
            Some(to) => Verdict::GoesTo(to),
            None => ended,
        },
    }
}
