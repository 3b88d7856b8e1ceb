//! What decides a move of a running query, and the queries of a pool that is gone.
ghost use Rattle.std.specs.Prelude.{◌≡◌, map};
ghost use Rattle.rm_rules.specs.DropPool.{holding_beside};

use rm_base::bounded::Bounded;
use rm_base::limits::SESSIONS_MOST;
use rm_base::name::Name;
use rm_rules::state::Holding;

/// What decides whether a pool takes a running query, with the query taken out of those that run: what its grant needs of
/// GENERAL's bytes there, how many of these are free, what the pool's queries hold, what GENERAL has lent, all in bytes, and
/// how many queries run in the pool.
#[derive(Clone, Copy, Debug, PartialEq, Eq)]
pub struct IfMoved {
    pub need: u64,
    pub free: u64,
    pub used: u64,
    pub lent: u64,
    pub running: u32,
}

/// What a query holds, as one of GENERAL's where it runs in the pool.
fn beside(g: Holding, pool: Name) -> Holding
    ensures { result ≡ holding_beside pool g }
{
    if g.pool.same(pool) {
        Holding {
            pool: Name::general(),
            ..g
        }
    } else {
        g
    }
}

/// The pool's queries become GENERAL's, in their places and with their grants.
pub fn hand_over(grants: &mut Bounded<Holding, SESSIONS_MOST>, pool: Name)
    ensures { grants.new ≡ map (holding_beside pool) grants.old }
{
    for i in 0..grants.len() {
        let g = beside(grants.rows()[i], pool);
        grants.set(i, g);
    }
}
