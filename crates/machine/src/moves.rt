//! Running queries that go on elsewhere, give way or stop, and their moves.
ghost use Rattle.std.specs.Prelude.{◌≡◌, ◌<◌, ◌≤◌};
ghost use Rattle.rm_base.specs.declared.limits.TheConstants.{MOVES_MOST};
ghost use Rattle.rm_rules.specs.Moving.{moved, leaving_for, requeued, stopping, move_of, with_move};

use cascade::running_time;
use rm_base::bounded::Bounded;
use rm_base::entry::MoveSeen;
use rm_base::limits::MOVES_KEPT;
use rm_base::moment::Moment;
use rm_base::name::Name;
use rm_rules::state::{Runner, Waiter};

/// The last moves, in the order in which they were made.
pub type Moves = Bounded<MoveSeen, MOVES_KEPT>;

/// One move more. The first is forgotten where there is no room for both.
pub fn add_move(moves: &mut Moves, seen: MoveSeen)
    ensures { moves.new ≡ with_move moves.old seen }
{
    if moves.is_full() {
        moves.remove(0);
    }
    moves.add(seen);
}

/// The query as it goes on in the pool from this moment on.
pub fn moved(moment: Moment, pool: Name, r: &Runner) -> Runner
    requires ran { r.now.ran ≤ r.now.start }
    requires started { r.now.start ≤ moment }
    requires moves { r.now.moves < MOVES_MOST }
    ensures { result ≡ moved moment pool r.now }
{
    Runner {
        pool,
        start: moment,
        ran: running_time(r, moment),
        moves: r.moves + 1,
        ..*r
    }
}

/// The query, which is to give way to wait in the pool.
pub fn leaving_for(pool: Name, r: &Runner) -> Runner
    requires { r.now.moves < MOVES_MOST }
    ensures { result ≡ leaving_for pool r.now }
{
    Runner {
        leaving: Some(pool),
        moves: r.moves + 1,
        ..*r
    }
}

/// The query as it waits in the pool from this moment on.
pub fn requeued(moment: Moment, pool: Name, r: &Runner) -> Waiter
    requires ran { r.now.ran ≤ r.now.start }
    requires started { r.now.start ≤ moment }
    ensures { result ≡ requeued moment pool r.now }
{
    Waiter {
        query: r.query,
        session: r.session,
        user: r.user,
        pool,
        floor: r.floor,
        queued: moment,
        ran: running_time(r, moment),
        moves: r.moves,
    }
}

/// The query, which is to stop.
pub fn stopping(r: &Runner) -> Runner
    ensures { result ≡ stopping r.now }
{
    Runner {
        cancelled: true,
        ..*r
    }
}

/// The query's move to the pool at this moment.
pub fn move_of(moment: Moment, pool: Name, r: &Runner) -> MoveSeen
    requires ran { r.now.ran ≤ r.now.start }
    requires started { r.now.start ≤ moment }
    ensures { result ≡ move_of moment pool r.now }
{
    MoveSeen {
        at: moment,
        session: r.session,
        query: r.query,
        source: r.pool,
        target: pool,
        ran: running_time(r, moment),
    }
}
