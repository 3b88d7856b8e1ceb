//! Counts of the queries that ended in a pool's queue.
ghost use Rattle.std.specs.Prelude.{◌≡◌, ◌<◌, position, length, IfSome};
ghost use Rattle.rm_base.specs.Name.{same_name};
ghost use Rattle.rm_rules.specs.State.{none_ended, with_one_end, with_end};

use rm_base::bounded::Bounded;
use rm_base::entry::EndCounts;
use rm_base::limits::POOLS_MOST;
use rm_base::name::Name;
use rm_base::reply::End;
use rm_base::rows::PoolRow;

/// The counts of each pool, in the order of the pools.
pub type Counters = Bounded<EndCounts, POOLS_MOST>;

/// No query has ended.
pub fn none_ended() -> EndCounts
    ensures { result ≡ none_ended }
{
    EndCounts {
        timedout: 0,
        toolarge: 0,
        cancelled: 0,
    }
}

/// One more has ended so.
fn with_one_end(end: End, counts: EndCounts) -> EndCounts
    ensures { result ≡ with_one_end end counts }
{
    match end {
        End::TimedOut(_) => EndCounts {
            timedout: counts.timedout.saturating_add(1),
            ..counts
        },
        End::TooLarge(_, _, _) => EndCounts {
            toolarge: counts.toolarge.saturating_add(1),
            ..counts
        },
        End::Cancelled => EndCounts {
            cancelled: counts.cancelled.saturating_add(1),
            ..counts
        },
    }
}

pub fn place_of_pool(rows: &[PoolRow], pool: Name) -> Option<usize>
    ensures value { result ≡ position (λ r. same_name r.name pool) rows.now }
    ensures within { IfSome result (λ place. place < length rows.now) }
{
    rows.iter().position(|r| r.name.same(pool))
}

/// One more query of the pool has ended so.
pub fn count_end(rows: &[PoolRow], pool: Name, end: End, counters: &mut Counters)
    requires { length counters.old ≡ length rows.now }
    ensures { counters.new ≡ with_end rows.now pool end counters.old }
{
    if let Some(place) = place_of_pool(rows, pool) {
        let counts = counters.rows()[place];
        counters.set(place, with_one_end(end, counts));
    }
}
