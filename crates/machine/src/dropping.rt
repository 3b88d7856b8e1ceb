//! The counts beside a pool that is dropped.
ghost use Rattle.std.specs.Prelude.{◌≡◌, length};
ghost use Rattle.rm_rules.specs.DropPool.{without_place, goes_before};

use crate::counters::{Counters, place_of_pool};
use rm_base::definitions::Definitions;
use rm_base::name::Name;
use rm_base::rows::PoolRow;
use rm_rules::readings::pool_row;

/// The counts without those of the pool.
pub fn remove_count(rows: &[PoolRow], pool: Name, counters: &mut Counters)
    requires { length counters.old ≡ length rows.now }
    ensures { counters.new ≡ without_place rows.now pool counters.old }
{
    if let Some(place) = place_of_pool(rows, pool) {
        counters.remove(place);
    }
}

/// The pool's priority is above GENERAL's.
pub fn goes_before(definitions: &Definitions, pool: Name) -> bool
    ensures { result ≡ goes_before definitions.now pool }
{
    pool_row(definitions, Name::general()).priority < pool_row(definitions, pool).priority
}
