//! The pools along CASCADE TO.
ghost use Rattle.std.specs.Prelude.{◌≡◌, IsTrue, IfSome, find, nat_lt};
ghost use Rattle.rm_base.specs.Ranges.{passes_if_set};
ghost use Rattle.rm_rules.specs.Sound.{IsSound, has_pool};
ghost use Rattle.rm_rules.specs.Target.{pools_behind, leaves_time};

use rm_base::definitions::Definitions;
use rm_base::name::Name;
use rm_base::rows::PoolRow;
use rm_rules::readings::pool_row;

/// Whether the pool's cap is NONE or above the running time.
fn leaves_time(row: &PoolRow, running: u64) -> bool
    ensures { result ≡ passes_if_set (nat_lt running) row.now.cap_ms }
{
    row.cap_ms.is_none_or(|cap| running < cap)
}

/// The first pool behind this one that leaves time to a query that has run this long.
pub fn first_with_time(definitions: &Definitions, pool: Name, running: u64) -> Option<Name>
    requires { IsSound definitions.now }
    ensures value { result ≡ find (leaves_time definitions.now running) (pools_behind definitions.now.pools pool) }
    ensures there { IfSome result (λ to. IsTrue (has_pool definitions.now to)) }
{
    let mut next = pool_row(definitions, pool).cascade;
    while let Some(name) = next {
        let row = pool_row(definitions, name);
        if leaves_time(&row, running) {
            return Some(name);
        }
        next = row.cascade;
    }
    None
}
