//! The pool's cap, and the least cap on a query.
ghost use Rattle.std.specs.Prelude.{◌≡◌, ◌≤◌, ◌*◌, IsTrue};
ghost use Rattle.rm_base.specs.declared.limits.TheConstants.{MEMORY_MOST};
ghost use Rattle.rm_base.specs.Ranges.{is_pool_in_range};
ghost use Rattle.rm_rules.specs.Ask.{within, cap, narrowed, least_cap};
ghost use Rattle.rm_rules.specs.Sound.{IsSound};

use rm_base::definitions::Definitions;
use rm_base::name::Name;
use rm_base::refusal::CapKind;
use rm_base::rows::PoolRow;
use rm_rules::readings::{memory_cap, reserved, total};
use rm_rules::state::Cap;

/// The number within a limit, where there is one.
fn within(most: Option<u64>, bytes: u64) -> u64
    ensures { result ≡ within most bytes }
{
    match most {
        None => bytes,
        Some(most) => most.min(bytes),
    }
}

/// What the pool's queries can hold in all.
#[tactic(auto, using(rm_rules::proofs::Sizes::sound_memory_most))]
pub fn row_cap(definitions: &Definitions, row: &PoolRow) -> u64
    requires sound { IsSound definitions.now }
    requires in_range { IsTrue (is_pool_in_range row.now) }
    ensures value { result ≡ cap definitions.now row.now }
    ensures most { result ≤ 2 * MEMORY_MOST }
{
    let free = total(definitions) - reserved(definitions);
    if row.name.same(Name::general()) {
        return free;
    }
    within(row.max, row.memory + free)
}

/// The narrower of two caps, the earlier where they are equal.
fn narrowed(cap: Cap, kind: CapKind, bytes: Option<u64>) -> Cap
    ensures { result ≡ narrowed cap kind bytes }
{
    match bytes {
        None => cap,
        Some(bytes) => {
            if bytes < cap.bytes {
                Cap { kind, bytes }
            } else {
                cap
            }
        }
    }
}

/// The least of the pool's cap, its MAXQUERYMEMORYSIZE and the user's MEMORYCAP.
pub fn row_least_cap(definitions: &Definitions, row: &PoolRow, user: Name) -> Cap
    requires sound { IsSound definitions.now }
    requires in_range { IsTrue (is_pool_in_range row.now) }
    ensures value { result ≡ least_cap definitions.now row.now user }
    ensures most { result.bytes ≤ 2 * MEMORY_MOST }
{
    let pool = Cap {
        kind: CapKind::Pool,
        bytes: row_cap(definitions, row),
    };
    let query = narrowed(pool, CapKind::Query, row.query_max);
    narrowed(query, CapKind::User, memory_cap(definitions, user))
}
