//! How the pools of the definitions share their memory, by their rows.
ghost use Rattle.std.specs.Prelude.{◌≡◌};
ghost use Rattle.rm_rules.specs.Definitions.{pool_row, planned};
ghost use Rattle.rm_rules.specs.Budget.{threshold, budget};
ghost use Rattle.rm_rules.specs.Sound.{IsSound};

use rm_base::definitions::Definitions;
use rm_base::rows::PoolRow;

/// PLANNEDCONCURRENCY in force.
pub fn row_planned(definitions: &Definitions, r: &PoolRow) -> u32
    requires sound { IsSound definitions.now }
    requires named { pool_row definitions.now r.now.name ≡ r.now }
    ensures { result ≡ planned definitions.now r.now }
{
    budgets::planned(definitions, r.name)
}

/// The queueing threshold.
pub fn row_threshold(definitions: &Definitions, r: &PoolRow) -> u64
    requires sound { IsSound definitions.now }
    requires named { pool_row definitions.now r.now.name ≡ r.now }
    ensures { result ≡ threshold definitions.now r.now }
{
    budgets::threshold(definitions, r.name)
}

/// The query budget.
pub fn row_budget(definitions: &Definitions, r: &PoolRow) -> u64
    requires sound { IsSound definitions.now }
    requires named { pool_row definitions.now r.now.name ≡ r.now }
    ensures { result ≡ budget definitions.now r.now }
{
    budgets::budget(definitions, r.name)
}
