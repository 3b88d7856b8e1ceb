//! Define of a DROP RESOURCE POOL: the pool's bytes and its queries become GENERAL's.
ghost use Rattle.std.specs.Prelude.{◌≡◌, Ok, IsOk};

use super::Machine;
use crate::dropping::{goes_before, remove_count};
use pool_table::apply;
use rm_base::name::Name;
use rm_base::statement::Statement;

impl Machine {
    ghost use Rattle.rm_base.specs.declared.statement.Statement.TheVariants.{DropPool};
    ghost use Rattle.rm_rules.specs.Acceptance.{accepted};
    ghost use Rattle.rm_rules.specs.DropPool.{dropped};
    ghost use Rattle.rm_rules.specs.Sound.{IsSound};
    ghost use Rattle.rm_rules.specs.Healthy.{AreSized};

    /// Makes the change of an accepted DROP of the pool.
    pub fn drop_pool(&mut self, pool: Name)
        requires sound { IsSound self.old.definitions }
        requires sized { AreSized self.old.definitions self.old.actual self.old.counters }
        requires accepted { IsOk (accepted self.old.definitions (DropPool pool)) }
        ensures definitions { accepted self.old.definitions (DropPool pool) ≡ Ok self.new.definitions }
        ensures state { self.new ≡ dropped self.old pool self.new.definitions }
    {
        let front = goes_before(&self.definitions, pool);
        remove_count(self.definitions.pools.rows(), pool, &mut self.counters);
        apply(&mut self.definitions, &Statement::DropPool(pool));
        self.runs.fold_into_general(pool);
        self.waiting.transfer(pool, front);
        self.sessions.put_beside(pool);
    }
}
