ghost use Rattle.std.specs.Prelude.{◌≡◌, Some};

use crate::keeper::Keeper;
use crate::outside::Outside;
use rm_base::definitions::Definitions;
use std::alloc::Global;
use std::marker::Model;

/// A store in memory, which never fails. Contracts see it as its rows.
#[derive(Drop)]
pub struct MemoryKeeper {
    // Nothing in a fresh store.
    committed: Option<Definitions>,
}

impl Model for MemoryKeeper {
    ghost use Rattle.rm_outside.specs.Stored.{StoredRows, kept_rows};

    ghost Value = { StoredRows };

    ghost view = { λ k. kept_rows k.committed };
}

impl MemoryKeeper {
    ghost use Rattle.rm_outside.specs.Stored.{StoredRows, fresh_rows};

    /// A fresh store.
    pub fn new() -> MemoryKeeper
        ensures stored { ⟦<MemoryKeeper as Keeper>⟧.stored result ≡ Some fresh_rows }
        ensures faults { ⟦<MemoryKeeper as Keeper>⟧.faults result ≡ 0 }
    {
        MemoryKeeper { committed: None }
    }

    /// A store in memory always tells its rows.
    pub fn always_tells()
        ensures { (rows : StoredRows) → ⟦<MemoryKeeper as Keeper>⟧.stored rows ≡ Some rows }
    {}
}

impl Keeper for MemoryKeeper {
    ghost faults = { λ _. 0 };

    ghost stored = { λ rows. Some rows };

    fn faults(&self) -> u64 {
        0
    }

    fn load(&mut self, alloc: Global, memory: u64, cores: u32) -> Result<Definitions, Outside> {
        match &self.committed {
            None => Ok(Definitions::new(alloc, memory, cores)?),
            Some(committed) => {
                let mut definitions = committed.copy(alloc)?;
                definitions.memory = memory;
                definitions.cores = cores;
                definitions.changes = 0;
                Ok(definitions)
            }
        }
    }

    fn commit(&mut self, alloc: Global, next: &Definitions) -> Result<(), Outside> {
        let copy = next.copy(alloc)?;
        self.committed = Some(copy);
        Ok(())
    }
}
