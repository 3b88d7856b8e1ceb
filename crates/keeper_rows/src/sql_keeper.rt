//! The store over a connection.

ghost use Rattle.std.specs.Prelude.{◌≡◌, false, None};
ghost use Rattle.rm_outside.specs.Faults.{HasCause};

use crate::fault::outside_of;
use crate::loading::load;
use crate::saving::save;
use rm_base::definitions::Definitions;
use rm_outside::keeper::Keeper;
use rm_outside::outside::Outside;
use sqlite::{Alter, Connection, FileFrom, FileStore, Start};
use std::alloc::Global;

/// The store of the definitions over a connection. It tells nothing of its rows.
#[derive(Drop)]
pub struct SqlKeeper<S: Alter + Drop> {
    connection: Connection<S>,
    faults: u64,
}

impl<S: Alter + Drop> SqlKeeper<S> {
    /// No transaction is open on the connection. It takes no memory.
    pub fn adopt(connection: Connection<S>) -> SqlKeeper<S>
        requires { connection.in_transaction ≡ false }
        ensures faults { ⟦<SqlKeeper<S> as Keeper>⟧.faults result ≡ 0 }
    {
        SqlKeeper {
            connection,
            faults: 0,
        }
    }

    /// The connection, on which no transaction is open.
    pub fn into_connection(self) -> Connection<S> {
        self.connection
    }

    /// Counts what failed.
    fn count<T>(&mut self, answer: &Result<T, Outside>)
        ensures { HasCause self.old.faults self.new.faults answer.now }
    {
        if let Err(Outside::Failed) = answer {
            self.faults = self.faults.saturating_add(1);
        }
    }
}

impl<F: Start> SqlKeeper<FileStore<FileFrom<F>>> {
    /// Takes what the log beside the file holds into the file, and closes both.
    pub fn close(self) -> Result<(), Outside> {
        self.connection.close().map_err(outside_of)
    }
}

impl<S: Alter + Drop> Keeper for SqlKeeper<S> {
    ghost faults = { λ k. k.faults };

    ghost stored = { λ _. None };

    fn faults(&self) -> u64 {
        self.faults
    }

    fn load(&mut self, alloc: Global, memory: u64, cores: u32) -> Result<Definitions, Outside> {
        let loaded = load(alloc, &mut self.connection, memory, cores);
        self.count(&loaded);
        loaded
    }

    fn commit(&mut self, _alloc: Global, next: &Definitions) -> Result<(), Outside> {
        let saved = save(&mut self.connection, next);
        self.count(&saved);
        saved
    }
}
