use crate::table::Table;
use rm_base::catalog::{Catalog, CatalogTable};
use rm_base::limits::TABLES_MOST;
use rm_base::name::Name;
use std::alloc::{AllocError, Global};
use std::marker::Model;

/// A table and its name.
#[derive(Debug, Drop)]
pub struct NamedTable {
    pub name: Name,
    pub table: Table,
}

/// Tables by their names, seen as their list in the order in which they came.
#[derive(Debug, Drop)]
pub struct Tables {
    tables: Vec<NamedTable>,
    catalog: Catalog,
}

impl Model for Tables {
    ghost use Rattle.std.specs.Prelude.{◌≡◌, ◌≤◌, List, length};
    ghost use Rattle.rm_base.specs.declared.limits.TheConstants.{TABLES_MOST};
    ghost use Rattle.csv_tables.specs.declared.tables.NamedTable.{NamedTable};
    ghost use Rattle.csv_tables.specs.Named.{catalog_of};

    ghost Value = { List NamedTable };

    ghost view = { λ t. t.tables.items };

    ghost invariant = { λ t. (t.catalog ≡ catalog_of t.tables.items) × (length t.tables.items ≤ TABLES_MOST) };
}

impl Tables {
    ghost use Rattle.std.specs.Prelude.{◌≡◌, ◌≤◌, ◌<◌, ◌↔◌, [], ◌∷◌, ◌++◌, false, length, IsTrue, OnOk, OnErr};
    ghost use Rattle.std.specs.Option.{option_copied};
    ghost use Rattle.rm_base.specs.declared.limits.TheConstants.{TABLES_MOST};
    ghost use Rattle.csv_tables.specs.Named.{has_table, table_called, catalog_of};

    /// No tables. It takes no memory.
    pub fn new(alloc: Global) -> Tables
        ensures { result ≡ [] }
    {
        Tables {
            tables: Vec::new(alloc),
            catalog: Catalog::new(alloc),
        }
    }

    /// Whether there is room for no more.
    pub fn is_full(&self) -> bool
        ensures full { IsTrue result ↔ (length self.now ≡ TABLES_MOST) }
        ensures room { length self.now ≤ TABLES_MOST }
    {
        self.tables.len() == TABLES_MOST
    }

    /// Whether a table has the name.
    pub fn has(&self, name: Name) -> bool
        ensures { result ≡ has_table self.now name }
    {
        self.tables.iter().any(|named| named.name.same(name))
    }

    /// The table of the name.
    pub fn get(&self, name: Name) -> Option<&Table>
        ensures { option_copied result ≡ table_called self.now name }
    {
        self.tables
            .iter()
            .find(|named| named.name.same(name))
            .map(|named| &named.table)
    }

    /// The names and the columns of the tables.
    pub fn catalog(&self) -> &Catalog
        ensures { result.now ≡ catalog_of self.now }
    {
        &self.catalog
    }

    /// Puts a table behind the others.
    pub fn add(&mut self, alloc: Global, name: Name, table: Table) -> Result<(), AllocError>
        requires new { has_table self.old name ≡ false }
        requires room { length self.old < TABLES_MOST }
        ensures ok { OnOk result (self.new ≡ self.old ++ record { name = name; table = table } ∷ []) }
        ensures err { OnErr result (self.new ≡ self.old) }
    {
        let columns = table.copy_columns(alloc)?;
        self.tables.reserve(1)?;
        self.catalog.push(CatalogTable { name, columns })?;
        self.tables.push_reserved(NamedTable { name, table });
        Ok(())
    }
}
