use crate::listed::Listed;
use crate::name::Name;
use std::alloc::{AllocError, Global};
use std::marker::Model;

/// What the values of a column are, where they are not Null: Ints, or Texts.
#[derive(Clone, Copy, Debug, PartialEq, Eq)]
pub enum ColumnKind {
    Int,
    Words,
}

/// A column of a table.
#[derive(Clone, Copy, Debug, PartialEq, Eq)]
pub struct CatalogColumn {
    pub name: Name,
    pub kind: ColumnKind,
}

/// A table's name and its columns, in their order.
#[derive(Debug, Drop)]
pub struct CatalogTable {
    pub name: Name,
    pub columns: Listed<CatalogColumn>,
}

/// The tables that a SELECT may name, seen as their list. None has more columns than a table may have.
#[derive(Debug, Drop)]
pub struct Catalog {
    tables: Vec<CatalogTable>,
}

impl Model for Catalog {
    ghost use Rattle.std.specs.Prelude.{◌≡◌, true, List};
    ghost use Rattle.std.specs.List.{list_all};
    ghost use Rattle.rm_base.specs.declared.catalog.CatalogTable.{CatalogTable};
    ghost use Rattle.rm_base.specs.Catalog.{is_narrow};

    ghost Value = { List CatalogTable };

    ghost view = { λ c. c.tables.items };

    ghost invariant = { λ c. list_all is_narrow c.tables.items ≡ true };
}

impl Catalog {
    ghost use Rattle.std.specs.Prelude.{◌≡◌, [], ◌∷◌, ◌++◌, true, OnOk, OnErr};
    ghost use Rattle.std.specs.List.{list_all};
    ghost use Rattle.rm_base.specs.Catalog.{is_narrow};

    /// No tables. It takes no memory.
    pub fn new(alloc: Global) -> Catalog
        ensures { result ≡ [] }
    {
        Catalog {
            tables: Vec::new(alloc),
        }
    }

    pub fn as_slice(&self) -> &[CatalogTable]
        ensures tables { result.now ≡ self.now }
        ensures narrow { list_all is_narrow self.now ≡ true }
    {
        &self.tables
    }

    /// Puts a table behind the others.
    pub fn push(&mut self, table: CatalogTable) -> Result<(), AllocError>
        requires { is_narrow table ≡ true }
        ensures ok { OnOk result (self.new ≡ self.old ++ table ∷ []) }
        ensures err { OnErr result (self.new ≡ self.old) }
    {
        self.tables.push(table)?;
        Ok(())
    }
}
