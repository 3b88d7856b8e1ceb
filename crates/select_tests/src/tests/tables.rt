//! Tables by their names.

use crate::tests::shown;
use csv_tables::load::load;
use csv_tables::tables::Tables;
use rm_base::limits::TABLES_MOST;
use rm_base::name::Name;
use std::alloc::Global;
use std::process::Abort;
use std::test::Fail;

/// The names of as many tables as a host may have, and of one more.
static NAMES: &str = "a b c d e f g h i j k l m n o p q";

/// Adds a table with one column and one row, whose name and value are this letter, where there is room.
fn add_letter(alloc: Global, tables: &mut Tables, letter: &str) -> Result<bool, Fail> {
    let name = Name::of(letter).ok_or("no name")?;
    if tables.is_full() || tables.has(name) {
        return Ok(false);
    }
    let file = format!(in alloc; "{letter}\n{letter}\n")?;
    let table = load(alloc, file.as_bytes())?;
    tables.add(alloc, name, table)?;
    Ok(true)
}

fn check_letter(rt: &impl Abort, alloc: Global, tables: &Tables, letter: &str) -> Result<(), Fail> {
    let name = Name::of(letter).ok_or("no name")?;
    let table = tables.get(name).ok_or("no table")?;
    let expected = format!(in alloc; "{letter} Words;\n'{letter}';\n")?;
    assert_eq!(rt; shown(alloc, table)?.as_str(), expected.as_str());
    Ok(())
}

#[test]
fn tables_are_found_by_their_names(rt: HostRuntime) -> Result<(), Fail> {
    let mut tables = Tables::new(rt.alloc());
    assert!(rt; tables.catalog().as_slice().is_empty());
    let mut added = 0u32;
    for letter in NAMES.split(' ') {
        if add_letter(rt.alloc(), &mut tables, letter)? {
            added = added.saturating_add(1);
        }
    }
    assert_eq!(rt; added, 16);
    assert!(rt; tables.is_full());
    for letter in NAMES.split(' ').take(16) {
        check_letter(&rt, rt.alloc(), &tables, letter)?;
    }
    assert!(rt; tables.get(Name::of("q").ok_or("no name")?).is_none());
    Ok(())
}

#[test]
fn catalogs_have_the_names_and_columns_of_tables(rt: HostRuntime) -> Result<(), Fail> {
    let mut tables = Tables::new(rt.alloc());
    for letter in NAMES.split(' ').take(3) {
        assert!(rt; add_letter(rt.alloc(), &mut tables, letter)?);
    }
    assert!(rt; !add_letter(rt.alloc(), &mut tables, "b")?);
    let mut told = String::new(rt.alloc());
    for table in tables.catalog().as_slice() {
        let name = table.name;
        for column in table.columns.as_slice() {
            let column = column.name;
            told.push_str(format!(in rt.alloc(); "{name}.{column} ")?.as_str())?;
        }
    }
    assert_eq!(rt; told.as_str(), "a.a b.b c.c ");
    assert_eq!(rt; TABLES_MOST, 16);
    Ok(())
}
