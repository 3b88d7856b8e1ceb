//! What the names of a SELECT stand for.

ghost use Rattle.std.specs.Prelude.{◌≡◌, ◌≤◌, ◌++◌, ◌<◌, true, length, map, take, count_by, IfOk, IfSome, OnOk};
ghost use Rattle.std.specs.List.{list_all, list_any, position_from};
ghost use Rattle.std.specs.Str.{bytes_eq};
ghost use Rattle.rm_base.specs.Name.{name_text};
ghost use Rattle.query_plan.specs.Scope.{columns_here, scope_from};
ghost use Rattle.query_plan.specs.Resolving.{IsAnswer, IsRaw, all_from, called_twice, column_name, column_of, compared_at, condition_of, counts_among, counts_output, each, found_from, function_item, function_name, group_of, groups_of, is_aggregate, is_ambiguous, is_call, is_called, is_elsewhere, is_found_at, is_group, is_grouped, is_int, is_meant, item_name, item_of, items_of, key_of, looked_up, may_stand, operand_of, output_names, output_of, plain_item, planned, resolved, same_kind, test_of, unknown_name, value_of};

use crate::plan::Plan;
use crate::raw::{
    Function, KeyBy, RawCondition, RawItem, RawKey, RawOperand, RawSelect, RawTable, RawTest,
    RawValue, Reference,
};
use crate::reading::ReadError;
use crate::scope::{Found, Here, table_named};
use rm_base::catalog::{Catalog, CatalogColumn, ColumnKind};
use rm_base::limits::{ITEMS_MOST, ROW_VALUES_MOST, SELECT_TABLES_MOST};
use rm_base::listed::Listed;
use rm_base::name::Name;
use rm_base::refusal::Refusal;
use rm_base::select::{Item, Op, Operand, OrderKey, OrderSpec, Select, Test};
use rm_base::text::Text;
use rm_base::value::Value;
use std::alloc::{AllocError, Global};

/// An operand, and whether it is an Int or a Text.
#[derive(Debug, Drop)]
pub struct Compared {
    pub operand: Operand,
    pub kind: ColumnKind,
}

fn is_called(qualifier: Option<Name>, call: Name) -> bool
    ensures { result ≡ is_called qualifier call }
{
    match qualifier {
        None => true,
        Some(qualifier) => call.same(qualifier),
    }
}

/// Whether the reference may mean the column, where so many tables are there.
fn is_meant(tables: usize, reference: Reference, here: &Here) -> bool
    ensures { result ≡ is_meant tables reference here.now }
{
    here.table < tables
        && here.column.name.same(reference.column)
        && is_called(reference.qualifier, here.call)
}

/// The first column that the reference may mean.
fn found(tables: usize, reference: Reference, scope: &[Here]) -> Option<Found>
    requires { length scope.now ≤ ROW_VALUES_MOST }
    ensures { result ≡ found_from tables 0 reference scope.now }
{
    for (i, here) in scope.iter().enumerate() {
        if is_meant(tables, reference, here) {
            return Some(Found {
                column: i as u32,
                table: here.table,
                kind: here.column.kind,
            });
        }
    }
    None
}

/// Whether the reference may mean a column of another table too.
fn is_elsewhere(tables: usize, reference: Reference, found: Found, here: &Here) -> bool
    ensures { result ≡ is_elsewhere tables reference found here.now }
{
    is_meant(tables, reference, here) && here.table != found.table
}

/// Whether the reference may mean columns of two tables.
fn is_twofold(tables: usize, reference: Reference, found: Found, scope: &[Here]) -> bool
    ensures { result ≡ list_any (is_elsewhere tables reference found) scope.now }
{
    scope
        .iter()
        .any(|here| is_elsewhere(tables, reference, found, here))
}

fn is_ambiguous(tables: usize, reference: Reference, found: Found, scope: &[Here]) -> bool
    ensures { result ≡ is_ambiguous tables reference found scope.now }
{
    reference.qualifier.is_none() && is_twofold(tables, reference, found, scope)
}

/// Whether a table is called so.
fn is_call(tables: &[RawTable], name: Name) -> bool
    ensures { result ≡ is_call tables.now name }
{
    tables.iter().any(|table| table.call.same(name))
}

/// Which name of a reference is unknown.
fn unknown_name(tables: &[RawTable], qualifier: Option<Name>, column: Name) -> Name
    ensures { result ≡ unknown_name tables.now qualifier column }
{
    match qualifier {
        None => column,
        Some(qualifier) => {
            if is_call(tables, qualifier) {
                column
            } else {
                qualifier
            }
        }
    }
}

/// The column that a reference names, where these tables are there.
fn column_of(tables: &[RawTable], scope: &[Here], reference: Reference) -> Result<Found, Refusal>
    requires { length scope.now ≤ ROW_VALUES_MOST }
    ensures { result ≡ column_of tables.now scope.now reference }
{
    match found(tables.len(), reference, scope) {
        None => Err(Refusal::NoSuchColumn(unknown_name(
            tables,
            reference.qualifier,
            reference.column,
        ))),
        Some(found) if is_ambiguous(tables.len(), reference, found, scope) => {
            Err(Refusal::Ambiguous(reference.column))
        }
        Some(found) => Ok(found),
    }
}

/// What is compared.
fn operand_of(
    alloc: Global,
    tables: &[RawTable],
    scope: &[Here],
    operand: &RawOperand,
) -> Result<Compared, ReadError>
    requires { length scope.now ≤ ROW_VALUES_MOST }
    ensures { IsAnswer (operand_of tables.now scope.now operand.now) result }
{
    match operand {
        RawOperand::Column(reference) => match column_of(tables, scope, *reference) {
            Ok(found) => Ok(Compared {
                operand: Operand::Column(found.column),
                kind: found.kind,
            }),
            Err(refusal) => Err(ReadError::Refused(refusal)),
        },
        RawOperand::Int(number) => Ok(Compared {
            operand: Operand::Fixed(Value::Int(*number)),
            kind: ColumnKind::Int,
        }),
        RawOperand::Words(text) => match text.copy(alloc) {
            Ok(text) => Ok(Compared {
                operand: Operand::Fixed(Value::Words(text)),
                kind: ColumnKind::Words,
            }),
            Err(_) => Err(ReadError::Memory),
        },
    }
}

fn same_kind(left: ColumnKind, right: ColumnKind) -> bool
    ensures { result ≡ same_kind left right }
{
    matches!(
        (left, right),
        (ColumnKind::Int, ColumnKind::Int) | (ColumnKind::Words, ColumnKind::Words)
    )
}

fn compared_at(place: u64, op: Op, left: Compared, right: Compared) -> Result<Test, Refusal>
    ensures { result ≡ compared_at place op left right }
{
    if same_kind(left.kind, right.kind) {
        Ok(Test {
            left: left.operand,
            op,
            right: right.operand,
        })
    } else {
        Err(Refusal::TypeClash(place))
    }
}

/// A comparison.
fn test_of(
    alloc: Global,
    tables: &[RawTable],
    scope: &[Here],
    test: &RawTest,
) -> Result<Test, ReadError>
    requires { length scope.now ≤ ROW_VALUES_MOST }
    ensures { IsAnswer (test_of tables.now scope.now test.now) result }
{
    let left = match operand_of(alloc, tables, scope, &test.left) {
        Ok(left) => left,
        Err(error) => return Err(error),
    };
    let right = match operand_of(alloc, tables, scope, &test.right) {
        Ok(right) => right,
        Err(error) => return Err(error),
    };
    match compared_at(test.place, test.op, left, right) {
        Ok(test) => Ok(test),
        Err(refusal) => Err(ReadError::Refused(refusal)),
    }
}

/// The first call name that a table before it has.
fn called_twice(tables: &[RawTable]) -> Option<Name>
    ensures { result ≡ called_twice tables.now 0 tables.now }
{
    for (i, table) in tables.iter().enumerate() {
        if is_call(&tables[..i], table.call) {
            return Some(table.call);
        }
    }
    None
}

fn first_tables(tables: &[RawTable], count: usize) -> &[RawTable]
    ensures { result.now ≡ take count tables.now }
{
    &tables[..count.min(tables.len())]
}

/// A comparison behind tables: those alone are there.
fn condition_of(
    alloc: Global,
    tables: &[RawTable],
    scope: &[Here],
    condition: &RawCondition,
) -> Result<Test, ReadError>
    requires { length scope.now ≤ ROW_VALUES_MOST }
    ensures { IsAnswer (condition_of tables.now scope.now condition.now) result }
{
    let there = first_tables(tables, condition.tables);
    match called_twice(there) {
        None => test_of(alloc, there, scope, &condition.test),
        Some(name) => Err(ReadError::Refused(Refusal::Ambiguous(name))),
    }
}

fn tests_of(
    alloc: Global,
    tables: &[RawTable],
    scope: &[Here],
    conditions: &[RawCondition],
) -> Result<Listed<Test>, ReadError>
    requires { length scope.now ≤ ROW_VALUES_MOST }
    ensures { IsAnswer (each (condition_of tables.now scope.now) conditions.now) result }
{
    let mut out = Listed::new(alloc);
    for condition in conditions {
        match condition_of(alloc, tables, scope, condition) {
            Ok(test) => out.push(test)?,
            Err(error) => return Err(error),
        }
    }
    Ok(out)
}

fn is_aggregate(value: RawValue) -> bool
    ensures { result ≡ is_aggregate value }
{
    match value {
        RawValue::Column(_) => false,
        RawValue::CountAll | RawValue::Of(..) => true,
    }
}

/// Whether one of the items is an aggregate.
fn has_aggregate(items: &[RawItem]) -> bool
    ensures { result ≡ list_any (λ i. is_aggregate i.value) items.now }
{
    items.iter().any(|item| is_aggregate(item.value))
}

/// Whether there is a GROUP BY or an aggregate.
fn is_grouped(raw: &RawSelect) -> bool
    ensures { result ≡ is_grouped raw.now }
{
    !raw.groups.as_slice().is_empty() || has_aggregate(raw.items.as_slice())
}

fn is_found_at(column: u32, found: Result<Found, Refusal>) -> bool
    ensures { result ≡ is_found_at column found }
{
    match found {
        Ok(found) => found.column == column,
        Err(_) => false,
    }
}

/// Whether GROUP BY has the column.
fn is_group(raw: &RawSelect, scope: &[Here], column: u32) -> bool
    requires { length scope.now ≤ ROW_VALUES_MOST }
    ensures { result ≡ is_group raw.now scope.now column }
{
    let tables = raw.tables.as_slice();
    raw.groups.as_slice().iter().any(|group| is_found_at(column, column_of(tables, scope, *group)))
}

/// Whether the column may be an item.
fn may_stand(raw: &RawSelect, scope: &[Here], column: u32) -> bool
    requires { length scope.now ≤ ROW_VALUES_MOST }
    ensures { result ≡ may_stand raw.now scope.now column }
{
    !is_grouped(raw) || is_group(raw, scope, column)
}

/// A column as an item that starts at a place.
fn plain_item(raw: &RawSelect, scope: &[Here], place: u64, found: Found) -> Result<Item, Refusal>
    requires { length scope.now ≤ ROW_VALUES_MOST }
    ensures { result ≡ plain_item raw.now scope.now place found }
{
    if may_stand(raw, scope, found.column) {
        Ok(Item::Column(found.column))
    } else {
        Err(Refusal::NotGrouped(place))
    }
}

fn is_int(kind: ColumnKind) -> bool
    ensures { result ≡ is_int kind }
{
    matches!(kind, ColumnKind::Int)
}

/// A function of a column as an item that starts at a place.
fn function_item(place: u64, function: Function, found: Found) -> Result<Item, Refusal>
    ensures { result ≡ function_item place function found }
{
    match function {
        Function::Count => Ok(Item::Count(found.column)),
        Function::Sum if is_int(found.kind) => Ok(Item::Sum(found.column)),
        Function::Sum => Err(Refusal::TypeClash(place)),
        Function::Min => Ok(Item::Min(found.column)),
        Function::Max => Ok(Item::Max(found.column)),
    }
}

/// An item of the select list.
fn item_of(raw: &RawSelect, scope: &[Here], item: &RawItem) -> Result<Item, Refusal>
    requires { length scope.now ≤ ROW_VALUES_MOST }
    ensures { result ≡ item_of raw.now scope.now item.now }
{
    let tables = raw.tables.as_slice();
    match item.value {
        RawValue::Column(column) => match column_of(tables, scope, column) {
            Ok(found) => plain_item(raw, scope, item.place, found),
            Err(refusal) => Err(refusal),
        },
        RawValue::CountAll => Ok(Item::CountAll),
        RawValue::Of(function, column) => match column_of(tables, scope, column) {
            Ok(found) => function_item(item.place, function, found),
            Err(refusal) => Err(refusal),
        },
    }
}

fn listed_items(
    alloc: Global,
    raw: &RawSelect,
    scope: &[Here],
    items: &[RawItem],
) -> Result<Listed<Item>, ReadError>
    requires { length scope.now ≤ ROW_VALUES_MOST }
    ensures { IsAnswer (each (item_of raw.now scope.now) items.now) result }
{
    let mut out = Listed::new(alloc);
    for item in items {
        match item_of(raw, scope, item) {
            Ok(item) => out.push(item)?,
            Err(refusal) => return Err(ReadError::Refused(refusal)),
        }
    }
    Ok(out)
}

/// All columns.
fn all_items(alloc: Global, scope: &[Here]) -> Result<Listed<Item>, AllocError>
    requires { length scope.now ≤ ROW_VALUES_MOST }
    ensures { IfOk result (λ items. items ≡ all_from 0 scope.now) }
{
    let mut items = Listed::new(alloc);
    for (i, _) in scope.iter().enumerate() {
        items.push(Item::Column(i as u32))?;
    }
    Ok(items)
}

/// The output columns.
fn items_of(alloc: Global, raw: &RawSelect, scope: &[Here]) -> Result<Listed<Item>, ReadError>
    requires { length scope.now ≤ ROW_VALUES_MOST }
    ensures { IsAnswer (items_of raw.now scope.now raw.now.all) result }
{
    match raw.all {
        None => listed_items(alloc, raw, scope, raw.items.as_slice()),
        Some(place) if is_grouped(raw) => Err(ReadError::Refused(Refusal::NotGrouped(place))),
        Some(_) => match all_items(alloc, scope) {
            Ok(items) => Ok(items),
            Err(_) => Err(ReadError::Memory),
        },
    }
}

/// What a function's output column is called.
fn function_name(function: Function) -> &'static str
    ensures { result.now ≡ function_name function }
{
    match function {
        Function::Count => "count",
        Function::Sum => "sum",
        Function::Min => "min",
        Function::Max => "max",
    }
}

fn name_text(alloc: Global, name: Name) -> Result<Text, AllocError>
    ensures { IfOk result (λ text. text ≡ name_text name) }
{
    Ok(Text::of(String::from_str(alloc, name.as_str())?))
}

fn function_text(alloc: Global, function: Function) -> Result<Text, AllocError>
    ensures { IfOk result (λ text. text ≡ function_name function) }
{
    Ok(Text::of(String::from_str(alloc, function_name(function))?))
}

/// What an item's output column is called.
fn item_name(alloc: Global, item: &RawItem) -> Result<Text, AllocError>
    ensures { IfOk result (λ text. text ≡ item_name item.now) }
{
    match (item.name, item.value) {
        (Some(name), _) => name_text(alloc, name),
        (None, RawValue::Column(column)) => name_text(alloc, column.column),
        (None, RawValue::CountAll) => function_text(alloc, Function::Count),
        (None, RawValue::Of(function, _)) => function_text(alloc, function),
    }
}

fn listed_names(alloc: Global, items: &[RawItem]) -> Result<Listed<Text>, AllocError>
    ensures { IfOk result (λ names. names ≡ map item_name items.now) }
{
    let mut names = Listed::new(alloc);
    for item in items {
        names.push(item_name(alloc, item)?)?;
    }
    Ok(names)
}

fn all_names(alloc: Global, scope: &[Here]) -> Result<Listed<Text>, AllocError>
    ensures { IfOk result (λ names. names ≡ map column_name scope.now) }
{
    let mut names = Listed::new(alloc);
    for here in scope {
        names.push(name_text(alloc, here.column.name)?)?;
    }
    Ok(names)
}

/// The names of the output columns.
fn output_names(alloc: Global, raw: &RawSelect, scope: &[Here]) -> Result<Listed<Text>, AllocError>
    ensures { IfOk result (λ names. names ≡ output_names scope.now raw.now.all raw.now.items) }
{
    match raw.all {
        None => listed_names(alloc, raw.items.as_slice()),
        Some(_) => all_names(alloc, scope),
    }
}

fn is_named(name: Name, text: &Text) -> bool
    ensures { result ≡ bytes_eq (name_text name) text.now }
{
    name.as_str() == text.as_str()
}

/// Which of the names is this one first.
fn first_named(names: &[Text], name: Name) -> Option<usize>
    ensures value { result ≡ position_from (bytes_eq (name_text name)) 0 names.now }
    ensures within { IfSome result (λ i. i < length names.now) }
{
    names.iter().position(|text| is_named(name, text))
}

/// How many of the names are this one.
fn count_named(names: &[Text], name: Name) -> usize
    ensures { result ≡ count_by (bytes_eq (name_text name)) names.now }
{
    names.iter().filter(|text| is_named(name, text)).count()
}

/// The output column that a name means.
fn named_output(names: &[Text], name: Name) -> Result<u32, Refusal>
    requires { length names.now ≤ ROW_VALUES_MOST }
    ensures { result ≡ output_of names.now (KeyBy.Name name) }
{
    match first_named(names, name) {
        None => Err(Refusal::NoSuchColumn(name)),
        Some(_) if count_named(names, name) > 1 => Err(Refusal::Ambiguous(name)),
        Some(i) => Ok(i as u32),
    }
}

/// The output column that a key means.
fn output_of(names: &[Text], by: KeyBy) -> Result<u32, Refusal>
    requires few { length names.now ≤ ROW_VALUES_MOST }
    requires counts { counts_output (length names.now) by ≡ true }
    ensures { result ≡ output_of names.now by }
{
    match by {
        KeyBy::Name(name) => named_output(names, name),
        KeyBy::Number(number) => Ok(number.saturating_sub(1) as u32),
    }
}

/// A key of ORDER BY.
fn key_of(names: &[Text], key: &RawKey) -> Result<OrderKey, Refusal>
    requires few { length names.now ≤ ROW_VALUES_MOST }
    requires counts { counts_output (length names.now) key.now.by ≡ true }
    ensures { result ≡ key_of names.now key.now }
{
    match output_of(names, key.by) {
        Ok(column) => Ok(OrderKey {
            column,
            falling: key.falling,
        }),
        Err(refusal) => Err(refusal),
    }
}

fn keys_of(alloc: Global, names: &[Text], keys: &[RawKey]) -> Result<Listed<OrderKey>, ReadError>
    requires few { length names.now ≤ ROW_VALUES_MOST }
    requires counts { list_all (counts_among (length names.now)) keys.now ≡ true }
    ensures { IsAnswer (each (key_of names.now) keys.now) result }
{
    let mut out = Listed::new(alloc);
    for key in keys {
        match key_of(names, key) {
            Ok(key) => out.push(key)?,
            Err(refusal) => return Err(ReadError::Refused(refusal)),
        }
    }
    Ok(out)
}

/// A column of GROUP BY.
fn group_of(tables: &[RawTable], scope: &[Here], column: Reference) -> Result<u32, Refusal>
    requires { length scope.now ≤ ROW_VALUES_MOST }
    ensures { result ≡ group_of tables.now scope.now column }
{
    match column_of(tables, scope, column) {
        Ok(found) => Ok(found.column),
        Err(refusal) => Err(refusal),
    }
}

fn listed_groups(
    alloc: Global,
    tables: &[RawTable],
    scope: &[Here],
    groups: &[Reference],
) -> Result<Listed<u32>, ReadError>
    requires { length scope.now ≤ ROW_VALUES_MOST }
    ensures { IsAnswer (each (group_of tables.now scope.now) groups.now) result }
{
    let mut out = Listed::new(alloc);
    for column in groups {
        match group_of(tables, scope, *column) {
            Ok(column) => out.push(column)?,
            Err(refusal) => return Err(ReadError::Refused(refusal)),
        }
    }
    Ok(out)
}

/// The columns of GROUP BY, where there are groups.
fn groups_of(
    alloc: Global,
    raw: &RawSelect,
    scope: &[Here],
) -> Result<Option<Listed<u32>>, ReadError>
    requires { length scope.now ≤ ROW_VALUES_MOST }
    ensures { IsAnswer (groups_of raw.now scope.now) result }
{
    if !is_grouped(raw) {
        return Ok(None);
    }
    match listed_groups(alloc, raw.tables.as_slice(), scope, raw.groups.as_slice()) {
        Ok(groups) => Ok(Some(groups)),
        Err(error) => Err(error),
    }
}

fn table_names(alloc: Global, tables: &[RawTable]) -> Result<Listed<Name>, AllocError>
    ensures { IfOk result (λ names. names ≡ map (λ t. t.name) tables.now) }
{
    let mut names = Listed::new(alloc);
    for table in tables {
        names.push(table.name)?;
    }
    Ok(names)
}

/// Puts a table's columns behind the others.
fn push_columns(
    scope: &mut Listed<Here>,
    table: usize,
    call: Name,
    columns: &[CatalogColumn],
) -> Result<(), AllocError>
    ensures { OnOk result (scope.new ≡ scope.old ++ columns_here table call columns.now) }
{
    for column in columns {
        scope.push(Here {
            table,
            call,
            column: *column,
        })?;
    }
    Ok(())
}

/// The columns of the tables in order.
fn scope_of(
    alloc: Global,
    catalog: &Catalog,
    tables: &[RawTable],
) -> Result<Listed<Here>, ReadError>
    ensures { IsAnswer (scope_from catalog.now 0 tables.now) result }
{
    let mut scope = Listed::new(alloc);
    for (i, table) in tables.iter().enumerate() {
        match table_named(catalog, table.name) {
            None => return Err(ReadError::Refused(Refusal::NoSuchTable(table.name))),
            Some(found) => {
                push_columns(&mut scope, i, table.call, found.columns.as_slice())?;
            }
        }
    }
    Ok(scope)
}

/// The plan of a SELECT whose tables have these columns.
fn planned(alloc: Global, raw: &RawSelect, scope: &[Here]) -> Result<Select, ReadError>
    requires scope { length scope.now ≤ ROW_VALUES_MOST }
    requires items { length raw.now.items ≤ ITEMS_MOST }
    requires counts { list_all (counts_among (length (output_names scope.now raw.now.all raw.now.items))) raw.now.keys ≡ true }
    ensures { IsAnswer (planned raw.now scope.now) result }
{
    let tables = raw.tables.as_slice();
    let items = match items_of(alloc, raw, scope) {
        Ok(items) => items,
        Err(error) => return Err(error),
    };
    let tests = match tests_of(alloc, tables, scope, raw.tests.as_slice()) {
        Ok(tests) => tests,
        Err(error) => return Err(error),
    };
    let groups = match groups_of(alloc, raw, scope) {
        Ok(groups) => groups,
        Err(error) => return Err(error),
    };
    let Ok(names) = output_names(alloc, raw, scope) else {
        return Err(ReadError::Memory);
    };
    let keys = match keys_of(alloc, names.as_slice(), raw.keys.as_slice()) {
        Ok(keys) => keys,
        Err(error) => return Err(error),
    };
    let Ok(tables) = table_names(alloc, tables) else {
        return Err(ReadError::Memory);
    };
    Ok(Select {
        tables,
        tests,
        items,
        names,
        groups,
        order: OrderSpec {
            keys,
            limit: raw.limit,
        },
    })
}

/// The plan of a SELECT that words are.
pub fn resolved(alloc: Global, catalog: &Catalog, raw: &RawSelect) -> Result<Plan, ReadError>
    requires { IsRaw catalog.now raw.now }
    ensures { IsAnswer (resolved catalog.now raw.now) result }
{
    let _tables = catalog.as_slice();
    let tables = raw.tables.as_slice();
    if tables.len() > SELECT_TABLES_MOST {
        return Err(ReadError::Refused(Refusal::TooManyTables(SELECT_TABLES_MOST as u32)));
    }
    let scope = match scope_of(alloc, catalog, tables) {
        Ok(scope) => scope,
        Err(error) => return Err(error),
    };
    match planned(alloc, raw, scope.as_slice()) {
        Ok(select) => Ok(Plan::of(select)),
        Err(error) => Err(error),
    }
}
