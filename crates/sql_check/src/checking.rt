//! The names and types of statements.

ghost use Rattle.std.specs.Prelude.{◌≡◌};
ghost use Rattle.std.specs.List.{list_any};
ghost use Rattle.std.specs.Option.{option_copied};
ghost use Rattle.retro_base.specs.Gives.{Gives};
ghost use Rattle.sql_tree.specs.declared.statement.Statement.{Statement};
ghost use Rattle.sql_check.specs.Check.{assigns_other_kind, assigns_unknown, checked, checked_beside, column_kind};
ghost use Rattle.sql_check.specs.Check.{first_refusal, has_unknown_name, has_wrong_type, is_twice};
ghost use Rattle.sql_check.specs.Check.{names_other, scope_beside, scope_of_two, select_scope, takes_taken_name};

use crate::names::{
    column_named, has_name, has_twins, is_named, is_reserved, stored_table, table_named,
};
use crate::rows::all_fit;
use crate::selects::{
    select_has_unknown, select_is_mistyped, where_compares_apart, where_has_unknown,
};
use retro_base::Refusal;
use sql_kinds::{agree, has_unknown, kind_of};
use sql_tree::{
    Assignment, Column, CreateIndex, Delete, Insert, Schema, Scope, Select, Statement, TableSchema,
    Update,
};
use values::{Kind, Name};

fn scope_of_two<'a>(
    first: Option<&'a TableSchema>,
    second: Option<&'a TableSchema>,
) -> Option<Scope<'a>>
    ensures { result ≡ scope_of_two (option_copied first.entry) (option_copied second.entry) }
{
    let first = first?;
    let second = second?;
    let _columns = first.columns.as_slice();
    let _others = second.columns.as_slice();
    Some(Scope::of_two(first, second))
}

/// The scope of the select, if its tables are known: beside another table only one of the store is.
pub fn select_scope<'a>(select: &Select, schema: &'a Schema) -> Option<Scope<'a>>
    ensures { result ≡ select_scope select.now schema.now }
{
    let first = &select.table;
    match &select.second {
        Some(second) => scope_of_two(stored_table(first, schema), stored_table(second, schema)),
        None => Some(Scope::of_one(table_named(first, schema)?)),
    }
}

fn index_has_unknown(create: &CreateIndex, schema: &Schema) -> bool
    ensures { result ≡ has_unknown_name (Statement.CreateIndex create.now) None schema.now }
{
    match stored_table(&create.table, schema) {
        Some(table) => !has_name(&create.column, table.columns.as_slice()),
        None => true,
    }
}

fn assigns_unknown(snapshot: Option<u32>, table: &TableSchema, assignment: &Assignment) -> bool
    ensures { result ≡ assigns_unknown snapshot table.now assignment.now }
{
    let scope = Scope::of_one(table);
    !has_name(&assignment.column, table.columns.as_slice())
        || has_unknown(&scope, snapshot, &assignment.value)
}

fn any_assigns_unknown(
    snapshot: Option<u32>,
    table: &TableSchema,
    assignments: &[Assignment],
) -> bool
    ensures { result ≡ list_any (assigns_unknown snapshot table.now) assignments.now }
{
    assignments
        .iter()
        .any(|assignment| assigns_unknown(snapshot, table, assignment))
}

fn update_has_unknown(snapshot: Option<u32>, update: &Update, schema: &Schema) -> bool
    ensures { result ≡ has_unknown_name (Statement.Update update.now) snapshot schema.now }
{
    let Some(table) = stored_table(&update.table, schema) else {
        return true;
    };
    let scope = Scope::of_one(table);
    let in_set = any_assigns_unknown(snapshot, table, update.assignments.as_slice());
    in_set || where_has_unknown(&scope, snapshot, &update.condition)
}

fn delete_has_unknown(snapshot: Option<u32>, delete: &Delete, schema: &Schema) -> bool
    ensures { result ≡ has_unknown_name (Statement.Delete delete.now) snapshot schema.now }
{
    match stored_table(&delete.table, schema) {
        Some(table) => where_has_unknown(&Scope::of_one(table), snapshot, &delete.condition),
        None => true,
    }
}

fn known_select_has_unknown(snapshot: Option<u32>, select: &Select, schema: &Schema) -> bool
    ensures { result ≡ has_unknown_name (Statement.Select select.now) snapshot schema.now }
{
    match select_scope(select, schema) {
        Some(scope) => select_has_unknown(snapshot, select, &scope),
        None => true,
    }
}

fn has_unknown_name(statement: &Statement, snapshot: Option<u32>, schema: &Schema) -> bool
    ensures { result ≡ has_unknown_name statement.now snapshot schema.now }
{
    match statement {
        Statement::CreateTable(_) => false,
        Statement::CreateIndex(create) => index_has_unknown(create, schema),
        Statement::Insert(insert) => stored_table(&insert.table, schema).is_none(),
        Statement::Update(update) => update_has_unknown(snapshot, update, schema),
        Statement::Delete(delete) => delete_has_unknown(snapshot, delete, schema),
        Statement::Select(select) => known_select_has_unknown(snapshot, select, schema),
    }
}

// Whether a FROM has one table twice.
fn is_twice(first: &Name, second: &Option<Name>) -> bool
    ensures { result ≡ is_twice first.now second.now }
{
    match second {
        Some(second) => first == second,
        None => false,
    }
}

fn takes_taken_name(statement: &Statement, schema: &Schema) -> bool
    ensures { result ≡ takes_taken_name statement.now schema.now }
{
    match statement {
        Statement::CreateTable(create) => {
            let is_taken = is_named(&create.table, schema) || is_reserved(&create.table);
            is_taken || has_twins(create.columns.as_slice())
        }
        Statement::CreateIndex(create) => is_named(&create.index, schema),
        Statement::Insert(_) => false,
        Statement::Update(update) => has_twins(update.assignments.as_slice()),
        Statement::Delete(_) => false,
        Statement::Select(select) => is_twice(&select.table, &select.second),
    }
}

fn insert_is_mistyped(insert: &Insert, schema: &Schema) -> bool
    ensures { result ≡ has_wrong_type (Statement.Insert insert.now) schema.now }
{
    match stored_table(&insert.table, schema) {
        Some(table) => !all_fit(table.columns.as_slice(), insert.tuples.as_slice()),
        None => false,
    }
}

fn column_kind(name: &Name, columns: &[Column]) -> Option<Kind>
    ensures { result ≡ column_kind name.now columns.now }
{
    let column = column_named(name, columns)?;
    Some(column.kind)
}

fn assigns_other_kind(table: &TableSchema, assignment: &Assignment) -> bool
    ensures { result ≡ assigns_other_kind table.now assignment.now }
{
    let scope = Scope::of_one(table);
    let wanted = column_kind(&assignment.column, table.columns.as_slice());
    !agree(wanted, kind_of(&scope, &assignment.value))
}

fn any_assigns_other_kind(table: &TableSchema, assignments: &[Assignment]) -> bool
    ensures { result ≡ list_any (assigns_other_kind table.now) assignments.now }
{
    assignments
        .iter()
        .any(|assignment| assigns_other_kind(table, assignment))
}

fn update_is_mistyped(update: &Update, schema: &Schema) -> bool
    ensures { result ≡ has_wrong_type (Statement.Update update.now) schema.now }
{
    let Some(table) = stored_table(&update.table, schema) else {
        return false;
    };
    let in_set = any_assigns_other_kind(table, update.assignments.as_slice());
    in_set || where_compares_apart(&Scope::of_one(table), &update.condition)
}

fn delete_is_mistyped(delete: &Delete, schema: &Schema) -> bool
    ensures { result ≡ has_wrong_type (Statement.Delete delete.now) schema.now }
{
    match stored_table(&delete.table, schema) {
        Some(table) => where_compares_apart(&Scope::of_one(table), &delete.condition),
        None => false,
    }
}

fn known_select_is_mistyped(select: &Select, schema: &Schema) -> bool
    ensures { result ≡ has_wrong_type (Statement.Select select.now) schema.now }
{
    match select_scope(select, schema) {
        Some(scope) => select_is_mistyped(select, &scope),
        None => false,
    }
}

fn has_wrong_type(statement: &Statement, schema: &Schema) -> bool
    ensures { result ≡ has_wrong_type statement.now schema.now }
{
    match statement {
        Statement::CreateTable(_) => false,
        Statement::CreateIndex(_) => false,
        Statement::Insert(insert) => insert_is_mistyped(insert, schema),
        Statement::Update(update) => update_is_mistyped(update, schema),
        Statement::Delete(delete) => delete_is_mistyped(delete, schema),
        Statement::Select(select) => known_select_is_mistyped(select, schema),
    }
}

fn first_refusal(unknown: bool, taken: bool, mistyped: bool) -> Result<(), Refusal>
    ensures { result ≡ first_refusal unknown taken mistyped }
{
    if unknown {
        return Err(Refusal::UnknownName);
    }
    if taken {
        return Err(Refusal::NameTaken);
    }
    if mistyped {
        return Err(Refusal::WrongType);
    }
    Ok(())
}

/// Checks the names and types of the statement; `snapshot` is the number of `current_snapshot()`. Refused for the first of
/// these that holds anywhere in the statement:
/// - UnknownName: a table, a column or a key of ORDER BY that is not there, a plain column name that two tables have,
///   or `current_snapshot()` without a number.
/// - NameTaken: a name of a table or an index that exists or is reserved, a column twice, or a table twice in FROM.
/// - WrongType: a comparison of INT with TEXT, a text that is reckoned with, a value that does not fit its column, or
///   an output with more than one value for a group.
pub fn check(statement: &Statement, snapshot: Option<u32>, schema: &Schema) -> Result<(), Refusal>
    ensures { Gives (λ _. tt) result (checked statement.now snapshot schema.now) }
{
    let unknown = has_unknown_name(statement, snapshot, schema);
    let taken = takes_taken_name(statement, schema);
    first_refusal(unknown, taken, has_wrong_type(statement, schema))
}

/// Checks the names and types of the select, as `check` does those of the statement that it is.
pub fn check_select(select: &Select, snapshot: Option<u32>, schema: &Schema) -> Result<(), Refusal>
    ensures { Gives (λ _. tt) result (checked (Statement.Select select.now) snapshot schema.now) }
{
    let unknown = known_select_has_unknown(snapshot, select, schema);
    let taken = is_twice(&select.table, &select.second);
    first_refusal(unknown, taken, known_select_is_mistyped(select, schema))
}

fn names_other(table: &TableSchema, second: &Option<Name>) -> bool
    ensures { result ≡ names_other table.now second.now }
{
    match second {
        Some(name) => !(*name == table.name),
        None => false,
    }
}

fn scope_beside<'a>(table: &'a TableSchema, second: &Option<Name>) -> Scope<'a>
    ensures { result ≡ scope_beside table.now second.now }
{
    let _columns = table.columns.as_slice();
    match second {
        Some(_) => Scope::of_two(table, table),
        None => Scope::of_one(table),
    }
}

/// Checks the names and types of a select over this table, which the store does not have, whatever name its FROM gives
/// it. Refused as `check` refuses; beside this table none can stand, so that a second one is unknown, or the same
/// twice.
pub fn check_beside(select: &Select, table: &TableSchema) -> Result<(), Refusal>
    ensures { Gives (λ _. tt) result (checked_beside select.now table.now) }
{
    let scope = scope_beside(table, &select.second);
    let has_unknown = select_has_unknown(None, select, &scope);
    let unknown = names_other(table, &select.second) || has_unknown;
    let taken = is_twice(&select.table, &select.second);
    first_refusal(unknown, taken, select_is_mistyped(select, &scope))
}
