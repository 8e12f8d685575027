//! What each action puts together of the last parts, but of a select.

ghost use Rattle.std.specs.Prelude.{◌≡◌, ◌∷◌, [], IfOk, IsTrue, MatchBool, None, Some};
ghost use Rattle.sql_build.specs.Parts.{call, line, Makes, negative, plain, row, table, term, update};
ghost use Rattle.sql_parts.specs.declared.action.LineAction.TheVariants as line_action;
ghost use Rattle.sql_parts.specs.declared.action.RowAction.TheVariants as row_action;
ghost use Rattle.sql_parts.specs.declared.action.TableAction.TheVariants as table_action;
ghost use Rattle.sql_parts.specs.declared.action.UpdateAction.TheVariants as update_action;
ghost use Rattle.sql_parts.specs.declared.part.Part.TheVariants as part;

use sql_parts::{
    Apart, LineAction, Mechanism, Parsed, Part, Parts, RowAction, RqlCall, TableAction, TermAction,
    UpdateAction,
};
use sql_tree::{
    Assignment, Column, ColumnName, CreateIndex, CreateTable, Delete, Insert, Operand, Statement,
    Update,
};
use std::alloc::{AllocError, Global};
use values::{Name, Seq, Text, Value};

/// A list of one item.
pub fn one<T: Drop>(alloc: Global, item: T) -> Result<Seq<T>, AllocError>
    ensures { IfOk result (λ list. list ≡ item ∷ []) }
{
    let mut list = Seq::new(alloc);
    list.push(item)?;
    Ok(list)
}

fn behind_minus(number: i64) -> i64
    ensures { result ≡ negative number }
{
    if number < 0 { number } else { -number }
}

/// What a line says, as a part.
pub fn said(alloc: Global, line: Parsed) -> Result<Option<Part>, AllocError>
    ensures { IfOk result (λ said. said ≡ Some (part.Parsed line)) }
{
    Ok(Some(Part::Parsed(Apart::new(alloc, line)?)))
}

/// A line that is a statement.
pub fn plain(alloc: Global, statement: Statement) -> Result<Option<Part>, AllocError>
    ensures { IfOk result (λ said. said ≡ Some (plain statement)) }
{
    said(alloc, Parsed::Plain(statement))
}

/// Puts literals, columns and operands above the other parts; false where the last are not those that the action wants.
pub fn term(action: TermAction, parts: &mut Parts) -> Result<bool, AllocError>
    ensures { IfOk result (λ done. MatchBool done
        (term action parts.old ≡ Some parts.new)
        (term action parts.old ≡ None)) }
{
    match action {
        TermAction::Integer => match parts.number() {
            Some(number) => put_literal(Value::Int(number), parts),
            None => Ok(false),
        },
        TermAction::Negative => match parts.number() {
            Some(number) => put_literal(Value::Int(behind_minus(number)), parts),
            None => Ok(false),
        },
        TermAction::Text => match parts.text() {
            Some(text) => put_literal(Value::Text(text), parts),
            None => Ok(false),
        },
        TermAction::PlainColumn => match parts.name() {
            Some(column) => put_column(column, None, parts),
            None => Ok(false),
        },
        TermAction::QualifiedColumn => match (parts.name(), parts.name()) {
            (Some(column), Some(table)) => put_column(column, Some(table), parts),
            (_column, _table) => Ok(false),
        },
        TermAction::LiteralOperand => match parts.literal() {
            Some(literal) => put_operand(Operand::Literal(literal), parts),
            None => Ok(false),
        },
        TermAction::ColumnOperand => match parts.column_name() {
            Some(column) => put_operand(Operand::Column(column), parts),
            None => Ok(false),
        },
        TermAction::CurrentSnapshot => put_operand(Operand::CurrentSnapshot, parts),
    }
}

fn put_literal(literal: Value, parts: &mut Parts) -> Result<bool, AllocError>
    ensures { IfOk result (λ done. IsTrue done × (parts.new ≡ part.Literal literal ∷ parts.old)) }
{
    parts.push(Part::Literal(literal))?;
    Ok(true)
}

fn put_column(column: Name, table: Option<Name>, parts: &mut Parts) -> Result<bool, AllocError>
    ensures { IfOk result (λ done. IsTrue done
        × (parts.new ≡ part.ColumnName (record { table = table; column = column }) ∷ parts.old)) }
{
    parts.push(Part::ColumnName(ColumnName { table, column }))?;
    Ok(true)
}

fn put_operand(operand: Operand, parts: &mut Parts) -> Result<bool, AllocError>
    ensures { IfOk result (λ done. IsTrue done × (parts.new ≡ part.Operand operand ∷ parts.old)) }
{
    parts.push(Part::Operand(operand))?;
    Ok(true)
}

/// CREATE TABLE and CREATE INDEX.
pub fn table(
    alloc: Global,
    action: TableAction,
    parts: &mut Parts,
) -> Result<Option<Part>, AllocError>
    ensures { IfOk result (λ part. Makes part parts.new (table action parts.old)) }
{
    match action {
        TableAction::Column(kind) => match parts.name() {
            Some(name) => Ok(Some(Part::Column(Column { name, kind }))),
            None => Ok(None),
        },
        TableAction::CreateTable => create_table(alloc, parts),
        TableAction::NextColumn => next_column(parts),
        TableAction::Finish => match parts.create_table() {
            Some(create) => plain(alloc, Statement::CreateTable(create)),
            None => Ok(None),
        },
        TableAction::CreateIndex => index(alloc, parts),
    }
}

fn create_table(alloc: Global, parts: &mut Parts) -> Result<Option<Part>, AllocError>
    ensures { IfOk result (λ part. Makes part parts.new (table table_action.CreateTable parts.old)) }
{
    match (parts.column(), parts.name()) {
        (Some(column), Some(table)) => Ok(Some(Part::CreateTable(CreateTable {
            table,
            columns: one(alloc, column)?,
        }))),
        (_column, _table) => Ok(None),
    }
}

fn next_column(parts: &mut Parts) -> Result<Option<Part>, AllocError>
    ensures { IfOk result (λ part. Makes part parts.new (table table_action.NextColumn parts.old)) }
{
    match (parts.column(), parts.create_table()) {
        (Some(column), Some(mut create)) => {
            create.columns.push(column)?;
            Ok(Some(Part::CreateTable(create)))
        }
        (_column, _create) => Ok(None),
    }
}

fn index(alloc: Global, parts: &mut Parts) -> Result<Option<Part>, AllocError>
    ensures { IfOk result (λ part. Makes part parts.new (table table_action.CreateIndex parts.old)) }
{
    match (parts.name(), parts.name(), parts.name()) {
        (Some(column), Some(table), Some(index)) => plain(
            alloc,
            Statement::CreateIndex(CreateIndex {
                index,
                table,
                column,
            }),
        ),
        (_column, _table, _index) => Ok(None),
    }
}

/// INSERT.
pub fn row(alloc: Global, action: RowAction, parts: &mut Parts) -> Result<Option<Part>, AllocError>
    ensures { IfOk result (λ part. Makes part parts.new (row action parts.old)) }
{
    match action {
        RowAction::FirstValue => match parts.literal() {
            Some(value) => Ok(Some(Part::Row(one(alloc, value)?))),
            None => Ok(None),
        },
        RowAction::NextValue => next_value(parts),
        RowAction::Insert => insert(alloc, parts),
        RowAction::NextTuple => next_tuple(parts),
        RowAction::Finish => match parts.insert() {
            Some(insert) => plain(alloc, Statement::Insert(insert)),
            None => Ok(None),
        },
    }
}

fn next_value(parts: &mut Parts) -> Result<Option<Part>, AllocError>
    ensures { IfOk result (λ part. Makes part parts.new (row row_action.NextValue parts.old)) }
{
    match (parts.literal(), parts.row()) {
        (Some(value), Some(mut row)) => {
            row.push(value)?;
            Ok(Some(Part::Row(row)))
        }
        (_value, _row) => Ok(None),
    }
}

fn insert(alloc: Global, parts: &mut Parts) -> Result<Option<Part>, AllocError>
    ensures { IfOk result (λ part. Makes part parts.new (row row_action.Insert parts.old)) }
{
    match (parts.row(), parts.name()) {
        (Some(row), Some(table)) => Ok(Some(Part::Insert(Insert {
            table,
            tuples: one(alloc, row)?,
        }))),
        (_row, _table) => Ok(None),
    }
}

fn next_tuple(parts: &mut Parts) -> Result<Option<Part>, AllocError>
    ensures { IfOk result (λ part. Makes part parts.new (row row_action.NextTuple parts.old)) }
{
    match (parts.row(), parts.insert()) {
        (Some(row), Some(mut insert)) => {
            insert.tuples.push(row)?;
            Ok(Some(Part::Insert(insert)))
        }
        (_row, _insert) => Ok(None),
    }
}

/// UPDATE and DELETE.
pub fn update(
    alloc: Global,
    action: UpdateAction,
    parts: &mut Parts,
) -> Result<Option<Part>, AllocError>
    ensures { IfOk result (λ part. Makes part parts.new (update action parts.old)) }
{
    match action {
        UpdateAction::Assign => Ok(assignment(parts)),
        UpdateAction::Update => first_assignment(alloc, parts),
        UpdateAction::NextAssignment => next_assignment(parts),
        UpdateAction::Finish => finished_update(alloc, parts),
        UpdateAction::Delete => delete(alloc, parts),
    }
}

fn assignment(parts: &mut Parts) -> Option<Part>
    ensures { Makes result parts.new (update update_action.Assign parts.old) }
{
    let value = parts.expression()?;
    let column = parts.name()?;
    Some(Part::Assignment(Assignment { column, value }))
}

fn first_assignment(alloc: Global, parts: &mut Parts) -> Result<Option<Part>, AllocError>
    ensures { IfOk result (λ part. Makes part parts.new (update update_action.Update parts.old)) }
{
    match (parts.assignment(), parts.name()) {
        (Some(assignment), Some(table)) => Ok(Some(Part::Update(Update {
            table,
            assignments: one(alloc, assignment)?,
            condition: None,
        }))),
        (_assignment, _table) => Ok(None),
    }
}

fn next_assignment(parts: &mut Parts) -> Result<Option<Part>, AllocError>
    ensures { IfOk result (λ part. Makes part parts.new (update update_action.NextAssignment parts.old)) }
{
    match (parts.assignment(), parts.update()) {
        (Some(assignment), Some(mut update)) => {
            update.assignments.push(assignment)?;
            Ok(Some(Part::Update(update)))
        }
        (_assignment, _update) => Ok(None),
    }
}

fn finished_update(alloc: Global, parts: &mut Parts) -> Result<Option<Part>, AllocError>
    ensures { IfOk result (λ part. Makes part parts.new (update update_action.Finish parts.old)) }
{
    match (parts.condition(), parts.update()) {
        (Some(condition), Some(mut update)) => {
            update.condition = condition;
            plain(alloc, Statement::Update(update))
        }
        (_condition, _update) => Ok(None),
    }
}

fn delete(alloc: Global, parts: &mut Parts) -> Result<Option<Part>, AllocError>
    ensures { IfOk result (λ part. Makes part parts.new (update update_action.Delete parts.old)) }
{
    match (parts.condition(), parts.name()) {
        (Some(condition), Some(table)) => {
            plain(alloc, Statement::Delete(Delete { table, condition }))
        }
        (_condition, _table) => Ok(None),
    }
}

/// Lines that are no statements.
pub fn line(
    alloc: Global,
    action: LineAction,
    parts: &mut Parts,
) -> Result<Option<Part>, AllocError>
    ensures { IfOk result (λ part. Makes part parts.new (line action parts.old)) }
{
    match action {
        LineAction::Argument => argument(alloc, parts),
        LineAction::Commit => said(alloc, Parsed::Commit(None)),
        LineAction::CommitUnlabelled => {
            let label = Text::new(Seq::new(alloc));
            said(alloc, Parsed::Commit(Some(label)))
        }
        LineAction::CommitLabelled => match parts.text() {
            Some(label) => said(alloc, Parsed::Commit(Some(label))),
            None => Ok(None),
        },
        LineAction::Rollback => said(alloc, Parsed::Rollback),
        LineAction::DropBelow => match parts.number() {
            Some(number) => said(alloc, Parsed::DropBelow(number.unsigned_abs())),
            None => Ok(None),
        },
        LineAction::CollateData => call(alloc, Mechanism::CollateData, parts),
        LineAction::AggregateDataInVariable => in_variable(alloc, parts),
        LineAction::AggregateDataInTable => in_table(alloc, parts),
        LineAction::CollateDataIntoIntervals => {
            call(alloc, Mechanism::CollateDataIntoIntervals, parts)
        }
    }
}

fn argument(alloc: Global, parts: &mut Parts) -> Result<Option<Part>, AllocError>
    ensures { IfOk result (λ part. Makes part parts.new (line line_action.Argument parts.old)) }
{
    match parts.text() {
        Some(text) => {
            let bytes = Seq::from(Vec::from_slice(alloc, text.bytes())?);
            Ok(Some(Part::Argument(bytes)))
        }
        None => Ok(None),
    }
}

// A call of a mechanism with its first three arguments.
fn call(alloc: Global, mechanism: Mechanism, parts: &mut Parts) -> Result<Option<Part>, AllocError>
    ensures { IfOk result (λ part. Makes part parts.new (call mechanism parts.old)) }
{
    match (parts.argument(), parts.argument(), parts.argument()) {
        (Some(table), Some(query), Some(snapshots)) => {
            let call = RqlCall {
                snapshots,
                query,
                table,
                mechanism,
            };
            said(alloc, Parsed::Rql(call))
        }
        (_table, _query, _snapshots) => Ok(None),
    }
}

fn in_variable(alloc: Global, parts: &mut Parts) -> Result<Option<Part>, AllocError>
    ensures { IfOk result (λ part. Makes part parts.new (line line_action.AggregateDataInVariable parts.old)) }
{
    match parts.argument() {
        Some(function) => call(
            alloc,
            Mechanism::AggregateDataInVariable { function },
            parts,
        ),
        None => Ok(None),
    }
}

fn in_table(alloc: Global, parts: &mut Parts) -> Result<Option<Part>, AllocError>
    ensures { IfOk result (λ part. Makes part parts.new (line line_action.AggregateDataInTable parts.old)) }
{
    match parts.argument() {
        Some(pairs) => call(alloc, Mechanism::AggregateDataInTable { pairs }, parts),
        None => Ok(None),
    }
}
