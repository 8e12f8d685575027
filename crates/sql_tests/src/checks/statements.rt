//! Statements that change tables or select from them, in short, and their refusals.

use crate::building::{condition, cut, expression, integer, literal, name, pieces, push, select};
use retro_base::Refusal;
use sql_check::check;
use sql_tree::{
    Assignment, Column, CreateIndex, CreateTable, Delete, IndexSchema, Insert, Schema, Statement,
    TableSchema, Update,
};
use std::alloc::Global;
use std::process::Abort;
use values::{Kind, Row, Seq};

fn column(rt: &impl Abort, alloc: Global, of: &str) -> Column {
    let (of, kind) = cut(of, " ");
    let name = name(rt, alloc, of);
    let kind = if kind == "INT" { Kind::Int } else { Kind::Text };
    Column { name, kind }
}

fn columns(rt: &impl Abort, alloc: Global, of: &str) -> Seq<Column> {
    let mut columns = Seq::new(alloc);
    for of in &pieces(rt, alloc, of, ", ") {
        push(rt, &mut columns, column(rt, alloc, of));
    }
    columns
}

/// The table of that name and those columns, each with its type behind its name.
pub fn table(rt: &impl Abort, alloc: Global, of: &str, listed: &str) -> TableSchema {
    TableSchema {
        name: name(rt, alloc, of),
        columns: columns(rt, alloc, listed),
    }
}

fn schema(rt: &impl Abort, alloc: Global) -> Schema {
    let mut tables = Seq::new(alloc);
    push(rt, &mut tables, table(rt, alloc, "t", "a INT, b TEXT"));
    push(rt, &mut tables, table(rt, alloc, "u", "a INT, c TEXT"));
    let mut indexes = Seq::new(alloc);
    let index = IndexSchema {
        name: name(rt, alloc, "i"),
        table: name(rt, alloc, "t"),
        column: name(rt, alloc, "a"),
    };
    push(rt, &mut indexes, index);
    Schema { tables, indexes }
}

fn row(rt: &impl Abort, alloc: Global, of: &str) -> Row {
    let mut row = Seq::new(alloc);
    for word in &pieces(rt, alloc, of, " ") {
        let value = literal(rt, alloc, word).expect(rt, "a literal");
        push(rt, &mut row, value);
    }
    row
}

fn rows(rt: &impl Abort, alloc: Global, of: &str) -> Seq<Row> {
    let mut rows = Seq::new(alloc);
    for of in &pieces(rt, alloc, of, "; ") {
        push(rt, &mut rows, row(rt, alloc, of));
    }
    rows
}

fn assignment(rt: &impl Abort, alloc: Global, of: &str) -> Assignment {
    let (column, value) = cut(of, " = ");
    Assignment {
        column: name(rt, alloc, column),
        value: expression(rt, alloc, value),
    }
}

fn assignments(rt: &impl Abort, alloc: Global, of: &str) -> Seq<Assignment> {
    let mut assignments = Seq::new(alloc);
    for of in &pieces(rt, alloc, of, ", ") {
        push(rt, &mut assignments, assignment(rt, alloc, of));
    }
    assignments
}

fn create_table(rt: &impl Abort, alloc: Global, of: &str) -> CreateTable {
    let (table, listed) = cut(of, " ");
    CreateTable {
        table: name(rt, alloc, table),
        columns: columns(rt, alloc, listed),
    }
}

fn create_index(rt: &impl Abort, alloc: Global, of: &str) -> CreateIndex {
    let (index, of) = cut(of, " ");
    let (table, column) = cut(of, " ");
    CreateIndex {
        index: name(rt, alloc, index),
        table: name(rt, alloc, table),
        column: name(rt, alloc, column),
    }
}

fn insert(rt: &impl Abort, alloc: Global, of: &str) -> Insert {
    let (table, tuples) = cut(of, " ");
    Insert {
        table: name(rt, alloc, table),
        tuples: rows(rt, alloc, tuples),
    }
}

fn update(rt: &impl Abort, alloc: Global, of: &str) -> Update {
    let (of, pairs) = cut(of, " where ");
    let (table, set) = cut(of, " ");
    Update {
        table: name(rt, alloc, table),
        assignments: assignments(rt, alloc, set),
        condition: condition(rt, alloc, pairs),
    }
}

fn delete(rt: &impl Abort, alloc: Global, of: &str) -> Delete {
    let (table, pairs) = cut(of, " where ");
    Delete {
        table: name(rt, alloc, table),
        condition: condition(rt, alloc, pairs),
    }
}

// `table name columns`, `index name table column`, `insert table tuples`, `update table assignments [where pairs]`,
// `delete table [where pairs]` or a select.
fn statement(rt: &impl Abort, alloc: Global, of: &str) -> Statement {
    let (kind, rest) = cut(of, " ");
    match kind {
        "table" => Statement::CreateTable(create_table(rt, alloc, rest)),
        "index" => Statement::CreateIndex(create_index(rt, alloc, rest)),
        "insert" => Statement::Insert(insert(rt, alloc, rest)),
        "update" => Statement::Update(update(rt, alloc, rest)),
        "delete" => Statement::Delete(delete(rt, alloc, rest)),
        _ => Statement::Select(select(rt, alloc, rest)),
    }
}

fn number(answer: Result<(), Refusal>) -> u8 {
    match answer {
        Ok(()) => 0,
        Err(refusal) => refusal.number(),
    }
}

fn refusal(
    rt: &impl Abort,
    alloc: Global,
    of: &str,
    snapshot: Option<u32>,
    schema: &Schema,
) -> i64 {
    let statement = statement(rt, alloc, of);
    i64::from(number(check(&statement, snapshot, schema)))
}

/// Checks the statement of each line; it is refused by the number behind the arrow, or by none where the number is 0.
pub fn refuses(rt: &impl Abort, alloc: Global, snapshot: Option<u32>, lines: &str) {
    let schema = schema(rt, alloc);
    for line in &pieces(rt, alloc, lines, "\n    ") {
        let (of, want) = cut(line, " => ");
        let number = refusal(rt, alloc, of, snapshot, &schema);
        assert_eq!(rt; Some(number), integer(want), "{line}");
    }
}
