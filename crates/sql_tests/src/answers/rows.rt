//! Selects over the rows of t(a INT, b TEXT) and u(a INT, c TEXT), and their answers as text.

use crate::building::{beside, cut, name, pieces, push, select, text, write};
use retro_base::Refusal;
use sql_select::Answer;
use sql_totals::Totals;
use sql_tree::{Column, Scope, Select, TableSchema};
use std::alloc::Global;
use std::process::Abort;
use values::{Kind, Row, Seq, Value, field};

fn columns(rt: &impl Abort, alloc: Global, names: &str) -> Seq<Column> {
    let mut columns = Seq::new(alloc);
    for of in &pieces(rt, alloc, names, " ") {
        let name = name(rt, alloc, of);
        let kind = Kind::Int;
        push(rt, &mut columns, Column { name, kind });
    }
    columns
}

fn table(rt: &impl Abort, alloc: Global, of: &str, names: &str) -> TableSchema {
    TableSchema {
        name: name(rt, alloc, of),
        columns: columns(rt, alloc, names),
    }
}

/// A row of a table: an integer and a text.
pub type Pair = (i64, &'static str);

fn row(rt: &impl Abort, alloc: Global, pair: Pair) -> Row {
    let mut row = Seq::new(alloc);
    push(rt, &mut row, Value::Int(pair.0));
    push(rt, &mut row, Value::Text(text(rt, alloc, pair.1)));
    row
}

fn rows(rt: &impl Abort, alloc: Global, pairs: &[Pair]) -> Seq<Row> {
    let mut rows = Seq::new(alloc);
    for pair in pairs {
        push(rt, &mut rows, row(rt, alloc, *pair));
    }
    rows
}

// The values of a row with commas between them, and a semicolon at the end.
fn write_row(rt: &impl Abort, alloc: Global, row: &Row, out: &mut Vec<u8>) {
    for (i, value) in row.as_slice().iter().enumerate() {
        if i > 0 {
            write(rt, out, b",");
        }
        field(alloc, value, out).expect(rt, "memory");
    }
    write(rt, out, b";");
}

fn write_rows(rt: &impl Abort, alloc: Global, answer: &Answer, out: &mut Vec<u8>) {
    for row in answer.rows.as_slice() {
        write_row(rt, alloc, row, out);
    }
}

fn refusal_name(refusal: Refusal) -> &'static str {
    refusal.name()
}

// The rows of an answer, or the name of the refusal.
fn answer_text(rt: &impl Abort, alloc: Global, answer: Result<Answer, Refusal>) -> Vec<u8> {
    let mut out = Vec::new(alloc);
    match &answer {
        Ok(answer) => write_rows(rt, alloc, answer, &mut out),
        Err(refusal) => write(rt, &mut out, refusal_name(*refusal).as_bytes()),
    }
    out
}

// A select over the rows of one table is answered at snapshot 7, and one over those of two tables with no snapshot.
fn answer(
    rt: &impl Abort,
    alloc: Global,
    scope: &Scope<'_>,
    firsts: &[Row],
    seconds: Option<&[Row]>,
    query: &str,
    names: &str,
) -> Vec<u8> {
    let tree = select(rt, alloc, query);
    let names = columns(rt, alloc, names);
    let snapshot = if seconds.is_none() { Some(7) } else { None };
    let answer = sql_select::select(alloc, &tree, scope, names, snapshot, firsts, seconds);
    answer_text(rt, alloc, answer)
}

// Each line is a select, the names of its answer's columns, and the answer: its rows, each ended by a semicolon, or the
// name of the refusal.
fn answer_all(
    rt: &impl Abort,
    alloc: Global,
    scope: &Scope<'_>,
    firsts: &[Row],
    seconds: Option<&[Row]>,
    lines: &str,
) {
    for line in &pieces(rt, alloc, lines, "\n    ") {
        let (query, rest) = cut(line, " | ");
        let (names, want) = cut(rest, " |");
        let found = answer(rt, alloc, scope, firsts, seconds, query, names);
        assert_eq!(rt; found.as_slice(), want.trim_start().as_bytes(), "{line}");
    }
}

/// Answers the select of each line over the rows of t, at snapshot 7.
pub fn answers(rt: &impl Abort, alloc: Global, pairs: &[Pair], lines: &str) {
    let t = table(rt, alloc, "t", "a b");
    let rows = rows(rt, alloc, pairs);
    answer_all(rt, alloc, &Scope::of_one(&t), rows.as_slice(), None, lines);
}

/// Answers the select of each line over the pairs of rows of t and u, with no snapshot.
pub fn join_answers(
    rt: &impl Abort,
    alloc: Global,
    firsts: &[Pair],
    seconds: &[Pair],
    lines: &str,
) {
    let t = table(rt, alloc, "t", "a b");
    let u = table(rt, alloc, "u", "a c");
    let scope = beside(rt, &t, &u);
    let firsts = rows(rt, alloc, firsts);
    let seconds = rows(rt, alloc, seconds);
    answer_all(
        rt,
        alloc,
        &scope,
        firsts.as_slice(),
        Some(seconds.as_slice()),
        lines,
    );
}

// The select's answer where its aggregates are added up row by row at snapshot 7; none where it has others.
fn added_up(
    alloc: Global,
    tree: &Select,
    scope: &Scope<'_>,
    rows: &[Row],
) -> Result<Option<Answer>, Refusal> {
    let Some(mut totals) = Totals::bind(alloc, tree, scope, Some(7))? else {
        return Ok(None);
    };
    for row in rows {
        totals.add(alloc, row.as_slice())?;
    }
    let answer = totals.answer(alloc, tree, scope, Seq::new(alloc))?;
    Ok(Some(answer))
}

fn added_text(rt: &impl Abort, alloc: Global, added: Result<Option<Answer>, Refusal>) -> Vec<u8> {
    match added.transpose() {
        Some(answer) => answer_text(rt, alloc, answer),
        None => Vec::from_slice(alloc, b"none").expect(rt, "memory"),
    }
}

/// Adds up the aggregates of each line's select over the rows of t. A line is the select and the answer, or `none`.
pub fn totals(rt: &impl Abort, alloc: Global, pairs: &[Pair], lines: &str) {
    let t = table(rt, alloc, "t", "a b");
    let rows = rows(rt, alloc, pairs);
    for line in &pieces(rt, alloc, lines, "\n    ") {
        let (query, want) = cut(line, " |");
        let tree = select(rt, alloc, query);
        let added = added_up(alloc, &tree, &Scope::of_one(&t), rows.as_slice());
        let found = added_text(rt, alloc, added);
        assert_eq!(rt; found.as_slice(), want.trim_start().as_bytes(), "{line}");
    }
}
