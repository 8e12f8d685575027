//! Selects in short, and what statements are made of.

ghost use Rattle.std.specs.Prelude.{◌≡◌, ◌≤◌, length, IsTrue};
ghost use Rattle.std.specs.List.{AllByRecursion, list_all};

use sql_tree::{
    Aggregate, ColumnName, Comparison, Condition, ConditionStep, Direction, Expression,
    ExpressionStep, Operand, Operator, OrderKey, Output, OutputValue, Scope, Select, SelectList,
    TableSchema,
};
use std::alloc::Global;
use std::process::Abort;
use values::{Name, Seq, Text, Value, is_name, is_text};

pub fn push<T: Drop>(rt: &impl Abort, list: &mut Seq<T>, item: T) {
    if list.push(item).is_err() {
        panic!(rt; "memory");
    }
}

pub fn name(rt: &impl Abort, alloc: Global, of: &str) -> Name {
    let bytes = Vec::from_slice(alloc, of.as_bytes()).expect(rt, "memory");
    assert!(rt; is_name(&bytes));
    Name::new(Seq::from(bytes))
}

pub fn text(rt: &impl Abort, alloc: Global, of: &str) -> Text {
    let bytes = Vec::from_slice(alloc, of.as_bytes()).expect(rt, "memory");
    assert!(rt; is_text(&bytes));
    Text::new(Seq::from(bytes))
}

/// What stands before the mark and what stands behind it; nothing where the mark is not there.
pub fn cut<'a>(text: &'a str, mark: &str) -> (&'a str, &'a str) {
    match text.split_once(mark) {
        Some(sides) => sides,
        None => (text, ""),
    }
}

/// What stands between the marks; no pieces of nothing.
pub fn pieces<'a>(rt: &impl Abort, alloc: Global, text: &'a str, mark: &str) -> Vec<&'a str> {
    let mut pieces = Vec::new(alloc);
    if text.is_empty() {
        return pieces;
    }
    for piece in text.split(mark) {
        pieces.push(piece).expect(rt, "memory");
    }
    pieces
}

// A column's name, or its table's, a dot and its own.
fn column_name(rt: &impl Abort, alloc: Global, of: &str) -> ColumnName {
    let (table, column) = match cut(of, ".") {
        (column, "") => (None, column),
        (table, column) => (Some(name(rt, alloc, table)), column),
    };
    let column = name(rt, alloc, column);
    ColumnName { table, column }
}

fn quoted(word: &str) -> Option<&str> {
    word.strip_prefix("'")?.strip_suffix("'")
}

pub fn integer(word: &str) -> Option<i64> {
    word.parse().ok()
}

/// The text in quotes or the number that the word is.
pub fn literal(rt: &impl Abort, alloc: Global, word: &str) -> Option<Value> {
    match quoted(word) {
        Some(of) => Some(Value::Text(text(rt, alloc, of))),
        None => Some(Value::Int(integer(word)?)),
    }
}

// A literal, an operator, `now` for the number of the snapshot, or a column.
fn step(rt: &impl Abort, alloc: Global, word: &str) -> ExpressionStep {
    if let Some(value) = literal(rt, alloc, word) {
        return ExpressionStep::Literal(value);
    }
    match word {
        "+" => ExpressionStep::Apply(Operator::Add),
        "-" => ExpressionStep::Apply(Operator::Subtract),
        "now" => ExpressionStep::CurrentSnapshot,
        _ => ExpressionStep::Column(column_name(rt, alloc, word)),
    }
}

/// An expression in postfix order.
pub fn expression(rt: &impl Abort, alloc: Global, of: &str) -> Expression {
    let mut steps = Seq::new(alloc);
    for word in &pieces(rt, alloc, of, " ") {
        push(rt, &mut steps, step(rt, alloc, word));
    }
    Expression::new(steps).expect(rt, "the steps of one expression")
}

fn operand(rt: &impl Abort, alloc: Global, word: &str) -> Operand {
    match step(rt, alloc, word) {
        ExpressionStep::Literal(value) => Operand::Literal(value),
        ExpressionStep::Column(name) => Operand::Column(name),
        _ => Operand::CurrentSnapshot,
    }
}

fn comparison(word: &str) -> Comparison {
    match word {
        "=" => Comparison::Equal,
        "!=" => Comparison::NotEqual,
        "<" => Comparison::Less,
        _ => Comparison::Greater,
    }
}

fn compare(rt: &impl Abort, alloc: Global, of: &str) -> ConditionStep {
    let (left, of) = cut(of, " ");
    let (by, right) = cut(of, " ");
    ConditionStep::Compare {
        left: operand(rt, alloc, left),
        comparison: comparison(by),
        right: operand(rt, alloc, right),
    }
}

/// The comparisons by `=`, `!=`, `<` or `>`, all of them joined by OR; none for no words.
pub fn condition(rt: &impl Abort, alloc: Global, of: &str) -> Option<Condition> {
    let mut steps = Seq::new(alloc);
    for of in &pieces(rt, alloc, of, ", ") {
        let joins = !steps.is_empty();
        push(rt, &mut steps, compare(rt, alloc, of));
        if joins {
            push(rt, &mut steps, ConditionStep::Or);
        }
    }
    Condition::new(steps)
}

fn value(rt: &impl Abort, alloc: Global, of: &str) -> OutputValue {
    let (kind, rest) = cut(of, " ");
    OutputValue::Aggregate(match kind {
        "rows" => Aggregate::CountRows,
        "count" => Aggregate::Count(expression(rt, alloc, rest)),
        "sum" => Aggregate::Sum(expression(rt, alloc, rest)),
        "min" => Aggregate::Min(expression(rt, alloc, rest)),
        "max" => Aggregate::Max(expression(rt, alloc, rest)),
        _ => return OutputValue::Expression(expression(rt, alloc, of)),
    })
}

fn optional_name(rt: &impl Abort, alloc: Global, of: &str) -> Option<Name> {
    match of {
        "" => None,
        of => Some(name(rt, alloc, of)),
    }
}

fn output(rt: &impl Abort, alloc: Global, of: &str) -> Output {
    let (of, name) = cut(of, " as ");
    Output {
        value: value(rt, alloc, of),
        name: optional_name(rt, alloc, name),
    }
}

/// The list of the outputs, or `*`.
pub fn list(rt: &impl Abort, alloc: Global, of: &str) -> SelectList {
    if of == "*" {
        return SelectList::All;
    }
    let mut outputs = Seq::new(alloc);
    for of in &pieces(rt, alloc, of, ", ") {
        push(rt, &mut outputs, output(rt, alloc, of));
    }
    SelectList::Outputs(outputs)
}

fn groups(rt: &impl Abort, alloc: Global, of: &str) -> Seq<ColumnName> {
    let mut names = Seq::new(alloc);
    for of in &pieces(rt, alloc, of, ", ") {
        push(rt, &mut names, column_name(rt, alloc, of));
    }
    names
}

fn direction(of: &str) -> (&str, Direction) {
    match of.strip_suffix(" desc") {
        Some(of) => (of, Direction::Descending),
        None => (of, Direction::Ascending),
    }
}

fn keys(rt: &impl Abort, alloc: Global, of: &str) -> Seq<OrderKey> {
    let mut keys = Seq::new(alloc);
    for of in &pieces(rt, alloc, of, ", ") {
        let (of, direction) = direction(of);
        let column = column_name(rt, alloc, of);
        push(rt, &mut keys, OrderKey { column, direction });
    }
    keys
}

fn is_distinct(of: &str) -> (bool, &str) {
    match of.strip_prefix("distinct ") {
        Some(rest) => (true, rest),
        None => (false, of),
    }
}

fn limit(of: &str) -> Option<u64> {
    of.parse().ok()
}

// What stands before `from` and what stands behind it; the table t where it is not there.
fn sources(of: &str) -> (&str, &str) {
    match of.split_once(" from ") {
        Some(sides) => sides,
        None => (of, "t"),
    }
}

/// `[distinct] list [from table[, second]] [where comparisons] [group columns] [order keys] [limit count]`
pub fn select(rt: &impl Abort, alloc: Global, of: &str) -> Select {
    let (of, count) = cut(of, " limit ");
    let (of, order) = cut(of, " order ");
    let (of, group) = cut(of, " group ");
    let (of, comparisons) = cut(of, " where ");
    let (of, tables) = sources(of);
    let (distinct, of) = is_distinct(of);
    let (table, second) = cut(tables, ", ");
    Select {
        distinct,
        list: list(rt, alloc, of),
        table: name(rt, alloc, table),
        second: optional_name(rt, alloc, second),
        condition: condition(rt, alloc, comparisons),
        group_by: groups(rt, alloc, group),
        order_by: keys(rt, alloc, order),
        limit: limit(count),
    }
}

/// Both tables.
pub fn beside<'a>(rt: &impl Abort, first: &'a TableSchema, second: &'a TableSchema) -> Scope<'a> {
    assert!(rt; first.columns.len() <= 16 && second.columns.len() <= 16);
    Scope::of_two(first, second)
}

/// Writes the bytes behind those that stand there.
pub fn write(rt: &impl Abort, out: &mut Vec<u8>, bytes: &[u8]) {
    out.extend_from_slice(bytes).expect(rt, "memory");
}
