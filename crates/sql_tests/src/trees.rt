//! Values and truths worked out by hand, and places of columns.

ghost use Rattle.values.specs.Name.{IsName, begins_word, continues_word};
ghost use Rattle.values.specs.Text.{IsText};

use evaluation::{BoundCondition, BoundExpression, JoinedRow, Stack};
use retro_base::Refusal;
use sql_tree::{
    Column, ColumnName, Comparison, Condition, ConditionStep, Expression, ExpressionStep, Operand,
    Operator, Scope, TableSchema,
};
use std::alloc::{AllocError, Global};
use std::process::Abort;
use std::test::Fail;
use values::{Duplicate, Kind, Name, Seq, Text, Value};

// A name of one letter.
fn name(alloc: Global, letter: u8) -> Result<Name, AllocError> {
    let mut bytes = Seq::new(alloc);
    bytes.push(b'a' + letter % 26)?;
    Ok(Name::new(bytes))
}

fn table(alloc: Global, letter: u8, columns: &[u8]) -> Result<TableSchema, AllocError> {
    let mut list = Seq::new(alloc);
    for column in columns {
        list.push(Column {
            name: name(alloc, *column)?,
            kind: Kind::Int,
        })?;
    }
    Ok(TableSchema {
        name: name(alloc, letter)?,
        columns: list,
    })
}

#[derive(Clone, Copy)]
enum Step {
    Number(i64),
    Empty,
    Column(u8),
    Now,
    Do(Operator),
}

fn step_of(alloc: Global, step: Step) -> Result<ExpressionStep, AllocError> {
    match step {
        Step::Number(number) => Ok(ExpressionStep::Literal(Value::Int(number))),
        Step::Empty => Ok(ExpressionStep::Literal(Value::Text(Text::new(Seq::new(alloc))))),
        Step::Column(letter) => Ok(ExpressionStep::Column(ColumnName {
            table: None,
            column: name(alloc, letter)?,
        })),
        Step::Now => Ok(ExpressionStep::CurrentSnapshot),
        Step::Do(operator) => Ok(ExpressionStep::Apply(operator)),
    }
}

fn expression(alloc: Global, steps: &[Step]) -> Result<Option<Expression>, AllocError> {
    let mut list = Seq::new(alloc);
    for of in steps {
        list.push(step_of(alloc, *of)?)?;
    }
    Ok(Expression::new(list))
}

#[derive(Clone, Copy, Debug, PartialEq, Eq)]
enum Outcome {
    Number(i64),
    Text,
    Refused(u8),
    NoExpression,
}

// What the steps give at a row of one column, a, with the value 40, at snapshot 3.
fn worked_out(alloc: Global, steps: &[Step]) -> Result<Outcome, AllocError> {
    let source = table(alloc, 19, &[0])?;
    let scope = Scope::of_one(&source);
    let Some(of) = expression(alloc, steps)? else {
        return Ok(Outcome::NoExpression);
    };
    let copy = of.copy(alloc)?;
    let bound = BoundExpression::bind(alloc, &scope, Some(3), &copy)?;
    let values = [Value::Int(40)];
    let mut stack = Stack::new(alloc);
    match bound.value(alloc, &JoinedRow::of_one(&values), &mut stack) {
        Ok(Value::Int(number)) => Ok(Outcome::Number(number)),
        Ok(Value::Text(_)) => Ok(Outcome::Text),
        Err(refusal) => Ok(Outcome::Refused(refusal.number())),
    }
}

#[test]
fn expressions_are_worked_out_in_their_order(rt: HostRuntime) -> Result<(), Fail> {
    use Operator::*;
    use Step::*;
    let table: [(&[Step], Outcome); 9] = [
        (
            &[Number(7), Number(2), Number(3), Do(Multiply), Do(Subtract)],
            Outcome::Number(1),
        ),
        (
            &[Number(7), Number(2), Do(Subtract), Number(3), Do(Multiply)],
            Outcome::Number(15),
        ),
        (&[Column(0), Now, Do(Add)], Outcome::Number(43)),
        (
            &[Number(9223372036854775807), Number(1), Do(Add)],
            Outcome::Refused(23),
        ),
        (&[Empty, Number(1), Do(Add)], Outcome::Refused(22)),
        (&[Column(1)], Outcome::Refused(20)),
        (&[Empty], Outcome::Text),
        (&[Number(1), Number(2)], Outcome::NoExpression),
        (&[Number(1), Do(Add)], Outcome::NoExpression),
    ];
    for (steps, want) in table {
        assert_eq!(rt; worked_out(rt.alloc(), steps)?, want);
    }
    Ok(())
}

// Whether 2 and 5 compare so, under NOT.
fn not_so(alloc: Global, comparison: Comparison) -> Result<bool, Refusal> {
    let source = table(alloc, 19, &[])?;
    let mut steps = Seq::new(alloc);
    steps.push(ConditionStep::Compare {
        left: Operand::Literal(Value::Int(2)),
        comparison,
        right: Operand::Literal(Value::Int(5)),
    })?;
    steps.push(ConditionStep::Not)?;
    match Condition::new(steps) {
        Some(condition) => {
            let bound = BoundCondition::bind(alloc, &Scope::of_one(&source), None, &condition)?;
            bound.holds(&JoinedRow::empty(), &mut Stack::new(alloc))
        }
        None => Err(Refusal::OutOfMemory),
    }
}

#[test]
fn comparisons_of_two_and_five(rt: HostRuntime) -> Result<(), Fail> {
    for (comparison, want) in [
        (Comparison::Equal, true),
        (Comparison::NotEqual, false),
        (Comparison::Less, false),
        (Comparison::AtMost, false),
        (Comparison::Greater, true),
        (Comparison::AtLeast, true),
    ] {
        assert_eq!(rt; not_so(rt.alloc(), comparison).ok(), Some(want));
    }
    Ok(())
}

#[test]
fn a_plain_name_of_two_columns_has_no_place(rt: HostRuntime) -> Result<(), Fail> {
    let alloc = rt.alloc();
    let first = table(alloc, 19, &[0, 1])?;
    let second = table(alloc, 20, &[1, 2])?;
    let scope = Scope::of_two(&first, &second);
    for (of, column, want) in [
        (None, 0, Some(0)),
        (None, 1, None),
        (None, 2, Some(3)),
        (None, 3, None),
        (Some(19), 1, Some(1)),
        (Some(20), 1, Some(2)),
        (Some(21), 1, None),
    ] {
        let named = ColumnName {
            table: match of {
                Some(letter) => Some(name(alloc, letter)?),
                None => None,
            },
            column: name(alloc, column)?,
        };
        assert_eq!(rt; scope.place(&named), want);
    }
    assert_eq!(rt; scope.columns(alloc)?.len(), 4);
    Ok(())
}
