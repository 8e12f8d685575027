//! The bounds that a condition sets to a column.

ghost use Rattle.std.specs.Prelude.{◌≡◌, ◌∷◌, [], IfOk, OnOk};
ghost use Rattle.sql_exec.specs.Bounds.{all_bounds, bounds_of, bounds_set, column_bounds, compared_bounds, higher};
ghost use Rattle.sql_exec.specs.Bounds.{is_below, is_of, lower, narrower, step_bounds, top, under, unbounded, turned};

use sql_tree::{ColumnName, Comparison, Condition, ConditionStep, Operand, Scope};
use std::alloc::{AllocError, Global};
use std::marker::Model;
use values::{Duplicate, Kind, Value, compare};

/// The least and the greatest value that a column can have where a condition is true, as far as they are known.
#[derive(Debug, Drop)]
pub struct Bounds {
    pub low: Option<Value>,
    pub high: Option<Value>,
}

/// The column that bounds are asked for: its place, and the kind of its values.
#[derive(Clone, Copy, Debug)]
pub(crate) struct BoundColumn {
    pub place: usize,
    pub kind: Kind,
}

/// Bounds of parts of a condition, the last first. Contracts see the list.
#[derive(Drop)]
struct BoundsStack {
    items: Vec<Bounds>,
}

impl Model for BoundsStack {
    ghost use Rattle.std.specs.Prelude.{List, reverse};
    ghost use Rattle.sql_exec.specs.declared.bounds.Bounds.{Bounds};

    ghost Value = { List Bounds };

    ghost view = { λ s. reverse s.items.items };
}

impl BoundsStack {
    fn push(&mut self, bounds: Bounds) -> Result<(), AllocError>
        ensures { OnOk result (self.new ≡ bounds ∷ self.old) }
    {
        self.items.push(bounds)?;
        Ok(())
    }

    // The last bounds, and none where there are no more.
    fn pop(&mut self) -> Bounds
        ensures bounds { result ≡ top self.old }
        ensures rest { self.new ≡ under self.old }
    {
        match self.items.pop() {
            Some(bounds) => bounds,
            None => no_bounds(),
        }
    }
}

/// The bounds that a condition over the columns of a scope sets to a column.
#[tactic(auto, using(crate::proofs::Bounding::bounds_left))]
pub(crate) fn bounds_of(
    alloc: Global,
    scope: &Scope<'_>,
    column: BoundColumn,
    condition: &Condition,
) -> Result<Bounds, AllocError>
    ensures { IfOk result (λ bounds. bounds ≡ bounds_of scope.now column condition.now) }
{
    bounds_left(alloc, scope, column, condition.steps())
}

// The bounds that the steps leave.
fn bounds_left(
    alloc: Global,
    scope: &Scope<'_>,
    column: BoundColumn,
    steps: &[ConditionStep],
) -> Result<Bounds, AllocError>
    ensures { IfOk result (λ bounds. bounds ≡ top (all_bounds scope.now column steps.now [])) }
{
    let mut stack = BoundsStack {
        items: Vec::new(alloc),
    };
    for step in steps {
        let bounds = step_bounds(alloc, scope, column, step, &mut stack)?;
        stack.push(bounds)?;
    }
    Ok(stack.pop())
}

// The bounds that a step puts on the stack, with those gone that it takes.
fn step_bounds(
    alloc: Global,
    scope: &Scope<'_>,
    column: BoundColumn,
    step: &ConditionStep,
    stack: &mut BoundsStack,
) -> Result<Bounds, AllocError>
    ensures { IfOk result (λ bounds. bounds ∷ stack.new ≡ step_bounds scope.now column step.now stack.old) }
{
    match step {
        ConditionStep::Compare {
            left,
            comparison,
            right,
        } => compared_bounds(alloc, scope, column, left, *comparison, right),
        ConditionStep::Not => {
            let _bounds = stack.pop();
            Ok(no_bounds())
        }
        ConditionStep::And => {
            let right = stack.pop();
            let left = stack.pop();
            Ok(narrower(left, right))
        }
        ConditionStep::Or => {
            let _right = stack.pop();
            let _left = stack.pop();
            Ok(no_bounds())
        }
    }
}

fn no_bounds() -> Bounds
    ensures { result ≡ unbounded }
{
    Bounds {
        low: None,
        high: None,
    }
}

// The bounds that a comparison sets: one of the column with a literal, either way round.
fn compared_bounds(
    alloc: Global,
    scope: &Scope<'_>,
    column: BoundColumn,
    left: &Operand,
    comparison: Comparison,
    right: &Operand,
) -> Result<Bounds, AllocError>
    ensures { IfOk result (λ bounds. bounds ≡ compared_bounds scope.now column left.now comparison right.now) }
{
    match (left, right) {
        (Operand::Column(name), Operand::Literal(value)) => {
            column_bounds(alloc, scope, column, name, comparison, value)
        }
        (Operand::Literal(value), Operand::Column(name)) => {
            column_bounds(alloc, scope, column, name, turned(comparison), value)
        }
        (_left, _right) => Ok(no_bounds()),
    }
}

// The bounds that a comparison of a named column with a value sets, where it is this column, and the value of its kind.
fn column_bounds(
    alloc: Global,
    scope: &Scope<'_>,
    column: BoundColumn,
    name: &ColumnName,
    comparison: Comparison,
    value: &Value,
) -> Result<Bounds, AllocError>
    ensures { IfOk result (λ bounds. bounds ≡ column_bounds scope.now column name.now comparison value.now) }
{
    if is_of(scope, column, name, value) {
        bounds_set(alloc, comparison, value)
    } else {
        Ok(no_bounds())
    }
}

fn is_of(scope: &Scope<'_>, column: BoundColumn, name: &ColumnName, value: &Value) -> bool
    ensures { result ≡ is_of scope.now column name.now value.now }
{
    match scope.place(name) {
        Some(place) => place == column.place && value.kind() == column.kind,
        None => false,
    }
}

fn bounds_set(alloc: Global, comparison: Comparison, value: &Value) -> Result<Bounds, AllocError>
    ensures { IfOk result (λ bounds. bounds ≡ bounds_set comparison value.now) }
{
    let (low, high) = match comparison {
        Comparison::Equal => (Some(value.copy(alloc)?), Some(value.copy(alloc)?)),
        Comparison::NotEqual => (None, None),
        Comparison::Less | Comparison::AtMost => (None, Some(value.copy(alloc)?)),
        Comparison::Greater | Comparison::AtLeast => (Some(value.copy(alloc)?), None),
    };
    Ok(Bounds { low, high })
}

// The comparison with its sides exchanged.
fn turned(comparison: Comparison) -> Comparison
    ensures { result ≡ turned comparison }
{
    match comparison {
        Comparison::Less => Comparison::Greater,
        Comparison::AtMost => Comparison::AtLeast,
        Comparison::Greater => Comparison::Less,
        Comparison::AtLeast => Comparison::AtMost,
        Comparison::Equal => Comparison::Equal,
        Comparison::NotEqual => Comparison::NotEqual,
    }
}

// Both bounds together.
fn narrower(a: Bounds, b: Bounds) -> Bounds
    ensures { result ≡ narrower a b }
{
    Bounds {
        low: higher(a.low, b.low),
        high: lower(a.high, b.high),
    }
}

fn higher(a: Option<Value>, b: Option<Value>) -> Option<Value>
    ensures { result ≡ higher a b }
{
    match (a, b) {
        (Some(a), Some(b)) => Some(if is_below(&a, &b) { b } else { a }),
        (Some(a), None) => Some(a),
        (None, b) => b,
    }
}

fn lower(a: Option<Value>, b: Option<Value>) -> Option<Value>
    ensures { result ≡ lower a b }
{
    match (a, b) {
        (Some(a), Some(b)) => Some(if is_below(&b, &a) { b } else { a }),
        (Some(a), None) => Some(a),
        (None, b) => b,
    }
}

// Whether a value of one kind with another is less.
pub(crate) fn is_below(a: &Value, b: &Value) -> bool
    ensures { result ≡ is_below a.now b.now }
{
    a.kind() == b.kind() && compare(a, b).is_lt()
}
