//! Expressions.

ghost use Rattle.std.specs.Option.{option_copied};
ghost use Rattle.std.specs.Prelude.{◌≡◌, ◌<◌, ◌^◌, ◌+◌, ◌++◌, ◌≤◌, ◌↔◌, IfSome, IsTrue, Some};
ghost use Rattle.sql_tree.specs.Expression.{column_of, is_constant, postfix, tree_of};
ghost use Rattle.sql_tree.specs.Steps.{trees_behind, trees_of};

use crate::name::ColumnName;
use std::alloc::{AllocError, Global};
use std::marker::Model;
use values::{Duplicate, Seq, Value};

/// An operator between two numbers.
#[derive(Clone, Copy, Debug, PartialEq, Eq)]
pub enum Operator {
    Add,
    Subtract,
    Multiply,
}

/// A step of an expression's evaluation over a stack of values.
#[derive(Debug, Drop)]
pub enum ExpressionStep {
    Literal(Value),
    Column(ColumnName),
    CurrentSnapshot,
    Apply(Operator),
}

impl Duplicate for ExpressionStep {
    fn copy(&self, alloc: Global) -> Result<ExpressionStep, AllocError> {
        match self {
            ExpressionStep::Literal(value) => Ok(ExpressionStep::Literal(value.copy(alloc)?)),
            ExpressionStep::Column(name) => Ok(ExpressionStep::Column(name.copy(alloc)?)),
            ExpressionStep::CurrentSnapshot => Ok(ExpressionStep::CurrentSnapshot),
            ExpressionStep::Apply(operator) => Ok(ExpressionStep::Apply(*operator)),
        }
    }
}

/// An expression: its steps, each operator behind its two sides. Contracts see the tree.
#[derive(Debug, Drop)]
pub struct Expression {
    steps: Seq<ExpressionStep>,
}

impl Model for Expression {
    ghost use Rattle.std.specs.Prelude.{◌≡◌};
    ghost use Rattle.sql_tree.specs.Expression.{ExpressionTree, expression_of, postfix};
    ghost use Rattle.sql_tree.specs.ExpressionCode.{expression_code};

    ghost Value = { ExpressionTree };

    ghost coded = { expression_code };

    ghost view = { λ e. expression_of e.steps };

    ghost invariant = { λ e. e.steps ≡ postfix (expression_of e.steps) };
}

impl Expression {
    /// The expression that the steps tell; none where they are not those of one expression.
    #[tactic(auto, using(crate::proofs::Expressions::is_postfix, crate::proofs::Expressions::is_tree, crate::proofs::Expressions::is_none))]
    pub fn new(steps: Seq<ExpressionStep>) -> Option<Expression>
        ensures { result ≡ tree_of steps }
    {
        if tells_one(steps.as_slice()) {
            Some(Expression { steps })
        } else {
            None
        }
    }

    /// The steps of the tree, in postfix order.
    pub fn steps(&self) -> &[ExpressionStep]
        ensures { result.now ≡ postfix self.now }
    {
        self.steps.as_slice()
    }

    /// The column that the whole expression is, if it is one.
    pub fn column(&self) -> Option<&ColumnName>
        ensures { option_copied result ≡ column_of self.now }
    {
        match self.steps() {
            [ExpressionStep::Column(name)] => Some(name),
            _ => None,
        }
    }

    /// Whether the expression is a literal or `current_snapshot()`.
    pub fn is_constant(&self) -> bool
        ensures { result ≡ is_constant self.now }
    {
        match self.steps() {
            [ExpressionStep::Literal(_) | ExpressionStep::CurrentSnapshot] => true,
            _ => false,
        }
    }
}

fn tells_one(steps: &[ExpressionStep]) -> bool
    ensures { IsTrue result ↔ (trees_of steps.now ≡ Some 1) }
{
    count_trees(steps) == Some(1)
}

// How many trees the steps tell; none where an operator has too few before it.
fn count_trees(steps: &[ExpressionStep]) -> Option<usize>
    ensures { result ≡ trees_of steps.now }
{
    let mut trees = 0;
    for step in steps {
        trees = trees_after(step, trees)?;
    }
    Some(trees)
}

fn trees_after(step: &ExpressionStep, trees: usize) -> Option<usize>
    requires { trees + 1 < 2 ^ 64 }
    ensures count { result ≡ trees_behind step.now trees }
    ensures bound { IfSome result (λ count. count ≤ trees + 1) }
{
    match step {
        ExpressionStep::Apply(_) if trees < 2 => None,
        ExpressionStep::Apply(_) => Some(trees - 1),
        _ => Some(trees + 1),
    }
}

impl Duplicate for Expression {
    fn copy(&self, alloc: Global) -> Result<Expression, AllocError> {
        Ok(Expression {
            steps: self.steps.copy(alloc)?,
        })
    }
}
