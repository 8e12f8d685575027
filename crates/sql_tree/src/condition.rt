//! Conditions.

ghost use Rattle.std.specs.Prelude.{◌≡◌, ◌<◌, ◌^◌, ◌+◌, ◌++◌, ◌≤◌, ◌↔◌, IfSome, IsTrue, Some};
ghost use Rattle.sql_tree.specs.Condition.{postfix, tree_of};
ghost use Rattle.sql_tree.specs.Steps.{conditions_behind, conditions_of};

use crate::name::ColumnName;
use std::alloc::{AllocError, Global};
use std::marker::Model;
use values::{Duplicate, Seq, Value};

/// A comparison of two values.
#[derive(Clone, Copy, Debug, PartialEq, Eq)]
pub enum Comparison {
    Equal,
    NotEqual,
    Less,
    AtMost,
    Greater,
    AtLeast,
}

/// A side of a comparison.
#[derive(Debug, Drop)]
pub enum Operand {
    Column(ColumnName),
    Literal(Value),
    CurrentSnapshot,
}

impl Duplicate for Operand {
    fn copy(&self, alloc: Global) -> Result<Operand, AllocError> {
        match self {
            Operand::Column(name) => Ok(Operand::Column(name.copy(alloc)?)),
            Operand::Literal(value) => Ok(Operand::Literal(value.copy(alloc)?)),
            Operand::CurrentSnapshot => Ok(Operand::CurrentSnapshot),
        }
    }
}

/// A step of a condition's evaluation over a stack of truths.
#[derive(Debug, Drop)]
pub enum ConditionStep {
    Compare {
        left: Operand,
        comparison: Comparison,
        right: Operand,
    },
    Not,
    And,
    Or,
}

impl Duplicate for ConditionStep {
    fn copy(&self, alloc: Global) -> Result<ConditionStep, AllocError> {
        match self {
            ConditionStep::Compare {
                left,
                comparison,
                right,
            } => Ok(ConditionStep::Compare {
                left: left.copy(alloc)?,
                comparison: *comparison,
                right: right.copy(alloc)?,
            }),
            ConditionStep::Not => Ok(ConditionStep::Not),
            ConditionStep::And => Ok(ConditionStep::And),
            ConditionStep::Or => Ok(ConditionStep::Or),
        }
    }
}

/// A condition: its steps, NOT behind its condition, AND and OR behind their two sides. Contracts see the tree.
#[derive(Debug, Drop)]
pub struct Condition {
    steps: Seq<ConditionStep>,
}

impl Model for Condition {
    ghost use Rattle.std.specs.Prelude.{◌≡◌};
    ghost use Rattle.sql_tree.specs.Condition.{ConditionTree, condition_of, postfix};
    ghost use Rattle.sql_tree.specs.ConditionCode.{condition_code};

    ghost Value = { ConditionTree };

    ghost coded = { condition_code };

    ghost view = { λ c. condition_of c.steps };

    ghost invariant = { λ c. c.steps ≡ postfix (condition_of c.steps) };
}

impl Condition {
    /// The condition that the steps tell; none where they are not those of one condition.
    #[tactic(auto, using(crate::proofs::Conditions::is_postfix, crate::proofs::Conditions::is_tree, crate::proofs::Conditions::is_none))]
    pub fn new(steps: Seq<ConditionStep>) -> Option<Condition>
        ensures { result ≡ tree_of steps }
    {
        if tells_one(steps.as_slice()) {
            Some(Condition { steps })
        } else {
            None
        }
    }

    /// The steps of the tree, in postfix order.
    pub fn steps(&self) -> &[ConditionStep]
        ensures { result.now ≡ postfix self.now }
    {
        self.steps.as_slice()
    }
}

fn tells_one(steps: &[ConditionStep]) -> bool
    ensures { IsTrue result ↔ (conditions_of steps.now ≡ Some 1) }
{
    count_conditions(steps) == Some(1)
}

// How many conditions the steps tell; none where a step has too few before it.
fn count_conditions(steps: &[ConditionStep]) -> Option<usize>
    ensures { result ≡ conditions_of steps.now }
{
    let mut conditions = 0;
    for step in steps {
        conditions = conditions_after(step, conditions)?;
    }
    Some(conditions)
}

fn conditions_after(step: &ConditionStep, conditions: usize) -> Option<usize>
    requires { conditions + 1 < 2 ^ 64 }
    ensures count { result ≡ conditions_behind step.now conditions }
    ensures bound { IfSome result (λ count. count ≤ conditions + 1) }
{
    match step {
        ConditionStep::Compare { .. } => Some(conditions + 1),
        ConditionStep::Not if conditions < 1 => None,
        ConditionStep::Not => Some(conditions),
        _ if conditions < 2 => None,
        _ => Some(conditions - 1),
    }
}

impl Duplicate for Condition {
    fn copy(&self, alloc: Global) -> Result<Condition, AllocError> {
        Ok(Condition {
            steps: self.steps.copy(alloc)?,
        })
    }
}
