//! The tree that the operations of a sentence build.

ghost use Rattle.std.specs.Prelude.{◌≡◌, ◌∷◌, [], IfOk, IsTrue, MatchBool, MatchOption, Some, None};
ghost use Rattle.sql_tree.specs.Condition.{tree_of as condition_tree};
ghost use Rattle.sql_tree.specs.Expression.{tree_of as expression_tree};
ghost use Rattle.sql_build.specs.Built.{acted, built, compare_step, condition_ends, condition_on, empty};
ghost use Rattle.sql_build.specs.Built.{expression_ends, leaf, leaf_step, said, stepped, taken, with_parts};

use crate::pieces::{line, row, table, term, update};
use crate::selects::{output, query, select_list};
use sql_parts::{Action, Op, Parsed, Part, Parts, StepAction};
use sql_tree::{Comparison, Condition, ConditionStep, Expression, ExpressionStep, Operand};
use std::alloc::{AllocError, Global};
use std::marker::Model;
use std::mem;
use std::vec::IntoIter;
use values::Seq;

/// The operations that are left.
#[derive(Drop)]
struct Ops {
    left: IntoIter<Op>,
}

impl Model for Ops {
    ghost use Rattle.std.specs.Prelude.{List};
    ghost use Rattle.std.specs.Vec.Iter.{into_iter_items};
    ghost use Rattle.sql_parts.specs.declared.action.Op.{Op};

    ghost Value = { List Op };

    ghost view = { λ o. into_iter_items o.left };
}

impl Ops {
    fn new(ops: Seq<Op>) -> Ops
        ensures { result ≡ ops }
    {
        let items: Vec<Op> = Vec::from(ops);
        Ops {
            left: items.into_iter(),
        }
    }

    fn next(&mut self) -> Option<Op>
        ensures { MatchOption result ((self.old ≡ []) × (self.new ≡ [])) (λ op. self.old ≡ op ∷ self.new) }
    {
        self.left.next()
    }
}

/// What is built so far: parts, and the steps of an expression and of a condition that are not over.
#[derive(Drop)]
pub struct Assembly {
    parts: Parts,
    expression: Seq<ExpressionStep>,
    condition: Seq<ConditionStep>,
}

/// What the operations build, if they are those of a sentence. Fails for want of memory alone.
pub fn assemble(alloc: Global, ops: Seq<Op>) -> Result<Option<Parsed>, AllocError>
    ensures { IfOk result (λ parsed. parsed ≡ built ops) }
{
    let mut draft = Assembly::new(alloc);
    let mut ops = Ops::new(ops);
    while let Some(op) = ops.next() {
        if !draft.take(alloc, op)? {
            return Ok(None);
        }
    }
    Ok(draft.finish())
}

impl Assembly {
    fn new(alloc: Global) -> Assembly
        ensures { result ≡ empty }
    {
        Assembly {
            parts: Parts::new(alloc),
            expression: Seq::new(alloc),
            condition: Seq::new(alloc),
        }
    }

    // Takes an operation; false where the parts are not those that it wants.
    fn take(&mut self, alloc: Global, op: Op) -> Result<bool, AllocError>
        ensures { IfOk result (λ done. MatchBool done (taken op self.old ≡ Some self.new) (taken op self.old ≡ None)) }
    {
        match op {
            Op::Name(name) => self.put_down(Part::Name(name)),
            Op::Integer(number) => self.put_down(Part::Number(number)),
            Op::Text(text) => self.put_down(Part::Text(text)),
            Op::LongText(text) => self.put_down(Part::Argument(text)),
            Op::Act(action) => self.act(alloc, action),
        }
    }

    fn act(&mut self, alloc: Global, action: Action) -> Result<bool, AllocError>
        ensures { IfOk result (λ done. MatchBool done (acted action self.old ≡ Some self.new)
            (acted action self.old ≡ None)) }
    {
        let part = match action {
            Action::Step(action) => return self.step(alloc, action),
            Action::Term(action) => return term(action, &mut self.parts),
            Action::Table(action) => table(alloc, action, &mut self.parts)?,
            Action::Row(action) => row(alloc, action, &mut self.parts)?,
            Action::Update(action) => update(alloc, action, &mut self.parts)?,
            Action::Output(action) => return output(action, &mut self.parts),
            Action::List(action) => select_list(alloc, action, &mut self.parts)?,
            Action::Query(action) => query(alloc, action, &mut self.parts)?,
            Action::Line(action) => line(alloc, action, &mut self.parts)?,
        };
        self.put(part)
    }

    // Puts the part above the others; false where there is none.
    fn put(&mut self, part: Option<Part>) -> Result<bool, AllocError>
        ensures { IfOk result (λ done. MatchBool done
            (MatchOption part ⊥ (λ part. self.new ≡ with_parts (part ∷ self.old.parts) self.old))
            (part ≡ None)) }
    {
        match part {
            Some(part) => self.put_down(part),
            None => Ok(false),
        }
    }

    #[inline(always)]
    fn put_down(&mut self, part: Part) -> Result<bool, AllocError>
        ensures { IfOk result (λ done. IsTrue done × (self.new ≡ with_parts (part ∷ self.old.parts) self.old)) }
    {
        self.parts.push(part)?;
        Ok(true)
    }

    fn step(&mut self, alloc: Global, action: StepAction) -> Result<bool, AllocError>
        ensures { IfOk result (λ done. MatchBool done (stepped action self.old ≡ Some self.new)
            (stepped action self.old ≡ None)) }
    {
        match action {
            StepAction::Leaf => self.leaf(),
            StepAction::Apply(operator) => {
                self.expression.push(ExpressionStep::Apply(operator))?;
                Ok(true)
            }
            StepAction::Compare(comparison) => self.compare(comparison),
            StepAction::Not => self.judge(ConditionStep::Not),
            StepAction::And => self.judge(ConditionStep::And),
            StepAction::Or => self.judge(ConditionStep::Or),
            StepAction::Expression => self.end_expression(alloc),
            StepAction::Condition => self.end_condition(alloc),
            StepAction::NoCondition => self.put_down(Part::Condition(None)),
        }
    }

    fn judge(&mut self, step: ConditionStep) -> Result<bool, AllocError>
        ensures { IfOk result (λ done. IsTrue done × (self.new ≡ condition_on step self.old.parts self.old)) }
    {
        self.condition.push(step)?;
        Ok(true)
    }

    fn leaf(&mut self) -> Result<bool, AllocError>
        ensures { IfOk result (λ done. MatchBool done
            (leaf_step self.old self.old.parts ≡ Some self.new)
            (leaf_step self.old self.old.parts ≡ None)) }
    {
        match self.parts.operand() {
            Some(operand) => {
                self.expression.push(leaf_of(operand))?;
                Ok(true)
            }
            None => Ok(false),
        }
    }

    fn compare(&mut self, comparison: Comparison) -> Result<bool, AllocError>
        ensures { IfOk result (λ done. MatchBool done
            (compare_step comparison self.old self.old.parts ≡ Some self.new)
            (compare_step comparison self.old self.old.parts ≡ None)) }
    {
        match (self.parts.operand(), self.parts.operand()) {
            (Some(right), Some(left)) => self.judge(ConditionStep::Compare {
                left,
                comparison,
                right,
            }),
            (_right, _left) => Ok(false),
        }
    }

    fn end_expression(&mut self, alloc: Global) -> Result<bool, AllocError>
        ensures { IfOk result (λ done. MatchBool done
            (expression_ends (expression_tree self.old.expression) self.old ≡ Some self.new)
            (expression_ends (expression_tree self.old.expression) self.old ≡ None)) }
    {
        let steps = mem::replace(&mut self.expression, Seq::new(alloc));
        match Expression::new(steps) {
            Some(expression) => self.put_down(Part::Expression(expression)),
            None => Ok(false),
        }
    }

    fn end_condition(&mut self, alloc: Global) -> Result<bool, AllocError>
        ensures { IfOk result (λ done. MatchBool done
            (condition_ends (condition_tree self.old.condition) self.old ≡ Some self.new)
            (condition_ends (condition_tree self.old.condition) self.old ≡ None)) }
    {
        let steps = mem::replace(&mut self.condition, Seq::new(alloc));
        match Condition::new(steps) {
            Some(condition) => self.put_down(Part::Condition(Some(condition))),
            None => Ok(false),
        }
    }

    // What the sentence says, if one part is left that says it.
    fn finish(mut self) -> Option<Parsed>
        ensures { result ≡ said self.parts }
    {
        let parsed = self.parts.parsed()?;
        match self.parts.pop() {
            Some(_other) => None,
            None => Some(parsed),
        }
    }
}

fn leaf_of(operand: Operand) -> ExpressionStep
    ensures { result ≡ leaf operand }
{
    match operand {
        Operand::Column(name) => ExpressionStep::Column(name),
        Operand::Literal(value) => ExpressionStep::Literal(value),
        Operand::CurrentSnapshot => ExpressionStep::CurrentSnapshot,
    }
}
