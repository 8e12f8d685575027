//! The names and kinds of expressions and conditions.

ghost use Rattle.std.specs.Prelude.{◌≡◌};
ghost use Rattle.std.specs.List.{list_any};
ghost use Rattle.std.specs.Option.{option_copied};
ghost use Rattle.sql_kinds.specs.Expressions.{agree, aggregate_has_unknown, aggregate_kind};
ghost use Rattle.sql_kinds.specs.Expressions.{compares_apart, has_unknown, has_unknown_operand, int_if};
ghost use Rattle.sql_kinds.specs.Expressions.{is_int, is_unknown, is_unknown_operand, kind_of};
ghost use Rattle.sql_kinds.specs.Expressions.{operand_kind, output_has_unknown, output_kind};
ghost use Rattle.sql_kinds.specs.Steps.{compares_apart_at, is_unknown_at, is_unknown_step};
ghost use Rattle.sql_kinds.specs.Steps.{only, reckons_with_numbers, step_kind, steps_kind};

use sql_tree::{
    Aggregate, ColumnName, Condition, ConditionStep, Expression, ExpressionStep, Operand,
    OutputValue, Scope,
};
use values::Kind;

/// Whether the scope has no column, or more than one, of the name.
pub fn is_unknown(scope: &Scope<'_>, name: &ColumnName) -> bool
    ensures { result ≡ is_unknown scope.now name.now }
{
    scope.kind(name).is_none()
}

fn is_unknown_step(scope: &Scope<'_>, snapshot: Option<u32>, step: &ExpressionStep) -> bool
    ensures { result ≡ is_unknown_step scope.now snapshot step.now }
{
    match step {
        ExpressionStep::Column(name) => is_unknown(scope, name),
        ExpressionStep::CurrentSnapshot => snapshot.is_none(),
        ExpressionStep::Literal(_) => false,
        ExpressionStep::Apply(_) => false,
    }
}

fn any_unknown(scope: &Scope<'_>, snapshot: Option<u32>, steps: &[ExpressionStep]) -> bool
    ensures { result ≡ list_any (is_unknown_step scope.now snapshot) steps.now }
{
    steps
        .iter()
        .any(|step| is_unknown_step(scope, snapshot, step))
}

/// Whether the expression has an unknown column, or the number of a snapshot where there is none.
#[tactic(auto, using(crate::proofs::Stepwise::any_unknown_step))]
pub fn has_unknown(scope: &Scope<'_>, snapshot: Option<u32>, expression: &Expression) -> bool
    ensures { result ≡ has_unknown scope.now snapshot expression.now }
{
    any_unknown(scope, snapshot, expression.steps())
}

fn is_int(kind: Option<Kind>) -> bool
    ensures { result ≡ is_int kind }
{
    match kind {
        Some(Kind::Int) => true,
        Some(Kind::Text) => false,
        None => false,
    }
}

fn int_if(holds: bool) -> Option<Kind>
    ensures { result ≡ int_if holds }
{
    if holds { Some(Kind::Int) } else { None }
}

fn step_kind(scope: &Scope<'_>, step: &ExpressionStep) -> Option<Kind>
    ensures { result ≡ step_kind scope.now step.now }
{
    match step {
        ExpressionStep::Literal(value) => Some(value.kind()),
        ExpressionStep::Column(name) => scope.kind(name),
        ExpressionStep::CurrentSnapshot => Some(Kind::Int),
        ExpressionStep::Apply(_) => Some(Kind::Int),
    }
}

fn reckons_with_numbers(scope: &Scope<'_>, steps: &[ExpressionStep]) -> bool
    ensures { result ≡ reckons_with_numbers scope.now steps.now }
{
    steps.iter().all(|step| is_int(step_kind(scope, step)))
}

fn only_step(steps: &[ExpressionStep]) -> Option<&ExpressionStep>
    ensures { option_copied result ≡ only steps.now }
{
    match steps {
        [step] => Some(step),
        _ => None,
    }
}

fn steps_kind(scope: &Scope<'_>, steps: &[ExpressionStep]) -> Option<Kind>
    ensures { result ≡ steps_kind scope.now steps.now }
{
    match only_step(steps) {
        Some(step) => step_kind(scope, step),
        None => int_if(reckons_with_numbers(scope, steps)),
    }
}

/// The kind of the expression; none over an unknown column, nor where a text is reckoned with.
#[tactic(auto, using(crate::proofs::Stepwise::steps_kind_is))]
pub fn kind_of(scope: &Scope<'_>, expression: &Expression) -> Option<Kind>
    ensures { result ≡ kind_of scope.now expression.now }
{
    steps_kind(scope, expression.steps())
}

/// Whether there are two kinds, and they are the same.
pub fn agree(a: Option<Kind>, b: Option<Kind>) -> bool
    ensures { result ≡ agree a b }
{
    match (a, b) {
        (Some(Kind::Int), Some(Kind::Int)) => true,
        (Some(Kind::Text), Some(Kind::Text)) => true,
        _ => false,
    }
}

fn is_unknown_operand(scope: &Scope<'_>, snapshot: Option<u32>, operand: &Operand) -> bool
    ensures { result ≡ is_unknown_operand scope.now snapshot operand.now }
{
    match operand {
        Operand::Column(name) => is_unknown(scope, name),
        Operand::Literal(_) => false,
        Operand::CurrentSnapshot => snapshot.is_none(),
    }
}

fn operand_kind(scope: &Scope<'_>, operand: &Operand) -> Option<Kind>
    ensures { result ≡ operand_kind scope.now operand.now }
{
    match operand {
        Operand::Column(name) => scope.kind(name),
        Operand::Literal(value) => Some(value.kind()),
        Operand::CurrentSnapshot => Some(Kind::Int),
    }
}

fn is_unknown_at(scope: &Scope<'_>, snapshot: Option<u32>, step: &ConditionStep) -> bool
    ensures { result ≡ is_unknown_at scope.now snapshot step.now }
{
    match step {
        ConditionStep::Compare { left, right, .. } => {
            is_unknown_operand(scope, snapshot, left) || is_unknown_operand(scope, snapshot, right)
        }
        ConditionStep::Not => false,
        ConditionStep::And => false,
        ConditionStep::Or => false,
    }
}

fn any_unknown_operand(scope: &Scope<'_>, snapshot: Option<u32>, steps: &[ConditionStep]) -> bool
    ensures { result ≡ list_any (is_unknown_at scope.now snapshot) steps.now }
{
    steps
        .iter()
        .any(|step| is_unknown_at(scope, snapshot, step))
}

/// Whether the condition has an unknown side.
#[tactic(auto, using(crate::proofs::Stepwise::any_unknown_at))]
pub fn has_unknown_operand(scope: &Scope<'_>, snapshot: Option<u32>, condition: &Condition) -> bool
    ensures { result ≡ has_unknown_operand scope.now snapshot condition.now }
{
    any_unknown_operand(scope, snapshot, condition.steps())
}

fn compares_apart_at(scope: &Scope<'_>, step: &ConditionStep) -> bool
    ensures { result ≡ compares_apart_at scope.now step.now }
{
    match step {
        ConditionStep::Compare { left, right, .. } => {
            !agree(operand_kind(scope, left), operand_kind(scope, right))
        }
        ConditionStep::Not => false,
        ConditionStep::And => false,
        ConditionStep::Or => false,
    }
}

fn any_compares_apart(scope: &Scope<'_>, steps: &[ConditionStep]) -> bool
    ensures { result ≡ list_any (compares_apart_at scope.now) steps.now }
{
    steps.iter().any(|step| compares_apart_at(scope, step))
}

/// Whether the condition compares INT with TEXT.
#[tactic(auto, using(crate::proofs::Stepwise::any_compares_apart_at))]
pub fn compares_apart(scope: &Scope<'_>, condition: &Condition) -> bool
    ensures { result ≡ compares_apart scope.now condition.now }
{
    any_compares_apart(scope, condition.steps())
}

fn aggregate_has_unknown(scope: &Scope<'_>, snapshot: Option<u32>, aggregate: &Aggregate) -> bool
    ensures { result ≡ aggregate_has_unknown scope.now snapshot aggregate.now }
{
    match aggregate {
        Aggregate::CountRows => false,
        Aggregate::Count(of) => has_unknown(scope, snapshot, of),
        Aggregate::Sum(of) => has_unknown(scope, snapshot, of),
        Aggregate::Min(of) => has_unknown(scope, snapshot, of),
        Aggregate::Max(of) => has_unknown(scope, snapshot, of),
    }
}

fn aggregate_kind(scope: &Scope<'_>, aggregate: &Aggregate) -> Option<Kind>
    ensures { result ≡ aggregate_kind scope.now aggregate.now }
{
    match aggregate {
        Aggregate::CountRows => Some(Kind::Int),
        Aggregate::Count(of) => int_if(kind_of(scope, of).is_some()),
        Aggregate::Sum(of) => int_if(is_int(kind_of(scope, of))),
        Aggregate::Min(of) => kind_of(scope, of),
        Aggregate::Max(of) => kind_of(scope, of),
    }
}

/// Whether the output has an unknown column, or the number of a snapshot where there is none.
pub fn output_has_unknown(scope: &Scope<'_>, snapshot: Option<u32>, value: &OutputValue) -> bool
    ensures { result ≡ output_has_unknown scope.now snapshot value.now }
{
    match value {
        OutputValue::Expression(of) => has_unknown(scope, snapshot, of),
        OutputValue::Aggregate(of) => aggregate_has_unknown(scope, snapshot, of),
    }
}

/// The kind of the output.
pub fn output_kind(scope: &Scope<'_>, value: &OutputValue) -> Option<Kind>
    ensures { result ≡ output_kind scope.now value.now }
{
    match value {
        OutputValue::Expression(of) => kind_of(scope, of),
        OutputValue::Aggregate(of) => aggregate_kind(scope, of),
    }
}
