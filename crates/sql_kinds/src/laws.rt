//! What follows for expressions and conditions that were checked.

ghost use Rattle.sql_kinds.specs.Laws.{ConditionsAreDecided, ExpressionsKeepTheirKind};

/// At a row that fits the columns, an expression whose names are known has a value of its kind, unless a step leaves
/// i64.
#[tactic(auto, using(crate::proofs::Checked::expressions_keep_their_kind))]
pub fn expressions_keep_their_kind()
    ensures { ExpressionsKeepTheirKind }
{}

/// At a row that fits the columns, a condition whose names are known, and that compares like with like, is true or
/// false.
#[tactic(auto, using(crate::proofs::Checked::conditions_are_decided))]
pub fn conditions_are_decided()
    ensures { ConditionsAreDecided }
{}
