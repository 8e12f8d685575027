//! WHERE.

ghost use Rattle.std.specs.Prelude.{◌≡◌, IfOk};
ghost use Rattle.retro_base.specs.Gives.{Gives};
ghost use Rattle.sql_select.specs.Bound.{keeps};
ghost use Rattle.sql_select.specs.Rows.{holds_at};

use evaluation::{BoundCondition, JoinedRow, Stack};
use retro_base::Refusal;
use sql_tree::{Condition, Scope};
use std::alloc::{AllocError, Global};

/// A WHERE whose names are bound; without a condition it keeps every row.
#[derive(Debug, Drop)]
pub struct Filter {
    condition: Option<BoundCondition>,
}

impl Filter {
    /// The filter over the columns of a scope; `snapshot` is the number of `current_snapshot()`.
    pub fn bind(
        alloc: Global,
        scope: &Scope<'_>,
        snapshot: Option<u32>,
        condition: &Option<Condition>,
    ) -> Result<Filter, AllocError>
        ensures { IfOk result (λ filter. keeps filter ≡ holds_at scope.now snapshot condition.now) }
    {
        match condition {
            Some(condition) => {
                let bound = BoundCondition::bind(alloc, scope, snapshot, condition)?;
                Ok(Filter {
                    condition: Some(bound),
                })
            }
            None => Ok(Filter { condition: None }),
        }
    }

    /// Whether a row is kept, refused as its condition is. `stack` may hold anything.
    pub fn keeps(&self, row: &JoinedRow<'_>, stack: &mut Stack<bool>) -> Result<bool, Refusal>
        ensures { Gives (λ b. b) result (keeps self.now row.now) }
    {
        match &self.condition {
            Some(condition) => condition.holds(row, stack),
            None => Ok(true),
        }
    }
}
