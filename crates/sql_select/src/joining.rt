//! The joined rows of one or two tables, and those that WHERE keeps.

ghost use Rattle.std.specs.Prelude.{◌≡◌, ◌∷◌, [], map};
ghost use Rattle.std.specs.List.{flat_map};
ghost use Rattle.retro_base.specs.Gives.{Gives};
ghost use Rattle.sql_select.specs.Bound.{keeps};
ghost use Rattle.sql_select.specs.Each.{onto};
ghost use Rattle.sql_select.specs.Rows.{beside, kept};

use crate::filter::Filter;
use evaluation::{JoinedRow, Stack};
use retro_base::Refusal;
use std::alloc::Global;
use values::{Row, Value};

/// What has a row: a row itself, or a row beside its number.
pub trait HasRow {
    ghost use Rattle.std.specs.Prelude.{◌≡◌, List};
    ghost use Rattle.values.specs.declared.value.Value as value;

    ghost row_of: { Self → List value.Value };

    fn row(&self) -> &[Value]
        ensures { result.now ≡ row_of self.now };
}

impl HasRow for Row {
    ghost row_of = { λ row. row };

    fn row(&self) -> &[Value] {
        self.as_slice()
    }
}

/// The rows of a table that are kept.
pub(crate) fn keep_of_one<'a, R: HasRow>(
    alloc: Global,
    filter: &Filter,
    rows: &'a [R],
) -> Result<Vec<JoinedRow<'a>>, Refusal>
    ensures { Gives (λ found. found.items) result (kept (keeps filter.now) (map R.row_of rows.now)) }
{
    let mut found = Vec::new(alloc);
    let mut stack = Stack::new(alloc);
    for row in rows {
        let row = JoinedRow::of_one(row.row());
        keep_row(filter, row, &mut stack, &mut found)?;
    }
    Ok(found)
}

/// The pairs of rows of two tables that are kept.
pub(crate) fn keep_of_two<'a, R: HasRow>(
    alloc: Global,
    filter: &Filter,
    firsts: &'a [R],
    seconds: &'a [R],
) -> Result<Vec<JoinedRow<'a>>, Refusal>
    ensures { Gives (λ found. found.items) result (kept (keeps filter.now)
        (flat_map (beside (map R.row_of seconds.now)) (map R.row_of firsts.now))) }
{
    let mut found = Vec::new(alloc);
    let mut stack = Stack::new(alloc);
    for first in firsts {
        let first = first.row();
        keep_pairs(filter, first, seconds, &mut stack, &mut found)?;
    }
    Ok(found)
}

// Adds the pairs of a row with each row of the second table that are kept.
fn keep_pairs<'a, R: HasRow>(
    filter: &Filter,
    first: &'a [Value],
    seconds: &'a [R],
    stack: &mut Stack<bool>,
    found: &mut Vec<JoinedRow<'a>>,
) -> Result<(), Refusal>
    ensures { Gives (λ _. found.new.items) result (onto found.old.items
        (kept (keeps filter.now) (beside (map R.row_of seconds.now) first.now))) }
{
    for second in seconds {
        let row = JoinedRow::of_two(first, second.row());
        keep_row(filter, row, stack, found)?;
    }
    Ok(())
}

// Adds a row, if it is kept.
fn keep_row<'a>(
    filter: &Filter,
    row: JoinedRow<'a>,
    stack: &mut Stack<bool>,
    found: &mut Vec<JoinedRow<'a>>,
) -> Result<(), Refusal>
    ensures { Gives (λ _. found.new.items) result (onto found.old.items (kept (keeps filter.now) (row.entry ∷ []))) }
{
    if filter.keeps(&row, stack)? {
        found.push(row)?;
    }
    Ok(())
}
