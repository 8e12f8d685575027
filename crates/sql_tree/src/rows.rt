//! Rows that fit columns.

ghost use Rattle.std.specs.Prelude.{◌≡◌};
ghost use Rattle.sql_tree.specs.Rows.{fits};

use crate::statement::Column;
use values::Value;

/// Whether the row has one value of each column's kind, in the order of the columns.
#[tactic(auto, using(crate::proofs::Fitting::fits_apart))]
pub fn fits(columns: &[Column], row: &[Value]) -> bool
    ensures { result ≡ fits columns.now row.now }
{
    if row.len() != columns.len() {
        return false;
    }
    for (i, column) in columns.iter().enumerate() {
        if row[i].kind() != column.kind {
            return false;
        }
    }
    true
}
