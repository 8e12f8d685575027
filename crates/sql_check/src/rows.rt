//! Rows that fit columns.

ghost use Rattle.std.specs.Prelude.{◌≡◌};
ghost use Rattle.std.specs.List.{list_all};
ghost use Rattle.sql_tree.specs.Rows.{fits};

use sql_tree::{Column, fits};
use values::Row;

/// Whether each row fits.
pub(crate) fn all_fit(columns: &[Column], rows: &[Row]) -> bool
    ensures { result ≡ list_all (fits columns.now) rows.now }
{
    rows.iter().all(|row| fits(columns, row.as_slice()))
}
