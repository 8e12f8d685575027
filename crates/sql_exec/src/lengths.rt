//! How long encoded rows are.

ghost use Rattle.std.specs.Prelude.{◌≡◌, ◌∷◌, [], OnOk};
ghost use Rattle.std.specs.List.{AllByRecursion};
ghost use Rattle.row_codec.specs.RowCode.{IsRow};
ghost use Rattle.tables.specs.Meaning.{check_lengths};
ghost use Rattle.sql_exec.specs.Running.{IsOfWidth, values_of};

use relation::RowChange;
use retro_base::{ROW_BYTES, Refusal};
use row_codec::encoded_length;
use values::Row;

// Refused where the encoded row takes more than 900 bytes.
fn check_length(row: &Row) -> Result<(), Refusal>
    requires { IsOfWidth row.now }
    ensures checked { result ≡ check_lengths (row.now ∷ []) }
    ensures lawful { IsRow row.now }
{
    let bytes = encoded_length(row);
    if bytes > ROW_BYTES {
        let bytes = bytes as u32;
        return Err(Refusal::RowTooLong { bytes });
    }
    Ok(())
}

/// Refused where an encoded row takes more than 900 bytes; the first such row is told.
pub fn check_lengths(rows: &[Row]) -> Result<(), Refusal>
    requires { AllByRecursion IsOfWidth rows.now }
    ensures checked { result ≡ check_lengths rows.now }
    ensures lawful { OnOk result (AllByRecursion IsRow rows.now) }
{
    for row in rows {
        check_length(row)?;
    }
    Ok(())
}

/// The same of changed rows.
pub fn check_changes(changes: &[RowChange]) -> Result<(), Refusal>
    requires { AllByRecursion IsOfWidth (values_of changes.now) }
    ensures checked { result ≡ check_lengths (values_of changes.now) }
    ensures lawful { OnOk result (AllByRecursion IsRow (values_of changes.now)) }
{
    for change in changes {
        check_length(&change.row)?;
    }
    Ok(())
}
