//! How long encoded rows are.

ghost use Rattle.std.specs.Prelude.{◌≡◌, ◌≤◌, ◌∷◌, [], List, length};
ghost use Rattle.std.specs.List.{AllByRecursion};
ghost use Rattle.retro_base.specs.declared.limits.TheConstants.{COLUMNS};
ghost use Rattle.values.specs.declared.value.Value.{Value as ValueOf};
ghost use Rattle.tables.specs.Fates.{becoming};
ghost use Rattle.tables.specs.Meaning.{check_lengths};
ghost use Rattle.values.specs.Row.{value_bytes, row_bytes};

use crate::fates::Fate;
use retro_base::{ROW_BYTES, Refusal};
use values::{Row, Value, row_bytes};

// Refused where the encoded row takes more than 900 bytes.
fn check_length(row: &[Value]) -> Result<(), Refusal>
    requires { length row.now ≤ COLUMNS }
    ensures { result ≡ check_lengths (row.now ∷ []) }
{
    let bytes = row_bytes(row);
    if bytes > ROW_BYTES as u32 {
        return Err(Refusal::RowTooLong { bytes });
    }
    Ok(())
}

/// Refused where an encoded row takes more than 900 bytes; the first such row is told.
pub fn check_tuples(rows: &[Row]) -> Result<(), Refusal>
    requires { AllByRecursion (λ (row : List ValueOf). length row ≤ COLUMNS) rows.now }
    ensures { result ≡ check_lengths rows.now }
{
    for row in rows {
        check_length(row.as_slice())?;
    }
    Ok(())
}

/// The same of what rows become.
pub(crate) fn check_becoming(fates: &[Fate]) -> Result<(), Refusal>
    requires { AllByRecursion (λ (row : List ValueOf). length row ≤ COLUMNS) (becoming fates.now) }
    ensures { result ≡ check_lengths (becoming fates.now) }
{
    for fate in fates {
        if let Fate::Becomes(row) = fate {
            check_length(row.as_slice())?;
        }
    }
    Ok(())
}
