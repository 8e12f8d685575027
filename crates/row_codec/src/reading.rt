//! From bytes to rows.

ghost use Rattle.std.specs.Option.{option_map};
ghost use Rattle.std.specs.Prelude.{◌≡◌, IfErr, IfOk};
ghost use Rattle.retro_base.specs.declared.refusal.Refusal.TheVariants.{OutOfMemory};
ghost use Rattle.row_codec.specs.RowCode.{IsDecoded, AreFirstValues};

use crate::value::first_value;
use retro_base::{COLUMNS, ROW_BYTES, Refusal, get_u64};
use std::alloc::Global;
use values::{Row, Seq};

/// The row whose encoding the bytes are, with its number. None exactly where they are no row's.
pub fn decode(alloc: Global, bytes: &[u8]) -> Result<Option<(u64, Row)>, Refusal>
    ensures decoded { IfOk result (IsDecoded bytes.now) }
    ensures memory { IfErr result (λ why. why ≡ OutOfMemory) }
{
    let mut row = Seq::new(alloc);
    match decode_into(alloc, bytes, &mut row)? {
        Some(number) => Ok(Some((number, row))),
        None => Ok(None),
    }
}

/// The number of the row whose encoding the bytes are; `row` becomes that row, in the memory that it has. None exactly
/// where they are no row's.
pub fn decode_into(alloc: Global, bytes: &[u8], row: &mut Row) -> Result<Option<u64>, Refusal>
    ensures decoded { IfOk result (λ found. IsDecoded bytes.now (option_map (λ number. (number, row.new)) found)) }
    ensures memory { IfErr result (λ why. why ≡ OutOfMemory) }
{
    if bytes.len() < 9 || bytes.len() > ROW_BYTES || bytes[8] == 0 || bytes[8] > COLUMNS as u8 {
        return Ok(None);
    }
    let Some(end) = first_values(alloc, &bytes[9..], usize::from(bytes[8]), row)? else {
        return Ok(None);
    };
    if end < bytes.len() - 9 {
        return Ok(None);
    }
    Ok(Some(get_u64(bytes, 0)))
}

// So many values that stand first in the bytes, as the row, and how many bytes they take. None where so many do not
// stand there.
fn first_values(
    alloc: Global,
    bytes: &[u8],
    count: usize,
    row: &mut Row,
) -> Result<Option<usize>, Refusal>
    ensures found { IfOk result (λ found. AreFirstValues bytes.now count (option_map (λ end. (row.new, end)) found)) }
    ensures memory { IfErr result (λ why. why ≡ OutOfMemory) }
{
    row.refill(count)?;
    let mut end = 0;
    'values: for _ in 0..count {
        match first_value(alloc, &bytes[end..])? {
            Some((value, length)) => {
                row.push(value)?;
                end += length;
            }
            None => return Ok(None),
        }
    }
    Ok(Some(end))
}
