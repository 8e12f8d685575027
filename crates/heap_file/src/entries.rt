//! The entries that stand first in some bytes.

ghost use Rattle.std.specs.Option.{option_map};
ghost use Rattle.std.specs.Prelude.{◌≡◌, IfErr, IfOk};
ghost use Rattle.retro_base.specs.declared.refusal.Refusal.TheVariants.{OutOfMemory};
ghost use Rattle.heap_file.specs.HeapPage.{AreFirstEntries, IsFirstEntry, entry_of};

use crate::page::{Entry, LENGTH_BYTES};
use retro_base::{Refusal, get_u16};
use row_codec::decode_into;
use std::alloc::Global;
use values::{Row, Seq};

/// So many entries that stand first in the bytes. None where so many do not stand there.
pub fn first_entries(
    alloc: Global,
    bytes: &[u8],
    count: usize,
) -> Result<Option<Seq<Entry>>, Refusal>
    ensures found { IfOk result (AreFirstEntries bytes.now count) }
    ensures memory { IfErr result (λ why. why ≡ OutOfMemory) }
{
    let mut entries = Seq::new(alloc);
    let mut end = 0;
    'read: for _ in 0..count {
        match first_entry(alloc, &bytes[end..])? {
            Some((entry, length)) => {
                entries.push(entry)?;
                end += length;
            }
            None => return Ok(None),
        }
    }
    Ok(Some(entries))
}

// The entry that stands first in the bytes, and how many bytes it takes. None where no entry stands there.
fn first_entry(alloc: Global, bytes: &[u8]) -> Result<Option<(Entry, usize)>, Refusal>
    ensures found { IfOk result (IsFirstEntry bytes.now) }
    ensures memory { IfErr result (λ why. why ≡ OutOfMemory) }
{
    let mut row = Seq::new(alloc);
    match first_entry_into(alloc, bytes, &mut row)? {
        Some((number, length)) => Ok(Some((Entry { number, row }, length))),
        None => Ok(None),
    }
}

/// The number of the entry that stands first in the bytes, and how many bytes it takes; `row` becomes its row. None
/// where no entry stands there.
pub(crate) fn first_entry_into(
    alloc: Global,
    bytes: &[u8],
    row: &mut Row,
) -> Result<Option<(u64, usize)>, Refusal>
    ensures found { IfOk result (λ found. IsFirstEntry bytes.now (option_map (entry_of row.new) found)) }
    ensures memory { IfErr result (λ why. why ≡ OutOfMemory) }
{
    if bytes.len() < LENGTH_BYTES {
        return Ok(None);
    }
    let end = LENGTH_BYTES + usize::from(get_u16(bytes, 0));
    if end > bytes.len() {
        return Ok(None);
    }
    let Some(number) = decode_into(alloc, &bytes[LENGTH_BYTES..end], row)? else {
        return Ok(None);
    };
    Ok(Some((number, end)))
}
