//! The entries that stand first in some bytes.

ghost use Rattle.std.specs.Prelude.{◌≡◌, IfErr, IfOk};
ghost use Rattle.retro_base.specs.declared.refusal.Refusal.TheVariants.{OutOfMemory};
ghost use Rattle.index_page.specs.IndexPage.{AreFirstFound, IsFirstFound, IsOnlyValue};

use pager::Found;
use retro_base::{Refusal, get_u16, get_u32};
use row_codec::decode;
use std::alloc::Global;
use values::{Row, Seq, Value};

/// So many entries that stand first in the bytes. None where so many do not stand there.
pub fn first_entries(
    alloc: Global,
    bytes: &[u8],
    count: usize,
) -> Result<Option<Seq<Found>>, Refusal>
    ensures found { IfOk result (AreFirstFound bytes.now count) }
    ensures memory { IfErr result (λ why. why ≡ OutOfMemory) }
{
    let mut entries = Seq::new(alloc);
    let mut end = 0;
    'read: for _ in 0..count {
        match first_entry(alloc, &bytes[end..])? {
            Some((entry, length)) => {
                entries.push(entry)?;
                end += length;
            }
            None => return Ok(None),
        }
    }
    Ok(Some(entries))
}

// The entry that stands first in the bytes, and how many bytes it takes. None where no entry stands there.
fn first_entry(alloc: Global, bytes: &[u8]) -> Result<Option<(Found, usize)>, Refusal>
    ensures found { IfOk result (IsFirstFound bytes.now) }
    ensures memory { IfErr result (λ why. why ≡ OutOfMemory) }
{
    if bytes.len() < 6 {
        return Ok(None);
    }
    let end = 6 + usize::from(get_u16(bytes, 0));
    if end > bytes.len() {
        return Ok(None);
    }
    let Some((number, row)) = decode(alloc, &bytes[6..end])? else {
        return Ok(None);
    };
    let Some(value) = only_value(row) else {
        return Ok(None);
    };
    let page = get_u32(bytes, 2);
    let entry = Found {
        value,
        number,
        page,
    };
    Ok(Some((entry, end)))
}

// The value of a row of one value.
fn only_value(row: Row) -> Option<Value>
    ensures { IsOnlyValue row result }
{
    let mut values = Vec::from(row);
    if values.len() > 1 {
        return None;
    }
    values.pop()
}
