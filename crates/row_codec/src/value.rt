//! The value that stands first in some bytes.

ghost use Rattle.std.specs.Prelude.{◌≡◌, ◌<◌, ◌↔◌, EachIndex, IsTrue, IfErr, IfOk, length, slice_index};
ghost use Rattle.retro_base.specs.declared.refusal.Refusal.TheVariants.{OutOfMemory};
ghost use Rattle.values.specs.Text.{IsPrintable};
ghost use Rattle.row_codec.specs.RowCode.{IsFirstValue};

use retro_base::{Refusal, get_u64};
use std::alloc::Global;
use values::{Seq, Text, Value, is_text};

/// The byte before an integer.
pub const INT: u8 = 1;
/// The byte before a text.
pub const TEXT: u8 = 2;

/// The value that stands first in the bytes, and how many bytes it takes. None where no value stands there.
pub fn first_value(alloc: Global, bytes: &[u8]) -> Result<Option<(Value, usize)>, Refusal>
    ensures found { IfOk result (IsFirstValue bytes.now) }
    ensures memory { IfErr result (λ why. why ≡ OutOfMemory) }
{
    match bytes.first() {
        Some(&INT) => Ok(first_int(bytes)),
        Some(&TEXT) => first_text(alloc, bytes),
        _ => Ok(None),
    }
}

// The integer behind its first byte.
fn first_int(bytes: &[u8]) -> Option<(Value, usize)>
    requires some { 0 < length bytes.now }
    requires int { slice_index bytes.now 0 ≡ INT }
    ensures { IsFirstValue bytes.now result }
{
    if bytes.len() < 9 {
        return None;
    }
    Some((Value::Int(get_u64(bytes, 1).cast_signed()), 9))
}

// The text behind its first byte.
fn first_text(alloc: Global, bytes: &[u8]) -> Result<Option<(Value, usize)>, Refusal>
    requires some { 0 < length bytes.now }
    requires text { slice_index bytes.now 0 ≡ TEXT }
    ensures found { IfOk result (IsFirstValue bytes.now) }
    ensures memory { IfErr result (λ why. why ≡ OutOfMemory) }
{
    if bytes.len() < 2 {
        return Ok(None);
    }
    let end = 2 + bytes[1] as usize;
    if end > bytes.len() || !is_text(&bytes[2..end]) {
        return Ok(None);
    }
    let text = Text::new(Seq::from(bytes[2..end].to_vec(alloc)?));
    Ok(Some((Value::Text(text), end)))
}
