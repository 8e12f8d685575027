//! From rows to bytes.

ghost use Rattle.std.specs.Prelude.{◌≡◌, ◌≤◌, ◌++◌, ◌+◌, IfOk, OnOk, ℕ, length};
ghost use Rattle.retro_base.specs.declared.limits.TheConstants.{COLUMNS};
ghost use Rattle.retro_base.specs.Gives.{Gives};
ghost use Rattle.values.specs.Row.{row_bytes, value_bytes};
ghost use Rattle.row_codec.specs.RowCode.{encoded, value_code, IsEncoded, IsRow, IsValue};

use crate::value::{INT, TEXT};
use retro_base::{ROW_BYTES, Refusal};
use std::alloc::{AllocError, Global};
use values::{Row, Value};

/// The encoding of a row under its number. Refused where it takes more than 900 bytes, with how many it takes.
#[tactic(auto, unfolding(retro_base::specs::Fields::field_bytes))]
pub fn encode(alloc: Global, number: u64, row: &Row) -> Result<Vec<u8>, Refusal>
    requires some { 1 ≤ length row.now }
    requires few { length row.now ≤ COLUMNS }
    ensures exact { Gives (λ bytes. bytes.items) result (encoded number row.now) }
    ensures lawful { IfOk result (λ bytes. IsEncoded bytes.items number row.now) }
{
    let mut bytes = Vec::with_capacity(alloc, ROW_BYTES)?;
    bytes.extend_from_slice(&number.to_be_bytes())?;
    bytes.push(row.len() as u8)?;
    for value in row.as_slice() {
        push_value(value, &mut bytes)?;
    }
    if bytes.len() > ROW_BYTES {
        return Err(Refusal::RowTooLong {
            bytes: bytes.len() as u32,
        });
    }
    Ok(bytes)
}

/// How many bytes the encoding of a row takes.
pub fn encoded_length(row: &Row) -> usize
    requires some { 1 ≤ length row.now }
    requires few { length row.now ≤ COLUMNS }
    ensures length { result ≡ row_bytes row.now }
    ensures lawful { IsRow row.now }
{
    let mut bytes = 9;
    for value in row.as_slice() {
        bytes += value_length(value);
    }
    bytes
}

// How many bytes a value's encoding takes.
fn value_length(value: &Value) -> usize
    ensures length { result ≡ value_bytes value.now }
    ensures short { result ≤ 202 }
    ensures lawful { IsValue value.now }
{
    match value {
        Value::Int(number) => 1 + number.to_be_bytes().len(),
        Value::Text(text) => 2 + text.bytes().len(),
    }
}

// Appends a value's encoding.
#[tactic(auto, unfolding(retro_base::specs::Fields::field_bytes))]
fn push_value(value: &Value, bytes: &mut Vec<u8>) -> Result<(), AllocError>
    ensures ok { OnOk result (bytes.new.items ≡ bytes.old.items ++ value_code value.now) }
    ensures short { length bytes.new.items ≤ length bytes.old.items + 202 }
    ensures lawful { OnOk result (IsValue value.now) }
{
    match value {
        Value::Int(number) => {
            bytes.push(INT)?;
            bytes.extend_from_slice(&number.cast_unsigned().to_be_bytes())
        }
        Value::Text(text) => {
            let text = text.bytes();
            bytes.push(TEXT)?;
            bytes.push(text.len() as u8)?;
            bytes.extend_from_slice(text)
        }
    }
}
