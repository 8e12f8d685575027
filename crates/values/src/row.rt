//! How long an encoded row is.

ghost use Rattle.std.specs.Prelude.{◌≡◌, ◌≤◌, length};
ghost use Rattle.values.specs.Row.{row_bytes, value_bytes};

use crate::value::Value;

fn value_bytes(value: &Value) -> u32
    ensures value { result ≡ value_bytes value.now }
    ensures bound { result ≤ 202 }
{
    match value {
        Value::Int(_) => 9,
        Value::Text(text) => 2 + text.bytes().len() as u32,
    }
}

/// The bytes of an encoded row: its number, the number of its columns, its values.
pub fn row_bytes(row: &[Value]) -> u32
    requires { length row.now ≤ 16 }
    ensures { result ≡ row_bytes row.now }
{
    let mut bytes = 9;
    for value in row {
        bytes += value_bytes(value);
    }
    bytes
}
