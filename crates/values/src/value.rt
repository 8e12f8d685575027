//! Values and rows.

ghost use Rattle.std.specs.Prelude.{◌≡◌, ◌++◌, OnOk, OnErr};
ghost use Rattle.std.specs.Cmp.{IsTotalOrder};
ghost use Rattle.values.specs.Value.{kind_of, text_of, value_cmp};

use crate::list::{Duplicate, Seq};
use crate::text::Text;
use std::alloc::{AllocError, Global};
use std::cmp::Ordering;

/// The kind of a value or of a column.
#[derive(Clone, Copy, Debug, PartialEq, Eq)]
pub enum Kind {
    Int,
    Text,
}

impl Duplicate for Kind {
    fn copy(&self, _alloc: Global) -> Result<Kind, AllocError> {
        Ok(*self)
    }
}

/// A value of a table.
#[derive(Debug, Drop)]
pub enum Value {
    Int(i64),
    Text(Text),
}

impl Value {
    /// The kind of the value.
    pub fn kind(&self) -> Kind
        ensures { result ≡ kind_of self.now }
    {
        match self {
            Value::Int(_) => Kind::Int,
            Value::Text(_) => Kind::Text,
        }
    }
}

impl Duplicate for Value {
    fn copy(&self, alloc: Global) -> Result<Value, AllocError> {
        match self {
            Value::Int(number) => Ok(Value::Int(*number)),
            Value::Text(text) => Ok(Value::Text(text.copy(alloc)?)),
        }
    }
}

/// A row: its values, in the order of its table's columns.
pub type Row = Seq<Value>;

/// Compares two values of one kind: integers by number, texts by bytes.
pub fn compare(a: &Value, b: &Value) -> Ordering
    requires { kind_of a.now ≡ kind_of b.now }
    ensures { result ≡ value_cmp a.now b.now }
{
    match (a, b) {
        (Value::Int(m), Value::Int(n)) => m.cmp(n),
        (Value::Int(_), Value::Text(_)) => Ordering::Less,
        (Value::Text(_), Value::Int(_)) => Ordering::Greater,
        (Value::Text(s), Value::Text(t)) => s.bytes().cmp(t.bytes()),
    }
}

/// The law of `compare`: it is a total order.
pub fn value_order()
    ensures { IsTotalOrder value_cmp }
{}

/// Appends a value's text: an integer in decimal, a text as it is. Refused for want of memory alone.
pub fn field(alloc: Global, value: &Value, out: &mut Vec<u8>) -> Result<(), AllocError>
    ensures ok { OnOk result (out.new.items ≡ out.old.items ++ text_of value.now) }
    ensures err { OnErr result (out.new.items ≡ out.old.items) }
{
    match value {
        Value::Int(number) => {
            let digits = number.to_string(alloc)?;
            out.extend_from_slice(digits.as_bytes())
        }
        Value::Text(text) => out.extend_from_slice(text.bytes()),
    }
}
