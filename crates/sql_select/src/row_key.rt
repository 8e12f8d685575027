//! Rows as keys of sets.

ghost use Rattle.std.specs.Prelude.{◌≡◌, fold};
ghost use Rattle.sql_select.specs.Same.{row_writes, same_row, same_value, value_writes};

use std::hash::{Hash, Hasher};
use std::marker::Model;
use values::{Row, Value};

/// A row as a key: two are equal where they have the same values. Contracts see the values.
#[derive(Debug, Drop)]
pub struct RowKey {
    row: Row,
}

impl Model for RowKey {
    ghost use Rattle.std.specs.Prelude.{List};
    ghost use Rattle.values.specs.declared.value.Value as value;

    ghost Value = { List value.Value };

    ghost view = { λ k. k.row };
}

impl RowKey {
    /// The key of a row.
    pub fn new(row: Row) -> RowKey
        ensures { result ≡ row }
    {
        RowKey { row }
    }

    /// The row's values.
    pub fn values(&self) -> &[Value]
        ensures { result.now ≡ self.now }
    {
        self.row.as_slice()
    }
}

fn same_value(a: &Value, b: &Value) -> bool
    ensures { result ≡ same_value a.now b.now }
{
    match (a, b) {
        (Value::Int(m), Value::Int(n)) => m == n,
        (Value::Text(s), Value::Text(t)) => s.bytes() == t.bytes(),
        (Value::Int(_), Value::Text(_)) => false,
        (Value::Text(_), Value::Int(_)) => false,
    }
}

/// Whether two rows have the same values.
pub(crate) fn same_row(a: &[Value], b: &[Value]) -> bool
    ensures { result ≡ same_row a.now b.now }
{
    let mut left = a;
    let mut right = b;
    while let (Some((x, xs)), Some((y, ys))) = (left.split_first(), right.split_first()) {
        if !same_value(x, y) {
            return false;
        }
        left = xs;
        right = ys;
    }
    left.is_empty() && right.is_empty()
}

impl PartialEq for RowKey {
    ghost use Rattle.sql_select.specs.Same.{same_row};
    ghost use Rattle.std.specs.Cmp.{partial_equiv_from_equiv};
    ghost use Rattle.sql_select.specs.Sameness.{same_row_equiv};

    ghost eq = { same_row };

    ghost laws = { partial_equiv_from_equiv same_row_equiv };

    fn eq(&self, other: &RowKey) -> bool {
        same_row(self.values(), other.values())
    }
}

impl Eq for RowKey {
    ghost use Rattle.sql_select.specs.Sameness.{same_row_equiv};

    ghost laws = { same_row_equiv };
}

impl Hash for RowKey {
    ghost use Rattle.sql_select.specs.Same.{row_writes};
    ghost use Rattle.sql_select.specs.Sameness.{same_rows_feed_alike};

    ghost hash_input = { row_writes };

    ghost respects_eq = { same_rows_feed_alike };

    fn hash<H: Hasher>(&self, state: &mut H) {
        feed_row(self.values(), state);
    }
}

/// Feeds a row to a hasher: its values in order.
pub(crate) fn feed_row<H: Hasher>(row: &[Value], state: &mut H)
    ensures { state.new ≡ fold H.write state.old (row_writes row.now) }
{
    for value in row {
        feed(value, state);
    }
}

fn feed<H: Hasher>(value: &Value, state: &mut H)
    ensures { state.new ≡ fold H.write state.old (value_writes value.now) }
{
    match value {
        Value::Int(number) => {
            state.write_u8(0);
            number.hash(state);
        }
        Value::Text(text) => {
            state.write_u8(1);
            text.bytes().hash(state);
        }
    }
}
