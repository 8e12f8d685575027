//! Columns, by their names and kinds.

ghost use Rattle.std.specs.Prelude.{◌≡◌};
ghost use Rattle.sql_check.specs.Names.{has_name, has_twins};
ghost use Rattle.rql.specs.Columns.{name_of, same_column, same_columns};

use sql_tree::Column;

fn same_column(a: &Column, b: &Column) -> bool
    ensures { result ≡ same_column a.now b.now }
{
    a.name == b.name && a.kind == b.kind
}

/// Whether the columns have the same names and kinds.
pub(crate) fn same_columns(a: &[Column], b: &[Column]) -> bool
    ensures { result ≡ same_columns a.now b.now }
{
    let mut left = a;
    let mut right = b;
    while let (Some((x, xs)), Some((y, ys))) = (left.split_first(), right.split_first()) {
        if !same_column(x, y) {
            return false;
        }
        left = xs;
        right = ys;
    }
    left.is_empty() && right.is_empty()
}

/// Whether one of the columns has the name.
pub fn has_name(name: &[u8], columns: &[Column]) -> bool
    ensures { result ≡ has_name name_of name.now columns.now }
{
    columns.iter().any(|column| column.name.bytes() == name)
}

/// Whether two of the columns have one name.
pub fn has_twins(columns: &[Column]) -> bool
    ensures { result ≡ has_twins name_of columns.now }
{
    let mut rest = columns;
    while let Some((column, others)) = rest.split_first() {
        if has_name(column.name.bytes(), others) {
            return true;
        }
        rest = others;
    }
    false
}
