//! Columns, each beside the function that makes one value of its values.

ghost use Rattle.std.specs.Prelude.{◌≡◌};
ghost use Rattle.std.specs.List.{list_any};
ghost use Rattle.sql_check.specs.Names.{has_name, has_twins};
ghost use Rattle.rql.specs.Pairs.{column_name, function_of, names_unknown, sums_texts};

use crate::columns::has_name;
use crate::function::Function;
use crate::variable::adds_texts;
use sql_tree::Column;
use values::Name;

/// A column, and the function that makes one value of its values in a group.
#[derive(Debug, Drop)]
pub struct Pair {
    pub column: Name,
    pub function: Function,
}

/// The function of a column, where a pair has the column.
pub(crate) fn function_of(pairs: &[Pair], column: &Column) -> Option<Function>
    ensures { result ≡ function_of pairs.now column.now }
{
    let pair = pairs.iter().find(|pair| pair.column == column.name)?;
    Some(pair.function)
}

/// Whether a pair's column is none of the columns.
pub(crate) fn names_unknown(pairs: &[Pair], columns: &[Column]) -> bool
    ensures { result ≡ names_unknown pairs.now columns.now }
{
    pairs
        .iter()
        .any(|pair| !has_name(pair.column.bytes(), columns))
}

fn has_column(name: &Name, pairs: &[Pair]) -> bool
    ensures { result ≡ has_name column_name name.now pairs.now }
{
    pairs.iter().any(|pair| pair.column == *name)
}

/// Whether one column is in two pairs.
pub(crate) fn has_twin_pairs(pairs: &[Pair]) -> bool
    ensures { result ≡ has_twins column_name pairs.now }
{
    let mut rest = pairs;
    while let Some((pair, others)) = rest.split_first() {
        if has_column(&pair.column, others) {
            return true;
        }
        rest = others;
    }
    false
}

fn sums_texts(pairs: &[Pair], column: &Column) -> bool
    ensures { result ≡ sums_texts pairs.now column.now }
{
    match function_of(pairs, column) {
        Some(function) => adds_texts(function, column.kind),
        None => false,
    }
}

/// Whether a pair adds the texts of one of the columns.
pub(crate) fn any_sums_texts(pairs: &[Pair], columns: &[Column]) -> bool
    ensures { result ≡ list_any (sums_texts pairs.now) columns.now }
{
    columns.iter().any(|column| sums_texts(pairs, column))
}
