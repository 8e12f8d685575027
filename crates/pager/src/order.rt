//! The order of entries.

ghost use Rattle.std.specs.Prelude.{◌≡◌};
ghost use Rattle.values.specs.Value.{value_cmp};
ghost use Rattle.pager.specs.Index.{found_cmp};

use crate::index::Found;
use std::cmp::Ordering;
use values::{Kind, Value, compare};

/// Compares two values of any kinds.
pub fn compare_values(a: &Value, b: &Value) -> Ordering
    ensures { result ≡ value_cmp a.now b.now }
{
    match (a.kind(), b.kind()) {
        (Kind::Int, Kind::Text) => Ordering::Less,
        (Kind::Text, Kind::Int) => Ordering::Greater,
        _ => compare(a, b),
    }
}

/// Compares two entries by value, and then by row number.
pub fn compare_found(a: &Found, b: &Found) -> Ordering
    ensures { result ≡ found_cmp a.now b.now }
{
    match compare_values(&a.value, &b.value) {
        Ordering::Equal => a.number.cmp(&b.number),
        other => other,
    }
}
