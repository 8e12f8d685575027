//! Aggregates and groups.

use super::rows::{Pair, answers, totals};

const GREATEST: i64 = 9_223_372_036_854_775_807;

const LEAST: i64 = -9_223_372_036_854_775_808;

const THREE_ROWS: &str = "a, rows group a | a n | 3,2;1,1;
    b order a desc limit 2 | b | x;z;
    sum a where a > 9 | col1 | 0;
    min a where a > 9 | col1 |";

#[test]
fn groups_order_and_sums_of_three_rows(rt: HostRuntime) {
    let rows: &[Pair] = &[(3, "x"), (1, "y"), (3, "z")];
    answers(&rt, rt.alloc(), rows, THREE_ROWS);
}

const NO_ROWS: &str = "* | a b |
    rows | col1 | 0;
    7, count a, sum a | col1 col2 col3 | 7,0,0;
    now, rows | col1 col2 | 7,0;
    max b | col1 |
    rows, min a | col1 col2 |
    rows group a | col1 |
    rows limit 0 | col1 |";

#[test]
fn aggregates_over_no_rows(rt: HostRuntime) {
    answers(&rt, rt.alloc(), &[], NO_ROWS);
}

const LEAST_AND_GREATEST: &str = "min a, max a, sum a | col1 col2 col3 | -7,4,-6;
    min b, max b | col1 col2 | B,ab;
    max 0 a -, rows | col1 col2 | 7,4;
    sum b | col1 | WrongType";

#[test]
fn the_least_and_the_greatest(rt: HostRuntime) {
    let rows: &[Pair] = &[(-3, "a"), (-7, "ab"), (4, "B"), (0, "Ba")];
    answers(&rt, rt.alloc(), rows, LEAST_AND_GREATEST);
}

const SUMS: &str = "sum a | col1 | -2;
    b, rows group b | b col2 | x,2;y,2;
    sum a group b | col1 | Overflow
    count a 1 + limit 0 | col1 | Overflow
    count a 1 + where b = 'y' | col1 | 2;
    sum a group a | col1 | Overflow";

#[test]
fn sums_past_64_bits_that_come_back(rt: HostRuntime) {
    let rows: &[Pair] = &[(GREATEST, "x"), (GREATEST, "x"), (LEAST, "y"), (LEAST, "y")];
    answers(&rt, rt.alloc(), rows, SUMS);
}

const ENDS_OF_SUMS: &str = "sum a group b | col1 | 9223372036854775807;-9223372036854775808;
    sum a | col1 | -1;
    sum a a + | col1 | Overflow";

#[test]
fn sums_that_end_at_the_ends_of_64_bits(rt: HostRuntime) {
    let rows: &[Pair] = &[(GREATEST, "x"), (1, "y"), (LEAST, "y"), (-1, "y")];
    answers(&rt, rt.alloc(), rows, ENDS_OF_SUMS);
}

const GROUPS_BY_TWO: &str = "a, b, rows group b, a | a b n | 2,y,2;1,y,1;2,x,1;
    b, sum a, 9 group b order n desc | b n col3 | y,5,9;x,2,9;
    max a, now group b order n limit 1 | n s | 2,7;
    distinct max a group b | col1 | 2;
    b group b order a | b | UnknownName
    * group b | a b | WrongType";

#[test]
fn groups_by_two_columns_and_their_order(rt: HostRuntime) {
    let rows: &[Pair] = &[(2, "y"), (1, "y"), (2, "x"), (2, "y")];
    answers(&rt, rt.alloc(), rows, GROUPS_BY_TWO);
}

const TOTALS: &str = "rows, count b, sum a, min a, max b | 4,4,-6,-7,ab;
    sum a, max 0 a - where a < 0 | -10,7;
    rows, sum a where a > 9 | 0,0;
    min b where a > 9 |
    sum b | WrongType
    rows limit 0 |
    distinct rows where b = 'B' | 1;
    * | none
    a | none
    7, rows | none
    rows group a | none
    rows from t, u | none";

#[test]
fn totals_of_four_rows(rt: HostRuntime) {
    let rows: &[Pair] = &[(-3, "a"), (-7, "ab"), (4, "B"), (0, "Ba")];
    totals(&rt, rt.alloc(), rows, TOTALS);
}

const TOTALS_PAST_64_BITS: &str = "sum a | -2;
    sum a where b = 'x' | Overflow
    count a 1 + where b = 'y' | 2;
    count a 1 + limit 0 | Overflow";

#[test]
fn totals_past_64_bits_that_come_back(rt: HostRuntime) {
    let rows: &[Pair] = &[(GREATEST, "x"), (GREATEST, "x"), (LEAST, "y"), (LEAST, "y")];
    totals(&rt, rt.alloc(), rows, TOTALS_PAST_64_BITS);
}
