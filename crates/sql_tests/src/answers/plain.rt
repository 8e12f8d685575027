//! Rows without groups: what is kept, joined, different, in order.

use super::rows::{Pair, answers, join_answers};

const GREATEST: i64 = 9_223_372_036_854_775_807;

const LEAST: i64 = -9_223_372_036_854_775_808;

const OUTPUTS: &str = "* | a b | 3,x;1,y;3,z;
    b, t.a, b | b a b | x,3,x;y,1,y;z,3,z;
    a now - | col1 | -4;-6;-4;
    'it', a where b != 'x' | col1 a | it,1;it,3;
    * where a > 'x' | a b | WrongType
    c | c | UnknownName
    a limit 9 | a | 3;1;3;";

#[test]
fn outputs_of_each_kept_row(rt: HostRuntime) {
    let rows: &[Pair] = &[(3, "x"), (1, "y"), (3, "z")];
    answers(&rt, rt.alloc(), rows, OUTPUTS);
}

const ORDERS: &str = "* order a | a b | -1,q;1,q;1,p;2,q;2,p;
    * order a desc | a b | 2,q;2,p;1,q;1,p;-1,q;
    * order b desc, a | a b | -1,q;1,q;2,q;1,p;2,p;
    b order a, b limit 2 | b | q;p;
    0 a - order a limit 1 | a | -2;
    0 a - order t.a limit 1 | a | 1;
    * order c | a b | UnknownName";

#[test]
fn order_by_outputs_and_columns_keeps_ties(rt: HostRuntime) {
    let rows: &[Pair] = &[(2, "q"), (1, "q"), (2, "p"), (1, "p"), (-1, "q")];
    answers(&rt, rt.alloc(), rows, ORDERS);
}

const FIRST_FEW: &str = "b order a limit 16 | b | a;d;g;j;m;p;b;e;h;k;n;q;c;f;i;l;
    b order a limit 17 | b | a;d;g;j;m;p;b;e;h;k;n;q;c;f;i;l;o;
    b order a desc limit 16 | b | c;f;i;l;o;r;b;e;h;k;n;q;a;d;g;j;
    b order a desc limit 17 | b | c;f;i;l;o;r;b;e;h;k;n;q;a;d;g;j;m;
    * order a, b desc limit 3 | a b | 0,p;0,m;0,j;
    distinct a order a desc limit 16 | a | 2;1;0;
    b order a limit 1 | b | a;
    b order a limit 0 | b |
    b order a limit 19 | b | a;d;g;j;m;p;b;e;h;k;n;q;c;f;i;l;o;r;";

// The letter at place i has i mod 3 beside it: 0 beside adgjmp, 1 beside behknq, 2 beside cfilor.
const LETTERS: &[Pair] = &[
    (0, "a"),
    (1, "b"),
    (2, "c"),
    (0, "d"),
    (1, "e"),
    (2, "f"),
    (0, "g"),
    (1, "h"),
    (2, "i"),
    (0, "j"),
    (1, "k"),
    (2, "l"),
    (0, "m"),
    (1, "n"),
    (2, "o"),
    (0, "p"),
    (1, "q"),
    (2, "r"),
];

#[test]
fn limit_keeps_the_first_in_order_however_many(rt: HostRuntime) {
    answers(&rt, rt.alloc(), LETTERS, FIRST_FEW);
}

const DIFFERENT: &str = "distinct * | a b | 2,x;1,y;2,y;
    distinct a | a | 2;1;
    distinct b order b desc | b | y;x;
    distinct a order a limit 1 | a | 1;
    distinct b order a | b | UnknownName
    distinct a order t.a | a | UnknownName";

#[test]
fn distinct_keeps_the_first_of_equal_rows(rt: HostRuntime) {
    let rows: &[Pair] = &[(2, "x"), (1, "y"), (2, "x"), (2, "y"), (1, "y")];
    answers(&rt, rt.alloc(), rows, DIFFERENT);
}

const PAST_THE_ENDS: &str = "a order a | a | -9223372036854775808;0;9223372036854775807;
    a 1 + limit 1 | col1 | Overflow
    a 1 - limit 0 | col1 | Overflow
    a 1 + where b != 'greatest' | col1 | 1;-9223372036854775807;
    distinct 5, a 1 + | c d | Overflow";

#[test]
fn no_limit_saves_a_kept_row_from_overflow(rt: HostRuntime) {
    let rows: &[Pair] = &[(0, "zero"), (GREATEST, "greatest"), (LEAST, "least")];
    answers(&rt, rt.alloc(), rows, PAST_THE_ENDS);
}

const JOINS: &str = "* | a b a c | 1,x,2,p;1,x,1,q;2,y,2,p;2,y,1,q;
    b, c where t.a = u.a | b c | x,q;y,p;
    b, c order u.a | b c | x,q;y,q;x,p;y,p;
    c, rows, count t.a group c | c n m | p,2,2;q,2,2;
    * order a desc, c limit 3 | a b a c | 2,y,2,p;2,y,1,q;1,x,2,p;
    a | a | UnknownName
    now | col1 | UnknownName";

#[test]
fn pairs_of_rows_of_two_tables(rt: HostRuntime) {
    let firsts: &[Pair] = &[(1, "x"), (2, "y")];
    let seconds: &[Pair] = &[(2, "p"), (1, "q")];
    join_answers(&rt, rt.alloc(), firsts, seconds, JOINS);
}

const EMPTY_JOINS: &str = "* | a b a c |
    rows | col1 | 0;";

#[test]
fn no_pairs_with_an_empty_table(rt: HostRuntime) {
    join_answers(&rt, rt.alloc(), &[(1, "x")], &[], EMPTY_JOINS);
    join_answers(&rt, rt.alloc(), &[], &[(1, "x")], EMPTY_JOINS);
}
