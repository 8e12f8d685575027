//! Selects, and the columns of their answers.

use super::statements::{refuses, table};
use crate::building::{beside, list, write};
use sql_check::answer_columns;
use sql_tree::{Scope, SelectList, TableSchema};
use std::alloc::Global;
use std::process::Abort;
use values::Kind;

const NAMES: &str = "select * from t => 0
    select * from v => 20
    select * from SnapIds => 20
    select c from t => 20
    select u.a from t => 20
    select now from t => 20
    select * from t, u => 0
    select a from t, u => 20
    select t.a, u.a from t, u => 0
    select b, c from t, u => 0
    select * from t, v => 20
    select * from t, rql_v => 20
    select * from t, t => 21
    select a from t, t => 20
    select t.a from t, t => 21
    select t.b 1 + from t, t => 21";

#[test]
fn names_in_selects(rt: HostRuntime) {
    refuses(&rt, rt.alloc(), None, NAMES);
}

const SNAPSHOTS: &str = "select now from t => 0
    select now a + from t => 0
    select now b + from t => 22
    select sum now from t => 0";

#[test]
fn the_number_of_a_snapshot_is_an_integer(rt: HostRuntime) {
    refuses(&rt, rt.alloc(), Some(3), SNAPSHOTS);
}

const KEYS: &str = "select b from t order a, b => 0
    select a as x from t order x => 0
    select a as x from t order t.x => 20
    select a as x from t order t.b => 0
    select a from t order c => 20
    select a 1 + from t order col1 => 0
    select a 1 + from t order col2 => 20
    select 1 as x, 2 from t order col2 => 0
    select rows from t order a => 20
    select rows from t order col1 => 0
    select distinct b from t order a => 20
    select distinct b from t order b => 0
    select distinct b from t order t.b => 20
    select distinct * from t order a => 0
    select * from t, u order a => 0
    select b from t, u order a => 20";

#[test]
fn keys_of_an_order(rt: HostRuntime) {
    refuses(&rt, rt.alloc(), None, KEYS);
}

const GROUPS: &str = "select a, rows from t group a => 0
    select t.a from t group a => 0
    select a from t group t.a, b => 0
    select 5, 'x' from t group a => 0
    select b from t group a => 22
    select a 1 + from t group a => 22
    select 1 1 + from t group a => 22
    select * from t group a => 22
    select rows from t group c => 20
    select * from t group c => 20
    select a, rows from t => 22
    select 5, min b from t => 0
    select c, rows from t => 20";

#[test]
fn outputs_of_groups(rt: HostRuntime) {
    refuses(&rt, rt.alloc(), None, GROUPS);
}

const KINDS: &str = "select sum a from t => 0
    select sum b from t => 22
    select sum '1' from t => 22
    select min b, count b from t => 0
    select count b 1 + from t => 22
    select min b b + from t => 22
    select 'x' from t => 0
    select a 'x' + from t => 22
    select b c + from t => 20
    select * from t where a < 1 => 0
    select * from t where 'x' < t.b => 0
    select * from t where 1 < 2, a < '1' => 22
    select * from t where b < 1, now < 1 => 20";

#[test]
fn kinds_in_selects(rt: HostRuntime) {
    refuses(&rt, rt.alloc(), None, KINDS);
}

// The names and kinds of the columns of an answer, each behind a blank.
fn shown(rt: &impl Abort, alloc: Global, scope: &Scope<'_>, list: &SelectList) -> Vec<u8> {
    let columns = answer_columns(alloc, scope, list).expect(rt, "memory");
    let mut out = Vec::new(alloc);
    for column in columns.as_slice() {
        write(rt, &mut out, b" ");
        write(rt, &mut out, column.name.bytes());
        write(rt, &mut out, kind_text(column.kind));
    }
    out
}

fn kind_text(kind: Kind) -> &'static [u8] {
    match kind {
        Kind::Int => b" INT",
        Kind::Text => b" TEXT",
    }
}

#[test]
fn columns_of_answers(rt: HostRuntime) {
    let alloc = rt.alloc();
    let t = table(&rt, alloc, "t", "a INT, b TEXT");
    let u = table(&rt, alloc, "u", "a INT, c TEXT");
    let listed = list(&rt, alloc, "t.b, 1, 'x' as n, sum b, min b, rows");
    let of_outputs = shown(&rt, alloc, &Scope::of_one(&t), &listed);
    let of_all = shown(&rt, alloc, &beside(&rt, &t, &u), &SelectList::All);
    assert_eq!(rt;
        of_outputs.as_slice(),
        b" b TEXT col2 INT n TEXT col4 INT col5 TEXT col6 INT".as_slice()
    );
    assert_eq!(rt; of_all.as_slice(), b" a INT b TEXT a INT c TEXT".as_slice());
}
