//! Statements that change tables.

use super::statements::refuses;

const CREATES: &str = "table v a INT, A INT => 0
    table t a INT => 21
    table T a INT => 0
    table i a INT => 21
    table SnapIds a INT => 21
    table rql_v a INT => 21
    table v a INT, a TEXT => 21
    index j t b => 0
    index i t b => 21
    index u t b => 21
    index rql_j t b => 0
    index j v b => 20
    index j t c => 20
    index i t c => 20
    index j SnapIds label => 20";

#[test]
fn names_of_new_tables_and_indexes(rt: HostRuntime) {
    refuses(&rt, rt.alloc(), None, CREATES);
}

const INSERTS: &str = "insert t 1 'x'; 2 '' => 0
    insert v 1 'x' => 20
    insert rql_v 1 => 20
    insert t 1 => 22
    insert t 1 'x' 1 => 22
    insert t 'x' 1 => 22
    insert t 1 'x'; 1 1 => 22
    insert i 1 => 20";

#[test]
fn tuples_that_fit_their_table(rt: HostRuntime) {
    refuses(&rt, rt.alloc(), None, INSERTS);
}

const UPDATES: &str = "update t a = a 1 + => 0
    update t b = t.b, a = 1 => 0
    update v a = 1 => 20
    update t c = 1 => 20
    update t a = c => 20
    update t a = u.a => 20
    update t a = now => 20
    update t a = 1 where c < 1 => 20
    update t a = 1, a = 2 => 21
    update t a = 1, a = c => 20
    update t a = 1, a = 'x' => 21
    update t a = 'x' => 22
    update t b = 1 => 22
    update t b = a => 22
    update t a = b 1 + => 22
    update t a = 1 where b < 1 => 22
    update t a = 'x' where c < 1 => 20
    update t a = 1 where a < 1, 'x' < b => 0";

#[test]
fn assignments_that_fit_their_columns(rt: HostRuntime) {
    refuses(&rt, rt.alloc(), None, UPDATES);
}

const DELETES: &str = "delete t => 0
    delete t where b < 'x' => 0
    delete v => 20
    delete SnapIds => 20
    delete t where now < 1 => 20
    delete t where a < b => 22
    delete t where 1 < 1, 1 < 'x' => 22
    delete t where 1 < 'x', x < 1 => 20";

#[test]
fn conditions_that_compare_like_with_like(rt: HostRuntime) {
    refuses(&rt, rt.alloc(), None, DELETES);
}
