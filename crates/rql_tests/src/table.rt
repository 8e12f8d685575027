//! Rows of all answers in groups, by hand.

ghost use Rattle.sql_tree.specs.Statement.{IsSelect};

use crate::support::{Answers, Named, Shown, Told, Want, column, is, query, told};
use Function::{Count, Max, Min, Sum};
use Named::{K, V};
use fold_kit::{Combiner, FoldSet, How};
use pager::Stop;
use retro_base::{Failed, Refusal};
use rql::{Function, Pair, in_table};
use sql_tree::Select;
use std::alloc::{AllocError, Global};
use std::test::Fail;

const UNKNOWN_NAME: Want = Err(Stop::Refused(Refusal::UnknownName));

const NAME_TAKEN: Want = Err(Stop::Refused(Refusal::NameTaken));

const WRONG_TYPE: Want = Err(Stop::Refused(Refusal::WrongType));

const OVERFLOW: Want = Err(Stop::Refused(Refusal::Overflow));

const TABLES: [(&[u32], &[(Named, Function)], Want); 24] = [
    (&[14, 15], &[(V, Max)], Ok(b"k$v# a,11 b,5")),
    (&[14, 15], &[(V, Min)], Ok(b"k$v# a,1 b,5")),
    (&[14, 15], &[(V, Sum)], Ok(b"k$v# a,12 b,10")),
    (&[15, 9, 14], &[(V, Count)], Ok(b"k$v# a,2 b,3")),
    (&[9, 15], &[(V, Max)], Ok(b"k$v# b,5 a,11")),
    (&[14, 15], &[(K, Count)], Ok(b"k#v# 1,1 2,5 1,11")),
    (&[14, 15], &[(V, Sum), (K, Max)], Ok(b"k$v# b,22")),
    (&[8, 14], &[], Ok(b"k$v# a,1 b,2 b,5")),
    (&[10], &[(V, Sum), (K, Count)], Ok(b"k#v#")),
    (&[], &[(K, Sum), (K, Sum)], Ok(b"")),
    (&[1, 2, 3], &[(V, Sum)], Ok(b"v# 9223372036854775807")),
    (&[1, 3, 2], &[(V, Sum)], Ok(b"v# 9223372036854775807")),
    (&[3, 2, 1], &[(V, Sum)], Ok(b"v# 9223372036854775807")),
    (&[1, 2], &[(V, Sum)], OVERFLOW),
    (&[1, 2, 11], &[(V, Sum)], UNKNOWN_NAME),
    (&[1, 12], &[(K, Min), (K, Max)], UNKNOWN_NAME),
    (&[12, 1], &[(K, Min), (K, Max)], OVERFLOW),
    (&[14], &[(V, Min), (V, Max)], NAME_TAKEN),
    (&[14], &[(K, Sum), (K, Sum)], NAME_TAKEN),
    (&[13], &[(V, Max)], NAME_TAKEN),
    (&[14], &[(K, Sum)], WRONG_TYPE),
    (&[14, 5], &[(K, Max)], WRONG_TYPE),
    (&[14, 5], &[(V, Max)], UNKNOWN_NAME),
    (&[14, 0], &[(V, Max)], Err(Stop::Pager(Failed))),
];

fn pairs_of(alloc: Global, pairs: &[(Named, Function)]) -> Result<Vec<Pair>, AllocError> {
    let mut found = Vec::with_capacity(alloc, pairs.len())?;
    for (named, function) in pairs {
        found.push(Pair {
            column: column(alloc, *named)?.name,
            function: *function,
        })?;
    }
    Ok(found)
}

fn in_groups(
    alloc: Global,
    shown: &mut Shown,
    snapshots: &[u32],
    query: &Select,
    pairs: &[(Named, Function)],
) -> Told
    requires { IsSelect query.now }
{
    let folds = FoldSet::new(
        Combiner::new(How::Min, |a: i128, b: i128| a.min(b)),
        Combiner::new(How::Max, |a: i128, b: i128| a.max(b)),
        Combiner::new(How::Add, |a: i128, b: i128| a.wrapping_add(b)),
    );
    let pairs = pairs_of(alloc, pairs)?;
    let answer = in_table(alloc, shown, snapshots, query, &folds, &pairs);
    told(alloc, answer)
}

#[test]
fn groups_are_rows(rt: HostRuntime) -> Result<(), Fail> {
    let alloc = rt.alloc();
    let mut shown = Shown::new(alloc, Answers::Mixed);
    let query = query(alloc)?;
    for (snapshots, pairs, want) in TABLES {
        let told = in_groups(alloc, &mut shown, snapshots, &query, pairs);
        assert!(rt; is(&told, want));
    }
    assert_eq!(rt; shown.asked(), 44);
    Ok(())
}
