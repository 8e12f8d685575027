//! The answers of the calls, by hand.

ghost use Rattle.sql_tree.specs.Statement.{IsSelect};

use crate::support::{Answers, Shown, Told, Want, is, query, told};
use fold_kit::{Combiner, FoldSet, How};
use pager::Stop;
use retro_base::{Failed, Refusal};
use rql::{AsOf, Function, collate, in_variable};
use sql_tree::Select;
use std::alloc::Global;
use std::test::Fail;

const COLLATED: [(&[u32], Want); 11] = [
    (&[8, 9], Ok(b"k$v# a,1 b,2 a,1 b,2")),
    (&[10, 8], Ok(b"k$v# a,1 b,2 a,1")),
    (&[10], Ok(b"k$v#")),
    (&[], Ok(b"")),
    (&[8, 11, 12], Err(Stop::Refused(Refusal::UnknownName))),
    (&[8, 12, 11], Err(Stop::Refused(Refusal::Overflow))),
    (&[8, 5, 11], Err(Stop::Refused(Refusal::WrongType))),
    (&[5, 1], Err(Stop::Refused(Refusal::WrongType))),
    (&[13, 11], Err(Stop::Refused(Refusal::NameTaken))),
    (&[8, 13], Err(Stop::Refused(Refusal::NameTaken))),
    (&[8, 0, 11], Err(Stop::Pager(Failed))),
];

fn collated(alloc: Global, shown: &mut Shown, snapshots: &[u32], query: &Select) -> Told
    requires { IsSelect query.now }
{
    told(alloc, collate(alloc, shown, snapshots, query))
}

#[test]
fn answers_stand_one_after_the_other(rt: HostRuntime) -> Result<(), Fail> {
    let alloc = rt.alloc();
    let mut shown = Shown::new(alloc, Answers::Mixed);
    let query = query(alloc)?;
    for (snapshots, want) in COLLATED {
        let told = collated(alloc, &mut shown, snapshots, &query);
        assert!(rt; is(&told, want));
    }
    assert_eq!(rt; shown.asked(), 18);
    assert_eq!(rt; shown.faults(), 1);
    Ok(())
}

const NOT_ONE_AT_4: Want = Err(Stop::Refused(Refusal::NotOneValue { snapshot: 4 }));

const NOT_ONE_AT_8: Want = Err(Stop::Refused(Refusal::NotOneValue { snapshot: 8 }));

const IN_ONE: [(Function, &[u32], Want); 22] = [
    (Function::Sum, &[1, 2, 3], Ok(b"value# 9223372036854775807")),
    (Function::Sum, &[1, 3, 2], Ok(b"value# 9223372036854775807")),
    (Function::Sum, &[2, 3, 1], Ok(b"value# 9223372036854775807")),
    (Function::Sum, &[3, 2, 1], Ok(b"value# 9223372036854775807")),
    (
        Function::Sum,
        &[1, 1, 1, 2],
        Err(Stop::Refused(Refusal::Overflow)),
    ),
    (
        Function::Sum,
        &[1, 2],
        Err(Stop::Refused(Refusal::Overflow)),
    ),
    (Function::Min, &[2, 3, 1], Ok(b"value# -1")),
    (Function::Max, &[2, 3, 2], Ok(b"value# 1")),
    (Function::Min, &[6, 5, 6], Ok(b"value$ a")),
    (Function::Max, &[5, 6, 5], Ok(b"value$ b")),
    (Function::Count, &[5, 6, 5], Ok(b"value# 3")),
    (Function::Count, &[], Ok(b"value# 0")),
    (Function::Sum, &[], Ok(b"value# 0")),
    (Function::Min, &[], Ok(b"value#")),
    (Function::Max, &[], Ok(b"value#")),
    (Function::Count, &[1, 4, 11], NOT_ONE_AT_4),
    (Function::Count, &[8], NOT_ONE_AT_8),
    (Function::Sum, &[7], Err(Stop::Refused(Refusal::WrongType))),
    (Function::Min, &[2, 4], NOT_ONE_AT_4),
    (
        Function::Min,
        &[5, 1],
        Err(Stop::Refused(Refusal::WrongType)),
    ),
    (
        Function::Max,
        &[1, 11, 4],
        Err(Stop::Refused(Refusal::UnknownName)),
    ),
    (Function::Max, &[1, 0], Err(Stop::Pager(Failed))),
];

fn in_one(
    alloc: Global,
    shown: &mut Shown,
    snapshots: &[u32],
    query: &Select,
    function: Function,
) -> Told
    requires { IsSelect query.now }
{
    let folds = FoldSet::new(
        Combiner::new(How::Min, |a: i128, b: i128| a.min(b)),
        Combiner::new(How::Max, |a: i128, b: i128| a.max(b)),
        Combiner::new(How::Add, |a: i128, b: i128| a.wrapping_add(b)),
    );
    let answer = in_variable(alloc, shown, snapshots, query, &folds, function);
    told(alloc, answer)
}

#[test]
fn values_are_one(rt: HostRuntime) -> Result<(), Fail> {
    let alloc = rt.alloc();
    let mut shown = Shown::new(alloc, Answers::Mixed);
    let query = query(alloc)?;
    for (function, snapshots, want) in IN_ONE {
        let told = in_one(alloc, &mut shown, snapshots, &query, function);
        assert!(rt; is(&told, want));
    }
    assert_eq!(rt; shown.asked(), 45);
    Ok(())
}
