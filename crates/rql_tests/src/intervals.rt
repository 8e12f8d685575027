//! Intervals, by hand.

ghost use Rattle.sql_tree.specs.Statement.{IsSelect};

use crate::support::{Answers, Shown, Told, Want, is, query, told};
use Answers::{Mixed, Sevens};
use pager::Stop;
use retro_base::{Failed, Refusal};
use rql_intervals::intervals;
use sql_tree::Select;
use std::alloc::Global;
use std::test::Fail;

const INTERVALS: [(Answers, &[u32], Want); 9] = [
    (
        Sevens,
        &[2, 3, 5, 8],
        Ok(b"v#start_snapshot#end_snapshot# 7,2,3 7,8,8"),
    ),
    (
        Sevens,
        &[8, 5, 3, 2, 5, 2],
        Ok(b"v#start_snapshot#end_snapshot# 7,8,8 7,3,2 7,2,2"),
    ),
    (
        Mixed,
        &[8, 9, 10, 9, 8],
        Ok(b"k$v#start_snapshot#end_snapshot# a,1,8,8 b,2,8,9 b,2,9,8 a,1,8,8"),
    ),
    (Mixed, &[], Ok(b"")),
    (Mixed, &[3, 16], Err(Stop::Refused(Refusal::NameTaken))),
    (Mixed, &[8, 13], Err(Stop::Refused(Refusal::NameTaken))),
    (Mixed, &[8, 5, 11], Err(Stop::Refused(Refusal::WrongType))),
    (Mixed, &[12, 11], Err(Stop::Refused(Refusal::Overflow))),
    (Mixed, &[8, 0, 11], Err(Stop::Pager(Failed))),
];

fn in_intervals(alloc: Global, shown: &mut Shown, snapshots: &[u32], query: &Select) -> Told
    requires { IsSelect query.now }
{
    told(alloc, intervals(alloc, shown, snapshots, query))
}

#[test]
fn rows_stand_in_intervals(rt: HostRuntime) -> Result<(), Fail> {
    let alloc = rt.alloc();
    let query = query(alloc)?;
    let mut asked = 0u64;
    for (answers, snapshots, want) in INTERVALS {
        let mut shown = Shown::new(alloc, answers);
        let told = in_intervals(alloc, &mut shown, snapshots, &query);
        assert!(rt; is(&told, want));
        asked = asked.saturating_add(shown.asked());
    }
    assert_eq!(rt; asked, 24);
    Ok(())
}
