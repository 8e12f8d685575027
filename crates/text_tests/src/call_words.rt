//! Calls read, with answers worked out by hand.

use retro_base::Refusal;
use rql::{Function, Pair};
use rql_arguments::{Call, Combination, call_of};
use sql_text::{Parsed, RqlCall, parse};
use std::alloc::{AllocError, Global};
use std::test::Fail;

fn push_bytes(text: &mut String, bytes: &[u8]) -> Result<(), AllocError> {
    for byte in bytes {
        text.push(char::from(*byte))?;
    }
    Ok(())
}

fn function(of: Function) -> &'static str {
    match of {
        Function::Min => "min",
        Function::Max => "max",
        Function::Sum => "sum",
        Function::Count => "count",
    }
}

fn show_pairs(text: &mut String, pairs: &[Pair]) -> Result<(), AllocError> {
    for pair in pairs {
        text.push(' ')?;
        push_bytes(text, pair.column.bytes())?;
        text.push(':')?;
        text.push_str(function(pair.function))?;
    }
    Ok(())
}

fn show(text: &mut String, call: &Call) -> Result<(), AllocError> {
    push_bytes(text, call.table.bytes())?;
    match &call.combination {
        Combination::Collate => text.push_str(" collate"),
        Combination::InVariable(of) => {
            text.push(' ')?;
            text.push_str(function(*of))
        }
        Combination::InTable(pairs) => show_pairs(text, pairs.as_slice()),
        Combination::Intervals => text.push_str(" intervals"),
    }
}

/// The call that a line spells.
fn spelt(alloc: Global, line: &str) -> Option<RqlCall> {
    let bytes = line.as_bytes();
    if bytes.len() > 4096 {
        return None;
    }
    match parse(alloc, bytes) {
        Ok(Parsed::Rql(call)) => Some(call),
        _ => None,
    }
}

fn show_refusal(text: &mut String, why: Refusal) -> Result<(), AllocError> {
    match why {
        Refusal::Syntax { place } => write!(text, "{place}"),
        _ => text.push_str("other"),
    }
}

/// What a call says in short, its arguments standing at 10, 20, 30 and 40.
fn said(alloc: Global, text: &mut String, call: &RqlCall) -> Result<(), AllocError> {
    let places = [10, 20, 30, 40];
    match call_of(alloc, call, &places) {
        Ok(call) => show(text, &call),
        Err(why) => show_refusal(text, why),
    }
}

/// What the call of a line says in short.
fn told(alloc: Global, line: &str) -> Result<String, AllocError> {
    let mut text = String::new(alloc);
    match spelt(alloc, line) {
        Some(call) => said(alloc, &mut text, &call)?,
        None => text.push_str("no call")?,
    }
    Ok(text)
}

/// Lines, and what they say or where they are refused.
const CALLS: [(&str, &str); 41] = [
    (
        "CollateData('SELECT snap_id FROM SnapIds','SELECT k, v FROM t WHERE k = ''p''','rql_c')",
        "rql_c collate",
    ),
    (
        "CollateDataIntoIntervals('select snap_id from SnapIds where snap_id > 1 order by snap_id desc limit 3',\
         'select distinct v from t, u order by v','rql_')",
        "rql_ intervals",
    ),
    (
        "AggregateDataInVariable('SELECT snap_id FROM SnapIds','SELECT SUM(v) FROM t','rql_v','SUM')",
        "rql_v sum",
    ),
    (
        "AggregateDataInVariable('SELECT snap_id FROM SnapIds','SELECT v FROM t','rql_bcdefghijklmnopqrstuvwxyz_01','min')",
        "rql_bcdefghijklmnopqrstuvwxyz_01 min",
    ),
    (
        "AggregateDataInTable('SELECT snap_id FROM SnapIds','SELECT k, v FROM t','rql_t','(v,MAX)')",
        "rql_t v:max",
    ),
    (
        "AggregateDataInTable('SELECT snap_id FROM SnapIds','SELECT k, v FROM t','rql_t',' ( v , count ),(v,Min) ,( _w1,SUM ) ')",
        "rql_t v:count v:min _w1:sum",
    ),
    ("CollateData('','SELECT v FROM t','rql_c')", "10"),
    (
        "CollateData('SELECT * FROM SnapIds','SELECT v FROM t','rql_c')",
        "10",
    ),
    (
        "CollateData('SELECT label FROM SnapIds','SELECT v FROM t','rql_c')",
        "10",
    ),
    (
        "CollateData('SELECT snap_id FROM snapids','SELECT v FROM t','rql_c')",
        "10",
    ),
    (
        "CollateData('SELECT Snap_id FROM SnapIds','SELECT v FROM t','rql_c')",
        "10",
    ),
    (
        "CollateData('SELECT (snap_id) FROM SnapIds','SELECT v FROM t','rql_c')",
        "10",
    ),
    (
        "CollateData('SELECT SnapIds.snap_id FROM SnapIds','SELECT v FROM t','rql_c')",
        "10",
    ),
    (
        "CollateData('SELECT snap_id AS s FROM SnapIds','SELECT v FROM t','rql_c')",
        "10",
    ),
    (
        "CollateData('SELECT snap_id, label FROM SnapIds','SELECT v FROM t','rql_c')",
        "10",
    ),
    (
        "CollateData('SELECT DISTINCT snap_id FROM SnapIds','SELECT v FROM t','rql_c')",
        "10",
    ),
    (
        "CollateData('SELECT snap_id FROM SnapIds, t','SELECT v FROM t','rql_c')",
        "10",
    ),
    (
        "CollateData('SELECT snap_id FROM SnapIds GROUP BY snap_id','SELECT v FROM t','rql_c')",
        "10",
    ),
    (
        "CollateData('SELECT AS OF 1 snap_id FROM SnapIds','SELECT v FROM t','rql_c')",
        "10",
    ),
    (
        "CollateData('SELECT snap_id FROM SnapIds;','SELECT v FROM t','rql_c')",
        "10",
    ),
    (
        "CollateData('SELECT snap_id FROM SnapIds','','rql_c')",
        "20",
    ),
    (
        "CollateData('SELECT snap_id FROM SnapIds','SELECT AS OF 1 v FROM t','rql_c')",
        "20",
    ),
    (
        "CollateData('SELECT snap_id FROM SnapIds','DELETE FROM t','rql_c')",
        "20",
    ),
    (
        "CollateData('SELECT snap_id FROM SnapIds','SELECT ?~{} FROM t','rql_c')",
        "20",
    ),
    (
        "CollateData('SELECT snap_id FROM SnapIds','SELECT ''v FROM t','rql_c')",
        "20",
    ),
    (
        "CollateData('SELECT snap_id FROM SnapIds','SELECT v FROM t','c')",
        "30",
    ),
    (
        "CollateData('SELECT snap_id FROM SnapIds','SELECT v FROM t','RQL_c')",
        "30",
    ),
    (
        "CollateData('SELECT snap_id FROM SnapIds','SELECT v FROM t','rql')",
        "30",
    ),
    (
        "CollateData('SELECT snap_id FROM SnapIds','SELECT v FROM t',' rql_c')",
        "30",
    ),
    (
        "CollateData('SELECT snap_id FROM SnapIds','SELECT v FROM t','rql_c ')",
        "30",
    ),
    (
        "CollateData('SELECT snap_id FROM SnapIds','SELECT v FROM t','rql_bcdefghijklmnopqrstuvwxyz_012')",
        "30",
    ),
    (
        "AggregateDataInVariable('SELECT snap_id FROM SnapIds','SELECT v FROM t','rql_v','AVG')",
        "40",
    ),
    (
        "AggregateDataInVariable('SELECT snap_id FROM SnapIds','SELECT v FROM t','rql_v',' SUM')",
        "40",
    ),
    (
        "AggregateDataInTable('SELECT snap_id FROM SnapIds','SELECT v FROM t','rql_t','')",
        "40",
    ),
    (
        "AggregateDataInTable('SELECT snap_id FROM SnapIds','SELECT v FROM t','rql_t','(v,MAX),')",
        "40",
    ),
    (
        "AggregateDataInTable('SELECT snap_id FROM SnapIds','SELECT v FROM t','rql_t','(v,MAX)(w,MIN)')",
        "40",
    ),
    (
        "AggregateDataInTable('SELECT snap_id FROM SnapIds','SELECT v FROM t','rql_t','(v,AVG)')",
        "40",
    ),
    (
        "AggregateDataInTable('SELECT snap_id FROM SnapIds','SELECT v FROM t','rql_t','(count,SUM)')",
        "40",
    ),
    (
        "AggregateDataInTable('SELECT snap_id FROM SnapIds','SELECT v FROM t','rql_t','(v,MAX) ?')",
        "40",
    ),
    (
        "AggregateDataInTable('SELECT snap_id FROM SnapIds','COMMIT','c','')",
        "20",
    ),
    ("AggregateDataInTable('x','COMMIT','c','')", "10"),
];

#[test]
fn calls_say_so_or_are_refused_at_their_first_bad_argument(rt: HostRuntime) -> Result<(), Fail> {
    for (line, want) in CALLS {
        let got = told(rt.alloc(), line)?;
        assert_eq!(rt; got.as_str(), want, "{line}");
    }
    Ok(())
}
