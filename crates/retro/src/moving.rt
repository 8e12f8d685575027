//! Two sessions at once that move a number between two rows, beside one that reads the past, while each call of each
//! device fails in turn, and while each device stops behind each of its calls.

use crate::devices::{Fault, Ran};
use crate::faults::{
    ALL, CALLS, STOPS, Script, Sweep, acknowledged, ends_opening, has_at_least, has_line_with,
    lines_from, swept_whole, tells_fault,
};
use crate::trial::Outcome;
use retro_base::Device;
use std::test::Fail;

// The store in front of them, with two snapshots. At snapshot n the rows are (0, 11 - n) and (1, 19 + n); and so they
// are at each that a move declares, whoever makes it.
const MADE: &[u8] =
    b"SESSION m\nCREATE TABLE t(k INT, v INT)\nINSERT INTO t VALUES (0,10),(1,20)\nCOMMIT WITH SNAPSHOT\n\
      UPDATE t SET v=v-1 WHERE k=0\nUPDATE t SET v=v+1 WHERE k=1\nCOMMIT WITH SNAPSHOT\n";

// Two moves of each of two sessions, one of which makes another table before; and a look at what the first snapshot
// held, of which a page is in the archive.
const MOVES: &[u8] = b"SESSION a\nCREATE TABLE u(a INT)\nCOMMIT\n\
      UPDATE t SET v=v-1 WHERE k=0\nUPDATE t SET v=v+1 WHERE k=1\nCOMMIT WITH SNAPSHOT\n\
      UPDATE t SET v=v-1 WHERE k=0\nUPDATE t SET v=v+1 WHERE k=1\nCOMMIT WITH SNAPSHOT\n\
      SESSION b\n\
      UPDATE t SET v=v-1 WHERE k=0\nUPDATE t SET v=v+1 WHERE k=1\nCOMMIT WITH SNAPSHOT\n\
      UPDATE t SET v=v-1 WHERE k=0\nUPDATE t SET v=v+1 WHERE k=1\nCOMMIT WITH SNAPSHOT\n\
      SESSION c\nSELECT AS OF 1 SUM(v) FROM t\n";

// How many items that has.
const ITEMS: usize = 6;

const OVERLAPPED: &[u8] = b"refused 8 Overlap ";

// How an item may be refused: another session was at its rows at each attempt, or a device failed, or has stopped.
const REFUSED: [&[u8]; 3] = [OVERLAPPED, b"refused 2 DiskFault ", b"refused 16 Stopped "];

// Looks at what is there behind a run: of the snapshots the count, the newest, the least and the greatest of number
// and first row together, and of the sum; and the rows now.
const LOOKS: &[u8] = b"SESSION c\n\
      CollateData('SELECT snap_id FROM SnapIds',\
      'SELECT current_snapshot() AS n, MIN(v) AS m, SUM(v) AS s FROM t','rql_c')\n\
      SELECT COUNT(*), MAX(n), MIN(n+m), MAX(n+m), MIN(s), MAX(s) FROM rql_c\nSELECT * FROM t\nCOMMIT\n";

const FRONT: &[u8] = b"phase 1\nsession c\nitem 1\n";

const END: &[u8] = b"committed\njournal\n1 c 1 looked all\n1 c 1 unlooked\n1 c 3 done\n";

// By the newest snapshot, from 2 on: how it was told, and what is found then.
const FOUND: [(&[u8], &[u8]); 5] = [
    (
        b"committed as 2",
        b"ok 2\nitem 2\nrows 1\n2,2,11,11,30,30\nitem 3\nrows 2\n0,9\n1,21\n",
    ),
    (
        b"committed as 3",
        b"ok 3\nitem 2\nrows 1\n3,3,11,11,30,30\nitem 3\nrows 2\n0,8\n1,22\n",
    ),
    (
        b"committed as 4",
        b"ok 4\nitem 2\nrows 1\n4,4,11,11,30,30\nitem 3\nrows 2\n0,7\n1,23\n",
    ),
    (
        b"committed as 5",
        b"ok 5\nitem 2\nrows 1\n5,5,11,11,30,30\nitem 3\nrows 2\n0,6\n1,24\n",
    ),
    (
        b"committed as 6",
        b"ok 6\nitem 2\nrows 1\n6,6,11,11,30,30\nitem 3\nrows 2\n0,5\n1,25\n",
    ),
];

fn finds(outcome: &Outcome, found: &[u8]) -> bool {
    let Some(rest) = outcome.text.as_slice().strip_prefix(FRONT) else {
        return false;
    };
    let Some(between) = rest.strip_suffix(END) else {
        return false;
    };
    outcome.status == 0 && between == found
}

// Whether so many snapshots are told as committed: those next behind the second, each once.
fn are_next(told: &[u8], count: usize) -> bool {
    for (place, (line, _)) in FOUND.iter().enumerate().skip(1) {
        if has_line_with(told, line) != (place <= count) {
            return false;
        }
    }
    true
}

// How many items are told as refused in a way that they may be.
fn refused(text: &[u8]) -> usize {
    let mut count = 0_usize;
    for front in REFUSED {
        count = count.saturating_add(lines_from(text, front));
    }
    count
}

// Whether each item is told as committed, answered, or refused as it may be.
fn is_each_told(text: &[u8]) -> bool {
    let (answered, refused) = (lines_from(text, b"rows 1"), refused(text));
    let done = lines_from(text, b"committed").saturating_add(answered);
    done.saturating_add(refused) == ITEMS
        && refused == lines_from(text, b"refused ")
        && answered == lines_from(text, b"30")
}

fn is_whole(outcome: &Outcome) -> bool {
    let text = outcome.text.as_slice();
    let overlapped = lines_from(text, OVERLAPPED);
    outcome.status == 0 && is_each_told(text) && overlapped == lines_from(text, b"refused ")
}

/// Two sessions at once change the rows of one table, beside one that reads the past.
pub struct Moves;

impl Script for Moves {
    fn made_by(&self) -> Option<&'static [u8]> {
        Some(MADE)
    }

    fn text(&self) -> &'static [u8] {
        MOVES
    }

    fn looks(&self) -> &'static [u8] {
        LOOKS
    }

    fn is_told(&self, ran: &Ran, fault: Fault, is_met: bool) -> bool {
        let outcome = &ran.outcome;
        if !is_met {
            is_whole(outcome)
        } else if ends_opening(outcome, fault.device) {
            true
        } else {
            tells_fault(outcome, fault.device) && is_each_told(outcome.text.as_slice())
        }
    }

    fn has_found(&self, outcome: &Outcome, told: &[u8], is_in_doubt: bool) -> bool {
        let count = acknowledged(told);
        let most = if is_in_doubt { 2 } else { 1 };
        for (_, found) in FOUND.iter().skip(count).take(most) {
            if finds(outcome, found) {
                return are_next(told, count);
            }
        }
        false
    }
}

// An opening reads the log twice, each time by three reads behind a sync. A commit writes twice and syncs twice, and
// two are made at least: of the new table, and of a move, since one that is refused met another at each attempt.
#[test]
fn calls_of_a_log_that_fail_keep_what_sessions_were_told(rt: HostRuntime) -> Result<(), Fail> {
    let counts = swept_whole(&rt, rt.alloc(), &Moves, Sweep::of(Device::Log, &CALLS));
    assert!(rt; has_at_least(counts, &[6, 4, 6]), "{counts:?}");
    Ok(())
}

#[test]
fn a_log_that_stops_keeps_what_sessions_were_told(rt: HostRuntime) -> Result<(), Fail> {
    let counts = swept_whole(&rt, rt.alloc(), &Moves, Sweep::of(Device::Log, &STOPS));
    assert!(rt; has_at_least(counts, &[16]), "{counts:?}");
    Ok(())
}

// An opening syncs the pages. The first page, the catalog's, the table's and the new table's are read, and three of
// them at least written back, and synced.
#[test]
fn failing_pages_keep_what_sessions_were_told(rt: HostRuntime) -> Result<(), Fail> {
    let counts = swept_whole(&rt, rt.alloc(), &Moves, Sweep::of(Device::Pages, &ALL));
    assert!(rt; has_at_least(counts, &[4, 3, 2, 9]), "{counts:?}");
    Ok(())
}

// An opening syncs the Pagelog. The look reads the table's page as of the first snapshot. The new table and a move
// capture two pages at least; what is captured is written, and synced.
#[test]
fn a_failing_pagelog_keeps_what_sessions_were_told(rt: HostRuntime) -> Result<(), Fail> {
    let counts = swept_whole(&rt, rt.alloc(), &Moves, Sweep::of(Device::Pagelog, &ALL));
    assert!(rt; has_at_least(counts, &[1, 2, 2, 5]), "{counts:?}");
    Ok(())
}

// An opening reads the Maplog by three reads behind a sync. What was captured is entered once at least, by two writes,
// each with a sync.
#[test]
fn a_failing_maplog_keeps_what_sessions_were_told(rt: HostRuntime) -> Result<(), Fail> {
    let counts = swept_whole(&rt, rt.alloc(), &Moves, Sweep::of(Device::Maplog, &ALL));
    assert!(rt; has_at_least(counts, &[3, 2, 3, 8]), "{counts:?}");
    Ok(())
}
