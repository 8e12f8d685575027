//! A session that commits while each call of each device fails in turn, and while each device stops behind each of its
//! calls.

use crate::devices::{Fault, Ran};
use crate::faults::{
    ALL, CALLS, OTHER_FILLS, STOPS, Script, Sweep, acknowledged, has_at_least, swept_whole,
    tells_fault,
};
use crate::trial::Outcome;
use disk_mem::Call;
use retro_base::Device;
use std::test::Fail;

// A table, three commits with snapshots, a look, and a call. At snapshot n the sum is the nth power of 2, less 1.
const COMMITS: &[u8] =
    b"SESSION a\nCREATE TABLE t(v INT)\nINSERT INTO t VALUES (1)\nCOMMIT WITH SNAPSHOT\nINSERT INTO t VALUES (2)\n\
      COMMIT WITH SNAPSHOT\nINSERT INTO t VALUES (4)\nCOMMIT WITH SNAPSHOT\nSELECT AS OF 2 SUM(v) FROM t\n\
      CollateData('SELECT snap_id FROM SnapIds','SELECT SUM(v) FROM t','rql_c')\nSELECT * FROM rql_c\n";

const ALL_TOLD: &[u8] =
    b"phase 1\nsession a\nitem 1\nok\nok 1\ncommitted as 1\nitem 2\nok 1\ncommitted as 2\nitem 3\nok 1\n\
      committed as 3\nitem 4\nrows 1\n3\nitem 5\nok 3\nitem 6\nrows 3\n1\n3\n7\njournal\n1 a 1 done as 1\n\
      1 a 2 done as 2\n1 a 3 done as 3\n1 a 4 looked 2\n1 a 4 unlooked\n1 a 5 looked all\n1 a 5 unlooked\n";

/// Looks at what is there behind a run: as of each snapshot, and now.
pub const LOOKS: &[u8] = b"SESSION b\n\
      CollateData('SELECT snap_id FROM SnapIds','SELECT current_snapshot() AS n, SUM(v) AS s FROM t','rql_c')\n\
      SELECT * FROM rql_c\nSELECT AS OF 1 SUM(v) FROM t\nSELECT AS OF 2 SUM(v) FROM t\nSELECT AS OF 3 SUM(v) FROM t\n\
      SELECT SUM(v) FROM t\nCOMMIT\n";

// What the looks find where so many of the commits are there.
const FOUND: [&[u8]; 4] = [
    b"phase 1\nsession b\nitem 1\nok 0\nitem 2\nrows 0\nitem 3\nrefused 9 NoSuchSnapshot 1 0\nitem 4\n\
      refused 9 NoSuchSnapshot 2 0\nitem 5\nrefused 9 NoSuchSnapshot 3 0\nitem 6\nrefused 20 UnknownName\ncommitted\n\
      journal\n1 b 1 looked all\n1 b 1 unlooked\n1 b 3 refused 9\n1 b 4 refused 9\n1 b 5 refused 9\n1 b 6 done\n",
    b"phase 1\nsession b\nitem 1\nok 1\nitem 2\nrows 1\n1,1\nitem 3\nrows 1\n1\nitem 4\n\
      refused 9 NoSuchSnapshot 2 1\nitem 5\nrefused 9 NoSuchSnapshot 3 1\nitem 6\nrows 1\n1\ncommitted\n\
      journal\n1 b 1 looked all\n1 b 1 unlooked\n1 b 3 looked 1\n1 b 3 unlooked\n1 b 4 refused 9\n1 b 5 refused 9\n\
      1 b 6 done\n",
    b"phase 1\nsession b\nitem 1\nok 2\nitem 2\nrows 2\n1,1\n2,3\nitem 3\nrows 1\n1\nitem 4\nrows 1\n3\nitem 5\n\
      refused 9 NoSuchSnapshot 3 2\nitem 6\nrows 1\n3\ncommitted\n\
      journal\n1 b 1 looked all\n1 b 1 unlooked\n1 b 3 looked 1\n1 b 3 unlooked\n1 b 4 looked 2\n1 b 4 unlooked\n\
      1 b 5 refused 9\n1 b 6 done\n",
    b"phase 1\nsession b\nitem 1\nok 3\nitem 2\nrows 3\n1,1\n2,3\n3,7\nitem 3\nrows 1\n1\nitem 4\nrows 1\n3\nitem 5\n\
      rows 1\n7\nitem 6\nrows 1\n7\ncommitted\n\
      journal\n1 b 1 looked all\n1 b 1 unlooked\n1 b 3 looked 1\n1 b 3 unlooked\n1 b 4 looked 2\n1 b 4 unlooked\n\
      1 b 5 looked 3\n1 b 5 unlooked\n1 b 6 done\n",
];

// A read that fails writes nothing and so stops nothing: it ends the item that asked for the page, and the items behind
// it go on. The first item asks for each page that the script needs, and it is read then. So where a read of the pages
// fails there is no table, and the two commits behind it declare snapshots without one.
const READ_FAILED: &[u8] =
    b"phase 1\nsession a\nitem 1\nrefused 2 DiskFault pages 1\nitem 2\nrefused 20 UnknownName\ncommitted as 1\n\
      item 3\nrefused 20 UnknownName\ncommitted as 2\nitem 4\nrefused 20 UnknownName\n\
      item 5\nrefused 20 UnknownName\nitem 6\nrefused 20 UnknownName\njournal\n1 a 1 fault pages 1\n\
      1 a 2 done as 1\n1 a 3 done as 2\n1 a 4 looked 2\n1 a 4 refused 20\n1 a 5 looked all\n1 a 5 refused 20\n";

const FOUND_NO_TABLE: &[u8] =
    b"phase 1\nsession b\nitem 1\nrefused 20 UnknownName\nitem 2\nrefused 20 UnknownName\n\
      item 3\nrefused 20 UnknownName\nitem 4\nrefused 20 UnknownName\nitem 5\nrefused 9 NoSuchSnapshot 3 2\n\
      item 6\nrefused 20 UnknownName\ncommitted\n\
      journal\n1 b 1 looked all\n1 b 1 refused 20\n1 b 3 looked 1\n1 b 3 refused 20\n1 b 4 looked 2\n\
      1 b 4 refused 20\n1 b 5 refused 9\n1 b 6 done\n";

/// Whether a look finds what is there behind so many commits, or, where one may be in doubt, behind one more.
pub fn finds(outcome: &Outcome, count: usize, is_in_doubt: bool) -> bool {
    let most = if is_in_doubt { 2 } else { 1 };
    for found in FOUND.iter().skip(count).take(most) {
        if outcome.is(0, found) {
            return true;
        }
    }
    false
}

fn is_read_of_pages(fault: Fault) -> bool {
    fault.device == Device::Pages && matches!(fault.kind, Some(Call::Read))
}

/// One session makes a table, commits, and looks.
pub struct Commits;

impl Script for Commits {
    fn made_by(&self) -> Option<&'static [u8]> {
        None
    }

    fn text(&self) -> &'static [u8] {
        COMMITS
    }

    fn looks(&self) -> &'static [u8] {
        LOOKS
    }

    fn is_told(&self, ran: &Ran, fault: Fault, is_met: bool) -> bool {
        if !is_met {
            ran.outcome.is(0, ALL_TOLD)
        } else if is_read_of_pages(fault) {
            ran.outcome.is(6, READ_FAILED)
        } else {
            tells_fault(&ran.outcome, fault.device)
        }
    }

    fn has_found(&self, outcome: &Outcome, told: &[u8], is_in_doubt: bool) -> bool {
        if told == READ_FAILED {
            outcome.is(0, FOUND_NO_TABLE)
        } else {
            finds(outcome, acknowledged(told), is_in_doubt)
        }
    }
}

// An opening reads the log twice, each time by three reads behind a sync; a commit writes twice and syncs twice.
#[test]
fn calls_of_a_log_that_fail_lose_nothing_acknowledged(rt: HostRuntime) -> Result<(), Fail> {
    let counts = swept_whole(&rt, rt.alloc(), &Commits, Sweep::of(Device::Log, &CALLS));
    assert!(rt; has_at_least(counts, &[6, 6, 8]), "{counts:?}");
    Ok(())
}

#[test]
fn a_log_that_stops_loses_nothing_acknowledged(rt: HostRuntime) -> Result<(), Fail> {
    let counts = swept_whole(&rt, rt.alloc(), &Commits, Sweep::of(Device::Log, &STOPS));
    assert!(rt; has_at_least(counts, &[20]), "{counts:?}");
    Ok(())
}

// An opening syncs the pages. The first item reads three of them and writes all three, and so each is written back and
// synced.
#[test]
fn failing_pages_lose_nothing_acknowledged(rt: HostRuntime) -> Result<(), Fail> {
    let counts = swept_whole(&rt, rt.alloc(), &Commits, Sweep::of(Device::Pages, &ALL));
    assert!(rt; has_at_least(counts, &[3, 3, 2, 8]), "{counts:?}");
    Ok(())
}

// An opening syncs the Pagelog. The second and the third commit each capture a page at least.
#[test]
fn a_failing_pagelog_loses_nothing_acknowledged(rt: HostRuntime) -> Result<(), Fail> {
    let counts = swept_whole(&rt, rt.alloc(), &Commits, Sweep::of(Device::Pagelog, &ALL));
    assert!(rt; has_at_least(counts, &[0, 2, 2, 4]), "{counts:?}");
    Ok(())
}

// An opening reads the Maplog by three reads behind a sync. What was captured is entered once at least, by two writes,
// each with a sync.
#[test]
fn a_failing_maplog_loses_nothing_acknowledged(rt: HostRuntime) -> Result<(), Fail> {
    let counts = swept_whole(&rt, rt.alloc(), &Commits, Sweep::of(Device::Maplog, &ALL));
    assert!(rt; has_at_least(counts, &[3, 2, 3, 8]), "{counts:?}");
    Ok(())
}

const OTHER_DEVICES: [(Device, u64); 3] = [
    (Device::Pages, 8),
    (Device::Pagelog, 4),
    (Device::Maplog, 8),
];

fn stops(device: Device) -> Sweep {
    Sweep {
        device,
        kinds: &STOPS,
        images: &OTHER_FILLS,
    }
}

#[test]
fn a_log_that_stops_loses_nothing_under_other_fills(rt: HostRuntime) -> Result<(), Fail> {
    let counts = swept_whole(&rt, rt.alloc(), &Commits, stops(Device::Log));
    assert!(rt; has_at_least(counts, &[20]), "{counts:?}");
    Ok(())
}

#[test]
fn other_devices_that_stop_lose_nothing_under_other_fills(rt: HostRuntime) -> Result<(), Fail> {
    let mut is_well = true;
    for (device, least) in OTHER_DEVICES {
        let counts = swept_whole(&rt, rt.alloc(), &Commits, stops(device));
        is_well = is_well && has_at_least(counts, &[least]);
    }
    assert!(rt; is_well);
    Ok(())
}
