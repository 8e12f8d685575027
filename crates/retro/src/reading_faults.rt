//! Reads that fail of a store with a past: under a look, under a call, and where a store is shown.

use crate::commits::{LOOKS, finds};
use crate::devices::{Fault, Ran, all_again, formatted, run_over, shown_of};
use crate::faults::{Script, Sweep, ends_opening, has_at_least, swept_whole};
use crate::trial::Outcome;
use disk_mem::{Call, MemDisk};
use disk_model::Four;
use retro_base::Device;
use std::alloc::Global;
use std::sync::Wait;
use std::test::Fail;
use std::thread::Threads;

// Three commits with snapshots. The second and the third change the table's page, so that the end of the run copies two
// old states of it to the Pagelog.
const MADE: &[u8] =
    b"SESSION a\nCREATE TABLE t(v INT)\nINSERT INTO t VALUES (1)\nCOMMIT WITH SNAPSHOT\nINSERT INTO t VALUES (2)\n\
      COMMIT WITH SNAPSHOT\nINSERT INTO t VALUES (4)\nCOMMIT WITH SNAPSHOT\n";

// A look at the second, and a call over all three.
const ASKED: &[u8] = b"SESSION a\nSELECT AS OF 2 SUM(v) FROM t\n\
      CollateData('SELECT snap_id FROM SnapIds','SELECT SUM(v) FROM t','rql_c')\nSELECT * FROM rql_c\n";

const TOLD: &[u8] =
    b"phase 1\nsession a\nitem 1\nrows 1\n3\nitem 2\nok 3\nitem 3\nrows 3\n1\n3\n7\njournal\n\
      1 a 1 looked 2\n1 a 1 unlooked\n1 a 2 looked all\n1 a 2 unlooked\n";

// The first read of the Pagelog is the look's.
const LOOK_FAILED: &[u8] =
    b"phase 1\nsession a\nitem 1\nrefused 2 DiskFault pagelog 1\nitem 2\nok 3\nitem 3\nrows 3\n1\n3\n7\njournal\n\
      1 a 1 looked 2\n1 a 1 fault pagelog 1\n1 a 2 looked all\n1 a 2 unlooked\n";

// The others are the call's, of which then no table is there.
const CALL_FAILED: &[u8] =
    b"phase 1\nsession a\nitem 1\nrows 1\n3\nitem 2\nrefused 2 DiskFault pagelog 1\nitem 3\n\
      refused 20 UnknownName\njournal\n1 a 1 looked 2\n1 a 1 unlooked\n1 a 2 looked all\n1 a 2 fault pagelog 1\n";

// One session looks at the past of a store.
struct Asks;

impl Script for Asks {
    fn made_by(&self) -> Option<&'static [u8]> {
        Some(MADE)
    }

    fn text(&self) -> &'static [u8] {
        ASKED
    }

    fn looks(&self) -> &'static [u8] {
        LOOKS
    }

    fn is_told(&self, ran: &Ran, fault: Fault, is_met: bool) -> bool {
        if !is_met {
            ran.outcome.is(0, TOLD)
        } else if fault.behind == 0 {
            ran.outcome.is(6, LOOK_FAILED)
        } else {
            ran.outcome.is(6, CALL_FAILED)
        }
    }

    fn has_found(&self, outcome: &Outcome, _told: &[u8], _is_in_doubt: bool) -> bool {
        finds(outcome, 3, false)
    }
}

const READS: [Option<Call>; 1] = [Some(Call::Read)];

#[test]
fn a_read_of_the_pagelog_that_fails_is_told_under_a_look_and_under_a_call(
    rt: HostRuntime,
) -> Result<(), Fail> {
    let counts = swept_whole(&rt, rt.alloc(), &Asks, Sweep::of(Device::Pagelog, &READS));
    assert!(rt; has_at_least(counts, &[2]), "{counts:?}");
    Ok(())
}

const SHOWN: &[u8] = b"version 1\npages 16\ncapacity 64\noldest 1\nnewest 3\ncaptures 2\n";

// More calls than the showing of a store makes of a device.
const MOST: u64 = 50;

// How many calls of a device fail well in turn where a store is shown, until it is shown whole; None where one does not.
fn shown_behind<R: Threads + Wait + Sync>(
    rt: &R,
    alloc: Global,
    made: &Four<MemDisk>,
    device: Device,
) -> Option<u64> {
    for behind in 0..MOST {
        let fault = Fault {
            device,
            kind: None,
            behind,
        };
        let outcome = shown_of(rt, alloc, all_again(alloc, made, fault).ok()?)?;
        if outcome.is(0, SHOWN) {
            return Some(behind);
        }
        if !ends_opening(&outcome, device) {
            return None;
        }
    }
    None
}

// The least number of calls that the showing of a store makes of each device: the log is read twice, by three reads behind
// a sync, and the Maplog once.
const LEAST: [(Device, u64); 4] = [
    (Device::Log, 7),
    (Device::Pages, 1),
    (Device::Pagelog, 1),
    (Device::Maplog, 4),
];

fn are_shown<R: Threads + Wait + Sync>(rt: &R, alloc: Global) -> Option<bool> {
    let made = run_over(rt, alloc, formatted(rt, alloc, "16")?, MADE)?;
    for (device, least) in LEAST {
        if shown_behind(rt, alloc, &made.four, device)? < least {
            return Some(false);
        }
    }
    Some(true)
}

#[test]
fn a_device_that_fails_where_a_store_is_shown_is_told(rt: HostRuntime) -> Result<(), Fail> {
    assert!(rt; are_shown(&rt, rt.alloc()) == Some(true));
    Ok(())
}
