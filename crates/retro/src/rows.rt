//! Rows of runs over a cabinet that no shell can make: one that fails, one that counts its faults, and sessions of a
//! phase that run in turn. Texts worked out by hand.

use crate::trial::{Row, first_wrong};
use mem_cabinet::MemCabinet;
use std::alloc::{AllocError, Global};
use std::sync::Wait;
use std::test::Fail;
use std::thread::Threads;

// Its first call fails.
const FAILING: [Row; 2] = [
    (
        &["format", "d", "16", "64"],
        b"",
        6,
        b"retro: disk fault on cabinet 1\n",
    ),
    (&["format", "d", "16", "64"], b"", 0, b"formatted 16 64\n"),
];

// It counts its faults, and has two stores, of which one is made again.
const COUNTED: [Row; 9] = [
    (&["show", "d"], b"", 6, b"retro: disk fault on cabinet 1\n"),
    (
        &["run", "nosuch"],
        b"",
        6,
        b"retro: disk fault on cabinet 2\n",
    ),
    (&["format", "d", "16", "64"], b"", 0, b"formatted 16 64\n"),
    (
        &["show", "d"],
        b"",
        0,
        b"version 1\npages 16\ncapacity 64\noldest 1\nnewest 0\ncaptures 0\n",
    ),
    (&["show", "e"], b"", 6, b"retro: disk fault on cabinet 3\n"),
    (
        &["format", "e", "0000000020", "100"],
        b"",
        0,
        b"formatted 20 100\n",
    ),
    (
        &["show", "e"],
        b"",
        0,
        b"version 1\npages 20\ncapacity 100\noldest 1\nnewest 0\ncaptures 0\n",
    ),
    (&["format", "d", "17", "65"], b"", 0, b"formatted 17 65\n"),
    (
        &["show", "d"],
        b"",
        0,
        b"version 1\npages 17\ncapacity 65\noldest 1\nnewest 0\ncaptures 0\n",
    ),
];

// A run in memory, and two over a store, of phases with two sessions each. An insert into a table of one page captures
// that page once for each snapshot before it.
const IN_TURN: [Row; 5] = [
    (
        &["run"],
        b"SESSION b\nCREATE TABLE t(a INT)\nCOMMIT\nSESSION a\nINSERT INTO t VALUES (1)\nCOMMIT\n\
          COMMIT WITH SNAPSHOT\nPHASE\nSESSION a\nSELECT * FROM t\nROLLBACK\nSESSION b\nSELECT AS OF 1 * FROM t\n\
          PHASE\nPHASE\nSESSION b",
        0,
        b"phase 1\nsession b\nitem 1\nok\ncommitted\nsession a\nitem 1\nok 1\ncommitted\nitem 2\ncommitted as 1\n\
          phase 2\nsession a\nitem 1\nrows 1\n1\nrolled back\nsession b\nitem 1\nrows 1\n1\nphase 3\nphase 4\n\
          session b\njournal\n1 b 1 done\n1 a 1 done\n1 a 2 done as 1\n2 a 1 rolled back\n2 b 1 looked 1\n\
          2 b 1 unlooked\n",
    ),
    (&["format", "d", "64", "64"], b"", 0, b"formatted 64 64\n"),
    (
        &["run", "d"],
        b"SESSION a\nCREATE TABLE t(a INT)\nINSERT INTO t VALUES (1)\nCOMMIT WITH SNAPSHOT 'one'\n\
          SESSION b\nINSERT INTO t VALUES (2)\nCOMMIT WITH SNAPSHOT 'two'\n\
          PHASE\nSESSION b\nSELECT AS OF 1 * FROM t\nSESSION a\nSELECT * FROM t\nCOMMIT\n",
        0,
        b"phase 1\nsession a\nitem 1\nok\nok 1\ncommitted as 1\nsession b\nitem 1\nok 1\ncommitted as 2\n\
          phase 2\nsession b\nitem 1\nrows 1\n1\nsession a\nitem 1\nrows 2\n1\n2\ncommitted\n\
          journal\n1 a 1 done as 1\n1 b 1 done as 2\n2 b 1 looked 1\n2 b 1 unlooked\n2 a 1 done\n",
    ),
    (
        &["run", "d"],
        b"SESSION a\nINSERT INTO t VALUES (3)\nCOMMIT WITH SNAPSHOT 'three'\nSESSION b\nSELECT AS OF 2 * FROM t\n\
          PHASE\nSESSION c\nSELECT * FROM t\nROLLBACK\nSESSION d\nSELECT AS OF 3 * FROM t\n",
        0,
        b"phase 1\nsession a\nitem 1\nok 1\ncommitted as 3\nsession b\nitem 1\nrows 2\n1\n2\n\
          phase 2\nsession c\nitem 1\nrows 3\n1\n2\n3\nrolled back\nsession d\nitem 1\nrows 3\n1\n2\n3\n\
          journal\n1 a 1 done as 3\n1 b 1 looked 2\n1 b 1 unlooked\n2 c 1 rolled back\n2 d 1 looked 3\n\
          2 d 1 unlooked\n",
    ),
    (
        &["show", "d"],
        b"",
        0,
        b"version 1\npages 64\ncapacity 64\noldest 1\nnewest 3\ncaptures 2\n",
    ),
];

// Calls of a new cabinet that fail, and rows on it.
type Table = (&'static [u64], &'static [Row]);

const TABLES: [Table; 3] = [(&[1], &FAILING), (&[], &COUNTED), (&[], &IN_TURN)];

// The first row of a table that ends in another way.
fn first_wrong_of<R: Threads + Wait + Sync>(
    rt: &R,
    alloc: Global,
    table: Table,
) -> Result<Option<usize>, AllocError> {
    let mut cabinet = MemCabinet::new(alloc, table.0.to_vec(alloc)?);
    first_wrong(rt, alloc, &mut cabinet, table.1)
}

// The first table with such a row, and the row.
fn first_wrong_table<R: Threads + Wait + Sync>(
    rt: &R,
    alloc: Global,
) -> Result<Option<(usize, usize)>, AllocError> {
    for (number, table) in TABLES.iter().enumerate() {
        if let Some(row) = first_wrong_of(rt, alloc, *table)? {
            return Ok(Some((number, row)));
        }
    }
    Ok(None)
}

#[test]
fn faults_of_a_cabinet_are_counted_and_sessions_run_in_turn(rt: HostRuntime) -> Result<(), Fail> {
    assert!(rt; first_wrong_table(&rt, rt.alloc())? == None);
    Ok(())
}
