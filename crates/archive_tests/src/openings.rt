//! Devices that are no archive's, and where they break.

use crate::support::{SMALL, write, zeros};
use crate::trial::Trial;
use disk_mem::MemDisk;
use retro_base::{Device, Refusal};
use std::alloc::Global;
use std::test::Fail;

// A region of generation 1, a start from 0 on with capacity 64, and a run of pages 0 and 1.
const MAPLOG: [u8; 59] = [
    0xA5, 0, 0, 0, 0, 0, 0, 0, 0, 0, 0, 0, 0, 0, 0, 1, //
    0xA5, 0, 0, 0, 15, 1, 0, 1, 0, 0, 0, 0, 0, 0, 0, 0, 0, 0, 0, 0x40, //
    0xA5, 0, 0, 0, 17, 2, 0, 0, 0, 0, 0, 0, 0, 0, 0, 0, 0, 2, 0, 0, 0, 1, //
    0,
];

// The bytes of the Pagelog and of the Maplog, bytes that are written over the Maplog's, and the lowest mapping and the
// number of captures, or the device and the place that are told.
type Row = (
    u64,
    u64,
    &'static [(u64, u8)],
    Result<(u64, u64), (Device, u64)>,
);

const ROWS: [Row; 18] = [
    (65_536, 12_288, &[], Ok((0, 2))),
    // A size; the Pagelog's is told first.
    (65_535, 12_287, &[(0, 0)], Err((Device::Pagelog, 65_535))),
    (65_536, 12_287, &[(0, 0)], Err((Device::Maplog, 12_287))),
    // No header is open; two are, both of generation 1.
    (65_536, 12_288, &[(0, 0)], Err((Device::Maplog, 0))),
    (
        65_536,
        12_288,
        &[(6144, 0xA5), (6159, 1)],
        Err((Device::Maplog, 0)),
    ),
    // The length of the start, and of the run, passes the region.
    (65_536, 12_288, &[(17, 0xFF)], Err((Device::Maplog, 16))),
    (65_536, 12_288, &[(37, 0xFF)], Err((Device::Maplog, 36))),
    // The run is a byte too long; it is of a kind that there is not; of mappings from 1 on; of page 16.
    (65_536, 12_288, &[(40, 18)], Err((Device::Maplog, 36))),
    (65_536, 12_288, &[(41, 9)], Err((Device::Maplog, 36))),
    (65_536, 12_288, &[(49, 1)], Err((Device::Maplog, 36))),
    (65_536, 12_288, &[(57, 16)], Err((Device::Maplog, 36))),
    // The version is 3; the capacity is 65.
    (65_536, 12_288, &[(23, 3)], Err((Device::Maplog, 16))),
    (65_536, 12_288, &[(35, 65)], Err((Device::Maplog, 16))),
    // The length of a record behind a run of no such kind passes the region.
    (
        65_536,
        12_288,
        &[(41, 9), (58, 0xA5), (59, 0xFF)],
        Err((Device::Maplog, 58)),
    ),
    // A low mark of 3 stands behind two mappings.
    (
        65_536,
        12_288,
        &[(58, 0xA5), (62, 9), (63, 3), (71, 3)],
        Err((Device::Maplog, 58)),
    ),
    // The run has 65 pages, all but one of them 0, and so its 148 bytes end at place 184; it has 64.
    (
        65_536,
        12_288,
        &[(40, 143), (53, 65)],
        Err((Device::Maplog, 184)),
    ),
    (65_536, 12_288, &[(40, 141), (53, 64)], Ok((0, 64))),
    // It has 65, of which a low mark forgets the first.
    (
        65_536,
        12_288,
        &[
            (40, 143),
            (53, 65),
            (184, 0xA5),
            (188, 9),
            (189, 3),
            (197, 1),
        ],
        Ok((1, 65)),
    ),
];

// A Maplog of that many bytes, with these written over its list's.
fn maplog_of(alloc: Global, size: u64, damage: &[(u64, u8)]) -> Result<MemDisk, Refusal> {
    let mut maplog = zeros(alloc, size)?;
    write(&mut maplog, 0, &MAPLOG)?;
    for (place, byte) in damage {
        write(&mut maplog, *place, &[*byte])?;
    }
    Ok(maplog)
}

// The lowest mapping and the number of captures of an archive.
fn opened(pagelog: MemDisk, maplog: MemDisk, alloc: Global) -> Result<(u64, u64), Refusal> {
    let trial = Trial::open(alloc, pagelog, maplog, SMALL)?;
    Ok((trial.low(), trial.held()))
}

fn opens_so(alloc: Global, row: &Row) -> Result<bool, Refusal> {
    let pagelog = zeros(alloc, row.0)?;
    let maplog = maplog_of(alloc, row.1, row.2)?;
    let want = row
        .3
        .map_err(|(device, place)| Refusal::NotAStore { device, place });
    Ok(opened(pagelog, maplog, alloc) == want)
}

// The first row that is not as it happens.
fn first_wrong(alloc: Global) -> Result<Option<usize>, Refusal> {
    for (i, row) in ROWS.iter().enumerate() {
        if !opens_so(alloc, row)? {
            return Ok(Some(i));
        }
    }
    Ok(None)
}

#[test]
fn devices_are_opened_or_refused(rt: HostRuntime) -> Result<(), Fail> {
    assert!(rt; first_wrong(rt.alloc()) == Ok(None));
    Ok(())
}
