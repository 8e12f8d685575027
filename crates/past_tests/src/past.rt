//! A page as of three snapshots, while its captures are copied to an archive, and behind a stop of the pages' device
//! between a write and its sync.

use archive_tests::{Trial as Vault, make};
use core_trial::devices::{A, B, FLUSHER, Pair, devices, open};
use core_trial::failing::{crashed, stopping};
use core_trial::{Answer, Ask, Row, Trial, first_wrong};
use disk_mem::RamDisk;
use disk_model::{Disk, Sizes};
use race_model::{Batch, Fault};
use retro_base::{Device, PAGE_BYTES, Page, Refusal};
use std::alloc::Global;
use std::marker::Brand;
use std::sync::ledger::Blank;
use std::test::Fail;
use txn_set::Ending;

const SIZES: Sizes = Sizes {
    pages: 16,
    capacity: 64,
};

const SET: Answer = Answer::Declared(None);

// Page 7 is set before and behind each of three snapshots.
const CHANGES: [Row; 8] = [
    (Ask::Set(A, 7, 1), SET),
    (Ask::Marks(A, 1), Answer::Declared(Some(1))),
    (Ask::Set(A, 7, 2), SET),
    (Ask::Marks(A, 1), Answer::Declared(Some(2))),
    (Ask::Set(A, 7, 3), SET),
    (Ask::Marks(A, 1), Answer::Declared(Some(3))),
    (Ask::Set(A, 7, 4), SET),
    (Ask::Owed, Answer::Pair(3, 1)),
];

const NOT_WRITTEN: [Row; 1] = [(Ask::WriteBack(FLUSHER), Answer::Is(false))];

// The first call of the pages' device behind the write is the sync.
const WRITTEN: [Row; 4] = [
    (Ask::Ack(3), Answer::Done),
    (Ask::WriteBack(FLUSHER), Answer::Is(true)),
    (
        Ask::Settle(FLUSHER),
        Answer::No(Refusal::DiskFault {
            device: Device::Pages,
            count: 1,
        }),
    ),
    (Ask::Stopped, Answer::Is(true)),
];

// The log has the page, so that it is written again.
const OPENED: [Row; 9] = [
    (Ask::Owed, Answer::Pair(0, 1)),
    (Ask::Horizon, Answer::Pair(1, 3)),
    (Ask::Begin(A), Answer::Done),
    (Ask::Read(A, 7), Answer::Page(Some(4))),
    (Ask::Edit(A, 7, 9), Answer::Done),
    (Ask::Commit(A), SET),
    (Ask::WriteBack(FLUSHER), Answer::Is(true)),
    (Ask::Begin(A), Answer::Done),
    (Ask::Read(A, 7), Answer::Page(Some(9))),
];

fn why(fault: Fault) -> Refusal {
    fault.why
}

// An archive without a capture.
fn empty_vault(alloc: Global) -> Result<Vault<RamDisk>, Refusal> {
    let mut maplog = RamDisk::new(alloc, SIZES.maplog_bytes())?;
    make(alloc, &mut maplog, SIZES)?;
    Vault::open(
        alloc,
        RamDisk::new(alloc, SIZES.pagelog_bytes())?,
        maplog,
        SIZES,
    )
}

// The image of page 7's first capture from the one number on and below the other.
fn image<V: Disk + Drop>(
    alloc: Global,
    vault: &mut Vault<V>,
    range: (u64, u64),
) -> Result<Option<Page>, Fault> {
    vault.find::<Brand>(alloc, Blank::new(1), range.0, 7, range.1)
}

// What the archive has of it, else what the desk told.
fn found<V: Disk + Drop>(
    alloc: Global,
    vault: &mut Vault<V>,
    range: (u64, u64),
    told: Page,
) -> Result<Page, Refusal> {
    let found = image(alloc, vault, range).map_err(why)?;
    Ok(found.unwrap_or(told))
}

// Page 7 as of a snapshot.
fn as_of<D: Disk + Drop, V: Disk + Drop>(
    alloc: Global,
    trial: &mut Trial<D>,
    vault: &mut Vault<V>,
    snapshot: u32,
) -> Result<Page, Refusal> {
    let start = trial.look(alloc, B, u64::from(snapshot))?;
    let told = trial.peek(B.session, 7, snapshot)?;
    trial.unlook(B, Ending::Asked)?;
    found(alloc, vault, (start, told.acked), told.page)
}

// Whether page 7 was of 1, of 2 and of 3 alone at the three snapshots.
fn is_past<D: Disk + Drop, V: Disk + Drop>(
    alloc: Global,
    trial: &mut Trial<D>,
    vault: &mut Vault<V>,
) -> Result<bool, Refusal> {
    for snapshot in 1..4 {
        let want = Page::of([snapshot as u8; PAGE_BYTES]);
        if as_of(alloc, trial, vault, snapshot)? != want {
            return Ok(false);
        }
    }
    Ok(true)
}

fn send<V: Disk + Drop>(vault: &mut Vault<V>, batch: &Batch) -> Result<u64, Fault> {
    vault.lay(batch)?;
    vault.enter(batch)
}

// Enters what is pending in the archive; how many captures this has then.
fn copy<D: Disk + Drop, V: Disk + Drop>(
    alloc: Global,
    trial: &Trial<D>,
    vault: &mut Vault<V>,
) -> Result<u64, Refusal> {
    let mut batch = Batch::new(alloc)?;
    if !trial.next_batch(&mut batch) {
        return Ok(0);
    }
    send(vault, &batch).map_err(why)
}

// Whether the rows are answered so, and the past is so behind them.
fn goes_so<D: Disk + Drop, V: Disk + Drop>(
    alloc: Global,
    trial: &mut Trial<D>,
    vault: &mut Vault<V>,
    rows: &[Row],
) -> Result<bool, Refusal> {
    let wrong = first_wrong(alloc, trial, rows)?;
    Ok(wrong.is_none() && is_past(alloc, trial, vault)?)
}

// The captures are pending, and copied: whether it goes so, and how many are copied.
fn pending<D: Disk + Drop, V: Disk + Drop>(
    alloc: Global,
    trial: &mut Trial<D>,
    vault: &mut Vault<V>,
) -> Result<(bool, u64), Refusal> {
    let is_so = goes_so(alloc, trial, vault, &CHANGES)?;
    Ok((is_so, copy(alloc, trial, vault)?))
}

// Whether it goes so behind the copying.
fn entered<D: Disk + Drop, V: Disk + Drop>(
    alloc: Global,
    trial: &mut Trial<D>,
    vault: &mut Vault<V>,
) -> Result<bool, Refusal> {
    goes_so(alloc, trial, vault, &NOT_WRITTEN)
}

// And up to the stop.
fn written<D: Disk + Drop, V: Disk + Drop>(
    alloc: Global,
    trial: &mut Trial<D>,
    vault: &mut Vault<V>,
) -> Result<bool, Refusal> {
    goes_so(alloc, trial, vault, &WRITTEN)
}

// And behind an opening.
fn opened<D: Disk + Drop, V: Disk + Drop>(
    alloc: Global,
    trial: &mut Trial<D>,
    vault: &mut Vault<V>,
) -> Result<bool, Refusal> {
    goes_so(alloc, trial, vault, &OPENED)
}

// How many captures are copied, and whether each part of the story goes so.
type Past = (u64, [bool; 3]);

fn until_the_stop<D: Disk + Drop, V: Disk + Drop>(
    alloc: Global,
    trial: &mut Trial<D>,
    vault: &mut Vault<V>,
) -> Result<Past, Refusal> {
    let (pending, copied) = pending(alloc, trial, vault)?;
    let entered = entered(alloc, trial, vault)?;
    let written = written(alloc, trial, vault)?;
    Ok((copied, [pending, entered, written]))
}

// The past of a store on these devices, and the devices as they are left.
fn stopped<D: Disk + Drop, V: Disk + Drop>(
    alloc: Global,
    devices: (D, D),
    vault: &mut Vault<V>,
) -> Result<(Past, (D, D)), Refusal> {
    let mut trial = open(alloc, devices.0, devices.1, &[])?;
    let past = until_the_stop(alloc, &mut trial, vault)?;
    let (log, pages, _journal) = trial.into_parts();
    Ok((past, (log, pages)))
}

// The store of these devices beside the archive.
fn beside<D: Disk + Drop, V: Disk + Drop>(
    alloc: Global,
    devices: (D, D),
    vault: &Vault<V>,
) -> Result<Trial<D>, Refusal> {
    let kept = vault.kept()?;
    Trial::open(alloc, devices.0, devices.1, &kept, vault.end())
}

// Whether it goes so in the store that is opened of these devices.
fn goes_on<D: Disk + Drop, V: Disk + Drop>(
    alloc: Global,
    devices: (D, D),
    vault: &mut Vault<V>,
) -> Result<bool, Refusal> {
    let mut trial = beside(alloc, devices, vault)?;
    opened(alloc, &mut trial, vault)
}

// Devices of which the pages' stops. An opening is a sync of the pages, and the first edit reads one: the third call is
// a write.
fn begun(alloc: Global) -> Result<Pair, Refusal> {
    stopping(alloc, &devices(alloc, 16, 64)?, None, Some(3))
}

// Whether all goes so over a crash that turns each loose byte to 0xff.
fn told<V: Disk + Drop>(alloc: Global, vault: &mut Vault<V>) -> Result<(Past, bool), Refusal> {
    let (past, left) = stopped(alloc, begun(alloc)?, vault)?;
    let left = crashed(alloc, &left, 0xff)?;
    Ok((past, goes_on(alloc, left, vault)?))
}

fn story(alloc: Global) -> Result<(Past, bool), Refusal> {
    told(alloc, &mut empty_vault(alloc)?)
}

#[test]
fn the_past_is_kept_over_copying_and_a_stop(rt: HostRuntime) -> Result<(), Fail> {
    assert!(rt; story(rt.alloc()) == Ok(((3, [true; 3]), true)));
    Ok(())
}
