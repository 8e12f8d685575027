//! What no clause says: a log worked by hand, byte for byte, and that calls succeed.

ghost use Rattle.history.specs.declared.log.Version.TheVariants.{One};
ghost use Rattle.redo_log.specs.Laws.{IsWithinRecord};

use disk_mem::RamDisk;
use disk_model::{Disk, Failed};
use history::{Change, Label, Version, Writes, is_label};
use records::Entry;
use redo_log::{LogSide, RedoLog, change_fits};
use retro_base::{Device, LOG_REGION_BYTES, Refusal};
use std::alloc::Global;
use std::test::Fail;

// A region of generation 1, and a base of sixteen pages and capacity 64 with nothing declared.
const LOG: [u8; 61] = [
    0xA5, 0, 0, 0, 0, 0, 0, 0, 0, 0, 0, 0, 0, 0, 0, 1, 0xA5, 0, 0, 0, 39, //
    1, 0, 1, 0, 0, 0, 0x10, 0, 0, 0, 0x40, 0, 0, 0, 0, 0, 0, 0, 0, 0, 0, 0, 0, 0, 0, 0, 0, 0, 0, 0,
    1, 0, 0, 0, 0, 0, 0, 0, 0, 0,
];
// A commit of no pages that declares a snapshot with the label a.
const COMMIT: [u8; 12] = [0xA5, 0, 0, 0, 6, 2, 1, 1, 0x61, 0, 0, 0];

fn put<D: Disk>(disk: &mut D, place: u64, bytes: &[u8]) -> Result<(), Refusal> {
    if place > 1024 || bytes.len() > 1024 || disk.size() < 2048 {
        return Err(Refusal::BadSizes);
    }
    match disk.write_at(place, bytes) {
        Ok(()) => Ok(()),
        Err(Failed) => Err(Refusal::BadSizes),
    }
}

// A device whose log is worked by hand.
fn device(alloc: Global) -> Result<RamDisk, Refusal> {
    let mut disk = RamDisk::new(alloc, 2 * LOG_REGION_BYTES)?;
    put(&mut disk, 0, &LOG)?;
    Ok(disk)
}

// Whether these bytes stand on the device from that place on.
fn stands_at<D: Disk>(disk: &mut D, place: u64, want: &[u8]) -> bool {
    let mut bytes = [0xEE; 61];
    if place > 1024 || want.len() > 61 || disk.size() < 2048 {
        return false;
    }
    disk.read_at(place, &mut bytes) == Ok(()) && bytes.starts_with(want)
}

// How many pages the log's base has, how many changes stand behind it, and where it ends.
fn listed<D: Disk>(alloc: Global, disk: &mut D) -> Result<(u32, usize, u64), Refusal> {
    let (redo, log) = RedoLog::fetch(alloc, Version::One, disk)?;
    Ok((log.base.page_count, log.changes.len(), redo.end()))
}

// Adds a change to the device's log.
fn changed<D: Disk + Drop>(alloc: Global, disk: D, change: Change) -> Result<D, Refusal>
    requires { IsWithinRecord One change }
{
    change_fits(Version::One, &change);
    match LogSide::fetch(alloc, Version::One, disk) {
        Ok((mut side, _)) => {
            let framed = side.body(alloc, &Entry::Change(change))?;
            side.change(&framed)?;
            Ok(side.into_disk())
        }
        Err((_, refusal)) => Err(refusal),
    }
}

// Puts the base of the device's log in the place of the log.
fn cut<D: Disk + Drop>(alloc: Global, disk: D) -> Result<D, Refusal> {
    match LogSide::fetch(alloc, Version::One, disk) {
        Ok((mut side, log)) => {
            side.cut(alloc, Version::One, &log.base)?;
            Ok(side.into_disk())
        }
        Err((_, refusal)) => Err(refusal),
    }
}

fn label_of(alloc: Global, bytes: &[u8]) -> Result<Label, Refusal> {
    if !is_label(bytes) {
        return Err(Refusal::BadWords);
    }
    Ok(Label::new(Vec::from_slice(alloc, bytes)?))
}

// Declares a snapshot with the label a.
fn declared<D: Disk + Drop>(alloc: Global, disk: D) -> Result<D, Refusal> {
    let label = Some(label_of(alloc, b"a")?);
    let writes = Writes::new(Vec::new(alloc));
    changed(alloc, disk, Change::Commit { label, writes })
}

fn dropped<D: Disk + Drop>(alloc: Global, disk: D) -> Result<D, Refusal> {
    changed(alloc, disk, Change::Drop { below: 2 })
}

#[test]
fn a_change_stands_behind_the_base_until_a_cut(rt: HostRuntime) -> Result<(), Fail> {
    let alloc = rt.alloc();
    let mut disk = declared(alloc, device(alloc)?)?;
    let written = stands_at(&mut disk, 60, &COMMIT);
    let grown = listed(alloc, &mut disk);
    let mut disk = cut(alloc, disk)?;
    let alone = listed(alloc, &mut disk);
    assert!(rt;
        (written, grown, alone) == (true, Ok((16, 1, 71)), Ok((16, 0, LOG_REGION_BYTES + 60)))
    );
    Ok(())
}

#[test]
fn a_drop_of_no_snapshot_breaks_the_log_at_its_gate(rt: HostRuntime) -> Result<(), Fail> {
    let alloc = rt.alloc();
    let mut disk = dropped(alloc, device(alloc)?)?;
    let device = Device::Log;
    assert!(rt; listed(alloc, &mut disk) == Err(Refusal::NotAStore { device, place: 60 }));
    Ok(())
}

// Makes the log of the base that the one device lists on the other.
fn made<D: Disk>(alloc: Global, model: &mut D, disk: &mut D) -> Result<(), Refusal> {
    if disk.size() != 2 * LOG_REGION_BYTES {
        return Err(Refusal::BadSizes);
    }
    let (_, log) = RedoLog::fetch(alloc, Version::One, model)?;
    RedoLog::make(alloc, Version::One, disk, &log.base)
}

#[test]
fn the_log_of_a_base_is_made_byte_for_byte(rt: HostRuntime) -> Result<(), Fail> {
    let alloc = rt.alloc();
    let mut disk = RamDisk::new(alloc, 2 * LOG_REGION_BYTES)?;
    made(alloc, &mut device(alloc)?, &mut disk)?;
    assert!(rt; stands_at(&mut disk, 0, &LOG));
    Ok(())
}
