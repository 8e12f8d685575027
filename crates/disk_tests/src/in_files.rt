//! A store made in a folder and opened again.

use disk_file::FileCabinet;
use disk_model::{Cabinet, Disk, Failed, Four, Sizes};
use std::fs;
use std::test::Fail;

const FOLDER: &str = "disk_file_test/store";

const SIZES: Sizes = Sizes {
    pages: 16,
    capacity: 64,
};

// One call of a device without clauses of its own.
fn write<D: Disk>(disk: &mut D, place: u64, bytes: &[u8]) -> Result<(), Failed> {
    if place <= disk.size() && bytes.len() as u64 <= disk.size() - place {
        return disk.write_at(place, bytes);
    }
    Err(Failed)
}

fn byte<D: Disk>(disk: &mut D, place: u64) -> Result<u8, Failed> {
    let mut out = [9];
    if place < disk.size() {
        disk.read_at(place, &mut out)?;
    }
    Ok(out[0])
}

fn sync<D: Disk>(disk: &mut D) -> Result<(), Failed> {
    disk.sync()
}

fn extents<D: Disk>(four: &Four<D>) -> [u64; 4] {
    [
        four.log.size(),
        four.pages.size(),
        four.pagelog.size(),
        four.maplog.size(),
    ]
}

// Makes a store and writes into each of its files.
fn make<C: Cabinet>(cabinet: &mut C) -> Result<[u64; 4], Failed> {
    let mut four = cabinet.create(FOLDER, SIZES)?;
    write(&mut four.log, 33_554_430, &[1, 2])?;
    write(&mut four.pages, 1024, &[3])?;
    write(&mut four.pagelog, 0, &[4])?;
    write(&mut four.maplog, 5, &[5])?;
    sync(&mut four.log)?;
    Ok(extents(&four))
}

// What stands at some places of a store.
fn look<C: Cabinet>(cabinet: &mut C) -> Result<([u64; 4], [u8; 6]), Failed> {
    let mut four = cabinet.fetch(FOLDER)?;
    let bytes = [
        byte(&mut four.log, 33_554_430)?,
        byte(&mut four.log, 33_554_431)?,
        byte(&mut four.pages, 1023)?,
        byte(&mut four.pages, 1024)?,
        byte(&mut four.pagelog, 0)?,
        byte(&mut four.maplog, 5)?,
    ];
    Ok((extents(&four), bytes))
}

fn fetches<C: Cabinet>(cabinet: &mut C) -> bool {
    cabinet.fetch(FOLDER).is_ok()
}

#[test]
fn a_store_in_files_is_opened_again(rt: HostRuntime) -> Result<(), Fail> {
    let _ = fs::remove_dir_all(&rt, "disk_file_test");
    let mut missing = FileCabinet::new(rt.alloc(), &rt);
    let finds = fetches(&mut missing);
    let mut first = FileCabinet::new(rt.alloc(), &rt);
    let made = make(&mut first);
    let twice = fetches(&mut first);
    let mut second = FileCabinet::new(rt.alloc(), &rt);
    let found = look(&mut second);
    fs::remove_dir_all(&rt, "disk_file_test")?;
    let sizes = [33_554_432, 16_384, 65_536, 12_288];
    assert!(rt; (finds, twice) == (false, false));
    assert!(rt; made == Ok(sizes));
    assert!(rt; found == Ok((sizes, [1, 2, 0, 3, 4, 5])));
    Ok(())
}
