//! A store on real files, closed and opened again.

use crate::plays::{empty, told};
use crate::steps::{Answer, Step, Told};
use disk_file::FileCabinet;
use disk_model::Cabinet;
use std::alloc::Global;
use std::fs;
use std::sync::Wait;
use std::test::Fail;

const FOLDER: &str = "store_in_files/store";

const FIRST: [Step; 6] = [
    Step::Marked(7, 1, 1),
    Step::Marked(7, 1, 2),
    Step::Plain(7, 1, 3),
    Step::Copy,
    Step::WriteBack,
    Step::Past(1, 7),
];

const FIRST_TOLD: [Answer; 6] = [
    Ok(Told::Committed(Some(1))),
    Ok(Told::Committed(Some(2))),
    Ok(Told::Committed(None)),
    Ok(Told::Round(true)),
    Ok(Told::Round(true)),
    Ok(Told::Past(0, Some(1))),
];

// Snapshot 2 starts behind the one capture till then, and captures the page once more.
const AGAIN: [Step; 4] = [
    Step::Horizon,
    Step::Read(7),
    Step::Past(1, 7),
    Step::Past(2, 7),
];

const AGAIN_TOLD: [Answer; 4] = [
    Ok(Told::Horizon(1, 2)),
    Ok(Told::Page(Some(3))),
    Ok(Told::Past(0, Some(1))),
    Ok(Told::Past(1, Some(2))),
];

fn makes<R: Wait, C: Cabinet>(rt: &R, alloc: Global, cabinet: &mut C) -> bool {
    match empty(alloc, cabinet, FOLDER) {
        Some(disks) => told(rt, alloc, disks, &(&FIRST, &FIRST_TOLD)).is_some(),
        None => false,
    }
}

fn opens<R: Wait, C: Cabinet>(rt: &R, alloc: Global, cabinet: &mut C) -> bool {
    match cabinet.fetch(FOLDER) {
        Ok(disks) => told(rt, alloc, disks, &(&AGAIN, &AGAIN_TOLD)).is_some(),
        Err(_) => false,
    }
}

#[test]
fn a_store_in_files_is_closed_and_opened_again(rt: HostRuntime) -> Result<(), Fail> {
    let _ = fs::remove_dir_all(&rt, "store_in_files");
    let mut first = FileCabinet::new(rt.alloc(), &rt);
    let made = makes(&rt, rt.alloc(), &mut first);
    let mut second = FileCabinet::new(rt.alloc(), &rt);
    let opened = opens(&rt, rt.alloc(), &mut second);
    fs::remove_dir_all(&rt, "store_in_files")?;
    assert!(rt; (made, opened) == (true, true));
    Ok(())
}
