//! What no clause says: that calls succeed where they should, and which of them fail.

use disk_model::{Cabinet, Disk, Four, Sizes};
use mem_cabinet::MemCabinet;
use std::test::Fail;

const SIZES: Sizes = Sizes {
    pages: 16,
    capacity: 64,
};

fn write_first<D: Disk>(disk: &mut D, byte: u8) -> bool {
    disk.size() == 16_384 && disk.write_at(0, &[byte]).is_ok()
}

fn first_of<D: Disk>(disk: &mut D) -> Option<u8> {
    let mut byte = [0];
    if disk.size() != 16_384 || disk.read_at(0, &mut byte).is_err() {
        return None;
    }
    Some(byte[0])
}

// Makes a store of that name whose pages begin with this byte, and puts it back.
fn make<C: Cabinet>(cabinet: &mut C, dir: &str, byte: u8) -> bool {
    match cabinet.create(dir, SIZES) {
        Ok(mut four) => {
            let written = write_first(&mut four.pages, byte);
            cabinet.put_back(dir, four);
            written
        }
        Err(_) => false,
    }
}

// The byte with which the pages of the store of that name begin, which is put back.
fn kept<C: Cabinet>(cabinet: &mut C, dir: &str) -> Option<u8> {
    match cabinet.fetch(dir) {
        Ok(mut four) => {
            let byte = first_of(&mut four.pages);
            cabinet.put_back(dir, four);
            byte
        }
        Err(_) => None,
    }
}

// Takes the devices of the store of that name out, and answers whether the calls for it then fail.
fn is_out_then<C: Cabinet>(cabinet: &mut C, dir: &str) -> bool {
    match cabinet.fetch(dir) {
        Ok(four) => {
            let fetched = cabinet.fetch(dir).is_err();
            let made = cabinet.create(dir, SIZES).is_err();
            drop(four);
            fetched && made
        }
        Err(_) => false,
    }
}

// Two stores are kept apart, one is made anew; of the ten calls the third is listed, two ask for a store that is out,
// and one for a store that was never made.
#[test]
fn stores_are_kept_by_name(rt: HostRuntime) -> Result<(), Fail> {
    let mut cabinet = MemCabinet::new(rt.alloc(), vec![in rt.alloc(); 3]?);
    let made = (make(&mut cabinet, "a", 7), make(&mut cabinet, "b", 8));
    let failed = kept(&mut cabinet, "a");
    let found = (kept(&mut cabinet, "a"), kept(&mut cabinet, "b"));
    let again = make(&mut cabinet, "a", 9);
    let out = is_out_then(&mut cabinet, "a");
    let never = kept(&mut cabinet, "c");
    assert!(rt; made == (true, true) && failed.is_none() && found == (Some(7), Some(8)));
    assert!(rt; again && out && never.is_none() && cabinet.faults() == 4);
    Ok(())
}
