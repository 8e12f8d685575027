//! The four devices of stores that are worked by hand.

use disk_mem::RamDisk;
use disk_model::{Disk, Failed, Four};
use retro_base::{Device, Refusal};
use std::alloc::Global;

// A region of generation 1, and a base of sixteen pages and capacity 64 with nothing declared.
const LOG: [u8; 60] = [
    0xA5, 0, 0, 0, 0, 0, 0, 0, 0, 0, 0, 0, 0, 0, 0, 1, 0xA5, 0, 0, 0, 39, //
    1, 0, 1, 0, 0, 0, 0x10, 0, 0, 0, 0x40, 0, 0, 0, 0, 0, 0, 0, 0, 0, 0, 0, 0, 0, 0, 0, 0, 0, 0, 0,
    1, 0, 0, 0, 0, 0, 0, 0, 0,
];

// A region of generation 1, and a start from 0 on with capacity 64.
const MAPLOG: [u8; 36] = [
    0xA5, 0, 0, 0, 0, 0, 0, 0, 0, 0, 0, 0, 0, 0, 0, 1, 0xA5, 0, 0, 0, 15, //
    1, 0, 1, 0, 0, 0, 0, 0, 0, 0, 0, 0, 0, 0, 0x40,
];

/// Puts the first records of a store of sixteen pages and capacity 64 on its log and its Maplog.
pub fn begin<D: Disk>(disks: &mut Four<D>) -> Result<(), Refusal> {
    write(&mut disks.log, 0, &LOG)?;
    write(&mut disks.maplog, 0, &MAPLOG)
}

/// The devices of that store, all of whose bytes are 0 but its first records.
pub fn made(alloc: Global) -> Result<Four<RamDisk>, Refusal> {
    let mut disks = Four {
        log: RamDisk::new(alloc, 33_554_432)?,
        pages: RamDisk::new(alloc, 16_384)?,
        pagelog: RamDisk::new(alloc, 65_536)?,
        maplog: RamDisk::new(alloc, 12_288)?,
    };
    begin(&mut disks)?;
    Ok(disks)
}

/// Puts these bytes on a device from that place on. It is refused where the device does not have them.
pub fn put<D: Disk>(
    disks: &mut Four<D>,
    device: Device,
    place: u64,
    bytes: &[u8],
) -> Result<(), Refusal> {
    match device {
        Device::Log => write(&mut disks.log, place, bytes),
        Device::Pages => write(&mut disks.pages, place, bytes),
        Device::Pagelog => write(&mut disks.pagelog, place, bytes),
        Device::Maplog => write(&mut disks.maplog, place, bytes),
        Device::Cabinet => Err(Refusal::BadSizes),
    }
}

fn write<D: Disk>(disk: &mut D, place: u64, bytes: &[u8]) -> Result<(), Refusal> {
    let size = disk.size();
    if place > size || size - place < bytes.len() as u64 {
        return Err(Refusal::BadSizes);
    }
    match disk.write_at(place, bytes) {
        Ok(()) => Ok(()),
        Err(Failed) => Err(Refusal::BadSizes),
    }
}
