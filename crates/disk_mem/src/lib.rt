//! Devices in memory: one that fails and stops as a test says and remembers what a crash might have left, and
//! a plain one of which no call fails.
#![tactic(auto)]

mod crash;
mod mem_disk;
mod ram_disk;
mod recording;
mod schedule;

pub use mem_disk::MemDisk;
pub use ram_disk::RamDisk;
pub use schedule::Call;
