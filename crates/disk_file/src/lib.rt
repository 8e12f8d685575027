//! The devices of a store in the files of a folder. They tell no bytes: nothing is claimed of what the system keeps.
#![tactic(auto)]

mod file_cabinet;
mod file_disk;
mod names;

pub use file_cabinet::FileCabinet;
pub use file_disk::FileDisk;
