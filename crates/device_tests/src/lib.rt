//! The crash clauses of the logs and of the files of blocks on a device that remembers, and tests of both over
//! devices that fail and stop.
#![tactic(auto)]

#[cfg(test)]
mod area_logs;
#[cfg(test)]
mod faults;
#[cfg(test)]
mod fickle;
#[cfg(test)]
mod four;
#[cfg(test)]
mod gate_logs;
#[cfg(test)]
mod halves;
mod on_mem_disk;
#[cfg(test)]
mod page_files;
#[cfg(test)]
mod page_rings;
#[cfg(test)]
mod support;

pub use on_mem_disk::{append_on, replace_on, write_on};
