//! Tests of the archive over devices that fail and stop.
#![tactic(auto)]

#[cfg(test)]
mod faults;
mod on_mem_disks;
#[cfg(test)]
mod openings;
#[cfg(test)]
mod stops;
#[cfg(test)]
mod support;
#[cfg(test)]
mod tests;
mod trial;

pub use on_mem_disks::{enter_on, lay_on, trim_on};
pub use trial::{Trial, make};
