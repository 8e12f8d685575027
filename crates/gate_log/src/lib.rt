//! A list of bodies in a region of a device. Each body stands behind a gate byte that is opened last, so that
//! a crash leaves the list with the body or without it.
#![tactic(auto)]

mod durable;
mod framed;
mod laws;
mod log;
mod prepared;
mod records;
mod unread;

pub use durable::{fault_of, put_durably, settle};
pub use framed::{Framed, FramedBuilder};
pub use laws::records_are_read_one_way;
pub use log::{GateLog, HEADER_BYTES};
pub use prepared::Prepared;
pub use records::read_bytes;
pub use unread::Unread;
