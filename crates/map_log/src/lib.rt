//! The Maplog: numbered mappings and low marks, as bodies of a log on a device.
#![tactic(auto)]

mod encoding;
mod log;

pub use log::MapLog;
