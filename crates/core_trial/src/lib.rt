//! A desk that answers whatever it is asked: its driver for tests, and small stores.
#![tactic(auto)]

mod asking;
mod conditions;
pub mod devices;
pub mod failing;
mod made;
mod running;
mod trial;

pub use asking::{Answer, Ask, Row, first_wrong};
pub use made::make;
pub use running::{Ran, goes_so, run, run_on};
pub use trial::{Peek, Trial};
