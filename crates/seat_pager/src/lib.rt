//! The open attempt of a seat, and a look of it at a snapshot, as pagers: what statements and queries on pages run on.
#![tactic(auto)]

mod laws;
mod past;
mod refused;
mod transaction;

pub use laws::{laws_of_pagers, shown_is_asked, shown_is_made};
pub use past::PastPager;
pub use refused::Refused;
pub use transaction::TransactionPager;
