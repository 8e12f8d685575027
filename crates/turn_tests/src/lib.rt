//! The two locks round a small desk and a small vault, with seats and helpers in threads of their own.
#![tactic(auto)]

mod locked;
mod meeting;
mod small;
#[cfg(test)]
mod tests;
mod threads;
mod visits;
mod works;

pub use meeting::{with_last, with_meeting};
pub use small::{Book, Shelf, Start};
pub use threads::{with_helpers, with_seats};
pub use works::Works;
