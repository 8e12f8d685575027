//! The law of the journal: what each session knows of its own lines makes the whole journal lawful over tables. Beside
//! it the trait `Seat`: what a store owes to one session.
#![tactic(auto)]

mod laws;
mod seat;

pub use laws::{Language, law_of_the_journal, lines_fit, replies_are_told, seats_suffice};
pub use seat::{Ending, Seat, ToldFault};
