//! Plain tables, and what statements do to them: the meaning that statements on pages are proved to have. The program
//! keeps none.
#![tactic(auto)]

mod assigning;
mod changes;
mod contents;
mod fates;
mod laws;
mod lengths;
mod meaning;
mod reply;
mod tables;

pub use assigning::BoundAssignments;
pub use contents::{Contents, NumberedRow};
pub use laws::{
    checked_selects_answer, created_is_empty, gone_stays_gone, inserted_are_last, others_stay,
    tables_stay_sound, updated_keep_places,
};
pub use meaning::{ask, does};
pub use reply::Reply;
pub use sql_select::Answer;
pub use tables::Tables;
