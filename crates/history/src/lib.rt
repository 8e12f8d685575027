//! What the journal of a store means: its lines, the changes that they leave in the log, and the pages and the
//! captures that changes make.
#![tactic(auto)]

mod entry;
mod journal;
mod label;
mod laws;
mod log;
mod replaying;
mod right;
mod running;
mod stop;
mod writes;

pub use entry::{Base, Change, Mark, newest, newest_start, oldest, oldest_start};
pub use journal::{FailedCall, Journal, Line, What};
pub use label::{Label, is_label};
pub use laws::{
    laws_of_captures, laws_of_journals, laws_of_lines, laws_of_open_items, laws_of_page_changes,
    laws_of_pins, laws_of_sound_journals, laws_of_stops, laws_of_the_past, right_bases_stay,
};
pub use log::{Log, Version};
pub use replaying::Replayed;
pub use right::{are_pages, is_base, oldest_start_behind};
pub use running::{RunningBase, copied_marks};
pub use stop::Stop;
pub use writes::{PageImage, Writes};
