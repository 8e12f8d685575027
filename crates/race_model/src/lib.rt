//! The desk and the vault of a store as plain data: what their devices may hold, their steps, and what holds of them
//! between steps, whatever order these come in and wherever a crash comes. Beside it the values that go between the
//! two.
#![tactic(auto)]

mod batch;
mod fault;
mod laws;
mod receipt;

pub use batch::Batch;
pub use fault::Fault;
pub use laws::{
    a_failing_covers_its_call, batches_go_between, crashes_open, histories_go_on, images_apart,
    readers_find_the_past, steps_keep, work_goes_on,
};
pub use receipt::Receipt;
