//! What every crate of the store names: the limits, pages and the numbers in them, the devices, sessions,
//! a failed call, and the refusals with their causes.
#![tactic(auto)]

mod device;
mod fields;
mod limits;
mod page;
mod refusal;
mod who;

pub use device::Device;
pub use fields::{get_u16, get_u32, get_u64, put_u16, put_u32, put_u64};
pub use limits::{
    ATTEMPTS, BATCH, CLEAN_FRAMES, COLUMNS, EDITED_PAGES, ITEMS, JOURNAL_IMAGES, JOURNAL_LINES,
    LABEL_BYTES, LINE_BYTES, LOG_REGION_BYTES, MAX_CAPACITY, MAX_CAPTURES, MAX_PAGES,
    MEMORY_CAPACITY, MEMORY_PAGES, MIN_CAPACITY, MIN_PAGES, OPEN_GATE, PAGE_BYTES, PHASES,
    RETAINED_SNAPSHOTS, ROW_BYTES, SESSIONS, WORKER_LINES,
};
pub use page::Page;
pub use refusal::Refusal;
pub use who::{Failed, Who};
