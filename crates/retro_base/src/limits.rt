//! The bounds of a store.

/// Bytes in a page.
pub const PAGE_BYTES: usize = 1024;
/// The fewest pages that a store may have.
pub const MIN_PAGES: u32 = 16;
/// The most pages that a store may have.
pub const MAX_PAGES: u32 = 65536;
/// The smallest capacity of a store, in page images that its archive holds.
pub const MIN_CAPACITY: u32 = 64;
/// The largest capacity of a store, in page images.
pub const MAX_CAPACITY: u32 = 1048576;
/// The capacity of a store in memory, in page images.
pub const MEMORY_CAPACITY: u32 = 16384;
/// Pages of a store in memory.
pub const MEMORY_PAGES: u32 = 4096;
/// The byte of an open gate; every other byte is a closed one.
pub const OPEN_GATE: u8 = 0xA5;
/// Bytes in each region of the log.
pub const LOG_REGION_BYTES: u64 = 16777216;
/// The most pages that one transaction edits.
pub const EDITED_PAGES: u32 = 1024;
/// The most lines of the journal.
pub const JOURNAL_LINES: u64 = 65536;
/// The lines of the journal that are kept for the workers.
pub const WORKER_LINES: u64 = 2;
/// The most page images in the journal.
pub const JOURNAL_IMAGES: u64 = 262144;
/// The most snapshots that are retained at once.
pub const RETAINED_SNAPSHOTS: u32 = 65536;
/// The most captures of a store, over all its runs.
pub const MAX_CAPTURES: u64 = 1 << 62;
/// The most bytes of an encoded row.
pub const ROW_BYTES: usize = 900;
/// The most columns of a table.
pub const COLUMNS: usize = 16;
/// The most bytes of a label.
pub const LABEL_BYTES: usize = 64;
/// The most bytes of a line of a script, without its end.
pub const LINE_BYTES: usize = 4096;
/// The most phases of a script.
pub const PHASES: usize = 4096;
/// The most sessions of a phase.
pub const SESSIONS: usize = 16;
/// The most items of a script.
pub const ITEMS: usize = 65536;
/// The most attempts at one transaction.
pub const ATTEMPTS: u32 = 64;
/// The most page images of one batch.
pub const BATCH: usize = 64;
/// The most frames of clean pages that are kept in memory.
pub const CLEAN_FRAMES: usize = 4096;
