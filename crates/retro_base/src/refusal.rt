//! Why a call is refused.

use crate::Device;
use std::alloc::{AllocError, AllocFailed};
use thiserror::Error;

/// Why a call was refused. A transcript shows its number, name and values (`session`), not the texts here.
#[derive(Clone, Copy, Debug, PartialEq, Eq, Error)]
pub enum Refusal {
    #[error("out of memory")]
    OutOfMemory,
    #[error("disk fault on {device} {count}")]
    DiskFault { device: Device, count: u64 },
    #[error("source fault")]
    SourceFault,
    #[error("sink fault")]
    SinkFault,
    #[error("not a store, {device} at {place}")]
    NotAStore { device: Device, place: u64 },
    #[error("bad words")]
    BadWords,
    #[error("bad script at line {line}")]
    BadScript { line: u64 },
    #[error("overlap with session {session}, item {item}")]
    Overlap { session: u16, item: u32 },
    #[error("no snapshot {asked}, newest is {newest}")]
    NoSuchSnapshot { asked: u64, newest: u32 },
    #[error("snapshot {asked} is dropped, oldest is {oldest}")]
    Dropped { asked: u32, oldest: u32 },
    #[error("snapshot {snapshot} is pinned by session {session}")]
    Pinned { snapshot: u32, session: u16 },
    #[error("archive full, {needed} captures needed, room for {room}")]
    ArchiveFull { needed: u64, room: u64 },
    #[error("journal full, {lines} lines and {images} images needed")]
    JournalFull { lines: u64, images: u64 },
    #[error("pages full, the store has {pages}")]
    PagesFull { pages: u32 },
    #[error("too many pages, {needed} needed")]
    TooManyPages { needed: u32 },
    #[error("stopped by a fault on {device} {count}")]
    Stopped { device: Device, count: u64 },
    #[error("no room, {needed} bytes needed, {free} free")]
    NoRoom { needed: u64, free: u64 },
    #[error("snapshots full, {retained} are retained")]
    SnapshotsFull { retained: u32 },
    #[error("bad syntax at {place}")]
    Syntax { place: u32 },
    #[error("unknown name")]
    UnknownName,
    #[error("name taken")]
    NameTaken,
    #[error("wrong type")]
    WrongType,
    #[error("number out of range")]
    Overflow,
    #[error("row too long, {bytes} bytes")]
    RowTooLong { bytes: u32 },
    #[error("not one value at snapshot {snapshot}")]
    NotOneValue { snapshot: u32 },
    #[error("bad sizes")]
    BadSizes,
}

impl Refusal {
    ghost use Rattle.std.specs.Prelude.{◌≡◌};
    ghost use Rattle.retro_base.specs.Refusal.{number_of, name_of};

    /// The number of the refusal, from 1 to 26.
    pub fn number(&self) -> u8
        ensures { result ≡ number_of self.now }
    {
        match self {
            Refusal::OutOfMemory => 1,
            Refusal::DiskFault { .. } => 2,
            Refusal::SourceFault => 3,
            Refusal::SinkFault => 4,
            Refusal::NotAStore { .. } => 5,
            Refusal::BadWords => 6,
            Refusal::BadScript { .. } => 7,
            Refusal::Overlap { .. } => 8,
            Refusal::NoSuchSnapshot { .. } => 9,
            Refusal::Dropped { .. } => 10,
            Refusal::Pinned { .. } => 11,
            Refusal::ArchiveFull { .. } => 12,
            Refusal::JournalFull { .. } => 13,
            Refusal::PagesFull { .. } => 14,
            Refusal::TooManyPages { .. } => 15,
            Refusal::Stopped { .. } => 16,
            Refusal::NoRoom { .. } => 17,
            Refusal::SnapshotsFull { .. } => 18,
            Refusal::Syntax { .. } => 19,
            Refusal::UnknownName => 20,
            Refusal::NameTaken => 21,
            Refusal::WrongType => 22,
            Refusal::Overflow => 23,
            Refusal::RowTooLong { .. } => 24,
            Refusal::NotOneValue { .. } => 25,
            Refusal::BadSizes => 26,
        }
    }

    /// The name of the refusal, as a transcript shows it.
    pub fn name(&self) -> &'static str
        ensures { result.now ≡ name_of self.now }
    {
        match self {
            Refusal::OutOfMemory => "OutOfMemory",
            Refusal::DiskFault { .. } => "DiskFault",
            Refusal::SourceFault => "SourceFault",
            Refusal::SinkFault => "SinkFault",
            Refusal::NotAStore { .. } => "NotAStore",
            Refusal::BadWords => "BadWords",
            Refusal::BadScript { .. } => "BadScript",
            Refusal::Overlap { .. } => "Overlap",
            Refusal::NoSuchSnapshot { .. } => "NoSuchSnapshot",
            Refusal::Dropped { .. } => "Dropped",
            Refusal::Pinned { .. } => "Pinned",
            Refusal::ArchiveFull { .. } => "ArchiveFull",
            Refusal::JournalFull { .. } => "JournalFull",
            Refusal::PagesFull { .. } => "PagesFull",
            Refusal::TooManyPages { .. } => "TooManyPages",
            Refusal::Stopped { .. } => "Stopped",
            Refusal::NoRoom { .. } => "NoRoom",
            Refusal::SnapshotsFull { .. } => "SnapshotsFull",
            Refusal::Syntax { .. } => "Syntax",
            Refusal::UnknownName => "UnknownName",
            Refusal::NameTaken => "NameTaken",
            Refusal::WrongType => "WrongType",
            Refusal::Overflow => "Overflow",
            Refusal::RowTooLong { .. } => "RowTooLong",
            Refusal::NotOneValue { .. } => "NotOneValue",
            Refusal::BadSizes => "BadSizes",
        }
    }
}

impl From<AllocError> for Refusal {
    ghost use Rattle.std.specs.Prelude.{◌≡◌};
    ghost use Rattle.retro_base.specs.declared.refusal.Refusal.TheVariants.{OutOfMemory};

    ghost from_gives = { λ _ r. r ≡ OutOfMemory };

    fn from(_error: AllocError) -> Refusal {
        Refusal::OutOfMemory
    }
}

impl<T: Drop> From<AllocFailed<T>> for Refusal {
    ghost use Rattle.std.specs.Prelude.{◌≡◌};
    ghost use Rattle.retro_base.specs.declared.refusal.Refusal.TheVariants.{OutOfMemory};

    ghost from_gives = { λ _ r. r ≡ OutOfMemory };

    fn from(_failed: AllocFailed<T>) -> Refusal {
        Refusal::OutOfMemory
    }
}
