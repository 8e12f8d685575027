//! An archive whose calls test what they ask.

ghost use Rattle.std.specs.Prelude.{◌≡◌, ◌<◌, ◌+◌, IsTrue};
ghost use Rattle.std.specs.List.{AllByRecursion};
ghost use Rattle.archive.specs.Side.{IsNextBatch};

use archive::Archive;
use disk_model::{Disk, Sizes};
use history::Version;
use map_log::MapLog;
use page_table::SnapTable;
use race_model::{Batch, Fault};
use retro_base::{BATCH, MAX_CAPACITY, MAX_CAPTURES, MAX_PAGES, Page, Refusal};
use skippy::{Mappings, Steps};
use std::alloc::Global;
use std::sync::ledger::{Blank, Ledger};

// The answer where a condition of a call does not hold.
const NOT_ASKED: Fault = Fault {
    why: Refusal::BadSizes,
    wrote: false,
};

/// An archive of a store of so many pages and slots.
#[derive(Drop)]
pub struct Trial<D: Disk> {
    archive: Archive<D>,
    page_count: u32,
    capacity: u64,
    ghost sized: { (archive.side.log.page_count ≡ page_count) × (archive.side.log.capacity ≡ capacity) },
}

/// Makes the empty list of a Maplog of a store of these sizes.
pub fn make<D: Disk>(alloc: Global, maplog: &mut D, sizes: Sizes) -> Result<(), Refusal> {
    if sizes.capacity > MAX_CAPACITY || maplog.size() != sizes.maplog_bytes() {
        return Err(Refusal::BadSizes);
    }
    MapLog::make(alloc, maplog, Version::One, sizes.capacity)
}

// Whether these are pages of a store of so many.
fn are_pages(pages: &[u32], count: u32) -> bool
    ensures { IsTrue result → AllByRecursion (λ page. page < count) pages.now }
{
    for page in pages {
        if *page >= count {
            return false;
        }
    }
    true
}

impl<D: Disk + Drop> Trial<D> {
    /// Opens the archive of these devices, of a store of these sizes.
    pub fn open(alloc: Global, pagelog: D, maplog: D, sizes: Sizes) -> Result<Trial<D>, Refusal> {
        if !(1..=MAX_CAPACITY).contains(&sizes.capacity) || sizes.pages > MAX_PAGES {
            return Err(Refusal::BadSizes);
        }
        match Archive::fetch(alloc, pagelog, maplog, Version::One, sizes) {
            Ok(archive) => Ok(Trial {
                archive,
                page_count: sizes.pages,
                capacity: u64::from(sizes.capacity),
            }),
            Err((_pagelog, _maplog, why)) => Err(why),
        }
    }

    /// How many captures are entered.
    pub fn held(&self) -> u64 {
        self.archive.held()
    }

    /// The lowest mapping that is kept.
    pub fn low(&self) -> u64 {
        self.archive.low()
    }

    /// The number below which slots are laid.
    pub fn laid(&self) -> u64 {
        self.archive.laid()
    }

    /// Where on the Maplog's device the closed gate behind its list stands.
    pub fn end(&self) -> u64 {
        self.archive.end()
    }

    /// Number and page of each mapping.
    pub fn mappings(&self) -> Result<Vec<(u64, u32)>, Refusal> {
        self.archive.mappings()
    }

    /// The mappings in memory.
    pub fn kept(&self) -> Result<Mappings, Refusal> {
        self.archive.kept()
    }

    // Whether the batch may be laid.
    fn takes(&self, batch: &Batch) -> bool
        ensures { IsTrue result → IsNextBatch self.now.archive.side batch.now }
    {
        let (first, low, count) = (batch.first(), batch.low(), batch.len());
        if count < 1 || count > BATCH || first != self.archive.held() || low > first {
            return false;
        }
        let least = low.max(self.archive.low());
        if first > MAX_CAPTURES - 64
            || (first + count as u64).saturating_sub(self.capacity) > least
        {
            return false;
        }
        are_pages(batch.pages(), self.page_count)
    }

    /// Lays a batch.
    pub fn lay(&mut self, batch: &Batch) -> Result<(), Fault> {
        if !self.takes(batch) {
            return Err(NOT_ASKED);
        }
        self.archive.lay_batch(batch)
    }

    /// Enters a batch, and tells how many captures are entered then.
    pub fn enter(&mut self, batch: &Batch) -> Result<u64, Fault> {
        if !self.takes(batch) || batch.first() + batch.len() as u64 > self.archive.laid() {
            return Err(NOT_ASKED);
        }
        Ok(self.archive.enter_batch(batch)?.held())
    }

    /// Forgets the mappings below `low`.
    pub fn trim(&mut self, low: u64) -> Result<(), Fault> {
        if low > self.archive.held() {
            return Err(NOT_ASKED);
        }
        self.archive.trim(low)
    }

    /// The bytes of the page's first capture from `start` on and below `upto`.
    pub fn find<L: Ledger>(
        &mut self,
        alloc: Global,
        blank: Blank,
        start: u64,
        page: u32,
        upto: u64,
    ) -> Result<Option<Page>, Fault>
        requires name { blank.name ≡ L.name }
        requires parts { blank.parts ≡ L.parts }
        requires one_part { blank.parts ≡ 1 }
    {
        if start < self.archive.low() || upto > self.archive.held() {
            return Err(NOT_ASKED);
        }
        let mut table = SnapTable::new(alloc, start);
        let mut steps = Steps::<L>::new(blank);
        let mut out = Page::zero();
        let found = self
            .archive
            .find(&mut table, page, upto, &mut out, &mut steps)?;
        Ok(found.then_some(out))
    }

    /// Whether the image of each of these pages' first capture of a range begins with that byte, or there is none. One
    /// table serves all, and covers the mappings below `covered` before.
    pub fn finds_each<L: Ledger>(
        &mut self,
        alloc: Global,
        blank: Blank,
        range: (u64, u64),
        covered: u64,
        wanted: &[(u32, Option<u8>)],
    ) -> Result<bool, Fault>
        requires name { blank.name ≡ L.name }
        requires parts { blank.parts ≡ L.parts }
        requires one_part { blank.parts ≡ 1 }
    {
        let ((start, upto), held) = (range, self.archive.held());
        if start < self.archive.low() || upto > held || covered > held {
            return Err(NOT_ASKED);
        }
        let mut table = SnapTable::new(alloc, start);
        let mut steps = Steps::<L>::new(blank);
        let mut out = Page::zero();
        self.archive
            .find(&mut table, 0, covered, &mut out, &mut steps)?;
        for (page, byte) in wanted {
            let found = self
                .archive
                .find(&mut table, *page, upto, &mut out, &mut steps)?;
            if found.then_some(out.bytes()[0]) != *byte {
                return Ok(false);
            }
        }
        Ok(true)
    }

    /// The devices, that of the slots first.
    pub fn into_disks(self) -> (D, D) {
        let Trial {
            archive,
            page_count: _,
            capacity: _,
        } = self;
        archive.into_disks()
    }
}
