//! The pages of a store, in memory and on their device.

ghost use Rattle.std.specs.Prelude.{◌≡◌, ◌==◌, ◌||◌, ◌&&◌, ◌<◌, ◌*◌, true, false, not, ℕ, Bool, List};
ghost use Rattle.std.specs.Prelude.{OnOk, OnErr, IfOk, IfErr, MatchResult, Some, None, IsSome, Contains};
ghost use Rattle.std.specs.List.{AllByRecursion};
ghost use Rattle.disk_model.specs.Moments.{LeavesOnly};
ghost use Rattle.disk_model.specs.Runs.{OnlyReads, WritesNothing};
ghost use Rattle.retro_base.specs.Cause.{FaultsAlone, IsFault};
ghost use Rattle.retro_base.specs.declared.device.Device.TheVariants.{Pages};
ghost use Rattle.retro_base.specs.declared.limits.TheConstants.{CLEAN_FRAMES, PAGE_BYTES};
ghost use Rattle.retro_base.specs.declared.refusal.Refusal.TheVariants.{OutOfMemory};
ghost use Rattle.block_file.specs.Blocks.{block_at, File, IsAsLong, SameFile};
ghost use Rattle.history.specs.declared.writes.PageImage.{PageImage};
ghost use Rattle.history.specs.History.{with_write, written};
ghost use Rattle.page_pool.specs.Cause.{IsHoldRefusal};
ghost use Rattle.page_pool.specs.Frames.{count_below, frame_at, is_dirty_in, IsLeastDirty};
ghost use Rattle.page_pool.specs.Side.{dirty_behind, held, HoldsBut, HoldsSame, HoldsSure};
ghost use Rattle.page_pool.specs.Side.{IsNear, IsPageSide, Pool, ShowsPages, soiled, with_page};

use crate::clean;
use crate::frames::{self, Frame, Frames};
use block_file::PageFile;
use disk_model::Disk;
use history::PageImage;
use lru::LruCache;
use retro_base::{CLEAN_FRAMES, Page, Refusal};
use std::alloc::Global;
use std::collections::BTreeMap;
use std::marker::Model;

/// The pages of a store, in memory and on their device. A page that is dirty, or that is held, stays in memory; of the
/// others up to 4,096 do, the most recently used.
#[derive(Drop)]
pub struct PagePool<D: Disk> {
    file: PageFile<D>,
    frames: Frames,
    clean: LruCache<u32, Page>,
    // how many frames are dirty
    dirty: usize,
    // whether a page was written since the device was settled
    is_unsettled: bool,
}

impl<D: Disk> Model for PagePool<D> {
    ghost use Rattle.page_pool.specs.Frames.{frame_in};
    ghost use Rattle.page_pool.specs.Side.{IsPool, Pool};

    ghost Value = { Pool D };

    ghost view = { λ pool. record {
      file = pool.file;
      frames = pool.frames.entries;
      clean = pool.clean.entries;
      is_unsettled = pool.is_unsettled;
    } };

    ghost invariant = { λ pool. IsPool (frame_in pool.frames) pool.clean pool.file.blocks pool.dirty };
}

impl<D: Disk> PagePool<D> {
    /// The pages of a device of so many, none of them in memory. The only refusal is want of memory, and then the
    /// device comes back. As long as it is not settled each page may be loose.
    pub fn new(alloc: Global, disk: D, pages: u32) -> Result<PagePool<D>, (D, Refusal)>
        requires { D.extent disk ≡ PAGE_BYTES * pages }
        ensures file { IfOk result (λ pool. pool.file ≡ record { disk = disk; blocks = pages }) }
        ensures holds { IfOk result (λ pool. (page : ℕ) → held pool page ≡ false) }
        ensures side { IfOk result (λ pool. IsPageSide D.is_honest D.state pool
            (block_at (D.state disk).seen) (block_at (D.state disk).seen) (λ _. true) (λ _. false)) }
        ensures refused { IfErr result (λ e. (e.0 ≡ disk) × (e.1 ≡ OutOfMemory)) }
    {
        match clean::none(alloc) {
            Ok(clean) => Ok(PagePool {
                file: PageFile::new(disk, pages),
                frames: BTreeMap::new(alloc),
                clean,
                dirty: 0,
                is_unsettled: true,
            }),
            Err(refusal) => Err((disk, refusal)),
        }
    }

    /// How many pages the store has.
    pub fn pages(&self) -> u32
        ensures { result ≡ self.now.file.blocks }
    {
        self.file.pages()
    }

    /// The device.
    pub fn into_disk(self) -> D
        ensures disk { result ≡ self.file.disk }
        ensures whole { D.extent result ≡ PAGE_BYTES * self.file.blocks }
    {
        let PagePool { file, .. } = self;
        file.into_disk()
    }

    /// How many pages are dirty.
    pub fn dirty(&self) -> usize
        ensures { result ≡ count_below (soiled self.now) self.now.file.blocks }
    {
        self.dirty
    }

    /// Whether a page was written since the device was settled.
    pub fn is_unsettled(&self) -> bool
        ensures { result ≡ self.now.is_unsettled }
    {
        self.is_unsettled
    }

    /// The least dirty page at or past that one.
    pub fn next_dirty(&self, from: u32) -> Option<u32>
        ensures { IsLeastDirty (soiled self.now) from result }
    {
        frames::least_dirty(&self.frames, from)
    }

    /// Reads a page, which is then the most recently used of those that may go. The only refusal is a fault of the
    /// device, and none comes where the page is in memory; after it `out` is as before.
    pub fn read(&mut self, page: u32, out: &mut Page) -> Result<(), Refusal>
        requires { page < self.old.file.blocks }
        ensures same { SameFile D.is_honest self.old.file self.new.file }
        ensures cause { FaultsAlone Pages (D.faults self.old.file.disk) (D.faults self.new.file.disk) result }
        ensures holds { HoldsSame self.old self.new }
        ensures kept { (now device : ℕ → List ℕ) (loose dirty : ℕ → Bool)
            → IsPageSide D.is_honest D.state self.old now device loose dirty
            → IsPageSide D.is_honest D.state self.new now device loose dirty }
        ensures read { (now device : ℕ → List ℕ) (loose dirty : ℕ → Bool) → D.is_honest self.old.file.disk
            → IsPageSide D.is_honest D.state self.old now device loose dirty
            → OnOk result (out.new ≡ now page) }
        ensures err { OnErr result (out.new ≡ out.old) }
        ensures near { IsNear self.old self.new page }
        ensures quiet { D.is_honest self.old.file.disk
            → OnlyReads D.remembers D.state D.clock self.old.file.disk self.new.file.disk }
    {
        if let Some(frame) = self.frames.get(&page) {
            *out = frame.bytes;
            return Ok(());
        }
        if clean::copy(&mut self.clean, page, out) {
            return Ok(());
        }
        match self.file.read(page, out) {
            Ok(()) => {
                clean::keep(&mut self.clean, page, out);
                Ok(())
            }
            Err(refusal) => Err(refusal),
        }
    }

    /// Brings a page into memory, where it stays until it is released. Refused for want of memory, and exactly where a
    /// call of the device failed.
    pub fn hold(&mut self, page: u32) -> Result<(), Refusal>
        requires { page < self.old.file.blocks }
        ensures same { SameFile D.is_honest self.old.file self.new.file }
        ensures cause { MatchResult result
            (λ _. D.faults self.new.file.disk ≡ D.faults self.old.file.disk)
            (IsHoldRefusal (D.faults self.old.file.disk) (D.faults self.new.file.disk)) }
        ensures holds { OnOk result ((other : ℕ) → held self.new other ≡ (held self.old other || page == other)) }
        ensures err { OnErr result (HoldsSame self.old self.new) }
        ensures kept { (now device : ℕ → List ℕ) (loose dirty : ℕ → Bool)
            → IsPageSide D.is_honest D.state self.old now device loose dirty
            → IsPageSide D.is_honest D.state self.new now device loose dirty }
        ensures near { IsNear self.old self.new page }
        ensures quiet { D.is_honest self.old.file.disk
            → OnlyReads D.remembers D.state D.clock self.old.file.disk self.new.file.disk }
    {
        if let Some(frame) = self.frames.get(&page) {
            let frame = Frame {
                is_held: true,
                ..*frame
            };
            frames::replace(&mut self.frames, page, frame);
            return Ok(());
        }
        match self.take(page) {
            Ok(bytes) => frames::add(
                &mut self.frames,
                page,
                Frame {
                    bytes,
                    is_dirty: false,
                    is_held: true,
                },
            ),
            Err(refusal) => Err(refusal),
        }
    }

    // Takes a page without a frame out of those that may go, or reads it.
    fn take(&mut self, page: u32) -> Result<Page, Refusal>
        requires there { page < self.old.file.blocks }
        requires no_frame { frame_at self.old.frames page ≡ None }
        ensures same { SameFile D.is_honest self.old.file self.new.file }
        ensures cause { FaultsAlone Pages (D.faults self.old.file.disk) (D.faults self.new.file.disk) result }
        ensures frames { self.new.frames ≡ self.old.frames }
        ensures gone { OnOk result ((bytes : List ℕ) → Contains self.new.clean (page, bytes) → ⊥) }
        ensures kept { (now device : ℕ → List ℕ) (loose dirty : ℕ → Bool)
            → IsPageSide D.is_honest D.state self.old now device loose dirty
            → IsPageSide D.is_honest D.state self.new now device loose dirty }
        ensures taken { (now device : ℕ → List ℕ) (loose dirty : ℕ → Bool) → D.is_honest self.old.file.disk
            → IsPageSide D.is_honest D.state self.old now device loose dirty
            → IfOk result (λ bytes. bytes ≡ now page) }
        ensures near { IsNear self.old self.new page }
        ensures quiet { D.is_honest self.old.file.disk
            → OnlyReads D.remembers D.state D.clock self.old.file.disk self.new.file.disk }
    {
        if let Some(bytes) = clean::take(&mut self.clean, page) {
            return Ok(bytes);
        }
        let mut bytes = Page::zero();
        match self.file.read(page, &mut bytes) {
            Ok(()) => Ok(bytes),
            Err(refusal) => Err(refusal),
        }
    }

    /// The bytes of a page that is held.
    pub fn bytes(&self, page: u32) -> &Page
        requires { held self.now page ≡ true }
        ensures { (now device : ℕ → List ℕ) (loose dirty : ℕ → Bool) → D.is_honest self.now.file.disk
            → IsPageSide D.is_honest D.state self.now now device loose dirty → result.now ≡ now page }
    {
        match self.frames.get(&page) {
            Some(frame) => &frame.bytes,
            None => unreachable!(),
        }
    }

    /// Lets a page go that was held. A dirty page stays in memory until it is written back.
    pub fn release(&mut self, page: u32)
        ensures file { self.new.file ≡ self.old.file }
        ensures settled { self.new.is_unsettled ≡ self.old.is_unsettled }
        ensures holds { (other : ℕ) → held self.new other ≡ (held self.old other && not (page == other)) }
        ensures kept { (now device : ℕ → List ℕ) (loose dirty : ℕ → Bool)
            → IsPageSide D.is_honest D.state self.old now device loose dirty
            → IsPageSide D.is_honest D.state self.new now device loose dirty }
    {
        let Some(frame) = self.frames.get(&page) else {
            return;
        };
        let frame = Frame {
            is_held: false,
            ..*frame
        };
        self.put(page, frame);
    }

    // Puts a frame in the place of the page's. A page that is neither dirty nor held may go.
    fn put(&mut self, page: u32, frame: Frame)
        requires there { IsSome (frame_at self.old.frames page) }
        requires same { is_dirty_in (frame_at self.old.frames page) ≡ frame.is_dirty }
        ensures file { self.new.file ≡ self.old.file }
        ensures settled { self.new.is_unsettled ≡ self.old.is_unsettled }
        ensures holds { HoldsBut page frame.is_held self.old self.new }
        ensures kept { (now device : ℕ → List ℕ) (loose dirty : ℕ → Bool)
            → (D.is_honest self.old.file.disk → frame.bytes ≡ now page)
            → IsPageSide D.is_honest D.state self.old now device loose dirty
            → IsPageSide D.is_honest D.state self.new now device loose dirty }
    {
        if frame.is_dirty || frame.is_held {
            frames::replace(&mut self.frames, page, frame);
            return;
        }
        frames::remove(&mut self.frames, page);
        clean::keep(&mut self.clean, page, &frame.bytes);
    }

    /// Writes pages that are held, in memory: they are then dirty.
    pub fn write(&mut self, writes: &[PageImage])
        requires { AllByRecursion (λ write. held self.old write.page ≡ true) writes.now }
        ensures file { self.new.file ≡ self.old.file }
        ensures settled { self.new.is_unsettled ≡ self.old.is_unsettled }
        ensures holds { HoldsSame self.old self.new }
        ensures written { (now device : ℕ → List ℕ) (loose dirty : ℕ → Bool)
            → IsPageSide D.is_honest D.state self.old now device loose dirty
            → IsPageSide D.is_honest D.state self.new
            (written now writes.now) device loose (dirty_behind dirty writes.now) }
    {
        for write in writes {
            self.write_page(write);
        }
    }

    fn write_page(&mut self, write: &PageImage)
        requires { held self.old write.now.page ≡ true }
        ensures file { self.new.file ≡ self.old.file }
        ensures settled { self.new.is_unsettled ≡ self.old.is_unsettled }
        ensures holds { HoldsSame self.old self.new }
        ensures written { (now device : ℕ → List ℕ) (loose dirty : ℕ → Bool)
            → IsPageSide D.is_honest D.state self.old now device loose dirty
            → IsPageSide D.is_honest D.state self.new (with_write now write.now) device loose
            (with_page dirty write.now.page true) }
    {
        let Some(frame) = self.frames.get(&write.page) else {
            return;
        };
        self.dirty += usize::from(!frame.is_dirty);
        let frame = Frame {
            bytes: write.bytes,
            is_dirty: true,
            is_held: true,
        };
        frames::replace(&mut self.frames, write.page, frame);
    }

    /// Writes a dirty page to the device, where it stays loose until that is settled; the page is then clean. The only
    /// refusal is a fault of the device, after which it may hold any bytes in the page's place, and the page is dirty.
    pub fn write_back(&mut self, page: u32) -> Result<(), Refusal>
        requires { soiled self.old page ≡ true }
        ensures same { SameFile D.is_honest self.old.file self.new.file }
        ensures cause { FaultsAlone Pages (D.faults self.old.file.disk) (D.faults self.new.file.disk) result }
        ensures holds { HoldsSame self.old self.new }
        ensures unsettled { self.new.is_unsettled ≡ true }
        ensures done { (now device : ℕ → List ℕ) (loose dirty : ℕ → Bool)
            → IsPageSide D.is_honest D.state self.old now device loose dirty
            → OnOk result (IsPageSide D.is_honest D.state self.new now
            (with_page device page (now page)) (with_page loose page true) (with_page dirty page false)) }
        ensures failed { (now device : ℕ → List ℕ) (loose dirty : ℕ → Bool)
            → IsPageSide D.is_honest D.state self.old now device loose dirty
            → IfErr result (λ _. (left : List ℕ) × IsPageSide D.is_honest D.state self.new now
            (with_page device page left) (with_page loose page true) dirty) }
        ensures any_moment { (now device : ℕ → List ℕ) (loose dirty : ℕ → Bool) (left : List ℕ)
            → D.is_honest self.old.file.disk → IsPageSide D.is_honest D.state self.old now device loose dirty
            → LeavesOnly D.remembers (D.clock self.old.file.disk) (D.clock self.new.file.disk)
            (HoldsSure (with_page device page left) (with_page loose page true)) }
        ensures long { D.is_honest self.old.file.disk → LeavesOnly D.remembers (D.clock self.old.file.disk)
            (D.clock self.new.file.disk) (IsAsLong (D.state self.old.file.disk)) }
    {
        let Some(frame) = self.frames.get(&page) else {
            unreachable!()
        };
        let frame = *frame;
        self.is_unsettled = true;
        match self.file.write(page, &frame.bytes) {
            Ok(()) => {
                self.clear(page, frame);
                Ok(())
            }
            Err(refusal) => Err(refusal),
        }
    }

    // Marks a page clean, which may then go if it is not held.
    fn clear(&mut self, page: u32, frame: Frame)
        requires there { frame_at self.old.frames page ≡ Some frame }
        requires dirty { frame.is_dirty ≡ true }
        ensures file { self.new.file ≡ self.old.file }
        ensures settled { self.new.is_unsettled ≡ self.old.is_unsettled }
        ensures holds { HoldsSame self.old self.new }
        ensures marks { (other : ℕ) → soiled self.new other ≡ with_page (soiled self.old) page false other }
        ensures shows { (now : ℕ → List ℕ) → ShowsPages self.old now → ShowsPages self.new now }
    {
        let frame = Frame {
            is_dirty: false,
            ..frame
        };
        self.dirty -= 1;
        if frame.is_held {
            frames::replace(&mut self.frames, page, frame);
            return;
        }
        frames::remove(&mut self.frames, page);
        clean::keep(&mut self.clean, page, &frame.bytes);
    }

    /// Makes every page that was written durable. The only refusal is a fault of the device.
    pub fn settle(&mut self) -> Result<(), Refusal>
        ensures same { SameFile D.is_honest self.old.file self.new.file }
        ensures cause { FaultsAlone Pages (D.faults self.old.file.disk) (D.faults self.new.file.disk) result }
        ensures holds { HoldsSame self.old self.new }
        ensures settled { MatchResult result
            (λ _. self.new.is_unsettled ≡ false) (λ _. self.new.is_unsettled ≡ self.old.is_unsettled) }
        ensures done { (now device : ℕ → List ℕ) (loose dirty : ℕ → Bool)
            → IsPageSide D.is_honest D.state self.old now device loose dirty
            → OnOk result (IsPageSide D.is_honest D.state self.new now device (λ _. false) dirty) }
        ensures kept { (now device : ℕ → List ℕ) (loose dirty : ℕ → Bool)
            → IsPageSide D.is_honest D.state self.old now device loose dirty
            → OnErr result (IsPageSide D.is_honest D.state self.new now device loose dirty) }
        ensures any_moment { (now device : ℕ → List ℕ) (loose dirty : ℕ → Bool) → D.is_honest self.old.file.disk
            → IsPageSide D.is_honest D.state self.old now device loose dirty
            → LeavesOnly D.remembers (D.clock self.old.file.disk) (D.clock self.new.file.disk)
            (HoldsSure device loose) }
        ensures quiet { D.is_honest self.old.file.disk
            → WritesNothing D.remembers D.state D.clock self.old.file.disk self.new.file.disk }
        ensures long { D.is_honest self.old.file.disk → LeavesOnly D.remembers (D.clock self.old.file.disk)
            (D.clock self.new.file.disk) (IsAsLong (D.state self.old.file.disk)) }
    {
        match self.file.settle() {
            Ok(()) => {
                self.is_unsettled = false;
                Ok(())
            }
            Err(refusal) => Err(refusal),
        }
    }
}
