//! The desk that its devices open to.

ghost use Rattle.std.specs.Prelude.{◌≡◌, ◌<◌, ◌++◌, ◌∷◌, ◌⊎◌, ◌↔◌, ◌&&◌, ◌||◌, ◌-◌, ◌*◌, [], drop};
ghost use Rattle.std.specs.Prelude.{false, None, not, ℕ, Bool, List, OnOk, IfErr, IfOk, MatchResult};
ghost use Rattle.std.specs.List.{AllByRecursion};
ghost use Rattle.disk_model.specs.Runs.{OnlyReads, SameDevice, WritesNothing};
ghost use Rattle.retro_base.specs.Cause.{IsFault};
ghost use Rattle.retro_base.specs.declared.device.Device.TheVariants.{Pages as OfPages};
ghost use Rattle.retro_base.specs.declared.limits.TheConstants.{PAGE_BYTES};
ghost use Rattle.block_file.specs.Blocks.{block_at, SameFile};
ghost use Rattle.history.specs.declared.entry.Change.{Change};
ghost use Rattle.history.specs.History.{base_after, bases_after, State as Place};
ghost use Rattle.history.specs.Right.{AreRight, IsBase, IsRight};
ghost use Rattle.history.specs.Writes.{is_among, pages_of};
ghost use Rattle.page_pool.specs.Cause.{IsHoldRefusal};
ghost use Rattle.page_pool.specs.Side.{held, HoldsSame, IsPageSide};
ghost use Rattle.race_model.specs.Fits.{DeskFits};
ghost use Rattle.race_model.specs.Reopened.{opened_desk};
ghost use Rattle.redo_log.specs.Side.{IsLogSide};
ghost use Rattle.replay.specs.Joined.{AreJoined};
ghost use Rattle.desk.specs.Desk.{IsDesk, IsWhole};
ghost use Rattle.desk.specs.Fetched.{ArePagesUnread, contents_of, FetchesDesk, IsLogUnread, IsMemoryOf};
ghost use Rattle.desk.specs.Fetched.{IsPagesRefusal, IsReadable, IsRedone, IsSizeRefusal, ReadsBytes};

use crate::change::{enter, label_of, pre_states, writes_of};
use crate::desk::{Passed, RunningDesk};
use copy_queue::CopyQueue;
use disk_model::Disk;
use history::{Base, Change, Log, PageImage, RunningBase, Version};
use page_pool::PagePool;
use redo_log::LogSide;
use replay::{holds_base, holds_changes};
use retro_base::{Device, PAGE_BYTES, Refusal};
use skippy::Mappings;
use std::alloc::{AllocError, Global};
use values::Duplicate;

/// Two devices that open to no desk, given back.
#[derive(Debug, Drop)]
pub struct Unopened<D> {
    pub log: D,
    pub pages: D,
    pub why: Refusal,
}

// What changes leave in memory beside the pages: what the log says behind them, the page of each capture that they
// make, and of these captures those that are not acknowledged.
#[derive(Drop)]
struct Redone {
    base: RunningBase,
    captured: Vec<u32>,
    pending: Vec<PageImage>,
}

// Brings the pages of these writes into memory.
fn hold_all<D: Disk>(pool: &mut PagePool<D>, writes: &[PageImage]) -> Result<(), Refusal>
    requires { AllByRecursion (λ write. write.page < pool.old.file.blocks) writes.now }
    ensures same { SameFile D.is_honest pool.old.file pool.new.file }
    ensures cause { MatchResult result (λ _. D.faults pool.new.file.disk ≡ D.faults pool.old.file.disk)
        (IsHoldRefusal (D.faults pool.old.file.disk) (D.faults pool.new.file.disk)) }
    ensures quiet { D.is_honest pool.old.file.disk
        → OnlyReads D.remembers D.state D.clock pool.old.file.disk pool.new.file.disk }
    ensures holds { OnOk result ((page : ℕ)
        → held pool.new page ≡ (held pool.old page || is_among page (pages_of writes.now))) }
    ensures kept { (pages device : ℕ → List ℕ) (loose dirty : ℕ → Bool)
        → IsPageSide D.is_honest D.state pool.old pages device loose dirty
        → IsPageSide D.is_honest D.state pool.new pages device loose dirty }
{
    for write in writes {
        if let Err(why) = pool.hold(write.page) {
            return Err(why);
        }
    }
    Ok(())
}

// Lets the pages of these writes go.
fn release_all<D: Disk>(pool: &mut PagePool<D>, writes: &[PageImage])
    ensures file { pool.new.file ≡ pool.old.file }
    ensures holds { (page : ℕ)
        → held pool.new page ≡ (held pool.old page && not (is_among page (pages_of writes.now))) }
    ensures kept { (pages device : ℕ → List ℕ) (loose dirty : ℕ → Bool)
        → IsPageSide D.is_honest D.state pool.old pages device loose dirty
        → IsPageSide D.is_honest D.state pool.new pages device loose dirty }
{
    for write in writes {
        pool.release(write.page);
    }
}

impl Redone {
    // What no changes leave.
    fn new(alloc: Global, base: Base) -> Result<Redone, AllocError>
        requires { IsBase base }
        ensures { IfOk result (λ redone. (redone.base ≡ base) × (redone.captured.items ≡ [])
            × (redone.pending.items ≡ [])) }
    {
        Ok(Redone {
            base: RunningBase::new(alloc, base)?,
            captured: Vec::new(alloc),
            pending: Vec::new(alloc),
        })
    }

    // Adds captures: the page of each, and those from that number on.
    fn add(&mut self, images: &[PageImage], number: u64) -> Result<(), AllocError>
        ensures base { self.new.base ≡ self.old.base }
        ensures captured { OnOk result (self.new.captured.items
            ≡ self.old.captured.items ++ pages_of images.now) }
        ensures pending { OnOk result (self.new.pending.items
            ≡ self.old.pending.items ++ drop (number - self.old.base.captures) images.now) }
    {
        for image in images {
            self.captured.push(image.page)?;
        }
        let first = number
            .saturating_sub(self.base.captures())
            .min(images.len() as u64);
        self.pending.extend_from_slice(&images[first as usize..])?;
        Ok(())
    }

    // Does a change of the log that is right there, over the pages as they then are. No page is held before or behind.
    fn redo<D: Disk>(
        &mut self,
        alloc: Global,
        pool: &mut PagePool<D>,
        change: &Change,
        number: u64,
    ) -> Result<(), Refusal>
        requires right { IsRight self.old.base change.now }
        requires whole { pool.old.file.blocks ≡ self.old.base.page_count }
        requires free { (page : ℕ) → held pool.old page ≡ false }
        ensures same { SameFile D.is_honest pool.old.file pool.new.file }
        ensures cause { MatchResult result (λ _. D.faults pool.new.file.disk ≡ D.faults pool.old.file.disk)
            (IsHoldRefusal (D.faults pool.old.file.disk) (D.faults pool.new.file.disk)) }
        ensures quiet { D.is_honest pool.old.file.disk
            → OnlyReads D.remembers D.state D.clock pool.old.file.disk pool.new.file.disk }
        ensures base { OnOk result (self.new.base ≡ base_after self.old.base change.now) }
        ensures free { OnOk result ((page : ℕ) → held pool.new page ≡ false) }
        ensures redone { (origin : Place) (changes : List Change)
            → IsRedone D.is_honest D.state self.old pool.old origin number changes
            → OnOk result (IsRedone D.is_honest D.state self.new pool.new origin number
            (changes ++ change.now ∷ [])) }
    {
        let writes = writes_of(change);
        hold_all(pool, writes)?;
        let images = pre_states(alloc, &self.base, pool, writes)?;
        self.add(&images, number)?;
        let label = label_of(alloc, change)?;
        enter(&mut self.base, pool, change, label);
        release_all(pool, writes);
        Ok(())
    }
}

// Does the changes of a log that are right in turn.
fn redo_all<D: Disk>(
    redone: &mut Redone,
    alloc: Global,
    pool: &mut PagePool<D>,
    changes: &[Change],
    number: u64,
) -> Result<(), Refusal>
    requires right { AreRight redone.old.base changes.now }
    requires whole { pool.old.file.blocks ≡ redone.old.base.page_count }
    requires free { (page : ℕ) → held pool.old page ≡ false }
    ensures same { SameFile D.is_honest pool.old.file pool.new.file }
    ensures cause { MatchResult result (λ _. D.faults pool.new.file.disk ≡ D.faults pool.old.file.disk)
        (IsHoldRefusal (D.faults pool.old.file.disk) (D.faults pool.new.file.disk)) }
    ensures quiet { D.is_honest pool.old.file.disk
        → OnlyReads D.remembers D.state D.clock pool.old.file.disk pool.new.file.disk }
    ensures base { OnOk result (redone.new.base ≡ bases_after redone.old.base changes.now) }
    ensures free { OnOk result ((page : ℕ) → held pool.new page ≡ false) }
    ensures redone { (origin : Place) → IsRedone D.is_honest D.state redone.old pool.old origin number []
        → OnOk result (IsRedone D.is_honest D.state redone.new pool.new origin number changes.now) }
{
    for change in changes {
        if let Err(why) = redone.redo(alloc, pool, change, number) {
            return Err(why);
        }
    }
    Ok(())
}

// The pages of a device of the size that the log says, settled, and none of them in memory.
fn settled_pool<D: Disk>(alloc: Global, pages: D, count: u32) -> Result<PagePool<D>, (D, Refusal)>
    ensures honest { IfOk result (λ pool. D.is_honest pages ↔ D.is_honest pool.file.disk) }
    ensures back { IfErr result (λ e. SameDevice D.extent D.is_honest pages e.0) }
    ensures size { IfOk result (λ pool. D.extent pages ≡ PAGE_BYTES * pool.file.blocks) }
    ensures cause { MatchResult result (λ pool. D.faults pool.file.disk ≡ D.faults pages)
        (λ e. IsSizeRefusal count (D.extent pages) (D.faults pages) (D.faults e.0) e.1) }
    ensures whole { IfOk result (λ pool. pool.file.blocks ≡ count) }
    ensures side { IfOk result (λ pool. IsPageSide D.is_honest D.state pool
        (block_at (D.state pages).seen) (block_at (D.state pages).seen) (λ _. false) (λ _. false)) }
    ensures free { IfOk result (λ pool. (page : ℕ) → held pool page ≡ false) }
    ensures quiet { D.is_honest pages → MatchResult result
        (λ pool. WritesNothing D.remembers D.state D.clock pages pool.file.disk)
        (λ e. WritesNothing D.remembers D.state D.clock pages e.0) }
{
    let place = pages.size();
    if place != PAGE_BYTES as u64 * u64::from(count) {
        let device = Device::Pages;
        return Err((pages, Refusal::NotAStore { device, place }));
    }
    match PagePool::new(alloc, pages, count) {
        Err(refused) => Err(refused),
        Ok(pool) => settle(pool),
    }
}

fn settle<D: Disk>(pool: PagePool<D>) -> Result<PagePool<D>, (D, Refusal)>
    ensures honest { IfOk result (λ new. D.is_honest pool.file.disk ↔ D.is_honest new.file.disk) }
    ensures back { IfErr result (λ e. (D.is_honest pool.file.disk ↔ D.is_honest e.0)
        × (D.extent e.0 ≡ PAGE_BYTES * pool.file.blocks)) }
    ensures cause { MatchResult result (λ new. D.faults new.file.disk ≡ D.faults pool.file.disk)
        (λ e. IsFault OfPages (D.faults pool.file.disk) (D.faults e.0) e.1) }
    ensures whole { IfOk result (λ new. new.file.blocks ≡ pool.file.blocks) }
    ensures side { (now device : ℕ → List ℕ) (loose dirty : ℕ → Bool)
        → IsPageSide D.is_honest D.state pool now device loose dirty
        → IfOk result (λ new. IsPageSide D.is_honest D.state new now device (λ _. false) dirty) }
    ensures free { IfOk result (λ new. HoldsSame pool new) }
    ensures quiet { D.is_honest pool.file.disk → MatchResult result
        (λ new. WritesNothing D.remembers D.state D.clock pool.file.disk new.file.disk)
        (λ e. WritesNothing D.remembers D.state D.clock pool.file.disk e.0) }
{
    let mut pool = pool;
    match pool.settle() {
        Ok(()) => Ok(pool),
        Err(why) => Err((pool.into_disk(), why)),
    }
}

// What is in memory behind the changes of a log, which are done over the pages, where the mappings belong to it.
fn joined<D: Disk>(
    alloc: Global,
    pool: &mut PagePool<D>,
    list: Log,
    mappings: &Mappings,
    end: u64,
) -> Result<(RunningBase, CopyQueue), Refusal>
    requires read { IsReadable list }
    requires side { ReadsBytes D.is_honest D.state pool.old }
    requires whole { pool.old.file.blocks ≡ list.base.page_count }
    requires free { (page : ℕ) → held pool.old page ≡ false }
    ensures same { SameFile D.is_honest pool.old.file pool.new.file }
    ensures cause { (extent : ℕ) (bytes : List ℕ)
        → IsPageSide D.is_honest D.state pool.old (block_at bytes) (block_at bytes) (λ _. false) (λ _. false)
        → MatchResult result (λ _. D.faults pool.new.file.disk ≡ D.faults pool.old.file.disk)
        (IsPagesRefusal list extent bytes mappings.now end
        (D.faults pool.old.file.disk) (D.faults pool.new.file.disk)) }
    ensures memory { (bytes : List ℕ) (slots : ℕ → List ℕ)
        → IsPageSide D.is_honest D.state pool.old (block_at bytes) (block_at bytes) (λ _. false) (λ _. false)
        → IfOk result (λ p. IsMemoryOf D.is_honest D.state (contents_of list bytes mappings.now slots)
        pool.new p.0 p.1) }
    ensures quiet { D.is_honest pool.old.file.disk
        → OnlyReads D.remembers D.state D.clock pool.old.file.disk pool.new.file.disk }
{
    let (device, place) = (Device::Maplog, end);
    if !holds_base(alloc, &list.base, mappings)? {
        return Err(Refusal::NotAStore { device, place });
    }
    let captures = list.base.captures;
    let Log { base, changes, .. } = list;
    let mut redone = Redone::new(alloc, base)?;
    redo_all(&mut redone, alloc, pool, changes.as_slice(), mappings.end())?;
    if !holds_changes(captures, &redone.base, &redone.captured, mappings) {
        return Err(Refusal::NotAStore { device, place });
    }
    let mut queue = CopyQueue::new(alloc, mappings.end());
    queue.add(&redone.pending)?;
    Ok((redone.base, queue))
}

// The desk of a log that was read, and of pages that are settled.
fn open<D: Disk + Drop>(
    alloc: Global,
    log: LogSide<D>,
    pool: PagePool<D>,
    list: Log,
    mappings: &Mappings,
    end: u64,
) -> Result<RunningDesk<D>, Unopened<D>>
    requires read { IsReadable list }
    requires version { log.log.version ≡ list.version }
    requires side { IsLogSide D.is_honest D.state log list None false }
    requires pages { ReadsBytes D.is_honest D.state pool }
    requires whole { pool.file.blocks ≡ list.base.page_count }
    requires free { (page : ℕ) → held pool page ≡ false }
    ensures log { MatchResult result (λ desk. desk.log ≡ log) (λ e. e.log ≡ log.disk) }
    ensures honest { MatchResult result
        (λ desk. D.is_honest pool.file.disk ↔ D.is_honest desk.pool.file.disk)
        (λ e. D.is_honest pool.file.disk ↔ D.is_honest e.pages) }
    ensures size { MatchResult result (λ desk. desk.pool.file.blocks ≡ pool.file.blocks)
        (λ e. D.extent e.pages ≡ PAGE_BYTES * pool.file.blocks) }
    ensures cause { (extent : ℕ) (bytes : List ℕ)
        → IsPageSide D.is_honest D.state pool (block_at bytes) (block_at bytes) (λ _. false) (λ _. false)
        → MatchResult result (λ desk. D.faults desk.pool.file.disk ≡ D.faults pool.file.disk)
        (λ e. IsPagesRefusal list extent bytes mappings.now end (D.faults pool.file.disk) (D.faults e.pages) e.why) }
    ensures goes { IfOk result (λ desk. desk.stop ≡ None) }
    ensures free { IfOk result (λ desk. (page : ℕ) → held desk.pool page ≡ false) }
    ensures desk { (bytes : List ℕ) (slots : ℕ → List ℕ)
        → IsPageSide D.is_honest D.state pool (block_at bytes) (block_at bytes) (λ _. false) (λ _. false)
        → IfOk result (λ desk. IsDesk D.is_honest D.state desk (opened_desk (contents_of list bytes mappings.now slots))
        × DeskFits (opened_desk (contents_of list bytes mappings.now slots))
        × AreJoined (contents_of list bytes mappings.now slots)) }
    ensures quiet { D.is_honest pool.file.disk → MatchResult result
        (λ desk. OnlyReads D.remembers D.state D.clock pool.file.disk desk.pool.file.disk)
        (λ e. OnlyReads D.remembers D.state D.clock pool.file.disk e.pages) }
{
    let mut pool = pool;
    match joined(alloc, &mut pool, list, mappings, end) {
        Ok((base, queue)) => Ok(RunningDesk {
            log,
            pool,
            queue,
            base,
            stop: None,
            passed: Passed { page: 0, first: 0 },
        }),
        Err(why) => Err(Unopened {
            log: log.into_disk(),
            pages: pool.into_disk(),
            why,
        }),
    }
}

impl<D: Disk + Drop> RunningDesk<D> {
    /// Opens the desk of two devices beside the mappings that a Maplog keeps, whose closed gate stands at `end`. Both
    /// devices are settled; the pages that the log writes are read, once each, and are then dirty in memory; the
    /// captures behind the mappings are made again from them. It takes memory in proportion to the log, and a little
    /// for each page and mapping. It is refused for want of memory; where the log's device lists no log, with its
    /// size or the place of the first break; where the pages' device has another size than the log says, with its
    /// size; where the mappings do not belong to the log, with the Maplog at `end`; and exactly where a call of a
    /// device failed. Then the devices come back.
    pub fn fetch(
        alloc: Global,
        version: Version,
        log: D,
        pages: D,
        mappings: &Mappings,
        end: u64,
    ) -> Result<RunningDesk<D>, Unopened<D>>
        ensures same { MatchResult result
            (λ desk. SameDevice D.extent D.is_honest log desk.log.disk
            × (D.is_honest pages ↔ D.is_honest desk.pool.file.disk))
            (λ e. SameDevice D.extent D.is_honest log e.log × SameDevice D.extent D.is_honest pages e.pages) }
        ensures size { IfOk result (λ desk. D.extent pages ≡ PAGE_BYTES * desk.pool.file.blocks) }
        ensures cause { MatchResult result
            (λ desk. (D.faults desk.log.disk ≡ D.faults log) × (D.faults desk.pool.file.disk ≡ D.faults pages))
            (λ e. IsLogUnread D.is_honest D.extent D.faults D.state version log pages e
            ⊎ ArePagesUnread D.is_honest D.extent D.faults D.state version log pages mappings.now end e) }
        ensures desk { IfOk result (FetchesDesk D.is_honest D.state version log pages mappings.now) }
        ensures goes { IfOk result (λ desk. desk.stop ≡ None) }
        ensures whole { IfOk result (IsWhole D.is_honest D.state) }
        ensures quiet_log { D.is_honest log → MatchResult result
            (λ desk. WritesNothing D.remembers D.state D.clock log desk.log.disk)
            (λ e. WritesNothing D.remembers D.state D.clock log e.log) }
        ensures quiet_pages { D.is_honest pages → MatchResult result
            (λ desk. WritesNothing D.remembers D.state D.clock pages desk.pool.file.disk)
            (λ e. WritesNothing D.remembers D.state D.clock pages e.pages) }
    {
        match LogSide::fetch(alloc, version, log) {
            Err((log, why)) => Err(Unopened { log, pages, why }),
            Ok((log, list)) => match settled_pool(alloc, pages, list.base.page_count) {
                Err((pages, why)) => Err(Unopened {
                    log: log.into_disk(),
                    pages,
                    why,
                }),
                Ok(pool) => open(alloc, log, pool, list, mappings, end),
            },
        }
    }
}
