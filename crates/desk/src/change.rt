//! A commit or a drop that is right.

ghost use Rattle.std.specs.Prelude.{◌≡◌, ◌≤◌, ◌<◌, ◌+◌, ◌++◌, ◌||◌, ◌∷◌, [], ℕ, Bool, List, Option};
ghost use Rattle.std.specs.Prelude.{None, true, false, map, length, OnOk, IfOk, IfErr, MatchResult};
ghost use Rattle.disk_model.specs.Moments.{LeavesOnly};
ghost use Rattle.disk_model.specs.Runs.{SameDevice};
ghost use Rattle.retro_base.specs.declared.refusal.Refusal.TheVariants.{OutOfMemory};
ghost use Rattle.gate_log.specs.Cause.{HasRoom, IsDiskFault};
ghost use Rattle.history.specs.declared.entry.Change.{Change};
ghost use Rattle.history.specs.History.{base_after, before_write, capturing, pages_after};
ghost use Rattle.history.specs.Right.{IsRight};
ghost use Rattle.history.specs.Writes.{is_among, pages_of};
ghost use Rattle.records.specs.Entries.{entry_bytes, EntryFits};
ghost use Rattle.page_pool.specs.Side.{HoldsSame, held, IsPageSide};
ghost use Rattle.race_model.specs.Desk.{Desk, writes_of, writes_page};
ghost use Rattle.race_model.specs.Machine.{changed, change_failed};
ghost use Rattle.desk.specs.Cause.{IsChangeRefusal, IsWriteRefusal, stop_behind};
ghost use Rattle.desk.specs.Desk.{IsDesk, IsWhole, ListsLogOf};
ghost use Rattle.desk.specs.Steps.{AreHeld, base_behind, IsChangeOf, IsRightChange, label_in, writes_in};

use crate::desk::{RunningDesk, stop_behind};
use copy_queue::CopyQueue;
use disk_model::Disk;
use history::{Change, Label, PageImage, RunningBase};
use page_pool::PagePool;
use records::Entry;
use retro_base::Refusal;
use std::alloc::{AllocError, Global};
use values::Duplicate;

// What a change takes of memory before the log is written: its label, and what it captures.
#[derive(Drop)]
struct Plan {
    label: Option<Label>,
    captures: Vec<PageImage>,
}

// What a change writes.
pub(crate) fn writes_of(change: &Change) -> &[PageImage]
    ensures { result.now ≡ writes_of change.now }
{
    match change {
        Change::Commit { writes, .. } => writes.images(),
        Change::Drop { .. } => &[],
    }
}

// A copy of the label that a change declares.
pub(crate) fn label_of(alloc: Global, change: &Change) -> Result<Option<Label>, AllocError>
    ensures { IfOk result (λ label. label ≡ label_in change.now) }
{
    match change {
        Change::Commit {
            label: Some(label),
            ..
        } => Ok(Some(label.copy(alloc)?)),
        _ => Ok(None),
    }
}

// Adds what the write captures.
fn push_state<D: Disk>(
    images: &mut Vec<PageImage>,
    base: &RunningBase,
    pool: &PagePool<D>,
    write: &PageImage,
) -> Result<(), AllocError>
    requires { held pool.now write.now.page ≡ true }
    ensures pages { OnOk result (pages_of images.new.items
        ≡ pages_of images.old.items ++ pages_of (capturing base.now (write.now ∷ []))) }
    ensures bytes { (pages device : ℕ → List ℕ) (loose dirty : ℕ → Bool)
        → IsPageSide D.is_honest D.state pool.now pages device loose dirty → D.is_honest pool.now.file.disk
        → OnOk result (images.new.items
        ≡ images.old.items ++ map (before_write pages) (capturing base.now (write.now ∷ []))) }
{
    if !base.captures_page(write.page) {
        return Ok(());
    }
    let bytes = *pool.bytes(write.page);
    images.push(PageImage {
        page: write.page,
        bytes,
    })?;
    Ok(())
}

// What these writes capture: the bytes that their pages have.
pub(crate) fn pre_states<D: Disk>(
    alloc: Global,
    base: &RunningBase,
    pool: &PagePool<D>,
    writes: &[PageImage],
) -> Result<Vec<PageImage>, AllocError>
    requires { AreHeld pool.now writes.now }
    ensures pages { IfOk result (λ images. pages_of images.items ≡ pages_of (capturing base.now writes.now)) }
    ensures bytes { (pages device : ℕ → List ℕ) (loose dirty : ℕ → Bool)
        → IsPageSide D.is_honest D.state pool.now pages device loose dirty → D.is_honest pool.now.file.disk
        → IfOk result (λ images. images.items ≡ map (before_write pages) (capturing base.now writes.now)) }
{
    let mut images = Vec::new(alloc);
    for write in writes {
        push_state(&mut images, base, pool, write)?;
    }
    Ok(images)
}

// Does a change in memory, which takes none.
pub(crate) fn enter<D: Disk>(
    base: &mut RunningBase,
    pool: &mut PagePool<D>,
    change: &Change,
    label: Option<Label>,
)
    requires right { IsRight base.old change.now }
    requires held { AreHeld pool.old (writes_of change.now) }
    requires label { label ≡ label_in change.now }
    ensures base { base.new ≡ base_after base.old change.now }
    ensures file { pool.new.file ≡ pool.old.file }
    ensures held { HoldsSame pool.old pool.new }
    ensures pages { (pages device : ℕ → List ℕ) (loose dirty : ℕ → Bool)
        → IsPageSide D.is_honest D.state pool.old pages device loose dirty
        → IsPageSide D.is_honest D.state pool.new (pages_after pages change.now) device loose
        (λ page. dirty page || writes_page page change.now) }
{
    pool.write(writes_of(change));
    match change {
        Change::Commit { writes, .. } => base.commit(label, writes),
        Change::Drop { below } => base.drop_below(*below),
    }
}

// The place, or the page of a write below it of which no capture pends.
fn lower(place: u32, queue: &CopyQueue, write: &PageImage) -> u32
    ensures less { result ≤ place }
    ensures waits { write.now.page < result → is_among write.now.page (pages_of queue.now.images) ≡ true }
{
    if place <= write.page {
        return place;
    }
    if queue.pends(write.page) {
        return place;
    }
    write.page
}

// The place, or the least page of a write below it of which no capture pends.
fn lowered(place: u32, queue: &CopyQueue, writes: &[PageImage]) -> u32
    ensures less { result ≤ place }
    ensures waits { (page : ℕ) → page < result → is_among page (pages_of writes.now) ≡ true
        → is_among page (pages_of queue.now.images) ≡ true }
{
    let mut least = place;
    for write in writes {
        least = lower(least, queue, write);
    }
    least
}

impl<D: Disk + Drop> RunningDesk<D> {
    // Takes the memory of a change.
    fn plan(&self, alloc: Global, change: &Change) -> Result<Plan, Refusal>
        requires held { AreHeld self.now.pool (writes_of change.now) }
        ensures label { IfOk result (λ plan. plan.label ≡ label_in change.now) }
        ensures pages { IfOk result (λ plan. pages_of plan.captures.items
            ≡ pages_of (capturing self.now.base (writes_of change.now))) }
        ensures bytes { (pages device : ℕ → List ℕ) (loose dirty : ℕ → Bool)
            → IsPageSide D.is_honest D.state self.now.pool pages device loose dirty
            → D.is_honest self.now.pool.file.disk → IfOk result (λ plan. plan.captures.items
            ≡ map (before_write pages) (capturing self.now.base (writes_of change.now))) }
        ensures memory { IfErr result (λ why. why ≡ OutOfMemory) }
    {
        let label = label_of(alloc, change)?;
        let captures = pre_states(alloc, &self.base, &self.pool, writes_of(change))?;
        Ok(Plan { label, captures })
    }

    /// Makes a commit or a drop that is right, of pages that are held: what it captures is pending, and what it
    /// writes is dirty. All memory is taken before the log is written. It is refused, in this order, after the first
    /// fault, which is told; for want of memory; where the log has no room for its record; and exactly where a call of
    /// the log's device failed. The first three leave all as it was; after a fault the change is in doubt.
    pub fn change(&mut self, alloc: Global, entry: &Entry) -> Result<(), Refusal>
        requires whole { IsWhole D.is_honest D.state self.old }
        requires fits { EntryFits self.old.log.log.version entry.now }
        requires right { IsRightChange self.old.base entry.now }
        requires held { AreHeld self.old.pool (writes_in entry.now) }
        ensures whole { IsWhole D.is_honest D.state self.new }
        ensures same { SameDevice D.extent D.is_honest self.old.log.disk self.new.log.disk }
        ensures pages { self.new.pool.file ≡ self.old.pool.file }
        ensures held { HoldsSame self.old.pool self.new.pool }
        ensures cause { MatchResult result
            (λ _. (self.old.stop ≡ None)
            × HasRoom self.old.log.log.area.log (length (entry_bytes self.old.log.log.version entry.now))
            × (D.faults self.new.log.disk ≡ D.faults self.old.log.disk))
            (IsWriteRefusal self.old.stop
            (IsChangeRefusal self.old.log.log.area.log (length (entry_bytes self.old.log.log.version entry.now))
            (D.faults self.old.log.disk) (D.faults self.new.log.disk))) }
        ensures untouched { IfErr result (λ why. (IsDiskFault why → ⊥) → self.new ≡ self.old) }
        ensures stop { MatchResult result (λ _. self.new.stop ≡ self.old.stop)
            (λ why. self.new.stop ≡ stop_behind self.old.stop why) }
        ensures base { OnOk result (self.new.base ≡ base_behind self.old.base entry.now) }
        ensures done { (desk : Desk) (change : Change)
            → IsChangeOf D.is_honest D.state self.old entry.now desk change
            → OnOk result (IsDesk D.is_honest D.state self.new (changed desk change)) }
        ensures failed { (desk : Desk) (change : Change)
            → IsChangeOf D.is_honest D.state self.old entry.now desk change
            → IfErr result (λ why. IsDiskFault why → IsDesk D.is_honest D.state self.new (change_failed desk change)) }
        ensures any_moment { (desk : Desk) (change : Change)
            → IsChangeOf D.is_honest D.state self.old entry.now desk change → D.is_honest self.old.log.disk
            → LeavesOnly D.remembers (D.clock self.old.log.disk) (D.clock self.new.log.disk)
            (ListsLogOf (change_failed desk change)) }
    {
        if let Some(stop) = self.stop {
            return Err(stop.refusal());
        }
        let Entry::Change(change) = entry else {
            unreachable!()
        };
        let framed = self.log.body(alloc, entry)?;
        let plan = self.plan(alloc, change)?;
        let count = self.queue.len();
        self.queue.add(&plan.captures)?;
        match self.log.change(&framed) {
            Ok(()) => {
                enter(&mut self.base, &mut self.pool, change, plan.label);
                self.passed.page = lowered(self.passed.page, &self.queue, writes_of(change));
                Ok(())
            }
            Err(why) => {
                self.queue.keep(count);
                self.stop = stop_behind(self.stop, why);
                Err(why)
            }
        }
    }
}
