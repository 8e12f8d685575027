//! What the log says of a store that runs.

ghost use Rattle.std.specs.Prelude.{◌≡◌, ◌≤◌, ◌<◌, ◌+◌, ◌^◌, nat_le, length, drop, vec_capacity, OnOk, OnErr, IfOk};
ghost use Rattle.std.specs.List.{AllByRecursion, position};
ghost use Rattle.history.specs.declared.entry.Change.TheVariants.{Commit, Drop};
ghost use Rattle.history.specs.Marks.{newest, kept_marks};
ghost use Rattle.history.specs.Writes.{pages_of, is_among};
ghost use Rattle.history.specs.History.{captures_page, capturing, base_after};
ghost use Rattle.history.specs.Right.{IsBase, IsRight};
ghost use Rattle.history.specs.Running.{stamped, with_stamps, captured_in};

use crate::entry::{Base, Change, Mark, newest};
use crate::label::Label;
use crate::writes::{PageImage, Writes};
use retro_base::RETAINED_SNAPSHOTS;
use std::alloc::{AllocError, Global};
use std::marker::Model;
use values::{Duplicate, Seq};

// Places for marks: half of them may be those of dropped snapshots.
const PLACES: usize = 2 * RETAINED_SNAPSHOTS as usize;

/// What the log says of a store that runs: a base that changes in place. Contracts see the base.
///
/// All its memory is taken when it is made: four bytes for each page of the store, and 5 MiB for the marks. So a
/// change can't be refused, and a commit copies no mark and searches no list.
#[derive(Debug, Drop)]
pub struct RunningBase {
    capacity: u32,
    changes: u64,
    captures: u64,
    // The retained snapshots, behind so many that were dropped.
    marks: Vec<Mark>,
    dropped: usize,
    // A page is captured since the newest snapshot exactly where its stamp is that snapshot's number.
    stamps: Vec<u32>,
}

impl Model for RunningBase {
    ghost use Rattle.std.specs.Prelude.{◌≤◌, length, drop, vec_capacity};
    ghost use Rattle.history.specs.declared.entry.Base.{Base};
    ghost use Rattle.history.specs.Running.{stamped_base, IsRunning};

    ghost Value = { Base };

    ghost view = { λ r. stamped_base r.capacity r.changes r.captures (drop r.dropped r.marks.items) r.stamps.items };

    ghost invariant = { λ r. IsRunning r.marks.items r.dropped (vec_capacity r.marks) r.stamps.items };
}

// Whether the stamp of a page is this number.
#[tactic(auto, using(crate::proofs::Stamps::stamped_at, crate::proofs::Stamps::stamped_past))]
fn is_stamped(stamps: &[u32], number: u32, page: u32) -> bool
    ensures { result ≡ is_among page (stamped number 0 stamps.now) }
{
    match stamps.get(page as usize) {
        Some(stamp) => *stamp == number,
        None => false,
    }
}

fn stamp_pages(stamps: &mut [u32], number: u32, pages: &[u32])
    requires { AllByRecursion (λ page. page < length stamps.old) pages.now }
    ensures { stamps.new ≡ with_stamps number stamps.old pages.now }
{
    for page in pages {
        stamps[*page as usize] = number;
    }
}

fn stamp_writes(stamps: &mut [u32], number: u32, writes: &[PageImage])
    requires { AllByRecursion (λ write. write.page < length stamps.old) writes.now }
    ensures { stamps.new ≡ with_stamps number stamps.old (pages_of writes.now) }
{
    for write in writes {
        stamps[write.page as usize] = number;
    }
}

fn captured_pages(alloc: Global, marks: &[Mark], stamps: &[u32]) -> Result<Vec<u32>, AllocError>
    requires { length stamps.now < 2 ^ 32 }
    ensures { IfOk result (λ pages. pages.items ≡ captured_in marks.now stamps.now) }
{
    let mut pages = Vec::new(alloc);
    if marks.is_empty() {
        return Ok(pages);
    }
    let number = newest(marks);
    for (page, stamp) in stamps.iter().enumerate() {
        if *stamp == number {
            pages.push(page as u32)?;
        }
    }
    Ok(pages)
}

/// A copy of these marks. Refused for want of memory alone.
pub fn copied_marks(alloc: Global, marks: &[Mark]) -> Result<Vec<Mark>, AllocError>
    ensures { IfOk result (λ copied. copied.items ≡ marks.now) }
{
    let mut copied = Vec::with_capacity(alloc, marks.len())?;
    for mark in marks {
        copied.push(mark.copy(alloc)?)?;
    }
    Ok(copied)
}

// The place of the first mark that is not below this number.
fn first_kept(below: u32, marks: &[Mark]) -> Option<usize>
    ensures { result ≡ position (λ mark. nat_le below mark.number) marks.now }
{
    marks.iter().position(|mark| below <= mark.number)
}

// How many marks a drop of the snapshots below this number drops.
fn dropped_below(below: u32, marks: &[Mark]) -> usize
    ensures place { result ≤ length marks.now }
    ensures kept { drop result marks.now ≡ kept_marks below marks.now }
{
    first_kept(below, marks).unwrap_or(marks.len())
}

// Leaves the dropped marks out where they are more than the kept ones, and tells how many are left in front.
fn forget(marks: &mut Vec<Mark>, dropped: usize) -> usize
    requires { dropped ≤ length marks.old.items }
    ensures kept { drop result marks.new.items ≡ drop dropped marks.old.items }
    ensures half { result + result ≤ length marks.new.items }
    ensures room { vec_capacity marks.new ≡ vec_capacity marks.old }
{
    if dropped <= marks.len() / 2 {
        return dropped;
    }
    marks.drain(..dropped);
    0
}

impl RunningBase {
    /// The running form of a right base. It takes a step for each page of the store and each mark. Refused for want of
    /// memory alone.
    pub fn new(alloc: Global, base: Base) -> Result<RunningBase, AllocError>
        requires { IsBase base }
        ensures { IfOk result (λ running. running ≡ base) }
    {
        let mut stamps = vec![in alloc; 0; base.page_count as usize]?;
        let number = newest(base.marks.as_slice());
        stamp_pages(&mut stamps, number, base.captured.as_slice());
        let mut marks = Vec::from(base.marks);
        marks.reserve_exact(PLACES - marks.len())?;
        Ok(RunningBase {
            capacity: base.capacity,
            changes: base.changes,
            captures: base.captures,
            marks,
            dropped: 0,
            stamps,
        })
    }

    /// Pages of the store.
    pub fn page_count(&self) -> u32
        ensures { result ≡ self.now.page_count }
    {
        self.stamps.len() as u32
    }

    /// Page images that the archive holds.
    pub fn capacity(&self) -> u32
        ensures { result ≡ self.now.capacity }
    {
        self.capacity
    }

    /// Changes so far, modulo 2^64.
    pub fn changes(&self) -> u64
        ensures { result ≡ self.now.changes }
    {
        self.changes
    }

    /// Captures so far.
    pub fn captures(&self) -> u64
        ensures { result ≡ self.now.captures }
    {
        self.captures
    }

    /// The retained snapshots, in rising number.
    pub fn marks(&self) -> &[Mark]
        ensures { result.now ≡ self.now.marks }
    {
        &self.marks[self.dropped..]
    }

    /// Whether the write of a page captures it: a snapshot was declared, and the page has no capture since the newest.
    /// It takes one step.
    pub fn captures_page(&self, page: u32) -> bool
        ensures { result ≡ captures_page self.now page }
    {
        let marks = self.marks();
        !marks.is_empty() && !is_stamped(&self.stamps, newest(marks), page)
    }

    /// How many pages these writes capture. It takes a step for each write.
    pub fn captured_count(&self, writes: &[PageImage]) -> usize
        ensures { result ≡ length (capturing self.now writes.now) }
    {
        writes
            .iter()
            .filter(|write| self.captures_page(write.page))
            .count()
    }

    /// Makes a commit that declares a snapshot where it has a label. It takes a step for each write, and no memory.
    pub fn commit(&mut self, label: Option<Label>, writes: &Writes)
        requires { IsRight self.old (Commit label writes.now) }
        ensures { self.new ≡ base_after self.old (Commit label writes.now) }
    {
        let count = self.captured_count(writes.images()) as u64;
        let number = newest(self.marks());
        self.changes = self.changes.wrapping_add(1);
        self.captures += count;
        match label {
            None => stamp_writes(&mut self.stamps, number, writes.images()),
            Some(label) => self.marks.push_reserved(Mark {
                number: number + 1,
                label,
                start: self.captures,
            }),
        }
    }

    /// Drops the snapshots below a number. Over all drops it takes a step and at most one move for each snapshot that
    /// is dropped, and no memory.
    pub fn drop_below(&mut self, below: u32)
        requires { IsRight self.old (Drop below) }
        ensures { self.new ≡ base_after self.old (Drop below) }
    {
        let more = dropped_below(below, self.marks());
        self.changes = self.changes.wrapping_add(1);
        self.dropped = forget(&mut self.marks, self.dropped + more);
    }

    /// Makes a change, after a copy of its label. Refused for want of memory alone; then all is as before.
    pub fn apply(&mut self, alloc: Global, change: &Change) -> Result<(), AllocError>
        requires { IsRight self.old change.now }
        ensures done { OnOk result (self.new ≡ base_after self.old change.now) }
        ensures kept { OnErr result (self.new ≡ self.old) }
    {
        match change {
            Change::Commit {
                label: None,
                writes,
            } => self.commit(None, writes),
            Change::Commit {
                label: Some(label),
                writes,
            } => self.commit(Some(label.copy(alloc)?), writes),
            Change::Drop { below } => self.drop_below(*below),
        }
        Ok(())
    }

    /// A copy of the base. It takes a step for each page of the store and each mark. Refused for want of memory alone.
    pub fn to_base(&self, alloc: Global) -> Result<Base, AllocError>
        ensures { IfOk result (λ base. base ≡ self.now) }
    {
        let marks = copied_marks(alloc, self.marks())?;
        let captured = captured_pages(alloc, &marks, &self.stamps)?;
        Ok(Base {
            page_count: self.page_count(),
            capacity: self.capacity,
            changes: self.changes,
            captures: self.captures,
            marks: Seq::from(marks),
            captured: Seq::from(captured),
        })
    }
}
