//! What no clause says: that calls succeed, and the stages of a small store worked by hand.

ghost use Rattle.std.specs.Prelude.{◌≡◌, IfOk};
ghost use Rattle.history.specs.Marks.{is_retained};
ghost use Rattle.desk.specs.Desk.{IsWhole};

use desk::RunningDesk;
use disk_mem::RamDisk;
use disk_model::Disk;
use history::{Base, Change, Label, Mark, PageImage, Version, Writes, is_label};
use race_model::{Batch, Receipt};
use records::Entry;
use redo_log::{RedoLog, change_fits};
use retro_base::{LOG_REGION_BYTES, Page, Refusal};
use skippy::Mappings;
use std::alloc::Global;
use std::test::Fail;
use values::Seq;

// The devices of the log and of the pages of a store of sixteen pages where nothing was declared.
fn devices(alloc: Global) -> Result<(RamDisk, RamDisk), Refusal> {
    let mut log = RamDisk::new(alloc, 2 * LOG_REGION_BYTES)?;
    make(alloc, &mut log)?;
    Ok((log, RamDisk::new(alloc, 16384)?))
}

fn make<D: Disk>(alloc: Global, log: &mut D) -> Result<(), Refusal> {
    let base = Base {
        page_count: 16,
        capacity: 64,
        changes: 0,
        captures: 0,
        marks: Seq::new(alloc),
        captured: Seq::new(alloc),
    };
    if log.size() != 2 * LOG_REGION_BYTES {
        return Err(Refusal::BadSizes);
    }
    RedoLog::make(alloc, Version::One, log, &base)
}

fn open<D: Disk + Drop>(alloc: Global, log: D, pages: D) -> Result<RunningDesk<D>, Refusal>
    ensures { IfOk result (IsWhole D.is_honest D.state) }
{
    let mappings = Mappings::new(alloc, 0);
    match RunningDesk::fetch(alloc, Version::One, log, pages, &mappings, 0) {
        Ok(desk) => Ok(desk),
        Err(unopened) => Err(unopened.why),
    }
}

// Declares a snapshot.
fn declare<D: Disk + Drop>(desk: &mut RunningDesk<D>, alloc: Global) -> Result<(), Refusal>
    requires { IsWhole D.is_honest D.state desk.old }
    ensures { IsWhole D.is_honest D.state desk.new }
{
    let change = Change::Commit {
        label: Some(Label::new(Vec::new(alloc))),
        writes: Writes::new(Vec::new(alloc)),
    };
    change_fits(Version::One, &change);
    let Version::One = desk.version() else {
        return Err(Refusal::BadSizes);
    };
    if !desk.base().is_right(&change) {
        return Err(Refusal::BadSizes);
    }
    desk.change(alloc, &Entry::Change(change))
}

// Makes a commit that sets page 7 to that byte.
fn set<D: Disk + Drop>(desk: &mut RunningDesk<D>, alloc: Global, byte: u8) -> Result<(), Refusal>
    requires { IsWhole D.is_honest D.state desk.old }
    ensures { IsWhole D.is_honest D.state desk.new }
{
    if desk.sizes().pages < 16 {
        return Err(Refusal::BadSizes);
    }
    if let Err(why) = desk.hold(7) {
        return Err(why);
    }
    let image = PageImage {
        page: 7,
        bytes: Page::of([byte; 1024]),
    };
    let change = Change::Commit {
        label: None,
        writes: Writes::new(vec![in alloc; image]?),
    };
    change_fits(Version::One, &change);
    let Version::One = desk.version() else {
        return Err(Refusal::BadSizes);
    };
    if !desk.base().is_right(&change) {
        return Err(Refusal::BadSizes);
    }
    if let Err(why) = desk.change(alloc, &Entry::Change(change)) {
        return Err(why);
    }
    desk.release(7);
    Ok(())
}

fn set_all<D: Disk + Drop>(
    desk: &mut RunningDesk<D>,
    alloc: Global,
    bytes: &[u8],
) -> Result<(), Refusal>
    requires { IsWhole D.is_honest D.state desk.old }
    ensures { IsWhole D.is_honest D.state desk.new }
{
    for byte in bytes {
        if let Err(why) = set(desk, alloc, *byte) {
            return Err(why);
        }
    }
    Ok(())
}

fn is_retained(marks: &[Mark], snapshot: u32) -> bool
    ensures { result ≡ is_retained snapshot marks.now }
{
    marks
        .iter()
        .map(|mark| mark.number)
        .any(|number| number == snapshot)
}

// The first byte of page 7 as a reader of that snapshot is told, and up to where the archive is asked before.
fn told<D: Disk + Drop>(desk: &mut RunningDesk<D>, snapshot: u32) -> Result<(u8, u64), Refusal>
    requires { IsWhole D.is_honest D.state desk.old }
    ensures { IsWhole D.is_honest D.state desk.new }
{
    let mut out = Page::zero();
    if desk.sizes().pages < 16 || !is_retained(desk.base().marks(), snapshot) {
        return Err(Refusal::BadSizes);
    }
    match desk.peek(7, snapshot, &mut out) {
        Ok(upto) => Ok((out.bytes()[0], upto)),
        Err(why) => Err(why),
    }
}

fn ack<D: Disk + Drop>(desk: &mut RunningDesk<D>, count: u64) -> Result<(), Refusal>
    requires { IsWhole D.is_honest D.state desk.old }
    ensures { IsWhole D.is_honest D.state desk.new }
{
    if desk.base().captures() < count {
        return Err(Refusal::BadSizes);
    }
    desk.ack(Receipt::of(count));
    Ok(())
}

// Five commits of one page behind a snapshot: how many captures are pending, and what is told of the page.
fn five<D: Disk + Drop>(alloc: Global, log: D, pages: D) -> Result<(usize, (u8, u64)), Refusal> {
    let mut desk = open(alloc, log, pages)?;
    declare(&mut desk, alloc)?;
    set_all(&mut desk, alloc, &[1, 2, 3, 4, 5])?;
    Ok((desk.pending(), told(&mut desk, 1)?))
}

#[test]
fn five_commits_capture_once(rt: HostRuntime) -> Result<(), Fail> {
    let (log, pages) = devices(rt.alloc())?;
    assert!(rt; five(rt.alloc(), log, pages) == Ok((1, (0, 0))));
    Ok(())
}

// Three snapshots, and a commit before and behind each: what is told of the second, before and behind the copying.
fn three<D: Disk + Drop>(
    alloc: Global,
    log: D,
    pages: D,
) -> Result<(usize, (u8, u64), (u8, u64)), Refusal> {
    let mut desk = open(alloc, log, pages)?;
    set_all(&mut desk, alloc, &[1])?;
    for byte in 2..5 {
        declare(&mut desk, alloc)?;
        set(&mut desk, alloc, byte)?;
    }
    let mut batch = Batch::new(alloc)?;
    let _any = desk.next_batch(&mut batch);
    let before = told(&mut desk, 2)?;
    ack(&mut desk, 3)?;
    Ok((batch.len(), before, told(&mut desk, 2)?))
}

#[test]
fn three_snapshots_capture_three_times(rt: HostRuntime) -> Result<(), Fail> {
    let (log, pages) = devices(rt.alloc())?;
    assert!(rt; three(rt.alloc(), log, pages) == Ok((3, (2, 0), (4, 3))));
    Ok(())
}

// A page of a pending capture: whether it is written back, whether the log is cut, and so behind each step on the way.
fn written<D: Disk + Drop>(alloc: Global, log: D, pages: D) -> Result<[bool; 6], Refusal> {
    let mut desk = open(alloc, log, pages)?;
    declare(&mut desk, alloc)?;
    set_all(&mut desk, alloc, &[1])?;
    let early = desk.write_back()?;
    ack(&mut desk, 1)?;
    let beside = desk.cut_log(alloc)?;
    let wrote = desk.write_back()?;
    let again = desk.write_back()?;
    let loose = desk.cut_log(alloc)?;
    desk.settle()?;
    Ok([early, beside, wrote, again, loose, desk.cut_log(alloc)?])
}

#[test]
fn a_page_is_written_back_and_settled_before_the_log_is_cut(rt: HostRuntime) -> Result<(), Fail> {
    let (log, pages) = devices(rt.alloc())?;
    let steps = [false, false, true, false, false, true];
    assert!(rt; written(rt.alloc(), log, pages) == Ok(steps));
    Ok(())
}
