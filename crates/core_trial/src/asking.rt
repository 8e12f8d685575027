//! Calls of a desk as data, and what it answers.

use crate::trial::{Peek, Trial};
use disk_model::Disk;
use history::{Mark, oldest};
use race_model::Batch;
use retro_base::{Device, PAGE_BYTES, Page, Refusal, Who};
use std::alloc::Global;
use std::ops::Range;
use txn_set::Ending;
use values::Seq;

/// What a desk is asked.
#[derive(Clone, Copy)]
pub enum Ask {
    Begin(Who),
    Read(Who, u32),
    /// Sets a page to a byte.
    Edit(Who, u32, u8),
    /// Sets each page from the first to below the second to a byte of its own, by the salt.
    EditAll(Who, u32, u32, u32),
    /// Whether these pages read so.
    ReadAll(Who, u32, u32, u32),
    /// Begins so many transactions in turn, and rolls them back.
    Pairs(Who, u32),
    /// Begins so many transactions in turn, and commits each with a snapshot.
    Marks(Who, u32),
    /// Writes pages back until there is none to write, at most 65,536.
    WriteAll(Who),
    Commit(Who),
    /// Begins, sets a page to a byte, and commits.
    Set(Who, u32, u8),
    /// Commits with a snapshot of this label.
    Mark(Who, &'static [u8]),
    Rollback(Who, Ending),
    Look(Who, u64),
    LookAll(Who),
    Unlook(Who, Ending),
    DropBelow(Who, u64),
    /// What a session that pins the snapshot is told of a page as of it: the page, and then the snapshot.
    Peek(Who, u32, u32),
    /// Fills the batch.
    Batch,
    /// A page image of the batch.
    Capture(usize),
    Ack(u64),
    WriteBack(Who),
    Settle(Who),
    CutLog(Who),
    Note(Who, Device, u64, bool),
    /// How many captures are pending, and how many pages are dirty.
    Owed,
    Horizon,
    Free,
    /// How many pages there are, and how many page images the archive holds.
    Sizes,
    Stopped,
}

/// What a desk answers.
#[derive(Clone, Copy, Debug, PartialEq, Eq)]
pub enum Answer {
    Done,
    No(Refusal),
    Is(bool),
    Number(u64),
    Pair(u64, u64),
    /// The first and the last of the snapshots, with the bytes of their labels and their starts; none where there are
    /// gaps.
    Snapshots(Option<[(u32, usize, u64); 2]>),
    /// The number of the snapshot that was declared, if one was.
    Declared(Option<u32>),
    /// A page of this byte alone, or none.
    Page(Option<u8>),
    /// Such a page, and how many captures were acknowledged.
    Told(Option<u8>, u64),
    /// The first number of a batch, its low, and how many captures it has.
    Batch(u64, u64, usize),
    /// A page, and its byte.
    Capture(u32, Option<u8>),
}

/// What is asked, and the answer that is wanted.
pub type Row = (Ask, Answer);

/// A page of this byte alone.
fn page(byte: u8) -> Page {
    Page::of([byte; PAGE_BYTES])
}

/// What a page is set to where many are.
fn own_byte(number: u32, salt: u32) -> u8 {
    (number.wrapping_add(salt) % 251) as u8
}

// The byte that fills the page.
fn byte_of(page: &Page) -> Option<u8> {
    let bytes = page.bytes();
    let byte = bytes[0];
    bytes.iter().all(|other| *other == byte).then_some(byte)
}

fn done(outcome: Result<(), Refusal>) -> Answer {
    match outcome {
        Ok(()) => Answer::Done,
        Err(why) => Answer::No(why),
    }
}

fn is(outcome: Result<bool, Refusal>) -> Answer {
    match outcome {
        Ok(is) => Answer::Is(is),
        Err(why) => Answer::No(why),
    }
}

fn number(outcome: Result<u64, Refusal>) -> Answer {
    match outcome {
        Ok(number) => Answer::Number(number),
        Err(why) => Answer::No(why),
    }
}

fn declared(outcome: Result<Option<u32>, Refusal>) -> Answer {
    match outcome {
        Ok(number) => Answer::Declared(number),
        Err(why) => Answer::No(why),
    }
}

fn read(outcome: Result<Page, Refusal>) -> Answer {
    match outcome {
        Ok(page) => Answer::Page(byte_of(&page)),
        Err(why) => Answer::No(why),
    }
}

fn told(outcome: Result<Peek, Refusal>) -> Answer {
    match outcome {
        Ok(peek) => Answer::Told(byte_of(&peek.page), peek.acked),
        Err(why) => Answer::No(why),
    }
}

// Whether the numbers rise by one.
fn has_no_gaps(marks: &[Mark]) -> bool {
    let mut number = oldest(marks);
    for mark in marks {
        if mark.number != number {
            return false;
        }
        number = number.wrapping_add(1);
    }
    true
}

fn ends_of(marks: &[Mark]) -> Option<[(u32, usize, u64); 2]> {
    let (Some(first), Some(last)) = (marks.first(), marks.last()) else {
        return None;
    };
    let ends = [first, last].map(|mark| (mark.number, mark.label.bytes().len(), mark.start));
    has_no_gaps(marks).then_some(ends)
}

fn snapshots(outcome: Result<Seq<Mark>, Refusal>) -> Answer {
    match outcome {
        Ok(marks) => Answer::Snapshots(ends_of(marks.as_slice())),
        Err(why) => Answer::No(why),
    }
}

// A page image of the batch; no page where it is not there.
fn capture(batch: &Batch, place: usize) -> Answer {
    if place >= batch.len() || place >= batch.pages().len() {
        return Answer::Is(false);
    }
    Answer::Capture(batch.pages()[place], byte_of(batch.bytes(place)))
}

fn filled<D: Disk + Drop>(trial: &Trial<D>, batch: &mut Batch) -> Answer {
    if !trial.next_batch(batch) {
        return Answer::Is(false);
    }
    Answer::Batch(batch.first(), batch.low(), batch.len())
}

fn pair(pair: (u32, u32)) -> Answer {
    Answer::Pair(u64::from(pair.0), u64::from(pair.1))
}

fn edit_all<D: Disk + Drop>(
    trial: &mut Trial<D>,
    who: Who,
    numbers: Range<u32>,
    salt: u32,
) -> Result<(), Refusal> {
    for number in numbers {
        trial.edit(who, number, &page(own_byte(number, salt)))?;
    }
    Ok(())
}

fn read_all<D: Disk + Drop>(
    trial: &mut Trial<D>,
    who: Who,
    numbers: Range<u32>,
    salt: u32,
) -> Result<bool, Refusal> {
    for number in numbers {
        if trial.read(who, number)? != page(own_byte(number, salt)) {
            return Ok(false);
        }
    }
    Ok(true)
}

fn pairs<D: Disk + Drop>(
    alloc: Global,
    trial: &mut Trial<D>,
    who: Who,
    count: u32,
) -> Result<(), Refusal> {
    for _ in 0..count {
        trial.begin(alloc, who)?;
        trial.rollback(who, Ending::Asked)?;
    }
    Ok(())
}

// The number of the last snapshot.
fn marks<D: Disk + Drop>(
    alloc: Global,
    trial: &mut Trial<D>,
    who: Who,
    count: u32,
) -> Result<Option<u32>, Refusal> {
    let mut number = None;
    for _ in 0..count {
        trial.begin(alloc, who)?;
        number = trial.commit(alloc, who, Some(&[]))?;
    }
    Ok(number)
}

fn set<D: Disk + Drop>(
    alloc: Global,
    trial: &mut Trial<D>,
    who: Who,
    number: u32,
    byte: u8,
) -> Result<Option<u32>, Refusal> {
    trial.begin(alloc, who)?;
    trial.edit(who, number, &page(byte))?;
    trial.commit(alloc, who, None)
}

// How many pages were written back.
fn write_all<D: Disk + Drop>(trial: &mut Trial<D>, who: Who) -> Result<u64, Refusal> {
    for count in 0..65_536 {
        if !trial.write_back(who)? {
            return Ok(count);
        }
    }
    Ok(65_536)
}

fn asked<D: Disk + Drop>(
    alloc: Global,
    trial: &mut Trial<D>,
    batch: &mut Batch,
    ask: Ask,
) -> Answer {
    match ask {
        Ask::Begin(who) => done(trial.begin(alloc, who)),
        Ask::Read(who, number) => read(trial.read(who, number)),
        Ask::Edit(who, number, byte) => done(trial.edit(who, number, &page(byte))),
        Ask::EditAll(who, from, to, salt) => done(edit_all(trial, who, from..to, salt)),
        Ask::ReadAll(who, from, to, salt) => is(read_all(trial, who, from..to, salt)),
        Ask::Pairs(who, count) => done(pairs(alloc, trial, who, count)),
        Ask::Marks(who, count) => declared(marks(alloc, trial, who, count)),
        Ask::WriteAll(who) => number(write_all(trial, who)),
        Ask::Commit(who) => declared(trial.commit(alloc, who, None)),
        Ask::Set(who, number, byte) => declared(set(alloc, trial, who, number, byte)),
        Ask::Mark(who, label) => declared(trial.commit(alloc, who, Some(label))),
        Ask::Rollback(who, why) => done(trial.rollback(who, why)),
        Ask::Look(who, snapshot) => number(trial.look(alloc, who, snapshot)),
        Ask::LookAll(who) => snapshots(trial.look_all(alloc, who)),
        Ask::Unlook(who, why) => done(trial.unlook(who, why)),
        Ask::DropBelow(who, below) => done(trial.drop_below(alloc, who, below)),
        Ask::Peek(who, number, snapshot) => told(trial.peek(who.session, number, snapshot)),
        Ask::Batch => filled(trial, batch),
        Ask::Capture(place) => capture(batch, place),
        Ask::Ack(count) => done(trial.ack(count)),
        Ask::WriteBack(who) => is(trial.write_back(who)),
        Ask::Settle(who) => done(trial.settle(who)),
        Ask::CutLog(who) => is(trial.cut_log(alloc, who)),
        Ask::Note(who, device, count, wrote) => done(trial.note(who, device, count, wrote)),
        Ask::Owed => Answer::Pair(trial.owed().0, trial.owed().1),
        Ask::Horizon => pair(trial.horizon()),
        Ask::Free => Answer::Number(trial.free()),
        Ask::Sizes => pair(trial.sizes()),
        Ask::Stopped => Answer::Is(trial.stopped()),
    }
}

/// The first row that is answered otherwise, with that answer.
pub fn first_wrong<D: Disk + Drop>(
    alloc: Global,
    trial: &mut Trial<D>,
    rows: &[Row],
) -> Result<Option<(usize, Answer)>, Refusal> {
    let mut batch = Batch::new(alloc)?;
    for (place, (ask, want)) in rows.iter().enumerate() {
        let answer = asked(alloc, trial, &mut batch, *ask);
        if answer != *want {
            return Ok(Some((place, answer)));
        }
    }
    Ok(None)
}
