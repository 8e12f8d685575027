//! Entries that are added and taken out.

ghost use Rattle.std.specs.Prelude.{◌≡◌, ◌≤◌, IfOk, length};
ghost use Rattle.values.specs.Value.{kind_of};

use pager::{EditPager, Found, Index, MemPager, Pager, Stop};
use retro_base::{Failed, Page, Refusal};
use std::alloc::{AllocError, Global};
use values::{Kind, Seq, Text, Value};

const KEYS: u32 = 1000;

const PAGES: usize = 600;

/// How many entries stand at their places, of all and of those that are left.
#[derive(Debug, Drop)]
pub struct Kept {
    all: usize,
    left: usize,
}

/// A store of zero pages, whose listed calls fail.
pub fn store_of(alloc: Global, failing: &[u64]) -> Result<MemPager, AllocError>
    ensures { IfOk result (λ pager. length pager.pages ≡ PAGES) }
{
    let pages = vec![in alloc; Page::zero(); PAGES]?;
    Ok(MemPager::new(alloc, pages, failing.to_vec(alloc)?))
}

// The entry of row `number` with `step` times its number as its value.
fn entry(step: u32, number: u32) -> Found {
    Found {
        value: Value::Int(i64::from(step.wrapping_mul(number) % KEYS)),
        number: u64::from(number),
        page: 7,
    }
}

// Adds the entries of so many rows.
fn add_each<I: Index, P: EditPager>(
    alloc: Global,
    index: &I,
    pager: &mut P,
    step: u32,
    count: u32,
) -> Result<(), Stop<P::Fault>> {
    for number in 0..count {
        index.add(alloc, pager, &entry(step, number))?;
    }
    Ok(())
}

// Takes out the entries of odd row numbers.
fn remove_odd<I: Index, P: EditPager>(
    alloc: Global,
    index: &I,
    pager: &mut P,
    step: u32,
) -> Result<(), Stop<P::Fault>> {
    for half in 0..KEYS / 2 {
        index.remove(alloc, pager, &entry(step, 2 * half + 1))?;
    }
    Ok(())
}

// The row numbers of the entries between two values.
fn numbers<I: Index, P: Pager>(
    alloc: Global,
    index: &I,
    pager: &mut P,
    low: i64,
    high: i64,
) -> Result<Vec<u64>, Stop<P::Fault>> {
    let mut numbers = Vec::new(alloc);
    for found in &index.range(alloc, pager, &Value::Int(low), &Value::Int(high))? {
        numbers.push(found.number)?;
    }
    Ok(numbers)
}

/// The row numbers of the values 0 to 9 of a thousand entries, and after those of odd row numbers are taken out.
pub fn numbers_of<I: Index>(alloc: Global) -> Result<(Vec<u64>, Vec<u64>), Stop<Failed>> {
    let mut pager = store_of(alloc, &[])?;
    let index = I::make(alloc, &mut pager)?;
    add_each(alloc, &index, &mut pager, 7, KEYS)?;
    let all = numbers(alloc, &index, &mut pager, 0, 9)?;
    remove_odd(alloc, &index, &mut pager, 7)?;
    let left = numbers(alloc, &index, &mut pager, 0, 9)?;
    Ok((all, left))
}

// How many entries stand at their places: the values rise by `by`, and a value's row number is so many times the value.
fn in_place<I: Index, P: Pager>(
    alloc: Global,
    index: &I,
    pager: &mut P,
    inverse: u64,
    by: u64,
) -> Result<usize, Stop<P::Fault>> {
    let mut next: u64 = 0;
    let mut count: usize = 0;
    for number in &numbers(alloc, index, pager, -1, 2000)? {
        if *number == inverse.wrapping_mul(next) % u64::from(KEYS) {
            count = count.saturating_add(1);
        }
        next = next.saturating_add(by);
    }
    Ok(count)
}

/// How many entries stand at their places after a thousand are added, and after those of odd values are taken out.
pub fn kept_of<I: Index>(alloc: Global, step: u32) -> Result<Kept, Stop<Failed>> {
    let inverse = match step {
        7 => 143,
        _ => u64::from(step),
    };
    let mut pager = store_of(alloc, &[])?;
    let index = I::make(alloc, &mut pager)?;
    add_each(alloc, &index, &mut pager, step, KEYS)?;
    let all = in_place(alloc, &index, &mut pager, inverse, 1)?;
    remove_odd(alloc, &index, &mut pager, step)?;
    let left = in_place(alloc, &index, &mut pager, inverse, 2)?;
    Ok(Kept { all, left })
}

// A text of so many letters.
fn text_of(alloc: Global, letters: usize) -> Result<Value, AllocError>
    requires { letters ≤ 200 }
    ensures { IfOk result (λ value. kind_of value ≡ Kind.Text) }
{
    let bytes = vec![in alloc; b'x'; letters]?;
    Ok(Value::Text(Text::new(Seq::from(bytes))))
}

// The entry of a row whose value is one of the three longest texts of a letter.
fn text_entry(alloc: Global, number: u8) -> Result<Found, AllocError> {
    Ok(Found {
        value: text_of(alloc, 198 + usize::from(number % 3))?,
        number: u64::from(number),
        page: 7,
    })
}

// How many entries have one of those texts.
fn count_texts<I: Index, P: Pager>(
    alloc: Global,
    index: &I,
    pager: &mut P,
) -> Result<usize, Stop<P::Fault>> {
    let low = text_of(alloc, 198)?;
    let high = text_of(alloc, 200)?;
    Ok(index.range(alloc, pager, &low, &high)?.len())
}

// Adds the entries of odd row numbers again, and takes those of even ones out.
fn change_texts<I: Index, P: EditPager>(
    alloc: Global,
    index: &I,
    pager: &mut P,
) -> Result<(), Stop<P::Fault>> {
    for half in 0..120 {
        index.add(alloc, pager, &text_entry(alloc, 2 * half + 1)?)?;
        index.remove(alloc, pager, &text_entry(alloc, 2 * half)?)?;
    }
    Ok(())
}

/// How many entries there are of 240 with one of three longest texts, and how many after half were added again and the
/// other half taken out.
pub fn texts_kept<I: Index>(alloc: Global) -> Result<Kept, Stop<Failed>> {
    let mut pager = store_of(alloc, &[])?;
    let index = I::make(alloc, &mut pager)?;
    for number in 0..240 {
        index.add(alloc, &mut pager, &text_entry(alloc, number)?)?;
    }
    let all = count_texts(alloc, &index, &mut pager)?;
    change_texts(alloc, &index, &mut pager)?;
    let left = count_texts(alloc, &index, &mut pager)?;
    Ok(Kept { all, left })
}

// Makes an index, adds so many entries that a page is opened, and takes one out again.
fn work<I: Index, P: EditPager>(alloc: Global, pager: &mut P) -> Result<(), Stop<P::Fault>> {
    let index = I::make(alloc, pager)?;
    add_each(alloc, &index, pager, 1, 43)?;
    index.remove(alloc, pager, &entry(1, 42))
}

/// How many calls of the pager that work takes: each that fails in turn ends it by a fault.
pub fn failing_calls<I: Index>(alloc: Global) -> Result<u64, Stop<Failed>> {
    for call in 1..1000 {
        let mut pager = store_of(alloc, &[call])?;
        match work::<I, MemPager>(alloc, &mut pager) {
            Err(Stop::Pager(_)) => {}
            Err(Stop::Refused(why)) => return Err(Stop::Refused(why)),
            Ok(()) => return Ok(call - 1),
        }
    }
    Err(Stop::Refused(Refusal::OutOfMemory))
}

// How many pages one look-up reads: as many as there are calls that end it by a fault.
fn reads_once<I: Index>(
    alloc: Global,
    index: &I,
    pages: &[Page],
    value: i64,
) -> Result<u64, Stop<Failed>> {
    for call in 1..1000 {
        if pages.len() > PAGES {
            break;
        }
        let mut pager = MemPager::new(alloc, pages.to_vec(alloc)?, vec![in alloc; call; 1]?);
        if index
            .range(alloc, &mut pager, &Value::Int(value), &Value::Int(value))
            .is_ok()
        {
            return Ok(call - 1);
        }
    }
    Err(Stop::Refused(Refusal::OutOfMemory))
}

/// How many pages a look-up of the first, a middle and the last of so many values reads.
pub fn reads_of<I: Index>(alloc: Global, rows: u32) -> Result<Vec<u64>, Stop<Failed>> {
    let mut pager = store_of(alloc, &[])?;
    let index = I::make(alloc, &mut pager)?;
    for number in 0..rows {
        let row = Found {
            value: Value::Int(i64::from(number)),
            number: u64::from(number),
            page: 7,
        };
        index.add(alloc, &mut pager, &row)?;
    }
    let mut reads = Vec::new(alloc);
    for value in [0, i64::from(rows / 2), i64::from(rows) - 1] {
        reads.push(reads_once(alloc, &index, pager.pages(), value)?)?;
    }
    Ok(reads)
}
