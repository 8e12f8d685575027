//! Rows at the end of a table, page by page, drafted.

ghost use Rattle.std.specs.Prelude.{◌≡◌, ◌≢◌, ◌≤◌, ◌<◌, ◌+◌, ◌-◌, ◌^◌, ◌++◌, All, IfErr, IfOk, OnOk, length};
ghost use Rattle.retro_base.specs.declared.refusal.Refusal.TheVariants.{OutOfMemory};
ghost use Rattle.pager.specs.Draft.{drafted, Drafts};
ghost use Rattle.pager.specs.Pages.{Pages};
ghost use Rattle.pager.specs.Stop.{IsOfReading, OnlyDrafts};
ghost use Rattle.heap_file.specs.Chain.{IsAt, IsWritable, last_page};
ghost use Rattle.heap_file.specs.Filling.{IsFilled, TellsFront, front_placed, placed_from, some_placed};
ghost use Rattle.heap_file.specs.HeapPage.{IsHeapPage, IsNarrow, IsShort};
ghost use Rattle.heap_file.specs.Work.{all_placed};

use crate::appending::last_page;
use crate::chain::{Link, load, store};
use crate::drafting::add;
use crate::page::{ENTRY_BYTES, Entry, HeapPage, entries_length, entry_length};
use pager::{Draft, Pager, Stop, broken};
use retro_base::Refusal;
use std::alloc::{AllocError, Global};
use values::{Duplicate, Row};

/// Rows that went to one page: the page, the number of the first, and how many they are.
#[derive(Drop)]
pub struct Filled {
    pub page: u32,
    pub number: u64,
    pub count: usize,
}

/// Drafts rows in order, under the next row numbers, and answers the number and the page of each. How often a page is
/// read and written does not grow with the rows that it has room for.
pub fn add_all<P: Pager>(
    alloc: Global,
    pager: &mut P,
    draft: &mut Draft,
    first: u32,
    rows: &[Row],
) -> Result<Vec<(u64, u32)>, Stop<P::Fault>>
    requires size { draft.old.size ≡ P.size pager.old }
    requires rows { All IsShort rows.now }
    ensures placed { Drafts (λ placed. placed.items) (P.tells pager.new) draft.old.list draft.new.list
        (all_placed draft.old.size first rows.now) result }
    ensures only_drafts { OnlyDrafts P.tells P.goes P.size P.faults pager.old pager.new result }
    ensures size { draft.new.size ≡ draft.old.size }
{
    let mut placed = Vec::with_capacity(alloc, rows.len())?;
    'pages: for _ in 0..rows.len() {
        let done = placed.len();
        if done == rows.len() {
            return Ok(placed);
        }
        add_some(alloc, pager, draft, first, &rows[done..], &mut placed)?;
    }
    Ok(placed)
}

// Drafts as many of these rows as the last page has room for, and one more where there is one.
fn add_some<P: Pager>(
    alloc: Global,
    pager: &mut P,
    draft: &mut Draft,
    first: u32,
    rows: &[Row],
    placed: &mut Vec<(u64, u32)>,
) -> Result<(), Stop<P::Fault>>
    requires size { draft.old.size ≡ P.size pager.old }
    requires rows { All IsShort rows.now }
    requires some { 1 ≤ length rows.now }
    ensures placed { Drafts (λ u. placed.new.items) (P.tells pager.new) draft.old.list draft.new.list
        (some_placed draft.old.size first rows.now placed.old.items) result }
    ensures some { OnOk result (length placed.old.items < length placed.new.items) }
    ensures few { OnOk result (length placed.new.items ≤ length placed.old.items + length rows.now) }
    ensures only_drafts { OnlyDrafts P.tells P.goes P.size P.faults pager.old pager.new result }
    ensures size { draft.new.size ≡ draft.old.size }
{
    let filled = fill(alloc, pager, draft, first, rows)?;
    push_filled(&filled, placed)?;
    if filled.count < rows.len() {
        placed.push(add(alloc, pager, draft, first, &rows[filled.count])?)?;
    }
    Ok(())
}

// Tells rows that went to one page.
fn push_filled(filled: &Filled, placed: &mut Vec<(u64, u32)>) -> Result<(), AllocError>
    requires { filled.now.number + filled.now.count < 2 ^ 64 }
    ensures { OnOk result (placed.new.items
        ≡ placed.old.items ++ placed_from filled.now.number filled.now.page filled.now.count) }
{
    for place in 0..filled.count {
        placed.push((filled.number + place as u64, filled.page))?;
    }
    Ok(())
}

// Drafts as many of these rows as the last page has room for.
fn fill<P: Pager>(
    alloc: Global,
    pager: &mut P,
    draft: &mut Draft,
    first: u32,
    rows: &[Row],
) -> Result<Filled, Stop<P::Fault>>
    requires size { draft.old.size ≡ P.size pager.old }
    requires rows { All IsShort rows.now }
    requires some { 1 ≤ length rows.now }
    ensures placed { Drafts (λ filled. filled) (P.tells pager.new) draft.old.list draft.new.list
        (front_placed draft.old.size first rows.now) result }
    ensures few { IfOk result (λ filled. filled.count ≤ length rows.now) }
    ensures numbers { IfOk result (λ filled. filled.number + filled.count < 2 ^ 64) }
    ensures only_drafts { OnlyDrafts P.tells P.goes P.size P.faults pager.old pager.new result }
    ensures size { draft.new.size ≡ draft.old.size }
{
    let held = load(alloc, pager, draft, first)?;
    if held.next_number == u64::MAX {
        return Err(Stop::Refused(broken(first)));
    }
    let last = last_page(first, &held);
    let head = Link { page: first, held };
    if last == first {
        return Ok(fill_first(alloc, draft, head, rows)?);
    }
    let held = load(alloc, pager, draft, last)?;
    let tail = Link { page: last, held };
    Ok(fill_last(alloc, draft, head, tail, rows)?)
}

// The same of a first page that is the last of its chain.
fn fill_first(alloc: Global, draft: &mut Draft, head: Link, rows: &[Row]) -> Result<Filled, Refusal>
    requires head { IsWritable draft.old.size head }
    requires narrow { IsNarrow head.held }
    requires number { head.held.next_number < 2 ^ 64 - 1 }
    requires last { last_page head.page head.held ≡ head.page }
    requires rows { All IsShort rows.now }
    requires some { 1 ≤ length rows.now }
    ensures placed { (pages : Pages) → IsAt draft.old.size (drafted pages draft.old.list) head.page head.held
        → TellsFront draft.old.size head.page rows.now (drafted pages draft.old.list) (drafted pages draft.new.list)
        result }
    ensures few { IfOk result (λ filled. filled.count ≤ length rows.now) }
    ensures numbers { IfOk result (λ filled. filled.number + filled.count < 2 ^ 64) }
    ensures named { IfErr result IsOfReading }
    ensures size { draft.new.size ≡ draft.old.size }
{
    let page = head.page;
    let number = head.held.next_number;
    if head.held.next != 0 {
        return Err(broken(page));
    }
    let (held, count) = page_filled(alloc, head.held, number, rows)?;
    if count > 0 {
        let next_number = number + count as u64;
        store(
            alloc,
            draft,
            page,
            &HeapPage {
                next_number,
                ..held
            },
        )?;
    }
    Ok(Filled {
        page,
        number,
        count,
    })
}

// The same of a last page behind the first.
fn fill_last(
    alloc: Global,
    draft: &mut Draft,
    head: Link,
    tail: Link,
    rows: &[Row],
) -> Result<Filled, Refusal>
    requires head { IsWritable draft.old.size head }
    requires tail { IsWritable draft.old.size tail }
    requires narrow { IsNarrow head.held }
    requires also { IsNarrow tail.held }
    requires number { head.held.next_number < 2 ^ 64 - 1 }
    requires last { last_page head.page head.held ≡ tail.page }
    requires apart { head.page ≢ tail.page }
    requires rows { All IsShort rows.now }
    requires some { 1 ≤ length rows.now }
    ensures placed { (pages : Pages) → IsAt draft.old.size (drafted pages draft.old.list) head.page head.held
        → IsAt draft.old.size (drafted pages draft.old.list) tail.page tail.held
        → TellsFront draft.old.size head.page rows.now (drafted pages draft.old.list) (drafted pages draft.new.list)
        result }
    ensures few { IfOk result (λ filled. filled.count ≤ length rows.now) }
    ensures numbers { IfOk result (λ filled. filled.number + filled.count < 2 ^ 64) }
    ensures named { IfErr result IsOfReading }
    ensures size { draft.new.size ≡ draft.old.size }
{
    let page = tail.page;
    let number = head.held.next_number;
    if tail.held.next != 0 {
        return Err(broken(page));
    }
    let (held, count) = page_filled(alloc, tail.held, number, rows)?;
    if count > 0 {
        let next_number = number + count as u64;
        store(alloc, draft, page, &held)?;
        store(
            alloc,
            draft,
            head.page,
            &HeapPage {
                next_number,
                ..head.held
            },
        )?;
    }
    Ok(Filled {
        page,
        number,
        count,
    })
}

// A page with as many of these rows behind its entries as it has room for, under the numbers from that one on, and how
// many they are. The number 2^64 - 1 is given to none.
fn page_filled(
    alloc: Global,
    held: HeapPage,
    number: u64,
    rows: &[Row],
) -> Result<(HeapPage, usize), Refusal>
    requires held { IsHeapPage held }
    requires rows { All IsShort rows.now }
    ensures filled { IfOk result (IsFilled held number rows.now) }
    ensures memory { IfErr result (λ why. why ≡ OutOfMemory) }
{
    let mut held = held;
    let mut length = entries_length(held.entries.as_slice());
    for (count, row) in rows.iter().enumerate() {
        let number = number + count as u64;
        let row = row.copy(alloc)?;
        let entry = Entry { number, row };
        length += entry_length(&entry);
        if number == u64::MAX || length > ENTRY_BYTES {
            return Ok((held, count));
        }
        held.entries.push(entry)?;
    }
    Ok((held, rows.len()))
}
