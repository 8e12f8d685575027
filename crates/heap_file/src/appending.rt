//! A row at the end of a table, drafted.

ghost use Rattle.std.specs.Prelude.{◌≡◌, ◌≢◌, ◌<◌, ◌^◌, ◌==◌, not, IfOk};
ghost use Rattle.pager.specs.Draft.{drafted, Drafts};
ghost use Rattle.pager.specs.Stop.{OnlyDrafts};
ghost use Rattle.heap_file.specs.Chain.{IsWritable, last_page, linked};
ghost use Rattle.heap_file.specs.HeapPage.{IsEntry, IsHeapPage, IsShort};
ghost use Rattle.heap_file.specs.Work.{appended, leaving_head, lengthened, page_with};

use crate::chain::{Link, load, store};
use crate::page::{Entry, HeapPage, has_room};
use pager::{Draft, Pager, Stop, broken, free, take};
use retro_base::Refusal;
use std::alloc::{AllocFailed, Global};
use values::{Duplicate, Row, Seq};

/// The last page of the chain that begins with a page, as that page names it.
pub(crate) fn last_page(first: u32, head: &HeapPage) -> u32
    ensures { result ≡ last_page first head.now }
{
    if head.last == 0 { first } else { head.last }
}

// A page with one entry, the last of its chain.
fn page_with(alloc: Global, entry: Entry) -> Result<HeapPage, AllocFailed<Entry>>
    requires { IsEntry entry }
    ensures { IfOk result (λ page. (page ≡ page_with entry) × IsHeapPage page) }
{
    let mut entries = Seq::new(alloc);
    entries.push(entry)?;
    Ok(HeapPage {
        next: 0,
        next_number: 0,
        last: 0,
        entries,
    })
}

// Drafts a new last page for an entry, behind a last page that is not the first; the first page names it. Answers the
// new page, and what the first page then holds.
fn lengthen<P: Pager>(
    alloc: Global,
    pager: &mut P,
    draft: &mut Draft,
    head: Link,
    tail: Link,
    entry: Entry,
) -> Result<(u32, HeapPage), Stop<P::Fault>>
    requires size { draft.old.size ≡ P.size pager.old }
    requires head { IsWritable draft.old.size head }
    requires tail { IsWritable draft.old.size tail }
    requires apart { head.page ≢ tail.page }
    requires entry { IsEntry entry }
    ensures lengthened { Drafts (λ placed. placed) (P.tells pager.new) draft.old.list draft.new.list
        (λ pages. leaving_head draft.old.size pages head
        (lengthened draft.old.size pages head.page tail.page tail.held entry)) result }
    ensures lawful { IfOk result (λ placed. IsHeapPage placed.1) }
    ensures only_reads { OnlyDrafts P.tells P.goes P.size P.faults pager.old pager.new result }
    ensures size { draft.new.size ≡ draft.old.size }
{
    let first = head.page;
    let next = take(pager, draft)?;
    let page = page_with(alloc, entry)?;
    store(alloc, draft, next, &page)?;
    let linked = HeapPage { next, ..tail.held };
    store(alloc, draft, tail.page, &linked)?;
    let held = if next == first { page } else { head.held };
    let named = HeapPage { last: next, ..held };
    store(alloc, draft, first, &named)?;
    Ok((next, named))
}

// The same behind a first page that is the last.
fn lengthen_first<P: Pager>(
    alloc: Global,
    pager: &mut P,
    draft: &mut Draft,
    head: Link,
    entry: Entry,
) -> Result<(u32, HeapPage), Stop<P::Fault>>
    requires size { draft.old.size ≡ P.size pager.old }
    requires head { IsWritable draft.old.size head }
    requires entry { IsEntry entry }
    ensures lengthened { Drafts (λ placed. placed) (P.tells pager.new) draft.old.list draft.new.list
        (λ pages. leaving_head draft.old.size pages head
        (lengthened draft.old.size pages head.page head.page head.held entry)) result }
    ensures lawful { IfOk result (λ placed. IsHeapPage placed.1) }
    ensures only_reads { OnlyDrafts P.tells P.goes P.size P.faults pager.old pager.new result }
    ensures size { draft.new.size ≡ draft.old.size }
{
    let first = head.page;
    let next = take(pager, draft)?;
    let page = page_with(alloc, entry)?;
    store(alloc, draft, next, &page)?;
    let linked = HeapPage { next, ..head.held };
    store(alloc, draft, first, &linked)?;
    let named = HeapPage {
        last: next,
        ..linked
    };
    store(alloc, draft, first, &named)?;
    Ok((next, named))
}

// Drafts an entry at the end of a first page that is the last of its chain, or behind it.
fn append_first<P: Pager>(
    alloc: Global,
    pager: &mut P,
    draft: &mut Draft,
    head: Link,
    entry: Entry,
) -> Result<(u32, HeapPage), Stop<P::Fault>>
    requires size { draft.old.size ≡ P.size pager.old }
    requires head { IsWritable draft.old.size head }
    requires only { last_page head.page head.held ≡ head.page }
    requires number { entry.number < 2 ^ 64 }
    requires entry { IsShort entry.row }
    ensures appended { Drafts (λ placed. placed) (P.tells pager.new) draft.old.list draft.new.list
        (λ pages. leaving_head draft.old.size pages head (appended draft.old.size pages head.page entry)) result }
    ensures lawful { IfOk result (λ placed. IsHeapPage placed.1) }
    ensures only_reads { OnlyDrafts P.tells P.goes P.size P.faults pager.old pager.new result }
    ensures size { draft.new.size ≡ draft.old.size }
{
    let first = head.page;
    if head.held.next != 0 {
        return Err(Stop::Refused(broken(first)));
    }
    if !has_room(head.held.entries.as_slice(), &entry) {
        return lengthen_first(alloc, pager, draft, head, entry);
    }
    let mut held = head.held;
    held.entries.push(entry)?;
    store(alloc, draft, first, &held)?;
    Ok((first, held))
}

/// Drafts an entry at the end of the chain whose first page is read already. Answers the entry's page, and what the
/// first page then holds.
pub fn append_with_head<P: Pager>(
    alloc: Global,
    pager: &mut P,
    draft: &mut Draft,
    head: Link,
    entry: Entry,
) -> Result<(u32, HeapPage), Stop<P::Fault>>
    requires size { draft.old.size ≡ P.size pager.old }
    requires head { IsWritable draft.old.size head }
    requires number { entry.number < 2 ^ 64 }
    requires entry { IsShort entry.row }
    ensures appended { Drafts (λ placed. placed) (P.tells pager.new) draft.old.list draft.new.list
        (λ pages. leaving_head draft.old.size pages head (appended draft.old.size pages head.page entry)) result }
    ensures lawful { IfOk result (λ placed. IsHeapPage placed.1) }
    ensures only_reads { OnlyDrafts P.tells P.goes P.size P.faults pager.old pager.new result }
    ensures size { draft.new.size ≡ draft.old.size }
{
    let first = head.page;
    let last = last_page(first, &head.held);
    if last == first {
        return append_first(alloc, pager, draft, head, entry);
    }
    let mut tail = load(alloc, pager, draft, last)?;
    if tail.next != 0 {
        return Err(Stop::Refused(broken(last)));
    }
    if !has_room(tail.entries.as_slice(), &entry) {
        let tail = Link {
            page: last,
            held: tail,
        };
        return lengthen(alloc, pager, draft, head, tail, entry);
    }
    tail.entries.push(entry)?;
    store(alloc, draft, last, &tail)?;
    Ok((last, head.held))
}

/// Drafts an entry at the end of the chain, and answers its page.
pub fn append<P: Pager>(
    alloc: Global,
    pager: &mut P,
    draft: &mut Draft,
    first: u32,
    entry: Entry,
) -> Result<u32, Stop<P::Fault>>
    requires size { draft.old.size ≡ P.size pager.old }
    requires number { entry.number < 2 ^ 64 }
    requires entry { IsShort entry.row }
    ensures appended { Drafts (λ page. page) (P.tells pager.new) draft.old.list draft.new.list
        (λ pages. appended draft.old.size pages first entry) result }
    ensures only_reads { OnlyDrafts P.tells P.goes P.size P.faults pager.old pager.new result }
    ensures size { draft.new.size ≡ draft.old.size }
{
    let held = load(alloc, pager, draft, first)?;
    let head = Link { page: first, held };
    let (page, _) = append_with_head(alloc, pager, draft, head, entry)?;
    Ok(page)
}
