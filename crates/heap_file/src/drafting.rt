//! The calls on a draft: no page is edited before the draft is written.

ghost use Rattle.std.specs.Prelude.{◌≡◌, ◌≤◌, ◌<◌, ◌==◌, ◌++◌, ◌∷◌, [], not, IsTrue, IfOk, IfSome, length};
ghost use Rattle.pager.specs.Draft.{Drafts, Reads};
ghost use Rattle.pager.specs.Stop.{OnlyDrafts, OnlyReads};
ghost use Rattle.heap_file.specs.Chain.{HoldsStill, IsWritable, linked};
ghost use Rattle.heap_file.specs.HeapPage.{IsEntry, IsHeapPage, IsShort, have_room};
ghost use Rattle.std.specs.List.{insert};
ghost use Rattle.heap_file.specs.Work.{added, changed, got, made, next_of, on_link, without, place_of};

use crate::appending::{append, append_with_head};
use crate::chain::{Link, load, store};
pub use crate::filling::add_all;
use crate::page::{Entry, HeapPage, has_room};
pub use crate::removing::{Cursor, remove, remove_at};
pub use crate::scanning::{scan, scan_by, scan_with_next};
use pager::{Draft, Pager, Stop, broken, take};
use retro_base::Refusal;
use std::alloc::{AllocFailed, Global};
use values::{Duplicate, Row, Seq};

/// Drafts a table without rows: takes its first page.
pub fn make<P: Pager>(
    alloc: Global,
    pager: &mut P,
    draft: &mut Draft,
) -> Result<u32, Stop<P::Fault>>
    requires { draft.old.size ≡ P.size pager.old }
    ensures made { Drafts (λ page. page) (P.tells pager.new) draft.old.list draft.new.list (made draft.old.size)
        result }
    ensures only_reads { OnlyDrafts P.tells P.goes P.size P.faults pager.old pager.new result }
    ensures size { draft.new.size ≡ draft.old.size }
{
    let page = take(pager, draft)?;
    let empty = HeapPage {
        next: 0,
        next_number: 0,
        last: 0,
        entries: Seq::new(alloc),
    };
    store(alloc, draft, page, &empty)?;
    Ok(page)
}

/// Drafts a row under the next row number, and answers its number and page.
pub fn add<P: Pager>(
    alloc: Global,
    pager: &mut P,
    draft: &mut Draft,
    first: u32,
    row: &Row,
) -> Result<(u64, u32), Stop<P::Fault>>
    requires size { draft.old.size ≡ P.size pager.old }
    requires row { IsShort row.now }
    ensures added { Drafts (λ placed. placed) (P.tells pager.new) draft.old.list draft.new.list
        (λ pages. added draft.old.size pages first row.now) result }
    ensures only_reads { OnlyDrafts P.tells P.goes P.size P.faults pager.old pager.new result }
    ensures size { draft.new.size ≡ draft.old.size }
{
    let held = load(alloc, pager, draft, first)?;
    let number = held.next_number;
    if number == u64::MAX {
        return Err(Stop::Refused(broken(first)));
    }
    let row = row.copy(alloc)?;
    let head = Link { page: first, held };
    let (page, held) = append_with_head(alloc, pager, draft, head, Entry { number, row })?;
    let counted = HeapPage {
        next_number: number + 1,
        ..held
    };
    store(alloc, draft, first, &counted)?;
    Ok((number, page))
}

/// The next row number of the table that begins with that page.
pub fn next_number<P: Pager>(
    alloc: Global,
    pager: &mut P,
    draft: &Draft,
    first: u32,
) -> Result<u64, Stop<P::Fault>>
    requires { draft.now.size ≡ P.size pager.old }
    ensures next { Reads (λ number. number) (P.tells pager.new) draft.now.list
        (λ pages. next_of draft.now.size pages first) result }
    ensures only_reads { OnlyReads P.tells P.goes P.size P.faults pager.old pager.new result }
{
    Ok(load(alloc, pager, draft, first)?.next_number)
}

/// The row of that number on that page, if there is one.
pub fn get<P: Pager>(
    alloc: Global,
    pager: &mut P,
    draft: &Draft,
    page: u32,
    number: u64,
) -> Result<Option<Row>, Stop<P::Fault>>
    requires { draft.now.size ≡ P.size pager.old }
    ensures got { Reads (λ row. row) (P.tells pager.new) draft.now.list (λ pages. got draft.now.size pages page number)
        result }
    ensures only_reads { OnlyReads P.tells P.goes P.size P.faults pager.old pager.new result }
{
    let held = load(alloc, pager, draft, page)?;
    match place_of(held.entries.as_slice(), number) {
        Some(place) => Ok(Some(held.entries.as_slice()[place].row.copy(alloc)?)),
        None => Ok(None),
    }
}

/// The place of the entry of that number.
pub(crate) fn place_of(entries: &[Entry], number: u64) -> Option<usize>
    ensures { result ≡ place_of number entries.now }
{
    entries.iter().position(|entry| entry.number == number)
}

/// A page without the entry at that place.
pub(crate) fn without(held: HeapPage, place: usize) -> HeapPage
    requires place { place < length held.entries }
    requires held { IsHeapPage held }
    ensures without { result ≡ without held place }
    ensures lawful { IsHeapPage result }
{
    let HeapPage {
        next,
        next_number,
        last,
        entries,
    } = held;
    let mut entries = Vec::from(entries);
    entries.remove(place);
    HeapPage {
        next,
        next_number,
        last,
        entries: Seq::from(entries),
    }
}

/// Drafts that a row changes, under its number, and answers the page where it then stands.
pub fn change<P: Pager>(
    alloc: Global,
    pager: &mut P,
    draft: &mut Draft,
    first: u32,
    page: u32,
    number: u64,
    row: &Row,
) -> Result<u32, Stop<P::Fault>>
    requires size { draft.old.size ≡ P.size pager.old }
    requires row { IsShort row.now }
    ensures changed { Drafts (λ page. page) (P.tells pager.new) draft.old.list draft.new.list
        (λ pages. changed draft.old.size pages first page (record { number = number; row = row.now })) result }
    ensures only_reads { OnlyDrafts P.tells P.goes P.size P.faults pager.old pager.new result }
    ensures size { draft.new.size ≡ draft.old.size }
{
    let held = load(alloc, pager, draft, page)?;
    let link = Link { page, held };
    let (to, _) = change_on(alloc, pager, draft, first, link, number, row)?;
    Ok(to)
}

/// What the page of that number holds: it is read where it is not the one that is known already.
pub fn page_at<P: Pager>(
    alloc: Global,
    pager: &mut P,
    draft: &Draft,
    known: Option<Link>,
    page: u32,
) -> Result<Link, Stop<P::Fault>>
    requires size { draft.now.size ≡ P.size pager.old }
    requires known { IfSome known (IsWritable draft.now.size) }
    ensures read { Reads (λ link. link) (P.tells pager.new) draft.now.list
        (λ pages answer. HoldsStill draft.now.size pages known → linked draft.now.size pages page answer) result }
    ensures writable { IfOk result (IsWritable draft.now.size) }
    ensures only_reads { OnlyReads P.tells P.goes P.size P.faults pager.old pager.new result }
{
    if let Some(link) = known {
        if link.page == page {
            return Ok(link);
        }
    }
    let held = load(alloc, pager, draft, page)?;
    Ok(Link { page, held })
}

/// Drafts that a row of a page that is read already changes, under its number. Answers the page where it then stands,
/// and what the page read then holds, where the row stays there.
pub fn change_on<P: Pager>(
    alloc: Global,
    pager: &mut P,
    draft: &mut Draft,
    first: u32,
    link: Link,
    number: u64,
    row: &Row,
) -> Result<(u32, Option<Link>), Stop<P::Fault>>
    requires size { draft.old.size ≡ P.size pager.old }
    requires link { IsWritable draft.old.size link }
    requires row { IsShort row.now }
    ensures changed { Drafts (λ placed. placed) (P.tells pager.new) draft.old.list draft.new.list
        (λ pages. on_link draft.old.size pages link
        (changed draft.old.size pages first link.page (record { number = number; row = row.now }))) result }
    ensures writable { IfOk result (λ placed. IfSome placed.1 (IsWritable draft.old.size)) }
    ensures only_reads { OnlyDrafts P.tells P.goes P.size P.faults pager.old pager.new result }
    ensures size { draft.new.size ≡ draft.old.size }
{
    let page = link.page;
    let Some(place) = place_of(link.held.entries.as_slice(), number) else {
        return Err(Stop::Refused(broken(page)));
    };
    let rest = without(link.held, place);
    let row = row.copy(alloc)?;
    let entry = Entry { number, row };
    if !has_room(rest.entries.as_slice(), &entry) {
        store(alloc, draft, page, &rest)?;
        let to = append(alloc, pager, draft, first, entry)?;
        return Ok((to, None));
    }
    let held = with_entry(rest, place, entry)?;
    store(alloc, draft, page, &held)?;
    Ok((page, Some(Link { page, held })))
}

// A page with one more entry, at that place.
fn with_entry(held: HeapPage, place: usize, entry: Entry) -> Result<HeapPage, AllocFailed<Entry>>
    requires place { place ≤ length held.entries }
    requires held { IsHeapPage held }
    requires entry { IsEntry entry }
    requires room { IsTrue (have_room (held.entries ++ entry ∷ [])) }
    ensures { IfOk result
        (λ page. (page ≡ record held { entries = insert held.entries place entry }) × IsHeapPage page) }
{
    let HeapPage {
        next,
        next_number,
        last,
        entries,
    } = held;
    let mut entries = Vec::from(entries);
    entries.insert(place, entry)?;
    Ok(HeapPage {
        next,
        next_number,
        last,
        entries: Seq::from(entries),
    })
}
