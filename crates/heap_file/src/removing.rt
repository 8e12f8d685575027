//! Rows that are taken out of a table, drafted.

ghost use Rattle.std.specs.Prelude.{◌≡◌, ◌≢◌, ◌==◌, ◌&&◌, ℕ, not, IfOk, IfSome, OnOk, length, position};
ghost use Rattle.pager.specs.Draft.{drafted, Drafts, Reads};
ghost use Rattle.pager.specs.Pages.{Pages};
ghost use Rattle.pager.specs.Stop.{OnlyDrafts, OnlyReads};
ghost use Rattle.heap_file.specs.declared.page.HeapPage as heap;
ghost use Rattle.heap_file.specs.Chain.{IsAt, IsWritable};
ghost use Rattle.heap_file.specs.Route.{IsCursor, IsPassed, IsRoute, NextStays, PassesOver};
ghost use Rattle.heap_file.specs.Route.{left, routed, with_cursor, with_route};
ghost use Rattle.heap_file.specs.Work.{last_field, removed, renamed, unlinked};

use crate::chain::{Link, load, store};
use crate::drafting::{page_at, place_of, without};
use crate::page::HeapPage;
use pager::{Draft, Pager, Stop, broken, free};
use std::alloc::Global;
use values::Seq;

/// Where a statement stands that takes rows out of a table: the page read last, and the pages of the table's chain in
/// order, once one of them left it. So a page is not read for each of its rows, and the chain not walked for each page
/// that leaves it.
#[derive(Debug, Drop)]
pub struct Cursor {
    pub page: Option<Link>,
    pub route: Option<Seq<u32>>,
}

/// Drafts that a row is taken out of its page.
pub fn remove<P: Pager>(
    alloc: Global,
    pager: &mut P,
    draft: &mut Draft,
    first: u32,
    page: u32,
    number: u64,
) -> Result<(), Stop<P::Fault>>
    requires { draft.old.size ≡ P.size pager.old }
    ensures removed { Drafts (λ u. u) (P.tells pager.new) draft.old.list draft.new.list
        (λ pages. removed draft.old.size pages first page number) result }
    ensures only_reads { OnlyDrafts P.tells P.goes P.size P.faults pager.old pager.new result }
    ensures size { draft.new.size ≡ draft.old.size }
{
    let start = Cursor {
        page: None,
        route: None,
    };
    remove_at(alloc, pager, draft, first, start, page, number)?;
    Ok(())
}

/// Drafts that a row is taken out of its page, and answers where the statement then stands.
pub fn remove_at<P: Pager>(
    alloc: Global,
    pager: &mut P,
    draft: &mut Draft,
    first: u32,
    cursor: Cursor,
    page: u32,
    number: u64,
) -> Result<Cursor, Stop<P::Fault>>
    requires size { draft.old.size ≡ P.size pager.old }
    requires cursor { IfSome cursor.page (IsWritable draft.old.size) }
    ensures removed { Drafts (λ cursor. cursor) (P.tells pager.new) draft.old.list draft.new.list
        (λ pages answer. IsCursor draft.old.size pages first cursor
        → with_cursor draft.old.size first (removed draft.old.size pages first page number) answer) result }
    ensures writable { IfOk result (λ cursor. IfSome cursor.page (IsWritable draft.old.size)) }
    ensures only_reads { OnlyDrafts P.tells P.goes P.size P.faults pager.old pager.new result }
    ensures size { draft.new.size ≡ draft.old.size }
{
    let link = page_at(alloc, pager, draft, cursor.page, page)?;
    remove_on(alloc, pager, draft, first, link, number, cursor.route)
}

// The same of a page that is read already.
fn remove_on<P: Pager>(
    alloc: Global,
    pager: &mut P,
    draft: &mut Draft,
    first: u32,
    link: Link,
    number: u64,
    route: Option<Seq<u32>>,
) -> Result<Cursor, Stop<P::Fault>>
    requires size { draft.old.size ≡ P.size pager.old }
    requires link { IsWritable draft.old.size link }
    ensures removed { Drafts (λ cursor. cursor) (P.tells pager.new) draft.old.list draft.new.list
        (λ pages answer. IsAt draft.old.size pages link.page link.held
        → IfSome route (IsRoute draft.old.size pages first)
        → with_cursor draft.old.size first (removed draft.old.size pages first link.page number) answer) result }
    ensures writable { IfOk result (λ cursor. IfSome cursor.page (IsWritable draft.old.size)) }
    ensures only_reads { OnlyDrafts P.tells P.goes P.size P.faults pager.old pager.new result }
    ensures size { draft.new.size ≡ draft.old.size }
{
    let page = link.page;
    let Some(place) = place_of(link.held.entries.as_slice(), number) else {
        return Err(Stop::Refused(broken(page)));
    };
    let held = without(link.held, place);
    if leaves_chain(first, page, &held) {
        let route = leave(alloc, pager, draft, first, route, page, held.next)?;
        return Ok(Cursor {
            page: None,
            route: Some(route),
        });
    }
    store(alloc, draft, page, &held)?;
    Ok(Cursor {
        page: Some(Link { page, held }),
        route,
    })
}

// Whether a page that holds this leaves the chain that begins with the first.
fn leaves_chain(first: u32, page: u32, held: &HeapPage) -> bool
    ensures { result ≡ (not (page == first) && (length held.now.entries == 0)) }
{
    page != first && held.entries.is_empty()
}

// Drafts that a page leaves its chain, and answers the route along the others.
fn leave<P: Pager>(
    alloc: Global,
    pager: &mut P,
    draft: &mut Draft,
    first: u32,
    route: Option<Seq<u32>>,
    page: u32,
    next: u32,
) -> Result<Seq<u32>, Stop<P::Fault>>
    requires size { draft.old.size ≡ P.size pager.old }
    requires apart { page ≢ first }
    ensures left { Drafts (λ route. route) (P.tells pager.new) draft.old.list draft.new.list
        (λ pages answer. IfSome route (IsRoute draft.old.size pages first)
        → (held : heap.HeapPage) → IsAt draft.old.size pages page held → held.next ≡ next
        → with_route draft.old.size first (left draft.old.size pages first page next) answer) result }
    ensures only_reads { OnlyDrafts P.tells P.goes P.size P.faults pager.old pager.new result }
    ensures size { draft.new.size ≡ draft.old.size }
{
    let route = route_at(alloc, pager, draft, first, route)?;
    let Some((previous, others)) = pass(route, page) else {
        return Err(Stop::Refused(broken(page)));
    };
    unlink(alloc, pager, draft, first, previous, page, next)?;
    Ok(others)
}

// The route along the chain that begins with that page: it is walked where it is not known already.
fn route_at<P: Pager>(
    alloc: Global,
    pager: &mut P,
    draft: &Draft,
    first: u32,
    known: Option<Seq<u32>>,
) -> Result<Seq<u32>, Stop<P::Fault>>
    requires { draft.now.size ≡ P.size pager.old }
    ensures read { Reads (λ route. route) (P.tells pager.new) draft.now.list
        (λ pages answer. IfSome known (IsRoute draft.now.size pages first)
        → routed draft.now.size pages first answer) result }
    ensures only_reads { OnlyReads P.tells P.goes P.size P.faults pager.old pager.new result }
{
    match known {
        Some(route) => Ok(route),
        None => walk(alloc, pager, draft, first),
    }
}

// The route along the chain that begins with that page.
fn walk<P: Pager>(
    alloc: Global,
    pager: &mut P,
    draft: &Draft,
    first: u32,
) -> Result<Seq<u32>, Stop<P::Fault>>
    requires { draft.now.size ≡ P.size pager.old }
    ensures read { Reads (λ route. route) (P.tells pager.new) draft.now.list
        (λ pages. routed draft.now.size pages first) result }
    ensures only_reads { OnlyReads P.tells P.goes P.size P.faults pager.old pager.new result }
{
    let mut route = Seq::new(alloc);
    let mut page = first;
    'pages: for _ in 0..draft.size() {
        let held = load(alloc, pager, draft, page)?;
        let next = held.next;
        route.push(page)?;
        if next == 0 {
            return Ok(route);
        }
        page = next;
    }
    Err(Stop::Refused(broken(page)))
}

// The page before that one on a route, and the route without it.
fn pass(route: Seq<u32>, page: u32) -> Option<(u32, Seq<u32>)>
    ensures { IsPassed route page result }
{
    let mut pages = Vec::from(route);
    let place = 1 + place_in(pages.get(1..)?, page)?;
    let previous = pages[place - 1];
    pages.remove(place);
    Some((previous, Seq::from(pages)))
}

// The place of a page among pages.
fn place_in(pages: &[u32], page: u32) -> Option<usize>
    ensures { result ≡ position (λ other. other == page) pages.now }
{
    pages.iter().position(|other| *other == page)
}

// Drafts that a page is taken out of its chain, and freed: the previous page names the next one.
fn unlink<P: Pager>(
    alloc: Global,
    pager: &mut P,
    draft: &mut Draft,
    first: u32,
    previous: u32,
    page: u32,
    next: u32,
) -> Result<(), Stop<P::Fault>>
    requires { draft.old.size ≡ P.size pager.old }
    ensures unlinked { Drafts (λ u. u) (P.tells pager.new) draft.old.list draft.new.list
        (λ pages. unlinked draft.old.size pages first previous page next) result }
    ensures passes { previous ≢ page → (base shown : Pages) → P.tells pager.new base shown → OnOk result
        (PassesOver draft.old.size (drafted shown draft.old.list) (drafted shown draft.new.list) previous page next) }
    ensures only_reads { OnlyDrafts P.tells P.goes P.size P.faults pager.old pager.new result }
    ensures size { draft.new.size ≡ draft.old.size }
{
    let before = load(alloc, pager, draft, previous)?;
    let linked = HeapPage { next, ..before };
    store(alloc, draft, previous, &linked)?;
    rename_last(alloc, pager, draft, first, previous, next)?;
    free(pager, draft, page)
}

// Drafts that the first page names another last page, where there is no next one.
fn rename_last<P: Pager>(
    alloc: Global,
    pager: &mut P,
    draft: &mut Draft,
    first: u32,
    last: u32,
    next: u32,
) -> Result<(), Stop<P::Fault>>
    requires { draft.old.size ≡ P.size pager.old }
    ensures renamed { Drafts (λ u. u) (P.tells pager.new) draft.old.list draft.new.list
        (λ pages. renamed draft.old.size pages first last next) result }
    ensures stays { (base shown : Pages) → P.tells pager.new base shown → OnOk result
        ((other : ℕ) → NextStays draft.old.size (drafted shown draft.old.list) (drafted shown draft.new.list) other) }
    ensures only_reads { OnlyDrafts P.tells P.goes P.size P.faults pager.old pager.new result }
    ensures size { draft.new.size ≡ draft.old.size }
{
    if next != 0 {
        return Ok(());
    }
    let head = load(alloc, pager, draft, first)?;
    let named = HeapPage {
        last: last_field(first, last),
        ..head
    };
    Ok(store(alloc, draft, first, &named)?)
}

// How the first page names the last one.
fn last_field(first: u32, last: u32) -> u32
    ensures { result ≡ last_field first last }
{
    if first == last { 0 } else { last }
}
