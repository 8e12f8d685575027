//! The calls: each drafts what it does, and then makes the edits.

ghost use Rattle.pager.specs.Stop.{Accounts, Answers, Makes, OnlyReads};
ghost use Rattle.heap_file.specs.Chain.{scanned};
ghost use Rattle.heap_file.specs.HeapPage.{IsShort};
ghost use Rattle.heap_file.specs.Work.{added, changed, got, made, next_of, removed};

use crate::chain::Placed;
use crate::drafting;
use pager::{Draft, EditPager, Pager, Stop};
use std::alloc::Global;
use values::Row;

/// Takes an empty page for a table, and answers it.
pub fn make<P: EditPager>(alloc: Global, pager: &mut P) -> Result<u32, Stop<P::Fault>>
    ensures made { Makes (λ page. page) (P.tells pager.old) (P.tells pager.new) (made (P.size pager.old)) result }
    ensures accounts { Accounts P.goes P.size P.faults pager.old pager.new result }
{
    let mut draft = Draft::new(alloc, pager.size());
    let page = drafting::make(alloc, pager, &mut draft)?;
    draft.write(pager)?;
    Ok(page)
}

/// The next row number of the table that begins with that page.
pub fn next_number<P: Pager>(
    alloc: Global,
    pager: &mut P,
    first: u32,
) -> Result<u64, Stop<P::Fault>>
    ensures next { Answers (λ number. number) (P.tells pager.new) (λ pages. next_of (P.size pager.old) pages first)
        result }
    ensures only_reads { OnlyReads P.tells P.goes P.size P.faults pager.old pager.new result }
{
    let draft = Draft::new(alloc, pager.size());
    drafting::next_number(alloc, pager, &draft, first)
}

/// The row of that number on that page. None where the page has no row of that number.
pub fn get<P: Pager>(
    alloc: Global,
    pager: &mut P,
    page: u32,
    number: u64,
) -> Result<Option<Row>, Stop<P::Fault>>
    ensures got { Answers (λ row. row) (P.tells pager.new) (λ pages. got (P.size pager.old) pages page number) result }
    ensures only_reads { OnlyReads P.tells P.goes P.size P.faults pager.old pager.new result }
{
    let draft = Draft::new(alloc, pager.size());
    drafting::get(alloc, pager, &draft, page, number)
}

/// Adds a row under the next row number, and answers its number and page.
pub fn add<P: EditPager>(
    alloc: Global,
    pager: &mut P,
    first: u32,
    row: &Row,
) -> Result<(u64, u32), Stop<P::Fault>>
    requires { IsShort row.now }
    ensures added { Makes (λ placed. placed) (P.tells pager.old) (P.tells pager.new)
        (λ pages. added (P.size pager.old) pages first row.now) result }
    ensures accounts { Accounts P.goes P.size P.faults pager.old pager.new result }
{
    let mut draft = Draft::new(alloc, pager.size());
    let placed = drafting::add(alloc, pager, &mut draft, first, row)?;
    draft.write(pager)?;
    Ok(placed)
}

/// The rows of the table that begins with that page, in rising number.
pub fn scan<P: Pager>(
    alloc: Global,
    pager: &mut P,
    first: u32,
) -> Result<Vec<Placed>, Stop<P::Fault>>
    ensures scanned { Answers (λ rows. rows.items) (P.tells pager.new) (λ pages. scanned (P.size pager.old) pages first)
        result }
    ensures only_reads { OnlyReads P.tells P.goes P.size P.faults pager.old pager.new result }
{
    let draft = Draft::new(alloc, pager.size());
    drafting::scan(alloc, pager, &draft, first)
}

/// Takes the row of that number out of that page. A page other than the first that is then empty is freed.
pub fn remove<P: EditPager>(
    alloc: Global,
    pager: &mut P,
    first: u32,
    page: u32,
    number: u64,
) -> Result<(), Stop<P::Fault>>
    ensures removed { Makes (λ u. u) (P.tells pager.old) (P.tells pager.new)
        (λ pages. removed (P.size pager.old) pages first page number) result }
    ensures accounts { Accounts P.goes P.size P.faults pager.old pager.new result }
{
    let mut draft = Draft::new(alloc, pager.size());
    let removed = drafting::remove(alloc, pager, &mut draft, first, page, number)?;
    draft.write(pager)?;
    Ok(removed)
}

/// Puts this row in the place of the row of that number on that page, under its number, and answers the page where it
/// then stands.
pub fn change<P: EditPager>(
    alloc: Global,
    pager: &mut P,
    first: u32,
    page: u32,
    number: u64,
    row: &Row,
) -> Result<u32, Stop<P::Fault>>
    requires { IsShort row.now }
    ensures changed { Makes (λ page. page) (P.tells pager.old) (P.tells pager.new)
        (λ pages. changed (P.size pager.old) pages first page (record { number = number; row = row.now })) result }
    ensures accounts { Accounts P.goes P.size P.faults pager.old pager.new result }
{
    let mut draft = Draft::new(alloc, pager.size());
    let changed = drafting::change(alloc, pager, &mut draft, first, page, number, row)?;
    draft.write(pager)?;
    Ok(changed)
}
