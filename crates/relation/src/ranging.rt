//! The rows that an index finds.

ghost use Rattle.std.specs.Prelude.{◌≡◌, None, Ok, Some, true, MatchOption, IfErr, IfOk, IfSome};
ghost use Rattle.retro_base.specs.Gives.{Gives};
ghost use Rattle.std.specs.List.Sorted.{IsNonDecreasingBy, IsPermutation};
ghost use Rattle.values.specs.Value.{kind_of};
ghost use Rattle.pager.specs.Draft.{Reads};
ghost use Rattle.pager.specs.Stop.{IsOfReading, OnlyReads};
ghost use Rattle.pager.specs.declared.index.Found.{Found};
ghost use Rattle.heap_file.specs.Work.{place_of, row_numbered};
ghost use Rattle.heap_file.specs.Sieving.{AllPass};
ghost use Rattle.relation.specs.Each.{each_some};
ghost use Rattle.relation.specs.Sieving.{passing_found};
ghost use Rattle.relation.specs.Work.{AllPlacedFit, ranged_by, row_found};

use crate::catalog::{StoredIndex, StoredTable};
use crate::sieving::Fitting;
use heap_file::{Link, Placed, Sieve, drafting};
use pager::{Draft, Found, Index, Pager, Stop};
use retro_base::Refusal;
use std::alloc::{AllocError, Global};
use values::{Duplicate, Row, Value};

/// The rows of a table that pass and whose value in the column of an index is at least `low` and at most `high`, in
/// rising number, as the index lists them. Refused where a row does not fit the columns, passing or not.
pub fn ranged_by<I: Index, S: Sieve + Drop, P: Pager>(
    alloc: Global,
    pager: &mut P,
    draft: &Draft,
    table: &StoredTable,
    index: &StoredIndex,
    low: &Value,
    high: &Value,
    sieve: S,
) -> Result<Vec<Placed>, Stop<P::Fault>>
    requires size { draft.now.size ≡ P.size pager.old }
    requires kind { kind_of low.now ≡ kind_of high.now }
    ensures ranged { Reads (λ rows. rows.items) (P.tells pager.new) draft.now.list
        (λ pages. ranged_by (S.passes sieve) I.ranged draft.now.size pages
        table.now index.now low.now high.now) result }
    ensures passed { IfOk result (λ rows. AllPass (S.passes sieve) rows.items) }
    ensures fitting { IfOk result (λ rows. AllPlacedFit table.now.columns rows.items) }
    ensures only_reads { OnlyReads P.tells P.goes P.size P.faults pager.old pager.new result }
{
    let found = I::at(index.root).range_in(alloc, pager, draft, low, high)?;
    let sorted = by_number(found)?;
    let columns = table.columns.as_slice();
    let mut sieve = Fitting { columns, sieve };
    rows_found(alloc, pager, draft, &sorted, &mut sieve)
}

// These entries in rising row number.
fn by_number(found: Vec<Found>) -> Result<Vec<Found>, AllocError>
    ensures sorted { IfOk result (λ sorted. IsPermutation found.items sorted.items) }
    ensures rising { IfOk result (λ sorted. IsNonDecreasingBy (λ (entry : Found). entry.number) sorted.items) }
{
    let mut found = found;
    found.sort_by_key(|entry| entry.number)?;
    Ok(found)
}

// The rows of these entries that pass, in order, each where its page holds it. A page that was read for the entry
// before is not read again.
fn rows_found<S: Sieve, P: Pager>(
    alloc: Global,
    pager: &mut P,
    draft: &Draft,
    found: &[Found],
    sieve: &mut S,
) -> Result<Vec<Placed>, Stop<P::Fault>>
    requires size { draft.now.size ≡ P.size pager.old }
    ensures told { Reads (λ rows. rows.items) (P.tells pager.new) draft.now.list
        (λ pages. each_some (row_found (S.passes sieve.old) draft.now.size pages) found.now) result }
    ensures passed { IfOk result (λ rows. AllPass (S.passes sieve.old) rows.items) }
    ensures only_reads { OnlyReads P.tells P.goes P.size P.faults pager.old pager.new result }
{
    let mut rows = Vec::new(alloc);
    let mut known = None;
    for entry in found {
        let link = drafting::page_at(alloc, pager, draft, known, entry.page)?;
        if let Some(placed) = row_on(alloc, &link, entry, sieve)? {
            rows.push(placed)?;
        }
        known = Some(link);
    }
    Ok(rows)
}

// The row of an entry, where the page holds it and it passes.
fn row_on<S: Sieve>(
    alloc: Global,
    link: &Link,
    entry: &Found,
    sieve: &mut S,
) -> Result<Option<Placed>, Refusal>
    ensures found { Gives (λ row. row) result
        (passing_found (S.passes sieve.old) entry.now (row_numbered entry.now.number link.now.held.entries)) }
    ensures passed { IfOk result (λ row. IfSome row (λ placed. S.passes sieve.old placed ≡ Ok true)) }
    ensures named { IfErr result IsOfReading }
    ensures stays { S.passes sieve.new ≡ S.passes sieve.old }
{
    let Found { number, page, .. } = *entry;
    let Some(row) = row_of(link, number) else {
        return Ok(None);
    };
    let row = row.copy(alloc)?;
    let placed = Placed { number, page, row };
    if sieve.test(&placed)? {
        Ok(Some(placed))
    } else {
        Ok(None)
    }
}

// The row of that number on a page.
fn row_of(link: &Link, number: u64) -> Option<&Row>
    ensures { MatchOption result (row_numbered number link.now.held.entries ≡ None)
        (λ row. row_numbered number link.now.held.entries ≡ Some row.now) }
{
    match place_of(link, number) {
        Some(place) => Some(&link.held.entries.as_slice()[place].row),
        None => None,
    }
}

// The place of that number among the entries of a page.
fn place_of(link: &Link, number: u64) -> Option<usize>
    ensures { result ≡ place_of number link.now.held.entries }
{
    link.held
        .entries
        .as_slice()
        .iter()
        .position(|entry| entry.number == number)
}
