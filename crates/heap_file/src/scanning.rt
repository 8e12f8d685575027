//! The rows of a table, tested page by page, so that no more of them is held than passes.

ghost use Rattle.std.specs.Prelude.{◌≡◌, ◌++◌, ◌∷◌, [], IfErr, IfOk, List, Ok, OnOk};
ghost use Rattle.retro_base.specs.Gives.{Gives};
ghost use Rattle.pager.specs.Draft.{Reads, drafted};
ghost use Rattle.pager.specs.Pages.{Pages};
ghost use Rattle.pager.specs.Stop.{IsOfReading, OnlyReads};
ghost use Rattle.heap_file.specs.Chain.{InOrder, page_there, rows_on, scanned};
ghost use Rattle.heap_file.specs.HeapPage.{HoldsRows};
ghost use Rattle.heap_file.specs.Sieving.{AllPass, HasMet, meets, onto, passing, refused, sifted, walked};
ghost use Rattle.heap_file.specs.declared.chain.Placed.{Placed};
ghost use Rattle.heap_file.specs.declared.page.HeapPage.{HeapPage};
ghost use Rattle.heap_file.specs.Work.{scanned_with_next};

use crate::chain::{Placed, page_there};
use crate::entries::{first_entries, first_entry_into};
use crate::page::{COUNT_AT, HEADER_BYTES, HEAP_PAGE, NEXT_AT, NEXT_NUMBER_AT};
use pager::{Draft, Pager, Stop, broken};
use retro_base::{Page, Refusal, get_u16, get_u32, get_u64};
use std::alloc::{AllocError, Global};
use std::mem;
use values::{Row, Seq};

/// A test of rows.
pub trait Sieve {
    ghost use Rattle.std.specs.Prelude.{◌++◌, ◌∷◌, [], Bool, List, OnOk, Result};
    ghost use Rattle.retro_base.specs.declared.refusal.Refusal.{Refusal};
    ghost use Rattle.heap_file.specs.declared.chain.Placed.{Placed};

    // Whether a row passes, or why that is refused.
    ghost passes: { Self → Placed → Result Bool Refusal };

    // From how the test stands, by these rows, one after the other, to how it then may stand.
    ghost met: { Self → List Placed → Self → Type 0 };

    /// Whether a row passes. A test that is refused tells a page that is none of a store's, unless memory ran out.
    fn test(&mut self, placed: &Placed) -> Result<bool, Refusal>
        ensures tested { Gives (λ b. b) result (passes self.old placed.now) }
        ensures named { IfErr result IsOfReading }
        ensures stays { passes self.new ≡ passes self.old }
        ensures meets { (start : Self) (rows : List Placed) → met start rows self.old
            → OnOk result (met start (rows ++ placed.now ∷ []) self.new) };
}

/// Every row passes.
#[derive(Debug, Drop)]
pub struct Everything;

impl Sieve for Everything {
    ghost use Rattle.std.specs.Prelude.{Ok, true};

    ghost passes = { λ _ _. Ok true };

    ghost met = { λ _ _ _. Unit {0} };

    fn test(&mut self, _placed: &Placed) -> Result<bool, Refusal> {
        Ok(true)
    }
}

/// The rows of the table that begins with that page, in rising number.
pub fn scan<P: Pager>(
    alloc: Global,
    pager: &mut P,
    draft: &Draft,
    first: u32,
) -> Result<Vec<Placed>, Stop<P::Fault>>
    requires { draft.now.size ≡ P.size pager.old }
    ensures scanned { Reads (λ rows. rows.items) (P.tells pager.new) draft.now.list
        (λ pages. scanned draft.now.size pages first) result }
    ensures only_reads { OnlyReads P.tells P.goes P.size P.faults pager.old pager.new result }
{
    scan_by(alloc, pager, draft, first, &mut Everything)
}

/// The rows that pass of the table that begins with that page, in rising number.
pub fn scan_by<S: Sieve, P: Pager>(
    alloc: Global,
    pager: &mut P,
    draft: &Draft,
    first: u32,
    sieve: &mut S,
) -> Result<Vec<Placed>, Stop<P::Fault>>
    requires { draft.now.size ≡ P.size pager.old }
    ensures sifted { Reads (λ rows. rows.items) (P.tells pager.new) draft.now.list
        (λ pages. sifted (S.passes sieve.old) draft.now.size pages first) result }
    ensures passed { IfOk result (λ rows. AllPass (S.passes sieve.old) rows.items) }
    ensures met { (start : S) (front : List Placed) → S.met start front sieve.old
        → OnOk result (HasMet (λ rows. S.met start rows sieve.new) (P.tells pager.new) draft.now first front) }
    ensures stays { S.passes sieve.new ≡ S.passes sieve.old }
    ensures only_reads { OnlyReads P.tells P.goes P.size P.faults pager.old pager.new result }
{
    let head = page_there(pager, draft, first)?;
    sift(alloc, pager, draft, first, head, sieve)
}

/// The rows of the table that begins with that page, in rising number, and its next row number.
pub fn scan_with_next<P: Pager>(
    alloc: Global,
    pager: &mut P,
    draft: &Draft,
    first: u32,
) -> Result<(Vec<Placed>, u64), Stop<P::Fault>>
    requires { draft.now.size ≡ P.size pager.old }
    ensures scanned { Reads (λ found. (found.0.items, found.1)) (P.tells pager.new) draft.now.list
        (λ pages. scanned_with_next draft.now.size pages first) result }
    ensures only_reads { OnlyReads P.tells P.goes P.size P.faults pager.old pager.new result }
{
    let head = page_there(pager, draft, first)?;
    let next = get_u64(head.bytes(), NEXT_NUMBER_AT);
    let rows = sift(alloc, pager, draft, first, head, &mut Everything)?;
    Ok((rows, next))
}

// The rows that pass of a table whose first page is read already, in rising number. The row that is tested lies in the
// memory of the one before, where that was not kept.
fn sift<S: Sieve, P: Pager>(
    alloc: Global,
    pager: &mut P,
    draft: &Draft,
    first: u32,
    head: Page,
    sieve: &mut S,
) -> Result<Vec<Placed>, Stop<P::Fault>>
    requires { draft.now.size ≡ P.size pager.old }
    ensures sifted { Reads (λ rows. rows.items) (P.tells pager.new) draft.now.list
        (λ pages answer. page_there draft.now.size pages first (Ok head)
        → sifted (S.passes sieve.old) draft.now.size pages first answer) result }
    ensures passed { IfOk result (λ rows. AllPass (S.passes sieve.old) rows.items) }
    ensures met { (start : S) (front : List Placed) → S.met start front sieve.old
        → OnOk result ((base shown : Pages) → P.tells pager.new base shown
        → page_there draft.now.size (drafted shown draft.now.list) first (Ok head)
        → meets (λ rows. S.met start rows sieve.new) draft.now.size (drafted shown draft.now.list) first front) }
    ensures stays { S.passes sieve.new ≡ S.passes sieve.old }
    ensures only_reads { OnlyReads P.tells P.goes P.size P.faults pager.old pager.new result }
{
    let mut kept = Vec::new(alloc);
    let mut spare = Seq::new(alloc);
    let mut number = first;
    let mut page = head;
    'pages: for _ in 0..draft.size() {
        let next = push_passing(alloc, &page, number, sieve, &mut spare, &mut kept)?;
        if next == 0 {
            return Ok(in_order(kept)?);
        }
        page = page_there(pager, draft, next)?;
        number = next;
    }
    Err(Stop::Refused(broken(number)))
}

// Appends the rows of a page that pass, and answers the next page. What `spare` holds is of no account.
fn push_passing<S: Sieve>(
    alloc: Global,
    page: &Page,
    number: u32,
    sieve: &mut S,
    spare: &mut Row,
    kept: &mut Vec<Placed>,
) -> Result<u32, Refusal>
    ensures walked { walked (S.passes sieve.old) page.now number kept.old.items kept.new.items result }
    ensures passed { AllPass (S.passes sieve.old) kept.old.items
        → OnOk result (AllPass (S.passes sieve.old) kept.new.items) }
    ensures met { (start : S) (front : List Placed) → S.met start front sieve.old
        → OnOk result ((held : HeapPage) → HoldsRows page.now held
        → S.met start (front ++ rows_on (record { page = number; held = held })) sieve.new) }
    ensures named { IfErr result IsOfReading }
    ensures stays { S.passes sieve.new ≡ S.passes sieve.old }
{
    let bytes = page.bytes();
    if bytes[0] > HEAP_PAGE {
        return Err(broken(number));
    }
    let count = usize::from(get_u16(bytes, COUNT_AT));
    let entries = &bytes[HEADER_BYTES..];
    let mut end = 0;
    'entries: for place in 0..count {
        let Some((entry, length)) = first_entry_into(alloc, &entries[end..], spare)? else {
            return Err(broken(number));
        };
        end += length;
        if let Err(why) = keep_passing(alloc, entry, number, sieve, spare, kept) {
            return Err(refused(alloc, &entries[end..], count - place - 1, number, why));
        }
    }
    Ok(get_u32(bytes, NEXT_AT))
}

// Keeps a row that passes; of another the memory is left as `spare`, where the row was.
fn keep_passing<S: Sieve>(
    alloc: Global,
    number: u64,
    page: u32,
    sieve: &mut S,
    spare: &mut Row,
    kept: &mut Vec<Placed>,
) -> Result<(), Refusal>
    ensures passing { Gives (λ u. kept.new.items) result (onto kept.old.items (passing (S.passes sieve.old)
        (record { number = number; page = page; row = spare.old } ∷ []))) }
    ensures passed { AllPass (S.passes sieve.old) kept.old.items
        → OnOk result (AllPass (S.passes sieve.old) kept.new.items) }
    ensures met { (start : S) (front : List Placed) → S.met start front sieve.old
        → OnOk result (S.met start (front ++ record { number = number; page = page; row = spare.old } ∷ []) sieve.new) }
    ensures named { IfErr result IsOfReading }
    ensures stays { S.passes sieve.new ≡ S.passes sieve.old }
{
    let row = mem::replace(spare, Seq::new(alloc));
    let placed = Placed { number, page, row };
    if sieve.test(&placed)? {
        kept.push(placed)?;
    } else {
        *spare = placed.row;
    }
    Ok(())
}

// Why a page is refused of which a row is refused so: it is broken where so many entries do not stand behind that one.
fn refused(alloc: Global, behind: &[u8], count: usize, page: u32, why: Refusal) -> Refusal
    ensures { refused behind.now count page why result }
{
    match first_entries(alloc, behind, count) {
        Ok(Some(_)) => why,
        Ok(None) => broken(page),
        Err(memory) => memory,
    }
}

// These rows in rising number: as they stand, where no row that grew went to a later page.
fn in_order(rows: Vec<Placed>) -> Result<Vec<Placed>, AllocError>
    ensures { IfOk result (λ sorted. InOrder rows.items sorted.items) }
{
    let mut rows = rows;
    if !rows.is_sorted_by_key(|placed| placed.number) {
        rows.sort_by_key(|placed| placed.number)?;
    }
    Ok(rows)
}
