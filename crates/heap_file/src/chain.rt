//! Chains of heap pages.

ghost use Rattle.std.specs.Prelude.{◌≡◌, ◌<◌, IfErr, IfOk, OnOk};
ghost use Rattle.retro_base.specs.declared.refusal.Refusal.TheVariants.{OutOfMemory};
ghost use Rattle.heap_file.specs.HeapPage.{IsHeapPage, IsNarrow, page_bytes};
ghost use Rattle.pager.specs.Draft.{Reads, drafted};
ghost use Rattle.pager.specs.Pages.{Pages, with_bytes};
ghost use Rattle.pager.specs.Stop.{OnlyReads};
ghost use Rattle.heap_file.specs.Chain.{heap_page, page_there};

use crate::page::{HeapPage, held, page_of};
use pager::{Draft, Pager, Stop, broken};
use retro_base::{Page, Refusal};
use std::alloc::Global;
use values::Row;

/// A page of a chain, and what it holds.
#[derive(Debug, Drop)]
pub struct Link {
    pub page: u32,
    pub held: HeapPage,
}

/// A row of a table, with its number and the page where it stands.
#[derive(Debug, Drop)]
pub struct Placed {
    pub number: u64,
    pub page: u32,
    pub row: Row,
}

/// What the heap page of that number holds.
pub fn load<P: Pager>(
    alloc: Global,
    pager: &mut P,
    draft: &Draft,
    page: u32,
) -> Result<HeapPage, Stop<P::Fault>>
    requires { draft.now.size ≡ P.size pager.old }
    ensures read { Reads (λ held. held) (P.tells pager.new) draft.now.list
        (λ pages. heap_page draft.now.size pages page) result }
    ensures only_reads { OnlyReads P.tells P.goes P.size P.faults pager.old pager.new result }
    ensures there { OnOk result (page < draft.now.size) }
    ensures lawful { IfOk result IsHeapPage }
    ensures narrow { IfOk result IsNarrow }
{
    let bytes = page_there(pager, draft, page)?;
    match held(alloc, &bytes)? {
        Some(held) => Ok(held),
        None => Err(Stop::Refused(broken(page))),
    }
}

/// The page of that number, which may be no heap page.
pub fn page_there<P: Pager>(pager: &mut P, draft: &Draft, page: u32) -> Result<Page, Stop<P::Fault>>
    requires { draft.now.size ≡ P.size pager.old }
    ensures read { Reads (λ bytes. bytes) (P.tells pager.new) draft.now.list
        (λ pages. page_there draft.now.size pages page) result }
    ensures only_reads { OnlyReads P.tells P.goes P.size P.faults pager.old pager.new result }
    ensures there { OnOk result (page < draft.now.size) }
{
    if page == 0 {
        return Err(Stop::Refused(broken(page)));
    }
    draft.read(pager, page)
}

/// Drafts that a page holds this.
pub fn store(alloc: Global, draft: &mut Draft, page: u32, held: &HeapPage) -> Result<(), Refusal>
    requires there { page < draft.old.size }
    requires held { IsHeapPage held.now }
    ensures drafted { OnOk result
        ((pages : Pages) → drafted pages draft.new.list
        ≡ with_bytes (drafted pages draft.old.list) page (page_bytes held.now)) }
    ensures memory { IfErr result (λ why. why ≡ OutOfMemory) }
    ensures size { draft.new.size ≡ draft.old.size }
{
    let bytes = page_of(alloc, held)?;
    draft.put(page, &bytes)?;
    Ok(())
}
