//! The pages of an index in a store.

ghost use Rattle.std.specs.Prelude.{◌≡◌, ◌<◌, IfErr, IfOk, MatchBool, OnOk};
ghost use Rattle.retro_base.specs.declared.refusal.Refusal.TheVariants.{OutOfMemory};
ghost use Rattle.pager.specs.Index.{AreOfKind};
ghost use Rattle.pager.specs.Draft.{drafted, Reads};
ghost use Rattle.pager.specs.Pages.{Pages, with_bytes};
ghost use Rattle.pager.specs.Stop.{OnlyReads};
ghost use Rattle.index_page.specs.IndexPage.{AreWritable, page_bytes};
ghost use Rattle.index_page.specs.Paging.{any_page, index_page};

use crate::page::{IndexPage, held, page_of};
use pager::{Draft, Found, Pager, Stop, broken};
use retro_base::Refusal;
use std::alloc::Global;
use values::Kind;

/// The first page that an index may stand on.
const FIRST_PAGE: u32 = 2;

/// What the index page of that number holds, whatever its values are.
pub fn load_any<P: Pager>(
    alloc: Global,
    pager: &mut P,
    draft: &Draft,
    page: u32,
) -> Result<IndexPage, Stop<P::Fault>>
    requires { draft.now.size ≡ P.size pager.old }
    ensures read { Reads (λ held. held) (P.tells pager.new) draft.now.list
        (λ pages. any_page draft.now.size pages page) result }
    ensures only_reads { OnlyReads P.tells P.goes P.size P.faults pager.old pager.new result }
    ensures there { OnOk result (page < draft.now.size) }
    ensures writable { IfOk result (λ held. AreWritable held.entries) }
{
    if page < FIRST_PAGE {
        return Err(Stop::Refused(broken(page)));
    }
    let bytes = draft.read(pager, page)?;
    let Some(found) = held(alloc, &bytes)? else {
        return Err(Stop::Refused(broken(page)));
    };
    Ok(found)
}

/// What the index page of that number holds, whose values are of that kind.
pub fn load<P: Pager>(
    alloc: Global,
    pager: &mut P,
    draft: &Draft,
    page: u32,
    kind: Kind,
) -> Result<IndexPage, Stop<P::Fault>>
    requires { draft.now.size ≡ P.size pager.old }
    ensures read { Reads (λ held. held) (P.tells pager.new) draft.now.list
        (λ pages. index_page kind draft.now.size pages page) result }
    ensures only_reads { OnlyReads P.tells P.goes P.size P.faults pager.old pager.new result }
    ensures there { OnOk result (page < draft.now.size) }
    ensures writable { IfOk result (λ held. AreWritable held.entries) }
{
    let found = load_any(alloc, pager, draft, page)?;
    if !are_of_kind(found.entries.as_slice(), kind) {
        return Err(Stop::Refused(broken(page)));
    }
    Ok(found)
}

/// Whether the values of entries are of a kind.
pub fn are_of_kind(entries: &[Found], kind: Kind) -> bool
    ensures { MatchBool result (AreOfKind kind entries.now) (AreOfKind kind entries.now → ⊥) }
{
    for found in entries {
        if found.value.kind() != kind {
            return false;
        }
    }
    true
}

/// Drafts that a page holds this.
pub fn store(alloc: Global, draft: &mut Draft, page: u32, held: &IndexPage) -> Result<(), Refusal>
    requires there { page < draft.old.size }
    requires held { AreWritable held.now.entries }
    ensures drafted { OnOk result
        ((pages : Pages) → drafted pages draft.new.list
        ≡ with_bytes (drafted pages draft.old.list) page (page_bytes held.now)) }
    ensures memory { IfErr result (λ why. why ≡ OutOfMemory) }
    ensures size { draft.new.size ≡ draft.old.size }
{
    let bytes = page_of(alloc, held)?;
    draft.put(page, &bytes)?;
    Ok(())
}
