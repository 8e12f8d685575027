//! Taking and freeing pages.

ghost use Rattle.std.specs.Prelude.{◌≡◌, ◌<◌, IsTrue, IfOk};
ghost use Rattle.pager.specs.Draft.{Drafts, Reads};
ghost use Rattle.pager.specs.Root.{root_in, is_root, next_page, never_used, first_free, taken, freed, free_bytes};
ghost use Rattle.pager.specs.Stop.{OnlyDrafts, OnlyReads};

use crate::draft::Draft;
use crate::root::Root;
use crate::stop::{Stop, broken};
use crate::traits::Pager;
use retro_base::{Page, Refusal, get_u32};

/// The page that holds the root.
const ROOT: u32 = 0;
/// Byte 0 of a free page.
const FREE_PAGE: u8 = 3;

// The root page.
fn root<P: Pager>(pager: &mut P, draft: &Draft) -> Result<Root, Stop<P::Fault>>
    requires { draft.now.size ≡ P.size pager.old }
    ensures read { Reads (λ root. root) (P.tells pager.new) draft.now.list (λ pages r. root_in draft.now.size pages ≡ r)
        result }
    ensures only_reads { OnlyReads P.tells P.goes P.size P.faults pager.old pager.new result }
    ensures root { IfOk result (λ root. IsTrue (is_root draft.now.size root)) }
{
    let root = Root::of(&draft.read(pager, ROOT)?);
    if !root.is_root(draft.size()) {
        return Err(Stop::Refused(broken(ROOT)));
    }
    Ok(root)
}

// The first page that was never used, and the root after it is taken.
fn never_used(size: u32, root: &Root) -> Result<(u32, Root), Refusal>
    requires { IsTrue (is_root size root.now) }
    ensures exact { result ≡ never_used size root.now }
    ensures inside { IfOk result (λ next. next.0 < size) }
{
    if size - root.used == 2 {
        return Err(Refusal::PagesFull { pages: size });
    }
    let behind = Root {
        used: root.used + 1,
        first_free: 0,
        free: 0,
    };
    Ok((2 + root.used, behind))
}

// The first free page, and the root after it is taken.
fn first_free<P: Pager>(
    pager: &mut P,
    draft: &Draft,
    root: &Root,
) -> Result<(u32, Root), Stop<P::Fault>>
    requires size { draft.now.size ≡ P.size pager.old }
    requires some { 0 < root.now.free }
    ensures read { Reads (λ next. next) (P.tells pager.new) draft.now.list
        (λ pages r. first_free draft.now.size pages root.now ≡ r) result }
    ensures only_reads { OnlyReads P.tells P.goes P.size P.faults pager.old pager.new result }
    ensures inside { IfOk result (λ next. next.0 < draft.now.size) }
{
    let page = draft.read(pager, root.first_free)?;
    let bytes = page.bytes();
    let behind = Root {
        used: root.used,
        first_free: get_u32(bytes, 4),
        free: root.free - 1,
    };
    if bytes[0] != FREE_PAGE || !behind.is_root(draft.size()) {
        return Err(Stop::Refused(broken(root.first_free)));
    }
    Ok((root.first_free, behind))
}

// The page that is taken next, and the root after it.
fn next_page<P: Pager>(
    pager: &mut P,
    draft: &Draft,
    root: &Root,
) -> Result<(u32, Root), Stop<P::Fault>>
    requires size { draft.now.size ≡ P.size pager.old }
    requires root { IsTrue (is_root draft.now.size root.now) }
    ensures read { Reads (λ next. next) (P.tells pager.new) draft.now.list
        (λ pages r. next_page draft.now.size pages root.now ≡ r) result }
    ensures only_reads { OnlyDrafts P.tells P.goes P.size P.faults pager.old pager.new result }
    ensures inside { IfOk result (λ next. next.0 < draft.now.size) }
{
    if root.free == 0 {
        Ok(never_used(draft.size(), root)?)
    } else {
        first_free(pager, draft, root)
    }
}

/// Takes a page: the first of the free list, or else the first that was never used. The root page is drafted, the page
/// itself is left to the caller. Refused where no page is left, and where the root page or the free page is broken.
pub fn take<P: Pager>(pager: &mut P, draft: &mut Draft) -> Result<u32, Stop<P::Fault>>
    requires { draft.old.size ≡ P.size pager.old }
    ensures taken { Drafts (λ page. page) (P.tells pager.new) draft.old.list draft.new.list
        (λ pages r. taken draft.old.size pages ≡ r) result }
    ensures only_reads { OnlyDrafts P.tells P.goes P.size P.faults pager.old pager.new result }
    ensures size { draft.new.size ≡ draft.old.size }
    ensures inside { IfOk result (λ page. page < draft.old.size) }
{
    let root = root(pager, draft)?;
    let (page, behind) = next_page(pager, draft, &root)?;
    draft.put(ROOT, &behind.page())?;
    Ok(page)
}

/// Puts a page at the front of the free list. Refused where the root page is broken, or the page is none that was
/// handed out.
pub fn free<P: Pager>(pager: &mut P, draft: &mut Draft, page: u32) -> Result<(), Stop<P::Fault>>
    requires { draft.old.size ≡ P.size pager.old }
    ensures freed { Drafts (λ u. u) (P.tells pager.new) draft.old.list draft.new.list
        (λ pages r. freed draft.old.size pages page ≡ r) result }
    ensures only_reads { OnlyDrafts P.tells P.goes P.size P.faults pager.old pager.new result }
    ensures size { draft.new.size ≡ draft.old.size }
{
    let size = draft.size();
    let root = root(pager, draft)?;
    let in_front = Root {
        used: root.used,
        first_free: page,
        free: root.free + 1,
    };
    if !in_front.is_root(size) {
        return Err(Stop::Refused(broken(page)));
    }
    draft.put(page, &free_page(root.first_free))?;
    draft.put(ROOT, &in_front.page())?;
    Ok(())
}

// A free page that names the next one.
fn free_page(next: u32) -> Page
    ensures { result ≡ free_bytes next }
{
    let mut page = Page::zero();
    page.put_bytes(0, &[FREE_PAGE]);
    page.put_u32(4, next);
    page
}
