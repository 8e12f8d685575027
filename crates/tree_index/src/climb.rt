//! The way back up a tree.

ghost use Rattle.std.specs.Prelude.{◌≡◌, ◌<◌, ◌^◌, ◌∷◌, [], false, IfErr, IfOk, Ok, OnOk, Some, length};
ghost use Rattle.std.specs.List.{AllByRecursion};
ghost use Rattle.retro_base.specs.declared.refusal.Refusal.TheVariants.{OutOfMemory};
ghost use Rattle.pager.specs.Draft.{Drafts, drafted};
ghost use Rattle.pager.specs.Index.{IsFound};
ghost use Rattle.pager.specs.Pages.{Pages};
ghost use Rattle.pager.specs.Stop.{OnlyDrafts};
ghost use Rattle.index_page.specs.IndexPage.{AreOneMore, AreWritable, have_room};
ghost use Rattle.tree_index.specs.Walk.{IsStored};
ghost use Rattle.tree_index.specs.Work.{all_written, edited, lifted, parted, placed, root_over, split};

use crate::walk::Met;
use index_page::{ENTRY_BYTES, Form, IndexPage, copy_of, halves, insert, store, width};
use pager::{Draft, Found, Pager, Stop, take};
use retro_base::Refusal;
use std::alloc::{AllocError, Global};
use values::Seq;

/// What has no room on one page, on two: the first half, the key that the page of the second half is named by, and the
/// second half.
#[derive(Debug, Drop)]
pub struct Parts {
    pub left: IndexPage,
    pub key: Found,
    pub right: IndexPage,
}

/// What pages are to hold, one after the other, and the key that goes on up, if there is one.
#[derive(Debug, Drop)]
pub struct Climb {
    pub edits: Seq<Met>,
    pub up: Option<Found>,
}

// The parts of a page whose entries have no room on one, where the second half goes to that next page.
fn part(alloc: Global, whole: IndexPage, next: u32) -> Result<Parts, AllocError>
    requires few { length whole.entries < 2 ^ 16 }
    requires lawful { AllByRecursion IsFound whole.entries }
    requires short { AreOneMore whole.entries }
    requires full { have_room whole.entries ≡ false }
    ensures { IfOk result (λ parts. parted whole next (Ok parts)) }
{
    let form = whole.form;
    let (front, back) = halves(alloc, whole.entries)?;
    let left = IndexPage {
        form,
        link: whole.link,
        entries: front,
    };
    let mut back = Vec::from(back);
    if form == Form::Inner {
        let first = back.remove(0);
        let right = IndexPage {
            form,
            link: first.page,
            entries: Seq::from(back),
        };
        let key = Found {
            page: next,
            ..first
        };
        return Ok(Parts { left, key, right });
    }
    let first = copy_of(alloc, &back[0])?;
    let right = IndexPage {
        form,
        link: whole.link,
        entries: Seq::from(back),
    };
    let key = Found {
        page: next,
        ..first
    };
    Ok(Parts { left, key, right })
}

// The root page over two others.
fn root_over(alloc: Global, root: u32, first: u32, key: Found) -> Result<Met, AllocError>
    ensures { IfOk result (λ met. met ≡ root_over root first key) }
{
    let mut entries = Seq::new(alloc);
    entries.push(key)?;
    Ok(Met {
        page: root,
        held: IndexPage {
            form: Form::Inner,
            link: first,
            entries,
        },
    })
}

// Puts the root page's first half on a page that is taken, and the root page over both.
fn lift<P: Pager>(
    alloc: Global,
    pager: &mut P,
    draft: &mut Draft,
    root: u32,
    left: IndexPage,
    key: Found,
    edits: Seq<Met>,
) -> Result<Climb, Stop<P::Fault>>
    requires size { draft.old.size ≡ P.size pager.old }
    requires stored { AllByRecursion (IsStored draft.old.size) edits }
    requires left { AreWritable left.entries }
    requires key { AreWritable (key ∷ []) }
    requires there { root < draft.old.size }
    ensures lifted { Drafts (λ state. state) (P.tells pager.new) draft.old.list draft.new.list
        (lifted draft.old.size root left key edits) result }
    ensures only_drafts { OnlyDrafts P.tells P.goes P.size P.faults pager.old pager.new result }
    ensures size { draft.new.size ≡ draft.old.size }
    ensures stored { IfOk result (λ state. AllByRecursion (IsStored draft.old.size) state.edits) }
{
    let first = take(pager, draft)?;
    let mut edits = edits;
    edits.push(Met {
        page: first,
        held: left,
    })?;
    edits.push(root_over(alloc, root, first, key)?)?;
    Ok(Climb { edits, up: None })
}

// Puts what has no room on a page on that page and on one that is taken.
fn split<P: Pager>(
    alloc: Global,
    pager: &mut P,
    draft: &mut Draft,
    root: u32,
    page: u32,
    whole: IndexPage,
    edits: Seq<Met>,
) -> Result<Climb, Stop<P::Fault>>
    requires size { draft.old.size ≡ P.size pager.old }
    requires stored { AllByRecursion (IsStored draft.old.size) edits }
    requires there { page < draft.old.size }
    requires few { length whole.entries < 2 ^ 16 }
    requires lawful { AllByRecursion IsFound whole.entries }
    requires short { AreOneMore whole.entries }
    requires full { have_room whole.entries ≡ false }
    ensures split { Drafts (λ state. state) (P.tells pager.new) draft.old.list draft.new.list
        (split draft.old.size root page whole edits) result }
    ensures only_drafts { OnlyDrafts P.tells P.goes P.size P.faults pager.old pager.new result }
    ensures size { draft.new.size ≡ draft.old.size }
    ensures stored { IfOk result (λ state. AllByRecursion (IsStored draft.old.size) state.edits) }
{
    let next = take(pager, draft)?;
    let Parts { left, key, right } = part(alloc, whole, next)?;
    let mut edits = edits;
    edits.push(Met {
        page: next,
        held: right,
    })?;
    if page == root {
        return lift(alloc, pager, draft, root, left, key, edits);
    }
    edits.push(Met { page, held: left })?;
    Ok(Climb {
        edits,
        up: Some(key),
    })
}

// Puts an entry or a key on a page.
fn place<P: Pager>(
    alloc: Global,
    pager: &mut P,
    draft: &mut Draft,
    root: u32,
    met: Met,
    key: Found,
    edits: Seq<Met>,
) -> Result<Climb, Stop<P::Fault>>
    requires size { draft.old.size ≡ P.size pager.old }
    requires stored { AllByRecursion (IsStored draft.old.size) edits }
    requires met { IsStored draft.old.size met }
    ensures placed { Drafts (λ state. state) (P.tells pager.new) draft.old.list draft.new.list
        (placed draft.old.size root met edits (Some key)) result }
    ensures only_drafts { OnlyDrafts P.tells P.goes P.size P.faults pager.old pager.new result }
    ensures size { draft.new.size ≡ draft.old.size }
    ensures stored { IfOk result (λ state. AllByRecursion (IsStored draft.old.size) state.edits) }
{
    let page = met.page;
    let whole = IndexPage {
        form: met.held.form,
        link: met.held.link,
        entries: insert(met.held.entries, key)?,
    };
    let is_full = width(whole.entries.as_slice()) > ENTRY_BYTES;
    if is_full {
        return split(alloc, pager, draft, root, page, whole, edits);
    }
    let mut edits = edits;
    edits.push(Met { page, held: whole })?;
    Ok(Climb { edits, up: None })
}

/// What pages of a way are to hold where an entry is added, and pages that are taken for it.
pub fn climb_up<P: Pager>(
    alloc: Global,
    pager: &mut P,
    draft: &mut Draft,
    root: u32,
    way: Vec<Met>,
    entry: Found,
) -> Result<Seq<Met>, Stop<P::Fault>>
    requires size { draft.old.size ≡ P.size pager.old }
    requires stored { AllByRecursion (IsStored draft.old.size) way.items }
    ensures edited { Drafts (λ edits. edits) (P.tells pager.new) draft.old.list draft.new.list
        (λ pages. edited draft.old.size root entry pages way.items) result }
    ensures only_drafts { OnlyDrafts P.tells P.goes P.size P.faults pager.old pager.new result }
    ensures size { draft.new.size ≡ draft.old.size }
    ensures stored { IfOk result (λ edits. AllByRecursion (IsStored draft.old.size) edits) }
{
    let mut way = way;
    let mut edits = Seq::new(alloc);
    let mut up = entry;
    'up: while let Some(met) = way.pop() {
        let state = place(alloc, pager, draft, root, met, up, edits)?;
        edits = state.edits;
        let Some(key) = state.up else {
            return Ok(edits);
        };
        up = key;
    }
    Ok(edits)
}

/// Drafts that pages hold this.
pub fn store_all(alloc: Global, draft: &mut Draft, edits: &[Met]) -> Result<(), Refusal>
    requires stored { AllByRecursion (IsStored draft.old.size) edits.now }
    ensures drafted { OnOk result
        ((pages : Pages) → drafted pages draft.new.list ≡ all_written (drafted pages draft.old.list) edits.now) }
    ensures memory { IfErr result (λ why. why ≡ OutOfMemory) }
    ensures size { draft.new.size ≡ draft.old.size }
{
    'edits: for met in edits {
        store(alloc, draft, met.page, &met.held)?;
    }
    Ok(())
}
