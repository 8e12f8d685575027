//! The calls of the index.

ghost use Rattle.std.specs.Prelude.{◌≡◌, ◌<◌, ◌^◌, IfErr, length};
ghost use Rattle.std.specs.List.{AllByRecursion};
ghost use Rattle.pager.specs.Draft.{Drafts};
ghost use Rattle.pager.specs.Index.{IsFound};
ghost use Rattle.pager.specs.Stop.{OnlyDrafts};
ghost use Rattle.index_page.specs.IndexPage.{AreOneMore};
ghost use Rattle.run_index.specs.Work.{stored};

use crate::walk::{find, range};
use index_page::{ENTRY_BYTES, Form, IndexPage, copy_of, halves, insert, store, take_out, width};
use pager::{Draft, Found, Index, Pager, Stop, take};
use std::alloc::Global;
use values::{Seq, Value};

/// A sorted chain of pages, named by its root page, which is the first.
#[derive(Clone, Copy, Debug, PartialEq, Eq)]
pub struct RunIndex {
    root: u32,
}

// Drafts that entries go on a page that names that next one, or in halves on it and on a new page behind it.
fn store_run<P: Pager>(
    alloc: Global,
    pager: &mut P,
    draft: &mut Draft,
    page: u32,
    link: u32,
    entries: Seq<Found>,
) -> Result<(), Stop<P::Fault>>
    requires size { draft.old.size ≡ P.size pager.old }
    requires there { page < draft.old.size }
    requires few { length entries < 2 ^ 16 }
    requires short { AllByRecursion IsFound entries → AreOneMore entries }
    ensures stored { Drafts (λ u. u) (P.tells pager.new) draft.old.list draft.new.list
        (λ pages. stored draft.old.size pages page link entries) result }
    ensures only_drafts { OnlyDrafts P.tells P.goes P.size P.faults pager.old pager.new result }
    ensures size { draft.new.size ≡ draft.old.size }
{
    let form = Form::Run;
    if width(entries.as_slice()) <= ENTRY_BYTES {
        let held = IndexPage {
            form,
            link,
            entries,
        };
        return Ok(store(alloc, draft, page, &held)?);
    }
    let (front, back) = halves(alloc, entries)?;
    let next = take(pager, draft)?;
    let behind = IndexPage {
        form,
        link,
        entries: back,
    };
    store(alloc, draft, next, &behind)?;
    let held = IndexPage {
        form,
        link: next,
        entries: front,
    };
    Ok(store(alloc, draft, page, &held)?)
}

impl Index for RunIndex {
    ghost use Rattle.std.specs.Prelude.{List, [], ◌∷◌};
    ghost use Rattle.pager.specs.declared.index.Found.{Found};
    ghost use Rattle.run_index.specs.Run.{IsShape, Lists, entries_of, opens, put, without};
    ghost use Rattle.run_index.specs.Work.{added, made, ranged, removed};
    ghost use Rattle.run_index.specs.Laws.{indexing, listed};
    ghost use Rattle.run_index.specs.Shaping.{shaped};

    ghost Shape = { List (List Found) };

    ghost IsShape = { λ shape. IsShape shape };

    ghost empty = { [] ∷ [] };

    ghost entries = { entries_of };

    ghost put = { put };

    ghost without = { without };

    ghost opens = { opens };

    ghost lists = { λ size pages root shape held. Lists size pages root shape held };

    ghost made = { made };

    ghost added = { added };

    ghost removed = { removed };

    ghost ranged = { ranged };

    ghost root = { λ index. index.root };

    fn at(page: u32) -> Self {
        RunIndex { root: page }
    }

    fn root(&self) -> u32 {
        self.root
    }

    fn make_in<P: Pager>(
        alloc: Global,
        pager: &mut P,
        draft: &mut Draft,
    ) -> Result<Self, Stop<P::Fault>> {
        let root = take(pager, draft)?;
        let empty = IndexPage {
            form: Form::Run,
            link: 0,
            entries: Seq::new(alloc),
        };
        store(alloc, draft, root, &empty)?;
        Ok(RunIndex { root })
    }

    fn add_in<P: Pager>(
        &self,
        alloc: Global,
        pager: &mut P,
        draft: &mut Draft,
        entry: &Found,
    ) -> Result<(), Stop<P::Fault>> {
        let met = find(alloc, pager, draft, self.root, entry)?;
        let link = met.held.link;
        let entries = insert(met.held.entries, copy_of(alloc, entry)?)?;
        store_run(alloc, pager, draft, met.page, link, entries)
    }

    fn remove_in<P: Pager>(
        &self,
        alloc: Global,
        pager: &mut P,
        draft: &mut Draft,
        entry: &Found,
    ) -> Result<(), Stop<P::Fault>> {
        let met = find(alloc, pager, draft, self.root, entry)?;
        let rest = IndexPage {
            form: Form::Run,
            link: met.held.link,
            entries: take_out(met.held.entries, entry),
        };
        Ok(store(alloc, draft, met.page, &rest)?)
    }

    fn range_in<P: Pager>(
        &self,
        alloc: Global,
        pager: &mut P,
        draft: &Draft,
        low: &Value,
        high: &Value,
    ) -> Result<Vec<Found>, Stop<P::Fault>> {
        range(alloc, pager, draft, self.root, low, high)
    }

    ghost shaped = { shaped };

    ghost listed = { listed };

    ghost indexing = { indexing };
}
