//! The calls of the index.

ghost use Rattle.std.specs.Prelude.{◌≡◌, ◌<◌, ◌≤◌, ◌^◌, IfErr, IfOk, OnOk, length};
ghost use Rattle.std.specs.List.{AllByRecursion};
ghost use Rattle.retro_base.specs.declared.refusal.Refusal.TheVariants.{OutOfMemory};
ghost use Rattle.pager.specs.Draft.{Drafts, drafted};
ghost use Rattle.pager.specs.Index.{between};
ghost use Rattle.pager.specs.Pages.{Pages};
ghost use Rattle.pager.specs.Stop.{OnlyDrafts};
ghost use Rattle.tree_index.specs.Filling.{added_on, kept, run_added};
ghost use Rattle.tree_index.specs.Walk.{IsStored};
ghost use Rattle.tree_index.specs.Work.{along};

use crate::climb::{climb_up, store_all};
use crate::filling::{Filled, fill};
use crate::walk::{Met, walk};
use index_page::{Form, IndexPage, copy_of, select, store, take_out};
use pager::{Draft, Found, Index, Pager, Stop, Tree, take};
use retro_base::Refusal;
use std::alloc::{AllocError, Global};
use values::{Duplicate, Seq, Value};

/// A tree of pages, named by its root page.
#[derive(Clone, Copy, Debug, PartialEq, Eq)]
pub struct TreeIndex {
    root: u32,
}

// The entry of a value and row number, on no page.
fn bound(alloc: Global, value: &Value, number: u64) -> Result<Found, AllocError>
    ensures { IfOk result (λ found. found ≡ record { value = value.now; number = number; page = 0 }) }
{
    let value = value.copy(alloc)?;
    Ok(Found {
        value,
        number,
        page: 0,
    })
}

// The entries of a way's leaves whose value is at least `low` and at most `high`.
fn collect(
    alloc: Global,
    way: Vec<Met>,
    low: &Value,
    high: &Value,
) -> Result<Vec<Found>, AllocError>
    ensures { IfOk result (λ found. found.items ≡ along (between low.now high.now) way.items) }
{
    let mut found = Vec::new(alloc);
    for met in way {
        if met.held.form == Form::Leaf {
            select(met.held.entries, low, high, &mut found)?;
        }
    }
    Ok(found)
}

// Drafts that an entry is added where the way to its leaf is known.
fn add_on<P: Pager>(
    alloc: Global,
    pager: &mut P,
    draft: &mut Draft,
    root: u32,
    way: Vec<Met>,
    entry: &Found,
) -> Result<(), Stop<P::Fault>>
    requires size { draft.old.size ≡ P.size pager.old }
    requires stored { AllByRecursion (IsStored draft.old.size) way.items }
    ensures added { Drafts (λ u. u) (P.tells pager.new) draft.old.list draft.new.list
        (added_on draft.old.size root way.items entry.now) result }
    ensures only_drafts { OnlyDrafts P.tells P.goes P.size P.faults pager.old pager.new result }
    ensures size { draft.new.size ≡ draft.old.size }
{
    let entry = copy_of(alloc, entry)?;
    let edits = climb_up(alloc, pager, draft, root, way, entry)?;
    Ok(store_all(alloc, draft, edits.as_slice())?)
}

// The page of that number that holds this.
fn met_of(page: u32, form: Form, link: u32, entries: Seq<Found>) -> Met
    ensures met { result ≡ record { page = page; held = record { form = form; link = link; entries = entries } } }
    ensures narrow { link < 2 ^ 32 }
{
    let held = IndexPage {
        form,
        link,
        entries,
    };
    Met { page, held }
}

// Drafts what a leaf holds once so many entries are added.
fn keep(alloc: Global, draft: &mut Draft, count: usize, leaf: &Met) -> Result<(), Refusal>
    requires { IsStored draft.old.size leaf.now }
    ensures drafted { OnOk result
        ((pages : Pages) → drafted pages draft.new.list ≡ kept count leaf.now (drafted pages draft.old.list)) }
    ensures memory { IfErr result (λ why. why ≡ OutOfMemory) }
    ensures size { draft.new.size ≡ draft.old.size }
{
    if count == 0 {
        return Ok(());
    }
    store(alloc, draft, leaf.page, &leaf.held)
}

// Drafts that the first of some entries are added: those that go on one leaf, and one more where that has no room
// there. Answers how many.
fn add_run<P: Pager>(
    alloc: Global,
    pager: &mut P,
    draft: &mut Draft,
    root: u32,
    entries: &[Found],
) -> Result<usize, Stop<P::Fault>>
    requires size { draft.old.size ≡ P.size pager.old }
    requires some { 0 < length entries.now }
    ensures added { Drafts (λ run. run) (P.tells pager.new) draft.old.list draft.new.list
        (run_added draft.old.size root entries.now) result }
    ensures run { IfOk result (λ run. (1 ≤ run) × (run ≤ length entries.now)) }
    ensures only_drafts { OnlyDrafts P.tells P.goes P.size P.faults pager.old pager.new result }
    ensures size { draft.new.size ≡ draft.old.size }
{
    let first = &entries[0];
    let mut way = walk(alloc, pager, draft, root, first, first)?;
    let Some(Met { page, held }) = way.pop() else {
        return Ok(entries.len());
    };
    let Filled {
        held: filled,
        count,
        run,
    } = fill(alloc, held.entries, &way, entries)?;
    let leaf = met_of(page, held.form, held.link, filled);
    keep(alloc, draft, count, &leaf)?;
    if count == run {
        return Ok(run);
    }
    way.push(leaf)?;
    add_on(alloc, pager, draft, root, way, &entries[count])?;
    Ok(run)
}

impl Index for TreeIndex {
    ghost use Rattle.tree_index.specs.Tree.{IsShape, Lists, Shape, empty, entries_of, opens, put, without};
    ghost use Rattle.tree_index.specs.Work.{added, made, ranged, removed};
    ghost use Rattle.tree_index.specs.Shaped.{shaped};
    ghost use Rattle.tree_index.specs.Listing.{listed};
    ghost use Rattle.tree_index.specs.Laws.{indexing};

    ghost Shape = { Shape };

    ghost IsShape = { λ shape. IsShape shape };

    ghost empty = { empty };

    ghost entries = { entries_of };

    ghost put = { put };

    ghost without = { without };

    ghost opens = { opens };

    ghost lists = { λ size pages root shape held. Lists size pages root shape held };

    ghost made = { made };

    ghost added = { added };

    ghost removed = { removed };

    ghost ranged = { ranged };

    ghost root = { λ index. index.root };

    fn at(page: u32) -> Self {
        TreeIndex { root: page }
    }

    fn root(&self) -> u32 {
        self.root
    }

    fn make_in<P: Pager>(
        alloc: Global,
        pager: &mut P,
        draft: &mut Draft,
    ) -> Result<Self, Stop<P::Fault>> {
        let root = take(pager, draft)?;
        let empty = IndexPage {
            form: Form::Leaf,
            link: 0,
            entries: Seq::new(alloc),
        };
        store(alloc, draft, root, &empty)?;
        Ok(TreeIndex { root })
    }

    fn add_in<P: Pager>(
        &self,
        alloc: Global,
        pager: &mut P,
        draft: &mut Draft,
        entry: &Found,
    ) -> Result<(), Stop<P::Fault>> {
        let way = walk(alloc, pager, draft, self.root, entry, entry)?;
        add_on(alloc, pager, draft, self.root, way, entry)
    }

    fn add_all_in<P: Pager>(
        &self,
        alloc: Global,
        pager: &mut P,
        draft: &mut Draft,
        found: &[Found],
    ) -> Result<(), Stop<P::Fault>> {
        let mut done = 0;
        'runs: while done < found.len() {
            done += add_run(alloc, pager, draft, self.root, &found[done..])?;
        }
        Ok(())
    }

    fn remove_in<P: Pager>(
        &self,
        alloc: Global,
        pager: &mut P,
        draft: &mut Draft,
        entry: &Found,
    ) -> Result<(), Stop<P::Fault>> {
        let mut way = walk(alloc, pager, draft, self.root, entry, entry)?;
        let Some(leaf) = way.pop() else {
            return Ok(());
        };
        let rest = IndexPage {
            form: leaf.held.form,
            link: leaf.held.link,
            entries: take_out(leaf.held.entries, entry),
        };
        Ok(store(alloc, draft, leaf.page, &rest)?)
    }

    fn range_in<P: Pager>(
        &self,
        alloc: Global,
        pager: &mut P,
        draft: &Draft,
        low: &Value,
        high: &Value,
    ) -> Result<Vec<Found>, Stop<P::Fault>> {
        let from = bound(alloc, low, 0)?;
        let to = bound(alloc, high, u64::MAX)?;
        let way = walk(alloc, pager, draft, self.root, &from, &to)?;
        Ok(collect(alloc, way, low, high)?)
    }

    ghost shaped = { shaped };

    ghost listed = { listed };

    ghost indexing = { indexing };
}

impl Tree for TreeIndex {}
