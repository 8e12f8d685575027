//! Indexes over pages: what a chain and a tree have in common.

ghost use Rattle.std.specs.Prelude.{◌≡◌, ℕ, List, Result};
ghost use Rattle.retro_base.specs.declared.refusal.Refusal.{Refusal};
ghost use Rattle.values.specs.Value.{kind_of};
ghost use Rattle.values.specs.declared.value.Value.{Value};
ghost use Rattle.pager.specs.Allows.{in_turn};
ghost use Rattle.pager.specs.Draft.{Drafts, Reads};
ghost use Rattle.pager.specs.Index.{IsIndexing, IsListed, IsShaped};
ghost use Rattle.pager.specs.Pages.{Pages};
ghost use Rattle.pager.specs.Stop.{Accounts, Answers, IsNamed, IsOfReading, Makes, OnlyDrafts, OnlyReads};
ghost use Rattle.pager.specs.declared.index.Found.{Found};

use crate::draft::Draft;
use crate::stop::Stop;
use crate::traits::{EditPager, Pager};
use std::alloc::Global;
use values::Value;

/// An entry of an index: the value that a row has in the index's column, the row's number, and the page where the row
/// stands.
#[derive(Debug, Drop)]
pub struct Found {
    pub value: Value,
    pub number: u64,
    pub page: u32,
}

/// An index over pages, named by its root page, which never changes: its entries in order of value and then of row
/// number. A page that breaks the layout of such an index is refused by its place, and so is one that holds a value
/// of another kind than the one that was asked.
pub trait Index: Sized + Drop {
    // What the pages of an index hold, without their numbers.
    ghost Shape: { Type 0 };

    // Which shapes there are.
    ghost IsShape: { Shape → Type 0 };

    // The shape of an index without entries.
    ghost empty: { Shape };

    // The entries of a shape, in order.
    ghost entries: { Shape → List Found };

    // What adding an entry makes of a shape.
    ghost put: { Found → Shape → Shape };

    // What taking an entry out makes of a shape.
    ghost without: { Found → Shape → Shape };

    // How many pages an entry of that value and row number opens.
    ghost opens: { Value → ℕ → Shape → ℕ };

    // Whether the pages of a store of that size hold a shape from that root page on, on these pages.
    ghost lists: { ℕ → Pages → ℕ → Shape → List ℕ → Type 0 };

    // What each call answers over any pages of a store of that size, and the pages after it.
    ghost made: { ℕ → Pages → Result (ℕ × Pages) Refusal → Type 0 };

    ghost added: { ℕ → ℕ → Found → Pages → Result (Unit {0} × Pages) Refusal → Type 0 };

    ghost removed: { ℕ → ℕ → Found → Pages → Result (Unit {0} × Pages) Refusal → Type 0 };

    ghost ranged: { ℕ → ℕ → Value → Value → Pages → Result (List Found) Refusal → Type 0 };

    // The root page.
    ghost root: { Self → ℕ };

    /// The index with that root page.
    fn at(page: u32) -> Self
        ensures { Self.root result ≡ page };

    /// The root page.
    fn root(&self) -> u32
        ensures { result ≡ Self.root self.now };

    /// Drafts an index without entries: takes its root page.
    fn make_in<P: Pager>(
        alloc: Global,
        pager: &mut P,
        draft: &mut Draft,
    ) -> Result<Self, Stop<P::Fault>>
        requires { draft.old.size ≡ P.size pager.old }
        ensures made { Drafts Self.root (P.tells pager.new) draft.old.list draft.new.list (Self.made draft.old.size)
            result }
        ensures only_drafts { OnlyDrafts P.tells P.goes P.size P.faults pager.old pager.new result }
        ensures size { draft.new.size ≡ draft.old.size };

    /// Drafts that an entry is added.
    fn add_in<P: Pager>(
        &self,
        alloc: Global,
        pager: &mut P,
        draft: &mut Draft,
        entry: &Found,
    ) -> Result<(), Stop<P::Fault>>
        requires { draft.old.size ≡ P.size pager.old }
        ensures added { Drafts (λ u. u) (P.tells pager.new) draft.old.list draft.new.list
            (Self.added draft.old.size (Self.root self.now) entry.now) result }
        ensures only_drafts { OnlyDrafts P.tells P.goes P.size P.faults pager.old pager.new result }
        ensures size { draft.new.size ≡ draft.old.size };

    /// Drafts that these entries are added, in order.
    fn add_all_in<P: Pager>(
        &self,
        alloc: Global,
        pager: &mut P,
        draft: &mut Draft,
        found: &[Found],
    ) -> Result<(), Stop<P::Fault>>
        requires { draft.old.size ≡ P.size pager.old }
        ensures added { Drafts (λ u. u) (P.tells pager.new) draft.old.list draft.new.list
            (in_turn (Self.added draft.old.size (Self.root self.now)) found.now) result }
        ensures only_drafts { OnlyDrafts P.tells P.goes P.size P.faults pager.old pager.new result }
        ensures size { draft.new.size ≡ draft.old.size }
    {
        for entry in found {
            self.add_in(alloc, pager, draft, entry)?;
        }
        Ok(())
    }

    /// Drafts that an entry is taken out. That takes no page.
    fn remove_in<P: Pager>(
        &self,
        alloc: Global,
        pager: &mut P,
        draft: &mut Draft,
        entry: &Found,
    ) -> Result<(), Stop<P::Fault>>
        requires { draft.old.size ≡ P.size pager.old }
        ensures removed { Drafts (λ u. u) (P.tells pager.new) draft.old.list draft.new.list
            (Self.removed draft.old.size (Self.root self.now) entry.now) result }
        ensures only_drafts { OnlyDrafts P.tells P.goes P.size P.faults pager.old pager.new result }
        ensures takes_none { IsNamed IsOfReading result }
        ensures size { draft.new.size ≡ draft.old.size };

    /// The entries whose value is at least `low` and at most `high`, in order.
    fn range_in<P: Pager>(
        &self,
        alloc: Global,
        pager: &mut P,
        draft: &Draft,
        low: &Value,
        high: &Value,
    ) -> Result<Vec<Found>, Stop<P::Fault>>
        requires size { draft.now.size ≡ P.size pager.old }
        requires kind { kind_of low.now ≡ kind_of high.now }
        ensures ranged { Reads (λ found. found.items) (P.tells pager.new) draft.now.list
            (Self.ranged draft.now.size (Self.root self.now) low.now high.now) result }
        ensures only_reads { OnlyReads P.tells P.goes P.size P.faults pager.old pager.new result };

    /// Makes an index without entries, and answers it. Refused before the first edit where no page is free.
    final fn make<P: EditPager>(alloc: Global, pager: &mut P) -> Result<Self, Stop<P::Fault>>
        ensures made { Makes Self.root (P.tells pager.old) (P.tells pager.new) (Self.made (P.size pager.old)) result }
        ensures accounts { Accounts P.goes P.size P.faults pager.old pager.new result }
    {
        let mut draft = Draft::new(alloc, pager.size());
        let index = Self::make_in(alloc, pager, &mut draft)?;
        draft.write(pager)?;
        Ok(index)
    }

    /// Adds an entry. One that is there stays, and one of its value and row number gives way to it. Refused before the
    /// first edit where it opens more pages than are free.
    final fn add<P: EditPager>(
        &self,
        alloc: Global,
        pager: &mut P,
        entry: &Found,
    ) -> Result<(), Stop<P::Fault>>
        ensures added { Makes (λ u. u) (P.tells pager.old) (P.tells pager.new)
            (Self.added (P.size pager.old) (Self.root self.now) entry.now) result }
        ensures accounts { Accounts P.goes P.size P.faults pager.old pager.new result }
    {
        let mut draft = Draft::new(alloc, pager.size());
        self.add_in(alloc, pager, &mut draft, entry)?;
        draft.write(pager)?;
        Ok(())
    }

    /// Takes an entry out. Where it is not there, all stays.
    final fn remove<P: EditPager>(
        &self,
        alloc: Global,
        pager: &mut P,
        entry: &Found,
    ) -> Result<(), Stop<P::Fault>>
        ensures removed { Makes (λ u. u) (P.tells pager.old) (P.tells pager.new)
            (Self.removed (P.size pager.old) (Self.root self.now) entry.now) result }
        ensures accounts { Accounts P.goes P.size P.faults pager.old pager.new result }
        ensures takes_none { IsNamed IsOfReading result }
    {
        let mut draft = Draft::new(alloc, pager.size());
        self.remove_in(alloc, pager, &mut draft, entry)?;
        draft.write(pager)?;
        Ok(())
    }

    /// The entries whose value is at least `low` and at most `high`, in order.
    final fn range<P: Pager>(
        &self,
        alloc: Global,
        pager: &mut P,
        low: &Value,
        high: &Value,
    ) -> Result<Vec<Found>, Stop<P::Fault>>
        requires { kind_of low.now ≡ kind_of high.now }
        ensures ranged { Answers (λ found. found.items) (P.tells pager.new)
            (Self.ranged (P.size pager.old) (Self.root self.now) low.now high.now) result }
        ensures only_reads { OnlyReads P.tells P.goes P.size P.faults pager.old pager.new result }
    {
        let draft = Draft::new(alloc, pager.size());
        self.range_in(alloc, pager, &draft, low, high)
    }

    ghost shaped: { IsShaped IsShape empty entries put without opens };

    ghost listed: { IsListed IsShape lists };

    ghost indexing: { IsIndexing empty entries put without opens lists made added removed ranged };
}

/// An index that is a tree of pages: the catalog of a store of tables tells so of each index that it keeps pages of.
pub trait Tree: Index {}
