//! Edits in memory.

ghost use Rattle.std.specs.Prelude.{◌≡◌, ◌<◌, [], OnErr, OnOk};
ghost use Rattle.pager.specs.Draft.{drafted, Reads, Writes};
ghost use Rattle.pager.specs.Pages.{Pages, with_bytes};
ghost use Rattle.pager.specs.Root.{page_in};
ghost use Rattle.pager.specs.Stop.{IsCaused, OnlyReads};

use crate::stop::{Stop, broken};
use crate::traits::{EditPager, Pager};
use indexmap::IndexMap;
use retro_base::Page;
use std::alloc::{AllocError, Global};
use std::marker::Model;

/// Edits of a store's pages that are kept in memory until all of them are known, so that a call is refused before its
/// first edit.
#[derive(Drop)]
pub struct Draft {
    size: u32,
    edits: IndexMap<u32, Page>,
}

impl Model for Draft {
    ghost use Rattle.pager.specs.Draft.{Edits, AreInside};

    ghost Value = { Edits };

    ghost view = { λ d. record { size = d.size; list = d.edits.entries } };

    ghost invariant = { λ d. AreInside d.size d.edits.entries };
}

impl Draft {
    /// No edit of a store of so many pages.
    pub fn new(alloc: Global, size: u32) -> Draft
        ensures { result ≡ record { size = size; list = [] } }
    {
        Draft {
            size,
            edits: IndexMap::new(alloc),
        }
    }

    /// How many pages the store has.
    pub fn size(&self) -> u32
        ensures { result ≡ self.now.size }
    {
        self.size
    }

    /// The page of that number, as it will be after the edits.
    pub fn read<P: Pager>(&self, pager: &mut P, page: u32) -> Result<Page, Stop<P::Fault>>
        requires { self.now.size ≡ P.size pager.old }
        ensures read { Reads (λ bytes. bytes) (P.tells pager.new) self.now.list
            (λ pages r. page_in self.now.size pages page ≡ r) result }
        ensures only_reads { OnlyReads P.tells P.goes P.size P.faults pager.old pager.new result }
        ensures inside { OnOk result (page < self.now.size) }
    {
        if page >= self.size {
            return Err(Stop::Refused(broken(page)));
        }
        if let Some(bytes) = self.edits.get(&page) {
            return Ok(*bytes);
        }
        let mut bytes = Page::zero();
        pager.read(page, &mut bytes).map_err(Stop::Pager)?;
        Ok(bytes)
    }

    /// Drafts an edit: the page of that number will have these bytes.
    pub fn put(&mut self, page: u32, bytes: &Page) -> Result<(), AllocError>
        requires { page < self.old.size }
        ensures drafted { OnOk result
            ((pages : Pages) → drafted pages self.new.list ≡ with_bytes (drafted pages self.old.list) page bytes.now) }
        ensures err { OnErr result (self.new.list ≡ self.old.list) }
        ensures size { self.new.size ≡ self.old.size }
    {
        self.edits.insert(page, *bytes)?;
        Ok(())
    }

    /// Makes the edits, one for each page that has some. After a fault some of them are made.
    pub fn write<P: EditPager>(&self, pager: &mut P) -> Result<(), Stop<P::Fault>>
        requires { self.now.size ≡ P.size pager.old }
        ensures writes { Writes (P.tells pager.old) (P.tells pager.new) self.now.list result }
        ensures goes { P.goes pager.old pager.new }
        ensures size { P.size pager.new ≡ P.size pager.old }
        ensures cause { IsCaused (P.faults pager.old) (P.faults pager.new) result }
    {
        for place in (0..self.edits.len()).rev() {
            if let Some((page, bytes)) = self.edits.get_index(place) {
                if let Err(fault) = pager.edit(*page, bytes) {
                    return Err(Stop::Pager(fault));
                }
            }
        }
        Ok(())
    }
}
