//! Pages in memory.

ghost use Rattle.std.specs.Prelude.{◌≡◌, ◌≤◌, ◌<◌, ◌^◌, ◌++◌, ◌∷◌, ◌↔◌, [], IsErr, IsTrue, OnErr};
ghost use Rattle.std.specs.Prelude.{OnOk, Contains, cond, length, slice_index_or, slice_set};
ghost use Rattle.retro_base.specs.Cause.{HasCause, raised};
ghost use Rattle.pager.specs.Pages.{with_bytes};
ghost use Rattle.pager.specs.MemPages.{shown};

use crate::traits::{EditPager, Pager};
use retro_base::{Failed, Page};
use std::alloc::Global;
use std::marker::Model;

/// Pages in memory. A listed call fails and changes nothing; of the others an edit fails where memory runs out.
#[derive(Drop)]
pub struct MemPager {
    pages: Vec<Page>,
    edits: Vec<u32>,
    failing: Vec<u64>,
    calls: u64,
    faults: u64,
}

impl Model for MemPager {
    ghost use Rattle.std.specs.Prelude.{◌<◌, ◌^◌, vec_len};
    ghost use Rattle.pager.specs.MemPages.{MemPages};

    ghost Value = { MemPages };

    ghost view = { λ m. record {
      pages = m.pages.items;
      edits = m.edits.items;
      failing = m.failing.items;
      calls = m.calls;
      faults = m.faults;
    } };

    ghost invariant = { λ m. vec_len m.pages < 2 ^ 32 };
}

impl MemPager {
    /// A pager of these pages. The listed calls of `read` and `edit` fail, numbered together from 1.
    pub fn new(alloc: Global, pages: Vec<Page>, failing: Vec<u64>) -> MemPager
        requires { length pages.items < 2 ^ 32 }
        ensures { result ≡ record { pages = pages.items; edits = []; failing = failing.items; calls = 0; faults = 0 } }
    {
        MemPager {
            pages,
            edits: Vec::new(alloc),
            failing,
            calls: 0,
            faults: 0,
        }
    }

    /// The pages, as they stand.
    pub fn pages(&self) -> &[Page]
        ensures { result.now ≡ self.now.pages }
    {
        &self.pages
    }

    /// The numbers of the pages that were edited, one for each edit.
    pub fn edits(&self) -> &[u32]
        ensures { result.now ≡ self.now.edits }
    {
        &self.edits
    }

    // Counts a call, and a fault where it is listed. True where it fails.
    fn fails(&mut self) -> bool
        ensures listed { IsTrue result ↔ Contains self.old.failing (raised self.old.calls) }
        ensures counted { self.new ≡ record self.old
            { calls = raised self.old.calls; faults = cond result (raised self.old.faults) self.old.faults } }
        ensures later { self.old.faults ≤ self.new.faults }
    {
        self.calls = self.calls.saturating_add(1);
        let fails = self.failing.contains(&self.calls);
        if fails {
            self.faults = self.faults.saturating_add(1);
        }
        fails
    }
}

impl Pager for MemPager {
    ghost use Rattle.std.proofs.Common.{◌∙◌, refl};

    type Fault = Failed;

    ghost tells = { λ m base now. now ≡ shown m };

    ghost goes = { λ m n. n.failing ≡ m.failing };

    ghost size = { λ m. length m.pages };

    ghost faults = { λ m. m.faults };

    fn read(&mut self, page: u32, out: &mut Page) -> Result<(), Failed>
        requires { page < length self.old.pages }
        // Exactly the listed calls fail.
        ensures listed { IsErr result ↔ Contains self.old.failing (raised self.old.calls) }
        ensures ok { OnOk result (self.new ≡ record self.old { calls = raised self.old.calls }) }
        ensures err { OnErr result
            (self.new ≡ record self.old { calls = raised self.old.calls; faults = raised self.old.faults }) }
        ensures told { OnOk result (out.new ≡ slice_index_or self.old.pages page []) }
        ensures cause { HasCause self.old.faults self.new.faults result }
    {
        if self.fails() {
            return Err(Failed);
        }
        *out = self.pages[page as usize];
        Ok(())
    }

    fn size(&self) -> u32 {
        self.pages.len() as u32
    }

    fn faults(&self) -> u64 {
        self.faults
    }

    ghost stays = { λ m. refl };

    ghost goes_on = { λ m n o one two. two ∙ one };
}

impl EditPager for MemPager {
    fn edit(&mut self, page: u32, bytes: &Page) -> Result<(), Failed>
        requires { page < length self.old.pages }
        // The listed calls fail, and else only those for which there is no memory.
        ensures listed { Contains self.old.failing (raised self.old.calls) → IsErr result }
        ensures ok { OnOk result
            (self.new ≡ record self.old {
              pages = slice_set self.old.pages page bytes.now;
              edits = self.old.edits
                  ++ page ∷ [];
              calls = raised self.old.calls;
            }) }
        ensures err { OnErr result
            (self.new ≡ record self.old { calls = raised self.old.calls; faults = raised self.old.faults }) }
        ensures shown { OnOk result (shown self.new ≡ with_bytes (shown self.old) page bytes.now) }
        ensures steady { OnErr result (shown self.new ≡ shown self.old) }
        ensures cause { HasCause self.old.faults self.new.faults result }
    {
        if self.fails() {
            return Err(Failed);
        }
        if self.edits.push(page).is_err() {
            self.faults = self.faults.saturating_add(1);
            return Err(Failed);
        }
        self.pages[page as usize] = *bytes;
        Ok(())
    }
}
