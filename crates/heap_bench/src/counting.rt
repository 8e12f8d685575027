//! A pager that counts the pages that are read.

ghost use Rattle.std.specs.Prelude.{◌≡◌};

use pager::{EditPager, MemPager, Pager};
use retro_base::{Failed, Page};

/// Pages in memory, and how many of them were read so far.
#[derive(Drop)]
pub struct Counting {
    pages: MemPager,
    reads: u64,
}

impl Counting {
    pub fn new(pages: MemPager) -> Counting
        ensures { result.pages ≡ pages }
    {
        Counting { pages, reads: 0 }
    }

    /// How many pages were read so far. The count stops at the last value of a u64.
    pub fn reads(&self) -> u64
        ensures { result ≡ self.now.reads }
    {
        self.reads
    }
}

impl Pager for Counting {
    ghost use Rattle.std.specs.Prelude.{length};
    ghost use Rattle.std.proofs.Common.{◌∙◌, refl};
    ghost use Rattle.pager.specs.MemPages.{shown};

    type Fault = Failed;

    ghost tells = { λ c base now. now ≡ shown c.pages };

    ghost goes = { λ c d. d.pages.failing ≡ c.pages.failing };

    ghost size = { λ c. length c.pages.pages };

    ghost faults = { λ c. c.pages.faults };

    fn read(&mut self, page: u32, out: &mut Page) -> Result<(), Failed> {
        self.reads = self.reads.saturating_add(1);
        self.pages.read(page, out)
    }

    fn size(&self) -> u32 {
        self.pages.size()
    }

    fn faults(&self) -> u64 {
        self.pages.faults()
    }

    ghost stays = { λ c. refl };

    ghost goes_on = { λ c d e one two. two ∙ one };
}

impl EditPager for Counting {
    fn edit(&mut self, page: u32, bytes: &Page) -> Result<(), Failed> {
        self.pages.edit(page, bytes)
    }
}
