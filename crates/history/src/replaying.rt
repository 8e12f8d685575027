//! What changes make of a store, computed plainly.

ghost use Rattle.std.specs.Prelude.{◌≡◌, ◌<◌, ◌++◌, ◌↔◌, ℕ, length, map, IfOk, IfSome, IsSome};
ghost use Rattle.std.specs.List.{AllByRecursion};
ghost use Rattle.history.specs.declared.entry.Change.TheVariants.{Commit};
ghost use Rattle.history.specs.History.{capturing, before_write, written, after, captured_by};
ghost use Rattle.history.specs.Right.{IsRight};
ghost use Rattle.history.specs.Replayed.{page_in, state_of};

use crate::entry::Change;
use crate::running::RunningBase;
use crate::writes::PageImage;
use retro_base::Page;
use std::alloc::{AllocError, Global};
use values::Seq;

/// A store as changes leave it: what the log says behind them, the pages, and what they captured.
#[derive(Debug, Drop)]
pub struct Replayed {
    pub base: RunningBase,
    pub pages: Seq<Page>,
    pub captures: Seq<PageImage>,
}

// The bytes that the captured pages among these writes had.
fn pre_states(
    alloc: Global,
    base: &RunningBase,
    pages: &[Page],
    writes: &[PageImage],
) -> Result<Vec<PageImage>, AllocError>
    requires { AllByRecursion (λ write. write.page < length pages.now) writes.now }
    ensures { IfOk result (λ images. images.items ≡
        map (before_write (page_in pages.now)) (capturing base.now writes.now)) }
{
    let mut images = Vec::new(alloc);
    for write in writes {
        if base.captures_page(write.page) {
            images.push(PageImage {
                page: write.page,
                bytes: pages[write.page as usize],
            })?;
        }
    }
    Ok(images)
}

fn write_pages(pages: &mut [Page], writes: &[PageImage])
    requires { AllByRecursion (λ write. write.page < length pages.old) writes.now }
    ensures { (page : ℕ) → page_in pages.new page ≡ written (page_in pages.old) writes.now page }
{
    for write in writes {
        pages[write.page as usize] = write.bytes;
    }
}

impl Replayed {
    // Writes pages, with what that captures behind the base as it is.
    fn write(self, alloc: Global, writes: &[PageImage]) -> Result<Replayed, AllocError>
        requires { AllByRecursion (λ write. write.page < length self.pages) writes.now }
        ensures base { IfOk result (λ store. store.base ≡ self.base) }
        ensures pages { IfOk result (λ store. (page : ℕ) →
            page_in store.pages page ≡ written (page_in self.pages) writes.now page) }
        ensures captures { IfOk result (λ store. store.captures ≡
            self.captures ++ map (before_write (page_in self.pages)) (capturing self.base writes.now)) }
        ensures whole { IfOk result (λ store. length store.pages ≡ length self.pages) }
    {
        let images = pre_states(alloc, &self.base, self.pages.as_slice(), writes)?;
        let mut captures = Vec::from(self.captures);
        captures.extend_from_slice(&images)?;
        let mut pages = Vec::from(self.pages);
        write_pages(&mut pages, writes);
        Ok(Replayed {
            base: self.base,
            pages: Seq::from(pages),
            captures: Seq::from(captures),
        })
    }

    /// The store behind one more change; None exactly where the change is not right there. Refused for want of
    /// memory alone.
    pub fn apply(self, alloc: Global, change: &Change) -> Result<Option<Replayed>, AllocError>
        requires { length self.pages ≡ self.base.page_count }
        ensures state { IfOk result (λ found. IfSome found (λ store.
            state_of store ≡ after (state_of self) change.now)) }
        ensures captures { IfOk result (λ found. IfSome found (λ store.
            store.captures ≡ self.captures ++ captured_by (state_of self) change.now)) }
        ensures whole { IfOk result (λ found. IfSome found (λ store. length store.pages ≡ store.base.page_count)) }
        ensures right { IfOk result (λ found. IsSome found ↔ IsRight self.base change.now) }
    {
        if !self.base.is_right(change) {
            return Ok(None);
        }
        let mut store = match change {
            Change::Commit { writes, .. } => self.write(alloc, writes.images())?,
            Change::Drop { .. } => self,
        };
        store.base.apply(alloc, change)?;
        Ok(Some(store))
    }
}
