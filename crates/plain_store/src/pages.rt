//! The pages of a store.

ghost use Rattle.std.specs.Prelude.{◌≡◌, ◌<◌, ℕ, [], length, replicate, IfOk, IsTrue, OnOk};
ghost use Rattle.std.specs.List.{AllByRecursion};
ghost use Rattle.retro_base.specs.declared.limits.TheConstants.{PAGE_BYTES};
ghost use Rattle.history.specs.History.{written};
ghost use Rattle.history.specs.Writes.{pages_of, rises};
ghost use Rattle.plain_store.specs.Page.{bytes_in, AreCaptured, AreWritten, IsWithin, MayChange, page_at};

use crate::page::VersionedPage;
use history::PageImage;
use journal_book::edit_of;
use retro_base::Page;
use std::alloc::{AllocError, Global};

/// So many pages of zeros. Refused for want of memory alone.
pub fn zero_pages(alloc: Global, count: u32) -> Result<Vec<VersionedPage>, AllocError>
    ensures { IfOk result (λ pages.
        pages.items ≡ replicate count (record { bytes = replicate PAGE_BYTES 0; past = [] })) }
{
    let mut pages = Vec::with_capacity(alloc, count as usize)?;
    for _ in 0..count {
        pages.push(VersionedPage::zero(alloc))?;
    }
    Ok(pages)
}

/// A page under edits.
pub fn shown_page(pages: &[VersionedPage], edits: &[PageImage], page: u32) -> Page
    requires in_store { page < length pages.now }
    requires rise { IsTrue (rises 0 (pages_of edits.now)) }
    ensures { result ≡ written (bytes_in pages.now) edits.now page }
{
    match edit_of(page, edits) {
        Some(bytes) => *bytes,
        None => *pages[page as usize].bytes(),
    }
}

/// Keeps the written pages as those at the newest snapshot. Refused for want of memory alone; then some of them are
/// kept.
pub fn capture_pages(
    pages: &mut [VersionedPage],
    newest: u32,
    writes: &[PageImage],
) -> Result<(), AllocError>
    requires in_store { AllByRecursion (λ write. write.page < length pages.old) writes.now }
    requires within { (page : ℕ) → IsWithin newest (page_at pages.old page) }
    ensures captured { AreCaptured newest pages.old pages.new }
    ensures may_change { OnOk result (MayChange newest pages.new writes.now) }
{
    for write in writes {
        pages[write.page as usize].capture(newest)?;
    }
    Ok(())
}

/// Writes pages.
pub fn write_pages(pages: &mut [VersionedPage], writes: &[PageImage])
    requires { AllByRecursion (λ write. write.page < length pages.old) writes.now }
    ensures { AreWritten writes.now pages.old pages.new }
{
    for write in writes {
        pages[write.page as usize].put(&write.bytes);
    }
}
