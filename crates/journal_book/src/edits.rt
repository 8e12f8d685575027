//! Edits in rising page.

ghost use Rattle.std.specs.Prelude.{◌≡◌, ◌<◌, ◌≤◌, ℕ, IsTrue, IfOk, IfErr, MatchResult};
ghost use Rattle.std.specs.Prelude.{length, slice_index_or, option_copied};
ghost use Rattle.history.specs.Writes.{is_among, pages_of, rises};
ghost use Rattle.history.specs.declared.writes.PageImage.{PageImage};
ghost use Rattle.journal_book.specs.Works.{GoesTo, IsThere, own_edit, with_edit};

use history::{PageImage, Writes};
use retro_base::Page;

// The place of the first image that is of this page or a greater one.
fn place_of(page: u32, images: &[PageImage]) -> usize
    requires { IsTrue (rises 0 (pages_of images.now)) }
    ensures bound { result ≤ length images.now }
    ensures below { (place : ℕ) (d : PageImage) → place < result → (slice_index_or images.now place d).page < page }
    ensures others { (place : ℕ) (d : PageImage) → result ≤ place → place < length images.now
        → page ≤ (slice_index_or images.now place d).page }
{
    images.partition_point(|image| image.page < page)
}

/// The place of the page's image, or the place where one would go.
fn find(page: u32, images: &[PageImage]) -> Result<usize, usize>
    requires { IsTrue (rises 0 (pages_of images.now)) }
    ensures { MatchResult result (IsThere page images.now) (GoesTo page images.now) }
{
    let place = place_of(page, images);
    if place >= images.len() {
        return Err(place);
    }
    if images[place].page == page {
        return Ok(place);
    }
    Err(place)
}

/// Whether the page is among these.
pub fn has_page(page: u32, images: &[PageImage]) -> bool
    requires { IsTrue (rises 0 (pages_of images.now)) }
    ensures { result ≡ is_among page (pages_of images.now) }
{
    match find(page, images) {
        Ok(_) => true,
        Err(_) => false,
    }
}

/// The bytes of the page's edit, if it has one.
pub fn edit_of(page: u32, images: &[PageImage]) -> Option<&Page>
    requires { IsTrue (rises 0 (pages_of images.now)) }
    ensures { option_copied result ≡ own_edit page images.now }
{
    match find(page, images) {
        Ok(place) => Some(&images[place].bytes),
        Err(_) => None,
    }
}

/// The edits with one more. Refused for want of memory alone, where the page was not among them: the edits come back.
pub(crate) fn with_edit(edits: Writes, image: PageImage) -> Result<Writes, Writes>
    ensures done { IfOk result (λ new. new ≡ with_edit image edits) }
    ensures refused { IfErr result (λ old. old ≡ edits) }
{
    let mut images = edits.into_images();
    match find(image.page, &images) {
        Ok(place) => {
            images[place] = image;
            Ok(Writes::new(images))
        }
        Err(place) => match images.insert(place, image) {
            Ok(()) => Ok(Writes::new(images)),
            Err(_) => Err(Writes::new(images)),
        },
    }
}
