//! Edits in rising page.

ghost use Rattle.std.specs.Prelude.{◌≡◌, ◌<◌, ◌≤◌, ℕ, IsTrue, IfErr, IfOk, MatchResult, length, slice_index_or};
ghost use Rattle.history.specs.Writes.{pages_of, rises};
ghost use Rattle.history.specs.declared.writes.PageImage.{PageImage};
ghost use Rattle.journal_book.specs.Works.{GoesTo, IsThere, with_edit};

use history::{PageImage, Writes};

// The place of the first image that is of this page or a greater one.
fn place_of(page: u32, images: &[PageImage]) -> usize
    requires { IsTrue (rises 0 (pages_of images.now)) }
    ensures bound { result ≤ length images.now }
    ensures below { (place : ℕ) (d : PageImage) → place < result → (slice_index_or images.now place d).page < page }
    ensures others { (place : ℕ) (d : PageImage) → result ≤ place → place < length images.now
        → page ≤ (slice_index_or images.now place d).page }
{
    images.partition_point(|image| image.page < page)
}

// The place of the page's image, or the place where one would go.
fn find(page: u32, images: &[PageImage]) -> Result<usize, usize>
    requires { IsTrue (rises 0 (pages_of images.now)) }
    ensures { MatchResult result (IsThere page images.now) (GoesTo page images.now) }
{
    let place = place_of(page, images);
    if place >= images.len() {
        return Err(place);
    }
    if images[place].page == page {
        return Ok(place);
    }
    Err(place)
}

/// The edits with one more. Refused for want of memory alone: the edits come back.
pub fn with_edit(edits: Writes, image: PageImage) -> Result<Writes, Writes>
    ensures done { IfOk result (λ new. new ≡ with_edit image edits) }
    ensures refused { IfErr result (λ old. old ≡ edits) }
{
    let mut images = edits.into_images();
    match find(image.page, &images) {
        Ok(place) => {
            images[place] = image;
            Ok(Writes::new(images))
        }
        Err(place) => match images.insert(place, image) {
            Ok(()) => Ok(Writes::new(images)),
            Err(_) => Err(Writes::new(images)),
        },
    }
}
