//! What a commit writes.

ghost use Rattle.std.specs.Prelude.{◌≡◌, IsTrue};
ghost use Rattle.history.specs.Writes.{pages_of, rises};

use retro_base::Page;
use std::marker::Model;

/// A page's number, and bytes that the page has or had.
#[derive(Clone, Copy, Debug, PartialEq, Eq)]
pub struct PageImage {
    pub page: u32,
    pub bytes: Page,
}

/// What a commit writes: pages with their new bytes, in strictly rising page number. Contracts see the list.
#[derive(Debug, Drop)]
pub struct Writes {
    images: Vec<PageImage>,
}

impl Model for Writes {
    ghost use Rattle.std.specs.Prelude.{List, IsTrue};
    ghost use Rattle.history.specs.declared.writes.PageImage.{PageImage};
    ghost use Rattle.history.specs.Writes.{pages_of, rises};

    ghost Value = { List PageImage };

    ghost view = { λ w. w.images.items };

    ghost invariant = { λ w. IsTrue (rises 0 (pages_of w.images.items)) };
}

impl Writes {
    /// The writes of these images; takes no memory.
    pub fn new(images: Vec<PageImage>) -> Writes
        requires { IsTrue (rises 0 (pages_of images.items)) }
        ensures { result ≡ images.items }
    {
        Writes { images }
    }

    /// The written pages with their new bytes.
    pub fn images(&self) -> &[PageImage]
        ensures value { result.now ≡ self.now }
        ensures rising { IsTrue (rises 0 (pages_of self.now)) }
    {
        &self.images
    }

    /// The images of the writes; takes no memory.
    pub fn into_images(self) -> Vec<PageImage>
        ensures value { result.items ≡ self }
        ensures rising { IsTrue (rises 0 (pages_of self)) }
    {
        self.images
    }
}
