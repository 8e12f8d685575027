//! What index pages hold.

ghost use Rattle.index_page.specs.IndexPage.{FourFit, HalvesFit, HoldsOneIndex, WrittenHoldsIndex};

/// The bytes of a page hold one thing alone.
pub fn holds_one()
    ensures { HoldsOneIndex }
{}

/// A page that was written holds what was written.
pub fn written_holds()
    ensures { WrittenHoldsIndex }
{}

/// Up to four entries fit in a page.
pub fn four_fit()
    ensures { FourFit }
{}

/// Entries that are too many for a page by one fit in two.
pub fn halves_fit()
    ensures { HalvesFit }
{}
