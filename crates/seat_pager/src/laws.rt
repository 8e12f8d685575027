//! What sessions need of the pagers of their seats, proved.

ghost use Rattle.seat_pager.specs.Laws.{NothingIsKept, OverlapsStay, ShownAsOf};
ghost use Rattle.seat_pager.specs.Laws.{ShownAtBegan, ShownIsAsked, ShownIsMade};

use journal_law::Language;

/// Of pagers over attempts and looks, whatever the language.
pub fn laws_of_pagers()
    // Nothing is kept where an attempt has just begun.
    ensures begun { NothingIsKept }
    // An overlap stays one while others add lines.
    ensures overlaps { OverlapsStay }
    // The pages at the attempt's beginning are one base of what it shows.
    ensures began { ShownAtBegan }
    // The pages as of the snapshot are shown.
    ensures as_of { ShownAsOf }
{}

/// What statements leave on the pages that an attempt shows, whatever its base, its edits make of all pages that agree
/// with those that it read.
pub fn shown_is_made<T: Language>()
    ensures { ShownIsMade T.language }
{}

/// What a query answers over the pages that a look shows, it answers over those as of the snapshot.
pub fn shown_is_asked<T: Language>()
    ensures { ShownIsAsked T.language }
{}
