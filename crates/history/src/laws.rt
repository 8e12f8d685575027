//! What follows from the definitions.

ghost use Rattle.history.specs.Laws.{AsOfStays, AsOfTheDeclaration, CapturedByTheRule, CapturesAreCounted};
ghost use Rattle.history.specs.Laws.{CapturesGrow, FrontIsSound, HorizonRises, JournalCapturesGrow};
ghost use Rattle.history.specs.Laws.{JournalPages, MadeIsConsistent, NothingTwice, OneMoreLine};
ghost use Rattle.history.specs.Laws.{PinnedAreRetained, StartsCount, StaysConsistent, StaysRight};
ghost use Rattle.history.specs.LineLaws.{BaseOfOneMore, BaseStaysRight, ChangedSinceInOneMore, ChangesMayFollow};
ghost use Rattle.history.specs.LineLaws.{CommitIsLastChange, CommitsAreSound, CommitsHoldImages};
ghost use Rattle.history.specs.LineLaws.{DoubtInOneMore, DropLeaves, DropsAreBelowPins, EndedPinsNothing};
ghost use Rattle.history.specs.LineLaws.{FaultsDifferInOneMore, FaultsOfFrontDiffer, FaultsOfOneMore};
ghost use Rattle.history.specs.LineLaws.{FirstStopInOneMore, FirstStops, ImagesInOneMore, LastChangeInOneMore};
ghost use Rattle.history.specs.LineLaws.{LinesOfOneMore, LookedAtStays, LooksPin, NoneStops};
ghost use Rattle.history.specs.LineLaws.{OnlyStopsLeaveDoubt, OpenByALine, OpenInOneMore, OpenWhereLastBegins};
ghost use Rattle.history.specs.LineLaws.{OthersHoldNoImages, OthersPinsStay, PageOfTheDeclaringLine};
ghost use Rattle.history.specs.LineLaws.{PagesAsOfStay, PinsOfOneMore, SoundWithOneMore, UnchangedStays};

/// Of the captures of a consistent history.
pub fn laws_of_captures()
    // A store where nothing was declared and nothing captured has a consistent history.
    ensures made { MadeIsConsistent }
    // Changes leave a consistent history consistent.
    ensures stays { StaysConsistent }
    // There are as many captures as the log says.
    ensures counted { CapturesAreCounted }
    // A change adds what it captures at the end, and leaves the captures before it.
    ensures grow { CapturesGrow }
    // A commit captures what a written page had exactly where a snapshot was declared before and the page has no
    // capture since the newest one.
    ensures by_the_rule { CapturedByTheRule }
    // A commit whose pages were all captured since the newest snapshot captures nothing.
    ensures nothing_twice { NothingTwice }
    // A snapshot's start is the number of captures up to and including the commit that declared it.
    ensures starts { StartsCount }
{}

/// Of the pages as of a snapshot: the bytes of the first capture from its start on, or the current page.
pub fn laws_of_the_past()
    // While a snapshot is retained, a page as of it is the page just after the commit that declared it.
    ensures declared { AsOfTheDeclaration }
    // While a snapshot is retained, no page as of it changes.
    ensures stays { AsOfStays }
    // So it is over the lines of a sound journal.
    ensures declaring_line { PageOfTheDeclaringLine }
    ensures more_lines { PagesAsOfStay }
{}

/// Of journals, and of the changes that they leave in the log.
pub fn laws_of_journals()
    // One line more leaves its own change behind those of the lines before it.
    ensures one_more { OneMoreLine }
    // The pages that the changes make are those that the committed items write.
    ensures pages { JournalPages }
    // As a sound journal goes on, what it captured stays.
    ensures captures { JournalCapturesGrow }
{}

/// Of sound journals.
pub fn laws_of_sound_journals()
    // The front of a sound journal is sound.
    ensures front { FrontIsSound }
    // One line more is sound where there is room for it and it keeps the rules.
    ensures one_more { SoundWithOneMore }
    // So it is with a commit that may follow.
    ensures commits { CommitsAreSound }
    // The changes that a sound journal leaves are right, each at its place.
    ensures follow { ChangesMayFollow }
    // Behind it the base is right.
    ensures right { BaseStaysRight }
    // Each pinned snapshot is retained.
    ensures pinned { PinnedAreRetained }
    // No drop is below nothing, of the newest snapshot, or of one that is pinned.
    ensures drops { DropsAreBelowPins }
    // Behind a drop the retained snapshots from its number on are left.
    ensures drop_leaves { DropLeaves }
    // While a look has no end, what it looked at stays retained.
    ensures looks { LookedAtStays }
    // As a sound journal goes on, the oldest and the newest snapshot and the oldest start do not fall.
    ensures horizon { HorizonRises }
{}

/// Of what the lines of a journal tell: what one line more adds.
pub fn laws_of_lines()
    ensures base { BaseOfOneMore }
    ensures pins { PinsOfOneMore }
    ensures lines { LinesOfOneMore }
    ensures images { ImagesInOneMore }
    ensures open_items { OpenInOneMore }
    ensures changes { LastChangeInOneMore }
    ensures since { ChangedSinceInOneMore }
    ensures stops { FirstStopInOneMore }
    ensures doubts { DoubtInOneMore }
    ensures faults { FaultsOfOneMore }
    // The faults differ as before, and the line's is newer than each of its device.
    ensures differ { FaultsDifferInOneMore }
    // In a front of a journal the faults differ too.
    ensures front { FaultsOfFrontDiffer }
{}

/// Of the pins of open looks, item by item.
pub fn laws_of_pins()
    // A look pins its snapshot, and a look at all of them each that is retained there.
    ensures looks { LooksPin }
    // Behind a line that ends a look its item pins nothing.
    ensures ended { EndedPinsNothing }
    // No line changes what other items pin.
    ensures others { OthersPinsStay }
{}

/// Of the items that are open.
pub fn laws_of_open_items()
    // An item is open exactly where its last line begins it.
    ensures last { OpenWhereLastBegins }
    // An item without a line is not open.
    ensures no_line { OpenByALine }
{}

/// Of the changes of pages.
pub fn laws_of_page_changes()
    // A commit adds as many images as it writes.
    ensures images { CommitsHoldImages }
    // No other line adds one.
    ensures no_images { OthersHoldNoImages }
    // A commit of another item that writes the page is its last change.
    ensures last { CommitIsLastChange }
    // A page that neither another item nor a commit of this one changed is as it was.
    ensures unchanged { UnchangedStays }
{}

/// Of the first fault that a write or a sync met.
pub fn laws_of_stops()
    // There is none exactly where no line tells one.
    ensures no_stop { NoneStops }
    // It is the one behind lines that tell none.
    ensures first { FirstStops }
    // Only such a line tells a change in doubt.
    ensures doubt { OnlyStopsLeaveDoubt }
{}

/// Of bases.
pub fn right_bases_stay()
    // The base behind a right change is right.
    ensures { StaysRight }
{}
