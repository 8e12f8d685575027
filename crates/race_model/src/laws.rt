//! What holds of every list of steps and every crash.

ghost use Rattle.race_model.specs.Apart.{AllOutlive, BatchesFit, FindAfterPeek, FindsAlike, HistoryOutlives};
ghost use Rattle.race_model.specs.Apart.{HistoryOutlivesLines, MayCutSettled, MaySend, MayWriteBack, Outlives};
ghost use Rattle.race_model.specs.Apart.{OutlivesLines, PastIsRight, PastOverLines, PeekTells, TrimLeaves, VaultFinds};
ghost use Rattle.race_model.specs.Laws.{ApartOpen, BothAtOnce, DeskImagesOpen, FailuresCover};
ghost use Rattle.race_model.specs.Laws.{ImagesOpen, LivesKeep, LivesOpen, MadeFits, MaplogInVersion};
ghost use Rattle.race_model.specs.Laws.{OpenedFits, ReadFits, SamePast, StepsKeep, VaultImagesHold};

/// Of the machine's invariant.
pub fn steps_keep()
    // It holds of a store that was just made.
    ensures made { MadeFits }
    // It holds of the machine that an opening makes, whatever contents that belong together were opened.
    ensures opened { OpenedFits }
    // What the bodies of a log stand for is such contents, with mappings that belong to it.
    ensures read { ReadFits }
    // Every step keeps it.
    ensures steps { StepsKeep }
    // So does every list of steps with crashes and openings between.
    ensures lives { LivesKeep }
{}

/// Of crashes.
pub fn crashes_open()
    // Whatever the devices may hold opens to the history, or to it with the one change whose call failed, its log in
    // the desk's version or that of a new base whose call failed.
    ensures images { ImagesOpen }
    // Its Maplog is in the vault's version, or that of one whose call failed.
    ensures maplog { MaplogInVersion }
    // So it is behind every list of steps and crashes.
    ensures lives { LivesOpen }
    // So it is where the calls of two sides fail at once.
    ensures at_once { BothAtOnce }
    // What opens to the same world has the same pages as of each retained snapshot.
    ensures past { SamePast }
{}

/// A crash within a call leaves what the call's failing may leave.
pub fn a_failing_covers_its_call()
    ensures { FailuresCover }
{}

/// Of the desk and the vault apart, as their own contracts have it.
pub fn images_apart()
    // Whatever the desk's devices may hold opens, beside any archive that holds what the desk needs.
    ensures desk { DeskImagesOpen }
    // Whatever the vault's devices may hold has the captures up to its count.
    ensures vault { VaultImagesHold }
    // Together they open, where the archive holds what the desk needs.
    ensures together { ApartOpen }
{}

/// What fits a history fits it when it has gone on, whoever holds it meanwhile.
pub fn histories_go_on()
    // A history, with changes that each may follow.
    ensures history { HistoryOutlives }
    // A vault, a batch, and what a reader was told, whatever changes follow that leave the newest snapshot.
    ensures changes { AllOutlive Outlives }
    // So each over the lines of a sound journal.
    ensures history_lines { HistoryOutlivesLines }
    ensures lines { AllOutlive OutlivesLines }
{}

/// Of batches on their way to the vault, and of what it forgets.
pub fn batches_go_between()
    // While captures are not acknowledged, each count of 1 to 64 of them is a batch, and fits.
    ensures batches { BatchesFit }
    // A trim up to what is held leaves what is held, and what is found from the new lowest on.
    ensures trim { TrimLeaves }
{}

/// A desk and a vault that go on are never stuck.
pub fn work_goes_on()
    // A dirty page may be written back once each of its captures is acknowledged.
    ensures write { MayWriteBack }
    // With no dirty page, and all captures acknowledged, a settled desk may cut its log.
    ensures cut { MayCutSettled }
    // A batch of a desk that knows of all that the vault holds may be laid and entered, and then acknowledged.
    ensures send { MaySend }
{}

/// A reader asks the desk and later the vault, whatever is done between: it finds the page as of the pinned snapshot.
pub fn readers_find_the_past()
    // What the desk tells is right.
    ensures tells { PeekTells }
    // With what was told the vault finds, also one that has stopped, by whichever of its mappings it keeps in memory.
    ensures finds { VaultFinds }
    // A page's first mapping is one number in all of these.
    ensures alike { FindsAlike }
    // So it is of a desk at one place of a history and a vault at a later one.
    ensures past { PastIsRight }
    // So it is where one has seen some lines of a sound journal and the other more.
    ensures over_lines { PastOverLines }
    // So it is of a machine, whatever steps were done since the desk told.
    ensures machine { FindAfterPeek }
{}
