//! What follows where a call is not refused.

ghost use Rattle.txn_set.specs.PinLaws.{BeginPins, ClosePins, CommitPins, DropPins, FaultPins};
ghost use Rattle.txn_set.specs.PinLaws.{LookAllPins, LookPins, OpenPins, ToldPins};
ghost use Rattle.txn_set.specs.Laws.{CommitsAreRight, CommitsStaySound, DeskGoesOn, DropsStaySound, ImagesFit};

/// Of commits that are not refused.
pub fn laws_of_commits()
    // One that writes or declares is right at its place.
    ensures right { CommitsAreRight }
    // Its page images fit the journal.
    ensures images { ImagesFit }
    // Where it leaves a record, nothing has stopped the desk.
    ensures going { DeskGoesOn }
    // Its line keeps the journal sound.
    ensures sound { CommitsStaySound }
{}

/// Of drops that are not refused: their line keeps the journal sound.
pub fn law_of_drops()
    ensures { DropsStaySound }
{}

/// Of what the open looks pin: behind each call it is what the journal says.
pub fn laws_of_pins()
    ensures begin { BeginPins }
    ensures look { LookPins }
    ensures look_all { LookAllPins }
    ensures told { ToldPins }
    ensures close { ClosePins }
    ensures commit { CommitPins }
    ensures open_still { OpenPins }
    ensures drop { DropPins }
    ensures fault { FaultPins }
{}
