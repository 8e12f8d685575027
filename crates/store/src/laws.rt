//! Of the pages now and at each retained snapshot.

ghost use Rattle.store.specs.Moments.{BesideOpens, CarryOpens, CommitOpens, CutOpens, DropOpens, EditOpens};
ghost use Rattle.store.specs.Moments.{LookUpOpens, PeekOpens, QuietOpens, ReadOpens, SettleOpens, WriteBackOpens};
ghost use Rattle.store.specs.Recovery.{ClosedShows, OpeningShows, OpensShown};
ghost use Rattle.store.specs.Within.{LeftOpens};
ghost use Rattle.store.specs.Worlds.{NamesAreSame, NamesStay, OthersAreRefused};
ghost use Rattle.store.specs.Worlds.{PinsAreSame, RetainedAreHeld, WorldIsOfHistory};

use disk_model::Disk;

/// The pages that a journal leaves, as the log and the history tell them.
pub fn laws_of_worlds()
    // Behind the lines of a journal the snapshots have the numbers and labels that its log says.
    ensures names { NamesStay }
    // The open looks pin the same snapshots.
    ensures pins { PinsAreSame }
    ensures same { NamesAreSame }
    // A retained snapshot has its pages.
    ensures held { RetainedAreHeld }
    // No other number is a snapshot's.
    ensures others { OthersAreRefused }
    // Behind a sound journal the pages are those of the history behind it.
    ensures world { WorldIsOfHistory }
{}

/// The pages that readers see of a store that was just opened, and of what a crash leaves of one that is closed.
pub fn laws_of_crashes<D: Disk + Drop>()
    // Of the history that a store was just opened to readers see the pages that its devices and memory tell.
    ensures opening { OpeningShows D.is_honest D.state }
    // Of what opens to a history behind a journal they see the world behind it, or that behind the change in doubt.
    ensures opens { OpensShown }
    // So they see of whatever a crash leaves of a store that is closed.
    ensures closed { ClosedShows D.is_honest D.state D.faults }
    // Whatever a crash leaves of the four devices within a call of the desk's, one of the archive's, or both, they open
    // to the history behind the journal, or to it with the change in doubt.
    ensures within { LeftOpens D.is_honest D.state }
    // So they do of a desk and the archive that stands beside it, as each visit to the desk tells.
    ensures beside { BesideOpens D.is_honest D.state D.faults }
{}

/// Whatever a crash leaves of the four devices since a visit began opens to the history behind the journal that the
/// visit found, or to it with the one change in doubt.
pub fn laws_of_visits<D: Disk + Drop>()
    // A visit to the desk that touches no device.
    ensures quiet { QuietOpens D.is_honest D.state D.faults D.remembers D.clock }
    // One that reads a page, edits it, or reads it as of a snapshot.
    ensures read { ReadOpens D.is_honest D.state D.faults D.remembers D.clock }
    ensures edit { EditOpens D.is_honest D.state D.faults D.remembers D.clock }
    ensures peek { PeekOpens D.is_honest D.state D.faults D.remembers D.clock }
    // One that writes a page back, makes the pages durable, or cuts the log.
    ensures write_back { WriteBackOpens D.is_honest D.state D.faults D.remembers D.clock }
    ensures settle { SettleOpens D.is_honest D.state D.faults D.remembers D.clock }
    ensures cut { CutOpens D.is_honest D.state D.faults D.remembers D.clock }
    // One that commits, or drops snapshots: its own change may be in doubt.
    ensures commit { CommitOpens D.is_honest D.state D.faults D.remembers D.clock }
    ensures drop { DropOpens D.is_honest D.state D.faults D.remembers D.clock }
    // A visit to the vault with a batch, and one that looks a page up.
    ensures carry { CarryOpens D.is_honest D.state D.faults D.remembers D.clock }
    ensures look_up { LookUpOpens D.is_honest D.state D.faults D.remembers D.clock }
{}
