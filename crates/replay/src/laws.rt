//! What follows from the definitions.

ghost use Rattle.replay.specs.Laws.{OpenedIsConsistent, PastByFirstCapture};

/// Of whatever the devices hold.
pub fn laws_of_the_opened()
    // The history that they open to is consistent: so what follows from that holds of it too.
    ensures consistent { OpenedIsConsistent }
    // As of a retained snapshot a page has the bytes of its first capture from the snapshot's start on, which the
    // archive has in the capture's slot; where there is none, the page is as it is.
    ensures past { PastByFirstCapture }
{}
