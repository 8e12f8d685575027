//! What follows from the definitions.

ghost use Rattle.opening.specs.Laws.{AreReadOneWay};

/// Four devices hold one store at most, or break at one place of one device at most, and not both.
pub fn devices_are_read_one_way()
    ensures { AreReadOneWay }
{}
