//! What follows from the definitions.

ghost use Rattle.gate_log.specs.Laws.{ReadOneWay};

/// The list of a region is a function of its bytes, and so is the place at which they break.
pub fn records_are_read_one_way()
    ensures { ReadOneWay }
{}
