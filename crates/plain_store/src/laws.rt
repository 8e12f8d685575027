//! What the turns of sessions make of the journal, proved.

ghost use Rattle.plain_store.specs.Turns.{TurnsJoin};

/// The turns of sessions join: what each has seen begins the journal, and the rest is of others.
pub fn laws_of_turns()
    ensures { TurnsJoin }
{}
