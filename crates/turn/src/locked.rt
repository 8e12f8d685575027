//! What lies in the locks, as the locks see it.

/// What a store was opened with, as plain data.
pub trait Opening {
    ghost use Rattle.std.specs.Prelude.{◌++◌, List};
    ghost use Rattle.history.specs.declared.journal.Line.{Line};
    ghost use Rattle.turn.specs.Meanings.{OpeningMeaning};

    ghost meaning: { OpeningMeaning Self };

    /// Each front of a lawful journal is lawful.
    ghost fronts: { (o : Self) (lines more : List Line)
        → Self.meaning.Lawful o (lines ++ more) → Self.meaning.Lawful o lines };
}

/// What lies in the desk's lock: the side of a store that keeps its journal.
pub trait DeskValue {
    type Opening: Opening;

    type Work;

    ghost use Rattle.std.specs.Prelude.{◌≡◌};
    ghost use Rattle.history.specs.Lines.{horizon_of};
    ghost use Rattle.turn.specs.Meanings.{DeskMeaning};

    ghost meaning: { DeskMeaning Self.Opening Self.Work Self };

    /// The oldest and the newest snapshot behind the journal.
    fn horizon(&self) -> (u32, u32)
        requires { Self.meaning.Fits self.now }
        ensures { result ≡ horizon_of (Self.Opening.meaning.base (Self.meaning.opening self.now))
            (Self.meaning.journal self.now) };
}

/// What lies in the vault's lock: the side of a store that keeps its pre-states.
pub trait VaultValue<O: Opening> {
    ghost use Rattle.std.specs.Prelude.{◌≡◌, ◌++◌, List};
    ghost use Rattle.history.specs.declared.journal.Line.{Line};
    ghost use Rattle.turn.specs.Meanings.{VaultMeaning};

    ghost meaning: { VaultMeaning O Self };

    /// How many mappings it has, from the first of the store on.
    fn held(&self) -> u64
        ensures { result ≡ Self.meaning.held self.now };

    /// It stands for each lawful journal that goes on from one that it stands for.
    ghost outlives: { (b : Self) (o : O) (lines more : List Line) → Self.meaning.Fits b o lines
        → O.meaning.Lawful o (lines ++ more) → Self.meaning.Fits b o (lines ++ more) };
}
