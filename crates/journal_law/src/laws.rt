//! The law, proved.

ghost use Rattle.journal_law.specs.Laws.{LawOfTheJournal};
ghost use Rattle.journal_law.specs.LinesFit.{LinesFit};
ghost use Rattle.journal_law.specs.RepliesTold.{RepliesTold};
ghost use Rattle.journal_law.specs.Seating.{SeatsSuffice};
ghost use Rattle.std.specs.Prelude.{Option};
ghost use Rattle.retro_base.specs.declared.who.Who.{Who};

/// The language of the items of a run.
pub trait Language {
    ghost use Rattle.journal_law.specs.Language.{Language as LanguageOf};

    ghost language: { LanguageOf };
}

/// What sessions know of their own lines makes the whole journal lawful, in any language.
#[tactic(auto, using(crate::proofs::Journal::law))]
pub fn law_of_the_journal<T: Language>()
    ensures { LawOfTheJournal T.language }
{}

/// A line of each kind fits, by what its session knows when it records it.
pub fn lines_fit<T: Language>()
    ensures { LinesFit T.language }
{}

/// What a session tells of an item that has ended is the item's reply.
pub fn replies_are_told<T: Language>()
    ensures { RepliesTold T.language }
{}

/// What the calls of a seat promise gives the facts of its lines.
pub fn seats_suffice<T: Language>()
    ensures { (items : Who → Option T.language.Item) → SeatsSuffice T.language items }
{}
