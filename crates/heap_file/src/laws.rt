//! What heap pages hold.

ghost use Rattle.heap_file.specs.Laws.{AnswersAreOne};
ghost use Rattle.heap_file.specs.HeapPage.{HoldsOne, WrittenHolds, ZeroIsEmpty};

/// The bytes of a page hold one thing alone.
pub fn holds_one()
    ensures { HoldsOne }
{}

/// A page that was never written is an empty heap page.
#[tactic(auto, using(crate::proofs::Packing::zero_is_empty))]
pub fn zero_is_empty()
    ensures { ZeroIsEmpty }
{}

/// A page that was written holds what was written.
pub fn written_holds()
    ensures { WrittenHolds }
{}

/// The pages determine what `make`, `next_number`, `get` and `add` answer, and the pages after them.
pub fn answers_are_one()
    ensures { AnswersAreOne }
{}
