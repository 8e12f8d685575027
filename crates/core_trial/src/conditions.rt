//! What the calls of a desk ask, as tests.

ghost use Rattle.std.specs.Prelude.{◌≡◌, true, ℕ, IsTrue, IfSome};
ghost use Rattle.retro_base.specs.declared.device.Device.{Device};
ghost use Rattle.history.specs.Label.{is_label};
ghost use Rattle.history.specs.declared.journal.FailedCall.{FailedCall};
ghost use Rattle.history.specs.declared.journal.What.TheVariants.{Fault};
ghost use Rattle.journal_book.specs.Works.{work_at};
ghost use Rattle.store_core.specs.Calls.{IsPinned};
ghost use Rattle.txn_set.specs.Ledger.{IsLookingAs, IsOpenAs, MayFault, is_closed, is_idle};
ghost use Rattle.txn_set.specs.WorksFit.{Closes};

use history::is_label;
use journal_book::Work;
use retro_base::Who;
use txn_set::Ledger;

/// Whether the session has nothing open, and keeps no line of a drop in this phase.
pub(crate) fn is_idle(ledger: &Ledger, who: Who) -> bool
    ensures { IsTrue result → is_idle who (work_at ledger.now.works.slots who.session) ≡ true }
{
    match ledger.works.at(who.session) {
        None => true,
        Some(Work::KeptDrop(kept)) => kept.phase != who.phase,
        Some(_) => false,
    }
}

/// Whether the session has nothing open.
pub(crate) fn is_closed(ledger: &Ledger, who: Who) -> bool
    ensures { IsTrue result → is_closed (work_at ledger.now.works.slots who.session) ≡ true }
{
    match ledger.works.at(who.session) {
        None | Some(Work::KeptDrop(_)) => true,
        Some(_) => false,
    }
}

/// Whether a transaction of this item is open.
pub(crate) fn is_open(ledger: &Ledger, who: Who) -> bool
    ensures { IsTrue result → IsOpenAs ledger.now.works.slots who }
{
    match ledger.works.at(who.session) {
        Some(Work::Open(transaction)) => transaction.who == who,
        _ => false,
    }
}

/// Whether a look of this item is open.
pub(crate) fn is_looking(ledger: &Ledger, who: Who) -> bool
    ensures { IsTrue result → IsLookingAs ledger.now.works.slots who }
{
    match ledger.works.at(who.session) {
        Some(Work::Looking(look)) => look.who == who,
        _ => false,
    }
}

/// Whether an open look of the session pins the snapshot.
pub(crate) fn is_pinned(ledger: &Ledger, session: u16, snapshot: u32) -> bool
    ensures { IsTrue result → IsPinned ledger.now snapshot }
{
    match ledger.works.at(session) {
        Some(Work::Looking(look)) => look.pins.as_slice().contains(&snapshot),
        _ => false,
    }
}

/// Whether a fault of the item may have its line: as what the session has, but for a look, or as a worker's.
pub(crate) fn may_fault(ledger: &Ledger, who: Who) -> bool
    ensures place { IsTrue result → MayFault who ledger.now }
    ensures closes { IsTrue result → (device : Device) (count : ℕ) (call : FailedCall)
        → Closes who (Fault device count call) (work_at ledger.now.works.slots who.session) }
{
    match ledger.works.at(who.session) {
        None => ledger.book.workers() >= 1,
        Some(Work::Open(transaction)) => transaction.who == who,
        Some(Work::Looking(_)) => false,
        Some(Work::KeptDrop(_)) => true,
    }
}

/// Whether the mark, if any, is a label.
pub(crate) fn may_mark(mark: Option<&[u8]>) -> bool
    ensures { IsTrue result → IfSome mark.entry (λ bytes. IsTrue (is_label bytes.now)) }
{
    match mark {
        Some(bytes) => is_label(bytes),
        None => true,
    }
}
