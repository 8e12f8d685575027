//! One attempt at a transaction.

ghost use Rattle.std.specs.Prelude.{◌≡◌, ◌++◌, ℕ, false, true, None, Option, OnOk};
ghost use Rattle.std.specs.List.{AllByRecursion};
ghost use Rattle.retro_base.specs.declared.who.Who.{Who as WhoRecord};
ghost use Rattle.script.specs.Limits.{EndFits, LabelFits, StatementFits};
ghost use Rattle.script.specs.declared.structure.End.TheVariants as script_end;
ghost use Rattle.journal_law.specs.Seats.{Attempt, CommitGives, Idle, Open, RollbackGives, is_open};
ghost use Rattle.seat_pager.specs.Transaction.{HasReasons};
ghost use Rattle.session.specs.Plan.{Item};
ghost use Rattle.session.specs.Sql.{sql};
ghost use Rattle.session.specs.Wording.{committed_as, refusal_text, rolled_back_text};
ghost use Rattle.session.specs.Attempts.{IsTrying, OverlapsFit, ending_of};
ghost use Rattle.session.specs.Transacting.{AttemptEnds, HasBegun, HasEnded, HasRun, HasTriedOnce, IsRefused};
ghost use Rattle.session.specs.Transacting.{IsText, Stands, ends_so, is_fault, item_for, overlap_of};

use crate::gate::{Gate, Point};
use crate::statements::do_lines;
use crate::wording::{write_committed, write_refusal, write_rolled_back};
use journal_law::{Ending, Seat};
use retro_base::{Refusal, Who};
use script::{End, SessionName, Transaction};
use seat_pager::TransactionPager;
use std::alloc::{AllocError, Global};
use values::Text;

/// What became of an attempt.
#[derive(Drop)]
pub enum Tried {
    /// It was the item's last, and this is the reply.
    Ended(Vec<u8>),
    /// It overlapped that item of that session.
    Overlapped(u16, u32),
    /// It was the item's last, but there was no memory for the reply.
    Untold,
    /// It was not begun.
    NotBegun,
}

// ---- texts

fn refusal_reply(alloc: Global, names: &[SessionName], why: Refusal) -> Tried
    ensures { IsText (refusal_text names.now why) result }
{
    let mut text = Vec::new(alloc);
    match write_refusal(alloc, names, why, &mut text) {
        Ok(()) => Tried::Ended(text),
        Err(_) => Tried::Untold,
    }
}

fn overlap_of(why: Refusal) -> Option<(u16, u32)>
    ensures { result ≡ overlap_of why }
{
    match why {
        Refusal::Overlap { session, item } => Some((session, item)),
        _ => None,
    }
}

// What becomes of an attempt that ended by this refusal.
fn refused(alloc: Global, names: &[SessionName], why: Refusal) -> Tried
    ensures { IsRefused names.now why result }
{
    match overlap_of(why) {
        Some(other) => Tried::Overlapped(other.0, other.1),
        None => refusal_reply(alloc, names, why),
    }
}

fn committed(alloc: Global, mut text: Vec<u8>, number: Option<u32>) -> Tried
    ensures { IsText (text.items ++ committed_as number) result }
{
    match write_committed(alloc, number, &mut text) {
        Ok(()) => Tried::Ended(text),
        Err(_) => Tried::Untold,
    }
}

fn rolled_back(mut text: Vec<u8>) -> Tried
    ensures { IsText (text.items ++ rolled_back_text) result }
{
    match write_rolled_back(&mut text) {
        Ok(()) => Tried::Ended(text),
        Err(_) => Tried::Untold,
    }
}

// ---- ends

// What is asked of a rollback, so that the attempt ends by this refusal.
fn ending_of(why: Refusal) -> Ending
    ensures { result ≡ ending_of why }
{
    match why {
        Refusal::Overlap { .. } => Ending::Asked,
        _ => Ending::Refused(why),
    }
}

fn is_fault(why: Refusal) -> bool
    ensures { result ≡ is_fault why }
{
    matches!(why, Refusal::DiskFault { .. })
}

// Ends an attempt by this refusal, which it keeps where it may be kept.
fn give_up<S: Seat>(alloc: Global, seat: &mut S, names: &[SessionName], why: Refusal) -> Tried
    requires open_now { is_open (S.view seat.old).work ≡ true }
    ensures gives { (a : Attempt) → (S.view seat.old).work ≡ Open a
        → RollbackGives (ending_of why) (S.view seat.old) (S.view seat.new) a }
    ensures told { IsRefused names.now why result }
    ensures goes { S.goes seat.old seat.new }
{
    seat.rollback(ending_of(why));
    refused(alloc, names, why)
}

// Ends an attempt whose commit was refused; a fault has ended it.
fn not_committed<S: Seat>(alloc: Global, seat: &mut S, names: &[SessionName], why: Refusal) -> Tried
    requires open_now { is_fault why ≡ false → is_open (S.view seat.old).work ≡ true }
    ensures fault { is_fault why ≡ true → seat.new ≡ seat.old }
    ensures gives { is_fault why ≡ false → (a : Attempt) → (S.view seat.old).work ≡ Open a
        → RollbackGives (ending_of why) (S.view seat.old) (S.view seat.new) a }
    ensures told { IsRefused names.now why result }
    ensures goes { S.goes seat.old seat.new }
{
    if is_fault(why) {
        return refused(alloc, names, why);
    }
    give_up(alloc, seat, names, why)
}

fn commit_as<S: Seat>(seat: &mut S, label: &Option<Text>) -> Result<Option<u32>, Refusal>
    requires open_now { is_open (S.view seat.old).work ≡ true }
    requires label { LabelFits label.now }
    ensures gives { (a : Attempt) → (S.view seat.old).work ≡ Open a
        → CommitGives label.now (S.view seat.old) (S.view seat.new) a result }
    ensures goes { S.goes seat.old seat.new }
{
    match label {
        None => seat.commit(None),
        Some(text) => seat.commit(Some(text.bytes())),
    }
}

// Commits what the statements did.
fn commit<S: Seat, G: Gate>(
    alloc: Global,
    seat: &mut S,
    gate: &G,
    who: Who,
    names: &[SessionName],
    t: &Transaction,
    label: &Option<Text>,
    text: Vec<u8>,
) -> Tried
    requires open_now { is_open (S.view seat.old).work ≡ true }
    requires label { LabelFits label.now }
    requires end { t.now.end ≡ script_end.Commit label.now }
    requires keeps_none { (a : Attempt) → (S.view seat.old).work ≡ Open a → a.kept ≡ None }
    ensures ended { HasEnded (S.view seat.old) (S.view seat.new) }
    ensures goes { S.goes seat.old seat.new }
    ensures ends { (size : ℕ) (items : WhoRecord → Option Item)
        → HasRun size items who (item_for names.now t.now) t.now.statements (S.view seat.old) text.items
        → AttemptEnds size items who (item_for names.now t.now) (S.view seat.old) (S.view seat.new) result }
{
    gate.at(Point::BeforeCommit, who.session, who.item);
    let done = commit_as(seat, label);
    gate.at(Point::AfterCommit, who.session, who.item);
    match done {
        Ok(number) => committed(alloc, text, number),
        Err(why) => not_committed(alloc, seat, names, why),
    }
}

// Rolls back what the statements did.
fn roll_back<S: Seat>(
    seat: &mut S,
    who: Who,
    names: &[SessionName],
    t: &Transaction,
    text: Vec<u8>,
) -> Tried
    requires open_now { is_open (S.view seat.old).work ≡ true }
    requires end { t.now.end ≡ script_end.Rollback }
    ensures ended { HasEnded (S.view seat.old) (S.view seat.new) }
    ensures goes { S.goes seat.old seat.new }
    ensures ends { (size : ℕ) (items : WhoRecord → Option Item)
        → HasRun size items who (item_for names.now t.now) t.now.statements (S.view seat.old) text.items
        → AttemptEnds size items who (item_for names.now t.now) (S.view seat.old) (S.view seat.new) result }
{
    seat.rollback(Ending::Asked);
    rolled_back(text)
}

// Ends an attempt whose statements have run, as the script asks.
fn finish<S: Seat, G: Gate>(
    alloc: Global,
    seat: &mut S,
    gate: &G,
    who: Who,
    names: &[SessionName],
    t: &Transaction,
    text: Vec<u8>,
) -> Tried
    requires open_now { is_open (S.view seat.old).work ≡ true }
    requires end { EndFits t.now.end }
    requires keeps_none { (a : Attempt) → (S.view seat.old).work ≡ Open a → a.kept ≡ None }
    ensures ended { HasEnded (S.view seat.old) (S.view seat.new) }
    ensures goes { S.goes seat.old seat.new }
    ensures ends { (size : ℕ) (items : WhoRecord → Option Item)
        → HasRun size items who (item_for names.now t.now) t.now.statements (S.view seat.old) text.items
        → AttemptEnds size items who (item_for names.now t.now) (S.view seat.old) (S.view seat.new) result }
{
    match &t.end {
        End::Commit(label) => commit(alloc, seat, gate, who, names, t, label, text),
        End::Rollback => roll_back(seat, who, names, t, text),
    }
}

// ---- an attempt

fn ends_so(ran: Result<(), Refusal>, kept: Option<Refusal>) -> Result<(), Refusal>
    ensures { result ≡ ends_so ran kept }
{
    match kept {
        None => ran,
        Some(why) => Err(why),
    }
}

// Goes on with an attempt that has just begun.
fn attempt<S: Seat, G: Gate>(
    alloc: Global,
    seat: S,
    gate: &G,
    who: Who,
    names: &[SessionName],
    t: &Transaction,
) -> (S, Tried)
    requires began { HasReasons (record { view = S.view seat; kept = None; asked = None }) }
    requires open_now { is_open (S.view seat).work ≡ true }
    requires fit { AllByRecursion StatementFits t.now.statements }
    requires end { EndFits t.now.end }
    ensures ended { HasEnded (S.view seat) (S.view result.0) }
    ensures goes { S.goes seat result.0 }
    ensures ends { S.is_honest seat → (size : ℕ) (items : WhoRecord → Option Item) → OverlapsFit (sql size) items
        → Stands size items who (item_for names.now t.now) (S.view seat) → HasBegun who (S.view seat)
        → AttemptEnds size items who (item_for names.now t.now) (S.view seat) (S.view result.0) result.1 }
{
    let mut pager = TransactionPager::new(seat);
    let mut text = Vec::new(alloc);
    let ran = do_lines(alloc, &mut pager, t.statements.as_slice(), &mut text);
    let kept = pager.kept();
    let mut seat = pager.into_seat();
    match ends_so(ran, kept) {
        Ok(()) => {
            let tried = finish(alloc, &mut seat, gate, who, names, t, text);
            (seat, tried)
        }
        Err(why) => {
            let tried = give_up(alloc, &mut seat, names, why);
            (seat, tried)
        }
    }
}

/// Tries a transaction once.
pub fn try_once<S: Seat, G: Gate>(
    alloc: Global,
    mut seat: S,
    gate: &G,
    who: Who,
    names: &[SessionName],
    t: &Transaction,
) -> (S, Tried)
    requires idle { (S.view seat).work ≡ Idle }
    requires own { who.session ≡ (S.view seat).session }
    requires fit { AllByRecursion StatementFits t.now.statements }
    requires end { EndFits t.now.end }
    ensures ended { HasEnded (S.view seat) (S.view result.0) }
    ensures goes { S.goes seat result.0 }
    ensures tried { S.is_honest seat → (size : ℕ) (items : WhoRecord → Option Item) → OverlapsFit (sql size) items
        → Stands size items who (item_for names.now t.now) (S.view seat)
        → HasTriedOnce size items who (item_for names.now t.now) (S.view seat) (S.view result.0) result.1 }
{
    match seat.begin(who) {
        Ok(()) => attempt(alloc, seat, gate, who, names, t),
        Err(_) => (seat, Tried::NotBegun),
    }
}
