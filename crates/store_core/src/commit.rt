//! Commits.

ghost use Rattle.std.specs.Prelude.{◌≡◌, IsTrue, None, is_some, option_copied, true};
ghost use Rattle.std.specs.Prelude.{length, IfErr, IfOk, IfSome, MatchResult, OnOk};
ghost use Rattle.disk_model.specs.Moments.{LeavesOnly};
ghost use Rattle.disk_model.specs.Runs.{SameDevice};
ghost use Rattle.gate_log.specs.Cause.{IsDiskFault};
ghost use Rattle.history.specs.declared.entry.Change.TheVariants.{Commit};
ghost use Rattle.records.specs.declared.entry.Entry.TheVariants as entries;
ghost use Rattle.records.specs.Entries.{ChangeFits, change_bytes};
ghost use Rattle.history.specs.History.{base_after};
ghost use Rattle.history.specs.Label.{is_label};
ghost use Rattle.history.specs.Right.{IsBase, IsRight};
ghost use Rattle.page_pool.specs.Side.{HoldsSame};
ghost use Rattle.race_model.specs.Desk.{Desk};
ghost use Rattle.race_model.specs.Machine.{changed, change_failed};
ghost use Rattle.desk.specs.Cause.{IsChangeRefusal, IsWriteRefusal, stop_behind};
ghost use Rattle.desk.specs.Desk.{IsDesk, IsWhole, ListsLogOf};
ghost use Rattle.desk.specs.Steps.{AreHeld};
ghost use Rattle.store_core.specs.Commits.{IsCommit, IsMayCommit};
ghost use Rattle.txn_set.specs.Refused.{counts_of, leaves_record};

use desk::RunningDesk;
use disk_model::Disk;
use history::{Change, Label, PageImage, RunningBase, Writes, newest, oldest_start};
use records::Entry;
use retro_base::Refusal;
use std::alloc::{AllocError, Global};
use txn_set::Counts;

// The counts of a base, with how many of these edits capture their page.
pub(crate) fn counts_of(base: &RunningBase, edits: &[PageImage]) -> Counts
    requires { IsBase base.now }
    ensures { result ≡ counts_of base.now edits.now }
{
    let marks = base.marks();
    Counts {
        capacity: base.capacity(),
        captures: base.captures(),
        captured: base.captured_count(edits) as u64,
        retained: marks.len() as u32,
        newest: newest(marks),
        oldest_start: oldest_start(marks),
    }
}

pub(crate) fn label_of(alloc: Global, mark: Option<&[u8]>) -> Result<Option<Label>, AllocError>
    requires { IfSome mark (λ bytes. IsTrue (is_label bytes.now)) }
    ensures { MatchResult result (λ label. label ≡ option_copied mark.entry) (λ _. is_some mark.entry ≡ true) }
{
    match mark {
        Some(bytes) => Ok(Some(Label::new(Vec::from_slice(alloc, bytes)?))),
        None => Ok(None),
    }
}

// Whether a commit writes or declares.
pub(crate) fn leaves_record(label: &Option<Label>, edits: &[PageImage]) -> bool
    ensures { result ≡ leaves_record label.now edits.now }
{
    label.is_some() || !edits.is_empty()
}

// What a commit declares and writes, given back.
#[derive(Drop)]
pub(crate) struct Sent {
    pub(crate) label: Option<Label>,
    pub(crate) writes: Writes,
    pub(crate) outcome: Result<(), Refusal>,
}

// The label and the writes of a commit.
fn parts_of(entry: Entry) -> (Option<Label>, Writes)
    requires { IsCommit entry }
    ensures { entry ≡ entries.Change (Commit result.0 result.1) }
{
    match entry {
        Entry::Change(Change::Commit { label, writes }) => (label, writes),
        _ => unreachable!(),
    }
}

// Makes a commit that is right, of pages that are held, and gives its parts back.
pub(crate) fn send<D: Disk + Drop>(
    desk: &mut RunningDesk<D>,
    alloc: Global,
    label: Option<Label>,
    writes: Writes,
) -> Sent
    requires whole { IsWhole D.is_honest D.state desk.old }
    requires fits { ChangeFits desk.old.log.log.version (Commit label writes) }
    requires right { IsRight desk.old.base (Commit label writes) }
    requires held { AreHeld desk.old.pool writes }
    ensures whole { IsWhole D.is_honest D.state desk.new }
    ensures parts { (result.label ≡ label) × (result.writes ≡ writes) }
    ensures same { SameDevice D.extent D.is_honest desk.old.log.disk desk.new.log.disk }
    ensures pages { desk.new.pool.file ≡ desk.old.pool.file }
    ensures held { HoldsSame desk.old.pool desk.new.pool }
    ensures cause { MatchResult result.outcome
        (λ _. (desk.old.stop ≡ None) × (D.faults desk.new.log.disk ≡ D.faults desk.old.log.disk))
        (IsWriteRefusal desk.old.stop
        (IsChangeRefusal desk.old.log.log.area.log (length (change_bytes desk.old.log.log.version (Commit label
        writes)))
        (D.faults desk.old.log.disk) (D.faults desk.new.log.disk))) }
    ensures stop { MatchResult result.outcome (λ _. desk.new.stop ≡ desk.old.stop)
        (λ why. desk.new.stop ≡ stop_behind desk.old.stop why) }
    ensures untouched { IfErr result.outcome (λ why. (IsDiskFault why → ⊥) → desk.new ≡ desk.old) }
    ensures base { OnOk result.outcome (desk.new.base ≡ base_after desk.old.base (Commit label writes)) }
    ensures done { (plain : Desk) → IsMayCommit D.is_honest D.state desk.old plain label writes
        → OnOk result.outcome (IsDesk D.is_honest D.state desk.new (changed plain (Commit label writes))) }
    ensures failed { (plain : Desk) → IsMayCommit D.is_honest D.state desk.old plain label writes
        → IfErr result.outcome (λ why. IsDiskFault why
        → IsDesk D.is_honest D.state desk.new (change_failed plain (Commit label writes))) }
    ensures any_moment { (plain : Desk) → IsMayCommit D.is_honest D.state desk.old plain label writes
        → D.is_honest desk.old.log.disk → LeavesOnly D.remembers (D.clock desk.old.log.disk) (D.clock desk.new.log.disk)
        (ListsLogOf (change_failed plain (Commit label writes))) }
{
    let entry = Entry::Change(Change::Commit { label, writes });
    let outcome = desk.change(alloc, &entry);
    let (label, writes) = parts_of(entry);
    Sent {
        label,
        writes,
        outcome,
    }
}
