//! Commits.

ghost use Rattle.std.specs.Prelude.{◌≡◌, ◌≤◌, ◌<◌, ◌-◌, ◌^◌, is_some, ℕ, List, IfOk, IfSome};
ghost use Rattle.std.specs.Prelude.{IsTrue, Option, Result, true, false, option_copied};
ghost use Rattle.std.specs.Option.{option_to_list};
ghost use Rattle.retro_base.specs.declared.refusal.Refusal.{Refusal};
ghost use Rattle.history.specs.Label.{is_label};
ghost use Rattle.history.specs.History.{base_after, bases_after};
ghost use Rattle.history.specs.Journal.{change_of};
ghost use Rattle.history.specs.declared.entry.Change.TheVariants.{Commit};
ghost use Rattle.history.specs.declared.journal.What.TheVariants.{Done};
ghost use Rattle.history.specs.Right.{DoesSomething, IsRight};
ghost use Rattle.journal_law.specs.Seats.{Attempt, CommitGives, Open};
ghost use Rattle.plain_store.specs.Plain.{view_of};
ghost use Rattle.plain_store.specs.Turns.{GoesOn};
ghost use Rattle.plain_store.specs.Work.{has_too_many, is_open, number_behind};

use crate::limits::commit_refused;
use crate::pages::{capture_pages, write_pages};
use crate::store::PlainStore;
use crate::work::Transaction;
use history::{Label, Line, RunningBase, What, Writes, newest};
use retro_base::Refusal;
use std::alloc::{AllocError, Global};
use values::Duplicate;

/// A copy of a label, if there is one. Refused for want of memory alone.
pub fn copied_label(alloc: Global, label: Option<&[u8]>) -> Result<Option<Label>, AllocError>
    requires { IfSome label (λ bytes. IsTrue (is_label bytes.now)) }
    ensures { IfOk result (λ copied. copied ≡ option_copied label.entry) }
{
    match label {
        Some(bytes) => Ok(Some(Label::new(Vec::from_slice(alloc, bytes)?))),
        None => Ok(None),
    }
}

fn copied(alloc: Global, label: &Option<Label>) -> Result<Option<Label>, AllocError>
    ensures { IfOk result (λ copied. copied ≡ label.now) }
{
    match label {
        Some(label) => Ok(Some(label.copy(alloc)?)),
        None => Ok(None),
    }
}

// Makes a commit that writes or declares.
fn change(base: &mut RunningBase, label: Option<Label>, writes: &Writes)
    requires { DoesSomething label writes.now → IsRight base.old (Commit label writes.now) }
    ensures { base.new ≡ bases_after base.old (option_to_list (change_of base.old (Done label writes.now))) }
{
    if label.is_some() || !writes.images().is_empty() {
        base.commit(label, writes);
    }
}

// The number of the snapshot that is declared, where there is a label.
fn declared(newest: u32, label: &Option<Label>) -> Option<u32>
    requires { is_some label.now ≡ true → newest < 2 ^ 32 - 1 }
    ensures { result ≡ number_behind newest label.now }
{
    match label {
        Some(_) => Some(newest + 1),
        None => None,
    }
}

impl PlainStore {
    /// Commits the edits of the open transaction, none of which was one too many.
    pub(crate) fn commit_edits(&mut self, label: Option<Label>) -> Result<Option<u32>, Refusal>
        requires open_now { is_open self.old.work ≡ true }
        requires all { has_too_many self.old.work ≡ false }
        ensures gives { (a : Attempt) → (view_of self.old).work ≡ Open a
            → CommitGives label (view_of self.old) (view_of self.new) a result }
        ensures goes { GoesOn self.old self.new }
    {
        let writes = self.work.transaction().edits.images();
        if let Some(why) = commit_refused(&self.base, &self.book, &label, writes) {
            return Err(why);
        }
        let mark = copied(self.alloc, &label)?;
        let newest = newest(self.base.marks());
        capture_pages(&mut self.pages, newest, writes)?;
        let Transaction {
            who,
            has_read: _,
            edits,
            too_many: _,
        } = self.work.take_transaction();
        write_pages(&mut self.pages, edits.images());
        change(&mut self.base, mark, &edits);
        let number = declared(newest, &label);
        self.book.finish(Line {
            who,
            what: What::Done {
                label,
                writes: edits,
            },
        });
        Ok(number)
    }
}
