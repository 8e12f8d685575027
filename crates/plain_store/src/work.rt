//! What the session has open.

ghost use Rattle.std.specs.Prelude.{◌≡◌, true, OnErr, OnOk};
ghost use Rattle.journal_book.specs.Works.{with_edit};
ghost use Rattle.plain_store.specs.Work.{is_looking, is_open};
ghost use Rattle.plain_store.specs.declared.work.Work.TheVariants.{Idle, Looking, Open};

use crate::edits::with_edit;
use history::{PageImage, Writes};
use retro_base::Who;
use std::alloc::AllocError;
use std::mem;

/// An open transaction.
#[derive(Drop)]
pub struct Transaction {
    pub who: Who,
    /// Whether it has read a page.
    pub has_read: bool,
    /// Its edits, in rising page.
    pub edits: Writes,
    /// Whether an edit was refused as one too many.
    pub too_many: bool,
}

/// An open look, at one snapshot or at all.
#[derive(Drop)]
pub struct Look {
    pub who: Who,
    pub snapshot: Option<u32>,
}

/// What the session has open.
#[derive(Drop)]
pub enum Work {
    Idle,
    Open(Transaction),
    Looking(Look),
}

impl Work {
    /// The open transaction.
    pub fn transaction(&self) -> &Transaction
        requires { is_open self.now ≡ true }
        ensures { self.now ≡ Open result.now }
    {
        match self {
            Work::Open(transaction) => transaction,
            _ => unreachable!(),
        }
    }

    /// The transaction has read a page.
    pub fn note_read(&mut self)
        requires { is_open self.old ≡ true }
        ensures { (t : Transaction) → self.old ≡ Open t → self.new ≡ Open (record t { has_read = true }) }
    {
        match self {
            Work::Open(transaction) => transaction.has_read = true,
            _ => unreachable!(),
        }
    }

    /// An edit of the transaction was refused as one too many.
    pub fn note_too_many(&mut self)
        requires { is_open self.old ≡ true }
        ensures { (t : Transaction) → self.old ≡ Open t → self.new ≡ Open (record t { too_many = true }) }
    {
        match self {
            Work::Open(transaction) => transaction.too_many = true,
            _ => unreachable!(),
        }
    }

    /// Takes the transaction out.
    pub fn take_transaction(&mut self) -> Transaction
        requires { is_open self.old ≡ true }
        ensures transaction { self.old ≡ Open result }
        ensures idle { self.new ≡ Idle }
    {
        match mem::replace(self, Work::Idle) {
            Work::Open(transaction) => transaction,
            _ => unreachable!(),
        }
    }

    /// Takes the look out.
    pub fn take_look(&mut self) -> Look
        requires { is_looking self.old ≡ true }
        ensures look { self.old ≡ Looking result }
        ensures idle { self.new ≡ Idle }
    {
        match mem::replace(self, Work::Idle) {
            Work::Looking(look) => look,
            _ => unreachable!(),
        }
    }

    /// Adds an edit. Refused for want of memory alone, and then as before.
    pub fn add_edit(&mut self, image: PageImage) -> Result<(), AllocError>
        requires { is_open self.old ≡ true }
        ensures done { (t : Transaction) → self.old ≡ Open t
            → OnOk result (self.new ≡ Open (record t { edits = with_edit image t.edits })) }
        ensures refused { OnErr result (self.new ≡ self.old) }
    {
        let Transaction {
            who,
            has_read,
            edits,
            too_many,
        } = self.take_transaction();
        let (edits, outcome) = match with_edit(edits, image) {
            Ok(edits) => (edits, Ok(())),
            Err(edits) => (edits, Err(AllocError)),
        };
        *self = Work::Open(Transaction {
            who,
            has_read,
            edits,
            too_many,
        });
        outcome
    }
}
