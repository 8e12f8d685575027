//! What each session has open, and who holds the latch of each page.

ghost use Rattle.std.specs.Prelude.{◌≡◌, ◌<◌, ◌≤◌, ◌+◌, ℕ, [], length, Some, None, IsOk, IsSome};
ghost use Rattle.std.specs.Prelude.{OnOk, OnErr, IfErr, IfOk, true, option_copied, set};
ghost use Rattle.history.specs.declared.writes.PageImage.{PageImage};
ghost use Rattle.journal_book.specs.declared.work.Transaction.{Transaction};
ghost use Rattle.journal_book.specs.declared.work.Work.TheVariants.{Open};
ghost use Rattle.history.specs.Writes.{is_among};
ghost use Rattle.journal_book.specs.Works.{AreFree, IsOpenAt, editing, edits_of, first_pin, least_pin};
ghost use Rattle.journal_book.specs.Works.{lesser, edits_page, keeping_refusal, latched_by};
ghost use Rattle.journal_book.specs.Works.{latch_holder, reading, with_work, work_at, working};

use crate::edits::with_edit;
use crate::mark::mark;
use crate::work::{Transaction, Work};
use history::PageImage;
use retro_base::{Refusal, Who};
use std::alloc::{AllocError, Global};
use std::marker::Model;
use std::mem;

/// What each session has open, by its number; and for each page of the store one more than the number of the session
/// that edits it, or 0.
#[derive(Drop)]
pub struct Works {
    slots: Vec<Option<Work>>,
    latches: Vec<u32>,
}

impl Model for Works {
    ghost use Rattle.std.specs.Prelude.{length};
    ghost use Rattle.journal_book.specs.Works as works;

    ghost Value = { works.Works };

    ghost view = { λ w. record { pages = length w.latches.items; slots = w.slots.items } };

    ghost invariant = { λ w. works.AreLatches w.latches.items w.slots.items };
}

impl Works {
    /// Nothing open, in a store of so many pages. Refused for want of memory alone.
    pub fn new(alloc: Global, pages: u32) -> Result<Works, AllocError>
        ensures { IfOk result (λ works. works ≡ record { pages = pages; slots = [] }) }
    {
        Ok(Works {
            slots: Vec::new(alloc),
            latches: vec![in alloc; 0; pages as usize]?,
        })
    }

    /// What a session has open.
    pub fn at(&self, session: u16) -> Option<&Work>
        ensures { option_copied result ≡ work_at self.now.slots session }
    {
        match self.slots.get(session as usize) {
            Some(Some(work)) => Some(work),
            _ => None,
        }
    }

    /// The open transaction of a session.
    pub fn transaction(&self, session: u16) -> &Transaction
        requires { IsOpenAt self.now.slots session }
        ensures { work_at self.now.slots session ≡ Some (Open result.now) }
    {
        match self.at(session) {
            Some(Work::Open(transaction)) => transaction,
            _ => unreachable!(),
        }
    }

    /// Gives a session a work without edits, where it has none with edits. Refused for want of memory alone, and then
    /// all is as before.
    pub fn put(&mut self, session: u16, work: Work) -> Result<(), AllocError>
        requires idle { edits_of (work_at self.old.slots session) ≡ [] }
        requires nothing { edits_of (Some work) ≡ [] }
        ensures done { OnOk result (self.new ≡ working self.old session (Some work)) }
        ensures refused { OnErr result (self.new ≡ self.old) }
    {
        set_slot(&mut self.slots, session, Some(work))
    }

    /// Takes a session's work out, and gives back its latches; takes no memory.
    pub fn take(&mut self, session: u16) -> Option<Work>
        requires { IsSome (work_at self.old.slots session) }
        ensures work { result ≡ work_at self.old.slots session }
        ensures works { self.new ≡ working self.old session None }
        ensures free { AreFree self.new (edits_of result) }
        ensures slot { session < length self.new.slots }
    {
        let work = mem::replace(&mut self.slots[session as usize], None);
        mark(&mut self.latches, 0, edits_of(&work));
        work
    }

    /// Ends a session's work, and gives back its latches; takes no memory.
    pub fn clear(&mut self, session: u16)
        requires { IsSome (work_at self.old.slots session) }
        ensures { self.new ≡ working self.old session None }
    {
        self.take(session);
    }

    /// Takes a session's open transaction out, and gives back its latches; takes no memory.
    pub fn take_transaction(&mut self, session: u16) -> Transaction
        requires { IsOpenAt self.old.slots session }
        ensures transaction { work_at self.old.slots session ≡ Some (Open result) }
        ensures works { self.new ≡ working self.old session None }
        ensures free { AreFree self.new result.edits }
        ensures slot { session < length self.new.slots }
    {
        match self.take(session) {
            Some(Work::Open(transaction)) => transaction,
            _ => unreachable!(),
        }
    }

    /// Puts a transaction back where it was taken out, and takes its latches; takes no memory.
    pub fn put_back(&mut self, session: u16, transaction: Transaction)
        requires slot { session < length self.old.slots }
        requires idle { work_at self.old.slots session ≡ None }
        requires free { AreFree self.old transaction.edits }
        ensures { self.new ≡ working self.old session (Some (Open transaction)) }
    {
        mark(
            &mut self.latches,
            u32::from(session) + 1,
            transaction.edits.images(),
        );
        fill(&mut self.slots, session, transaction);
    }

    /// Counts a page as read. Refused for want of memory alone, and then all is as before; not where the page was
    /// read before.
    pub fn add_read(&mut self, session: u16, page: u32) -> Result<(), AllocError>
        requires { IsOpenAt self.old.slots session }
        ensures done { (t : Transaction) → work_at self.old.slots session ≡ Some (Open t)
            → OnOk result (self.new ≡ working self.old session (Some (Open (reading page t)))) }
        ensures refused { OnErr result (self.new ≡ self.old) }
        ensures read_before { (t : Transaction) → work_at self.old.slots session ≡ Some (Open t)
            → is_among page t.reads.keys ≡ true → IsOk result }
    {
        let mut transaction = open_slot(&mut self.slots, session);
        match transaction.reads.insert(page) {
            Ok(_) => {
                fill(&mut self.slots, session, transaction);
                Ok(())
            }
            Err(_) => {
                fill(&mut self.slots, session, transaction);
                Err(AllocError)
            }
        }
    }

    /// Edits a page that no other session edits, and takes its latch. Refused for want of memory alone, and then all
    /// is as before.
    pub fn add_edit(&mut self, session: u16, image: PageImage) -> Result<(), AllocError>
        requires is_open { IsOpenAt self.old.slots session }
        requires page { image.page < self.old.pages }
        requires latch { (other : ℕ) → edits_page image.page (work_at self.old.slots other) ≡ true → other ≡ session }
        ensures done { (t : Transaction) → work_at self.old.slots session ≡ Some (Open t)
            → OnOk result (self.new ≡ working self.old session (Some (Open (editing image t)))) }
        ensures refused { OnErr result (self.new ≡ self.old) }
    {
        let page = image.page as usize;
        match edited(open_slot(&mut self.slots, session), image) {
            Ok(transaction) => {
                self.latches[page] = u32::from(session) + 1;
                fill(&mut self.slots, session, transaction);
                Ok(())
            }
            Err(transaction) => {
                fill(&mut self.slots, session, transaction);
                Err(AllocError)
            }
        }
    }

    /// Keeps a refusal; takes no memory.
    pub fn keep(&mut self, session: u16, why: Refusal)
        requires { IsOpenAt self.old.slots session }
        ensures { (t : Transaction) → work_at self.old.slots session ≡ Some (Open t)
            → self.new ≡ working self.old session (Some (Open (keeping_refusal why t))) }
    {
        let mut transaction = open_slot(&mut self.slots, session);
        transaction.kept = Some(why);
        fill(&mut self.slots, session, transaction);
    }

    /// The item of another session that holds the page's latch.
    pub fn latch_holder(&self, who: Who, page: u32) -> Option<Who>
        requires { page < self.now.pages }
        ensures { result ≡ latch_holder who page self.now.slots }
    {
        let latch = self.latches[page as usize] as usize;
        if latch == 0 {
            return None;
        }
        other_item(who, &self.slots[latch - 1])
    }

    /// The least snapshot that a look pins, with the least session that pins it.
    pub fn least_pin(&self) -> Option<(u32, u16)>
        ensures { result ≡ least_pin self.now.slots }
    {
        let mut least = None;
        for slot in &self.slots {
            least = lesser(least, first_pin(slot));
        }
        least
    }
}

// The transaction's item, where it is of another session than this one.
fn other_item(who: Who, work: &Option<Work>) -> Option<Who>
    ensures { (page : ℕ) → edits_page page work.now ≡ true → result ≡ latched_by who page work.now }
{
    match work {
        Some(Work::Open(transaction)) => {
            if transaction.who.session == who.session {
                return None;
            }
            Some(transaction.who)
        }
        _ => None,
    }
}

// The transaction with this edit. Refused for want of memory alone, and then as before.
fn edited(transaction: Transaction, image: PageImage) -> Result<Transaction, Transaction>
    ensures done { IfOk result (λ new. new ≡ editing image transaction) }
    ensures refused { IfErr result (λ old. old ≡ transaction) }
{
    let Transaction {
        who,
        began,
        edits,
        reads,
        kept,
    } = transaction;
    match with_edit(edits, image) {
        Ok(edits) => Ok(Transaction {
            who,
            began,
            edits,
            reads,
            kept,
        }),
        Err(edits) => Err(Transaction {
            who,
            began,
            edits,
            reads,
            kept,
        }),
    }
}

fn first_pin(work: &Option<Work>) -> Option<(u32, u16)>
    ensures { result ≡ first_pin work.now }
{
    match work {
        Some(Work::Looking(look)) => match look.pins.as_slice() {
            [first, ..] => Some((*first, look.who.session)),
            [] => None,
        },
        _ => None,
    }
}

fn lesser(pin: Option<(u32, u16)>, other: Option<(u32, u16)>) -> Option<(u32, u16)>
    ensures { result ≡ lesser pin other }
{
    match (pin, other) {
        (Some(first), Some(second)) if second.0 < first.0 => Some(second),
        (Some(first), _) => Some(first),
        (None, other) => other,
    }
}

fn edits_of(work: &Option<Work>) -> &[PageImage]
    ensures { result.now ≡ edits_of work.now }
{
    match work {
        Some(Work::Open(transaction)) => transaction.edits.images(),
        _ => &[],
    }
}

// Sets the slot of this number, and makes those before it.
fn set_slot(
    slots: &mut Vec<Option<Work>>,
    session: u16,
    work: Option<Work>,
) -> Result<(), AllocError>
    ensures done { OnOk result (slots.new.items ≡ with_work slots.old.items session work) }
    ensures refused { OnErr result (slots.new.items ≡ slots.old.items) }
{
    let place = session as usize;
    if place < slots.len() {
        slots[place] = work;
        return Ok(());
    }
    slots.reserve(place - slots.len() + 1)?;
    for _ in slots.len()..place {
        let Ok(()) = slots.push(None) else {
            unreachable!()
        };
    }
    let Ok(()) = slots.push(work) else {
        unreachable!()
    };
    Ok(())
}

// Puts an open transaction into a slot.
fn fill(slots: &mut Vec<Option<Work>>, session: u16, transaction: Transaction)
    requires { session < length slots.old.items }
    ensures { slots.new.items ≡ set slots.old.items session (Some (Open transaction)) }
{
    slots[session as usize] = Some(Work::Open(transaction));
}

// Takes the open transaction out of its slot.
fn open_slot(slots: &mut Vec<Option<Work>>, session: u16) -> Transaction
    requires { IsOpenAt slots.old.items session }
    ensures transaction { work_at slots.old.items session ≡ Some (Open result) }
    ensures slots { slots.new.items ≡ set slots.old.items session None }
{
    match mem::replace(&mut slots[session as usize], None) {
        Some(Work::Open(transaction)) => transaction,
        _ => unreachable!(),
    }
}
