//! The plain store, as the one seat that it has at a time.

ghost use Rattle.std.specs.Prelude.{◌≡◌, ◌≤◌, [], IfOk};
ghost use Rattle.retro_base.specs.declared.limits.TheConstants.{MIN_PAGES, MAX_PAGES, MIN_CAPACITY, MAX_CAPACITY};
ghost use Rattle.journal_law.specs.Seats as seat;
ghost use Rattle.plain_store.specs.Plain.{view_of, zero_ground};
ghost use Rattle.plain_store.specs.declared.work.Work.TheVariants.{Idle};

use crate::page::VersionedPage;
use crate::pages::zero_pages;
use crate::work::Work;
use history::{Base, Journal, RunningBase};
use journal_book::Book;
use std::alloc::{AllocError, Global};
use std::marker::Model;
use values::Seq;

/// A store of pages in memory that serves sessions one after the other: each in its turn is its one seat, and has seen
/// the whole journal when its turn begins.
#[derive(Drop)]
pub struct PlainStore {
    pub(crate) alloc: Global,
    pub(crate) session: u16,
    pub(crate) base: RunningBase,
    pub(crate) book: Book,
    pub(crate) pages: Vec<VersionedPage>,
    pub(crate) work: Work,
}

impl Model for PlainStore {
    ghost use Rattle.plain_store.specs.Plain.{Plain, IsPlain};

    ghost Value = { Plain };

    ghost view = { λ s.
        record { session = s.session; base = s.base; book = s.book; pages = s.pages.items; work = s.work } };

    ghost invariant = { λ s. IsPlain
        (record { session = s.session; base = s.base; book = s.book; pages = s.pages.items; work = s.work }) };
}

impl PlainStore {
    /// An empty store of so many pages of zeros, and of this capacity; it is the turn of session 0. Refused for want of
    /// memory alone.
    pub fn new(alloc: Global, page_count: u32, capacity: u32) -> Result<PlainStore, AllocError>
        requires pages { (MIN_PAGES ≤ page_count) × (page_count ≤ MAX_PAGES) }
        requires capacity { (MIN_CAPACITY ≤ capacity) × (capacity ≤ MAX_CAPACITY) }
        ensures { IfOk result (λ store. view_of store ≡ record
            { session = 0; opened = zero_ground page_count capacity; front = []; work = seat.Idle; told = [] }) }
    {
        let base = Base {
            page_count,
            capacity,
            changes: 0,
            captures: 0,
            marks: Seq::new(alloc),
            captured: Seq::new(alloc),
        };
        Ok(PlainStore {
            alloc,
            session: 0,
            base: RunningBase::new(alloc, base)?,
            book: Book::new(alloc, page_count)?,
            pages: zero_pages(alloc, page_count)?,
            work: Work::Idle,
        })
    }

    /// The next turn is of this session.
    pub fn begin_turn(&mut self, session: u16)
        requires { self.old.work ≡ Idle }
        ensures { self.new ≡ record self.old { session = session } }
    {
        self.session = session;
    }

    /// The journal; takes no memory.
    pub fn into_journal(self) -> Journal
        ensures { result ≡ (view_of self).front }
    {
        let PlainStore {
            alloc: _,
            session: _,
            base: _,
            book,
            pages: _,
            work: _,
        } = self;
        book.into_journal()
    }
}
