//! A desk that keeps a journal of transactions which write nothing, and a vault that counts.

ghost use Rattle.std.specs.Prelude.{◌≡◌, [], ◌<◌, max, replicate, None, if◌then◌else◌, nat_lt, ◌+◌, IfSome};
ghost use Rattle.turn_tests.specs.Meanings.{newest_behind};
ghost use Rattle.turn_tests.specs.Makes.{Makes, IsMore};
ghost use Rattle.turn_tests.specs.Ready.{IsNewIn};

use crate::works::Works;
use history::{Line, What};
use retro_base::Device;
use std::alloc::Global;
use values::Seq;

/// What a book begins with.
#[derive(Clone, Copy, Drop)]
pub struct Start {
    pub page_count: u32,
}

/// A journal of transactions that write nothing, some of which declare a snapshot, and of faults.
#[derive(Drop)]
pub struct Book {
    pub start: Start,
    pub lines: Seq<Line>,
    pub works: Works,
    /// The newest snapshot.
    pub newest: u32,
    /// How many faults of the log there were.
    pub faults: u64,
    /// How much it knows to be held.
    pub acked: u64,
}

#[derive(Drop)]
pub struct Shelf {
    /// How many lines of the journal are held, or fewer.
    pub held: u64,
    /// How often it was entered.
    pub entries: u64,
    /// How many faults of the page log there were.
    pub faults: u64,
}

impl Book {
    /// An empty book of so many sessions. None where memory runs out.
    pub fn new(alloc: Global, sessions: u32) -> Option<Book>
        ensures empty { IfSome result (λ b. (b.lines ≡ []) × (b.works ≡ replicate sessions None)) }
        ensures none { IfSome result (λ b. (b.newest ≡ 0) × (b.faults ≡ 0) × (b.acked ≡ 0)) }
    {
        Some(Book {
            start: Start { page_count: 16 },
            lines: Seq::new(alloc),
            works: Works::new(alloc, sessions)?,
            newest: 0,
            faults: 0,
            acked: 0,
        })
    }

    /// One line more, where there is memory and a number for the snapshot that it declares. The transaction of its
    /// session is open behind a line Began, and behind any other ended.
    pub(crate) fn add(&mut self, line: Line) -> bool
        requires { IsNewIn self.old.lines line.what }
        ensures { Makes line result self.old self.new }
    {
        let session = line.who.session;
        let since = opened_at(&line.what, self.lines.len() as u64);
        let Some(newest) = newest_behind(&line.what, self.newest) else {
            return false;
        };
        if self.lines.push(line).is_err() {
            return false;
        }
        self.works.set(session, since);
        self.newest = newest;
        true
    }

    /// One fault more of the log. Its answer is how many there then are.
    pub(crate) fn fail(&mut self) -> u64
        ensures new { self.new ≡ record self.old { faults = result } }
        ensures more { IsMore self.old.faults result }
    {
        self.faults = self.faults.saturating_add(1);
        self.faults
    }

    pub(crate) fn acknowledge(&mut self, held: u64)
        ensures { self.new ≡ record self.old { acked = max self.old.acked held } }
    {
        self.acked = self.acked.max(held);
    }
}

fn opened_at(what: &What, line: u64) -> Option<u64> {
    match what {
        What::Began => Some(line),
        _ => None,
    }
}

// None where there is no number more.
fn newest_behind(what: &What, newest: u32) -> Option<u32>
    ensures { IfSome result (λ n. n ≡ newest_behind newest what.now) }
{
    match what {
        What::Done { .. } => newest.checked_add(1),
        _ => Some(newest),
    }
}

impl Shelf {
    pub fn new() -> Shelf
        ensures { result ≡ record { held = 0; entries = 0; faults = 0 } }
    {
        Shelf {
            held: 0,
            entries: 0,
            faults: 0,
        }
    }

    /// One more, where it is below the most.
    pub(crate) fn raise(&mut self, most: u64)
        ensures held { self.new.held ≡ (if nat_lt self.old.held most then self.old.held + 1 else self.old.held) }
        ensures rest { self.new.faults ≡ self.old.faults }
    {
        self.entries = self.entries.saturating_add(1);
        if self.held < most {
            self.held += 1;
        }
    }

    /// One fault more of the page log. Its answer is how many there then are.
    pub(crate) fn fail(&mut self) -> u64
        ensures rest { (self.new.held ≡ self.old.held) × (self.new.faults ≡ result) }
        ensures more { IsMore self.old.faults result }
    {
        self.entries = self.entries.saturating_add(1);
        self.faults = self.faults.saturating_add(1);
        self.faults
    }
}
