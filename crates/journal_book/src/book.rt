//! The journal, with places kept for lines to come.

ghost use Rattle.std.specs.Prelude.{◌≡◌, ◌+◌, ◌≤◌, ◌<◌, ◌++◌, ◌∷◌, [], Some, OnOk, OnErr, IfOk, length, drop};
ghost use Rattle.std.specs.Option.{option_or};
ghost use Rattle.std.specs.List.{AllByRecursion};
ghost use Rattle.retro_base.specs.declared.limits.TheConstants.{JOURNAL_IMAGES, WORKER_LINES};
ghost use Rattle.history.specs.Lines.{images_in, changed_since, first_stop, stop_of};
ghost use Rattle.history.specs.LineLaws.{NoCommitOf};
ghost use Rattle.journal_book.specs.Book.{closing_with, giving_up, keeping, lines_needed};
ghost use Rattle.journal_book.specs.Book.{lines_refused, noting, writes_of, SESSION_LINES};

use crate::mark::mark;
use history::{Journal, Line, PageImage, Stop, What};
use retro_base::{JOURNAL_LINES, Refusal, WORKER_LINES, Who};
use std::alloc::{AllocError, Global};
use std::marker::Model;
use values::Seq;

/// The lines of a run, with places, and their memory, kept for the lines that close what is open and for the faults
/// of the two workers; and for each page of the store the place behind the line that changed it last.
#[derive(Drop)]
pub struct Book {
    lines: Vec<Line>,
    images: u64,
    kept: usize,
    workers: usize,
    stop: Option<Stop>,
    changed: Vec<u32>,
}

impl Model for Book {
    ghost use Rattle.std.specs.Prelude.{length, vec_capacity};
    ghost use Rattle.journal_book.specs.Book as book;

    ghost Value = { book.Book };

    ghost view = { λ b. record {
      pages = length b.changed.items;
      lines = b.lines.items;
      kept = b.kept;
      workers = b.workers;
    } };

    ghost invariant = { λ b. book.IsBook b.lines.items
        (vec_capacity b.lines) b.images b.kept b.workers b.stop b.changed.items };
}

// The lines that sessions may fill.
const SESSION_LINES: usize = (JOURNAL_LINES - WORKER_LINES) as usize;

impl Book {
    /// An empty journal for a store of so many pages. Refused for want of memory alone.
    pub fn new(alloc: Global, pages: u32) -> Result<Book, AllocError>
        ensures { IfOk result (λ book. book ≡ record { pages = pages; lines = []; kept = 0; workers = WORKER_LINES }) }
    {
        Ok(Book {
            lines: Vec::with_capacity(alloc, WORKER_LINES as usize)?,
            images: 0,
            kept: 0,
            workers: WORKER_LINES as usize,
            stop: None,
            changed: vec![in alloc; 0; pages as usize]?,
        })
    }

    /// The lines of the journal, in order.
    pub fn lines(&self) -> &[Line]
        ensures { result.now ≡ self.now.lines }
    {
        &self.lines
    }

    /// How many page images the lines have.
    pub fn images(&self) -> u64
        ensures counted { result ≡ images_in self.now.lines }
        ensures within { result ≤ JOURNAL_IMAGES }
    {
        self.images
    }

    /// How many lines are kept for faults of the workers.
    pub fn workers(&self) -> usize
        ensures { result ≡ self.now.workers }
    {
        self.workers
    }

    /// The first fault that a write or a sync met, where a line tells one.
    pub fn stop(&self) -> Option<Stop>
        ensures { result ≡ first_stop self.now.lines }
    {
        self.stop
    }

    /// The journal; takes no memory.
    pub fn into_journal(self) -> Journal
        ensures { result ≡ self.lines }
    {
        Seq::from(self.lines)
    }

    /// Why a call that adds so many lines is refused: with the lines so far and those that are kept they pass what
    /// sessions may fill.
    pub fn lines_refused(&self, more: usize) -> Option<Refusal>
        requires { more ≤ 2 }
        ensures { result ≡ lines_refused self.now more }
    {
        let needed = self.lines.len() + self.kept + more;
        if needed > SESSION_LINES {
            return Some(Refusal::JournalFull {
                lines: needed as u64,
                images: self.images,
            });
        }
        None
    }

    /// Keeps places for one line or two more, with their memory. Refused for want of memory alone, and then as before.
    pub fn keep_lines(&mut self, more: usize) -> Result<(), AllocError>
        requires { lines_needed self.old more ≤ SESSION_LINES }
        ensures done { OnOk result (self.new ≡ keeping self.old more) }
        ensures refused { OnErr result (self.new ≡ self.old) }
    {
        self.lines.reserve(self.kept + self.workers + more)?;
        self.kept += more;
        Ok(())
    }

    /// Gives back places that were kept; takes no memory.
    pub fn give_up(&mut self, count: usize)
        requires { count ≤ self.old.kept }
        ensures { self.new ≡ giving_up self.old count }
    {
        self.kept -= count;
    }

    // Puts a line into a place that was kept, and leaves so many of them.
    fn put(&mut self, line: Line, kept: usize, workers: usize)
        requires room { kept + workers + 1 ≤ self.old.kept + self.old.workers }
        requires workers { workers ≤ WORKER_LINES }
        requires images { images_in self.old.lines + length (writes_of line.what) ≤ JOURNAL_IMAGES }
        requires pages { AllByRecursion (λ write. write.page < self.old.pages) (writes_of line.what) }
        ensures { self.new ≡ record {
          pages = self.old.pages;
          lines = self.old.lines ++ line ∷ [];
          kept = kept;
          workers = workers;
        } }
    {
        let writes = written(&line.what);
        mark(&mut self.changed, self.lines.len() as u32 + 1, writes);
        self.images += writes.len() as u64;
        self.stop = first_of(self.stop, &line.what);
        let Ok(()) = self.lines.push(line) else {
            unreachable!()
        };
        self.kept = kept;
        self.workers = workers;
    }

    /// Adds a line without page images in a place that was kept; takes no memory.
    pub fn close(&mut self, line: Line)
        requires kept { 1 ≤ self.old.kept }
        requires nothing { writes_of line.what ≡ [] }
        ensures { self.new ≡ closing_with self.old line }
    {
        self.put(line, self.kept - 1, self.workers);
    }

    /// Adds the line of a commit in a place that was kept; takes no memory.
    pub fn finish(&mut self, line: Line)
        requires kept { 1 ≤ self.old.kept }
        requires images { images_in self.old.lines + length (writes_of line.what) ≤ JOURNAL_IMAGES }
        requires pages { AllByRecursion (λ write. write.page < self.old.pages) (writes_of line.what) }
        ensures { self.new ≡ closing_with self.old line }
    {
        self.put(line, self.kept - 1, self.workers);
    }

    /// Adds the line of a worker; takes no memory.
    pub fn note(&mut self, line: Line)
        requires kept { 1 ≤ self.old.workers }
        requires nothing { writes_of line.what ≡ [] }
        ensures { self.new ≡ noting self.old line }
    {
        self.put(line, self.kept, self.workers - 1);
    }

    /// The item that changed the page last behind so many lines, of which none is a commit of this one.
    pub fn changed_since(&self, who: Who, page: u32, place: usize) -> Option<Who>
        requires page { page < self.now.pages }
        requires place { place ≤ length self.now.lines }
        requires own { NoCommitOf who (drop place self.now.lines) }
        ensures { result ≡ changed_since who page place self.now.lines }
    {
        let end = self.changed[page as usize] as usize;
        if end <= place {
            return None;
        }
        Some(self.lines[end - 1].who)
    }
}

fn written(what: &What) -> &[PageImage]
    ensures { result.now ≡ writes_of what.now }
{
    match what {
        What::Done { writes, .. } => writes.images(),
        _ => &[],
    }
}

// The stop behind a line: the one before it, or else its own.
fn first_of(stop: Option<Stop>, what: &What) -> Option<Stop>
    ensures { result ≡ option_or stop (stop_of what.now) }
{
    if stop.is_some() {
        return stop;
    }
    match what {
        What::Fault {
            device,
            count,
            call,
        } if call.is_write() => Some(Stop {
            device: *device,
            count: *count,
        }),
        _ => None,
    }
}
