//! The store as one seat sees it.

ghost use Rattle.std.specs.Prelude.{◌≡◌, ◌<◌, ◌↔◌, ℕ, true, IfSome, IsTrue};
ghost use Rattle.std.specs.Option.{option_copied};
ghost use Rattle.history.specs.Label.{is_label};
ghost use Rattle.journal_law.specs.Seats.{Attempt, BeginGives, CommitGives, DropGives, EditGives, Idle, Look};
ghost use Rattle.journal_law.specs.Seats.{LookAllGives, LookGives, Looking, MayEnd, Open, PastGives, Pins, ReadGives};
ghost use Rattle.journal_law.specs.Seats.{RollbackGives, TellsDropNeed, TellsNeed, UnlookGives, is_looking, is_open};

use history::Mark;
use retro_base::{Device, Page, Refusal, Who};
use values::Seq;

/// How an attempt or a look ends.
#[derive(Clone, Copy, Debug, PartialEq, Eq)]
pub enum Ending {
    /// It was asked to.
    Asked,
    /// It was refused.
    Refused(Refusal),
    /// A device failed, in no write or sync.
    Failed { device: Device, count: u64 },
}

/// A fault of a device, by its count, of which a seat is told.
#[derive(Clone, Copy, Debug)]
pub struct ToldFault {
    pub device: Device,
    pub count: u64,
}

/// A store as one seat sees it. In each call, before a line of its own, other sessions may add lines.
pub trait Seat {
    ghost use Rattle.journal_law.specs.Seats.{View};

    ghost view: { Self → View };

    // What is read of the store is what it holds.
    ghost is_honest: { Self → Type 0 };

    // What stays over its calls, whatever they answer.
    ghost goes: { Self → Self → Type 0 };

    ghost stays: { (s : Self) → goes s s };

    ghost goes_on: { (s t u : Self) → goes s t → goes t u → goes s u };

    ghost honest_stays: { (s t : Self) → goes s t → is_honest s ↔ is_honest t };

    // How many seats the store has.
    ghost seats: { Self → ℕ };

    ghost seats_stay: { (s t : Self) → goes s t → seats s ≡ seats t };

    /// How many pages the store has.
    fn pages(&self) -> u32
        ensures { result ≡ (view self.now).opened.base.page_count };

    /// Begins an attempt at a transaction.
    fn begin(&mut self, who: Who) -> Result<(), Refusal>
        requires idle { (view self.old).work ≡ Idle }
        requires own { who.session ≡ (view self.old).session }
        ensures gives { BeginGives who (view self.old) (view self.new) result }
        ensures need { TellsNeed (seats self.new) 2 (view self.new) result }
        ensures goes { goes self.old self.new };

    /// Reads a page as at the attempt's beginning, with its own edits.
    fn read(&mut self, page: u32, out: &mut Page) -> Result<(), Refusal>
        requires open_now { is_open (view self.old).work ≡ true }
        requires in_store { page < (view self.old).opened.base.page_count }
        ensures gives { (a : Attempt) → (view self.old).work ≡ Open a
            → ReadGives (is_honest self.new) page out.new (view self.old) (view self.new) a result }
        ensures goes { goes self.old self.new };

    /// Edits a page.
    fn edit(&mut self, page: u32, bytes: &Page) -> Result<(), Refusal>
        requires open_now { is_open (view self.old).work ≡ true }
        requires in_store { page < (view self.old).opened.base.page_count }
        ensures gives { (a : Attempt) → (view self.old).work ≡ Open a
            → EditGives page bytes.now (view self.old) (view self.new) a result }
        ensures goes { goes self.old self.new };

    /// Commits the edits, with a label as a snapshot, and gives the snapshot's number.
    fn commit(&mut self, label: Option<&[u8]>) -> Result<Option<u32>, Refusal>
        requires open_now { is_open (view self.old).work ≡ true }
        requires label { IfSome label (λ bytes. IsTrue (is_label bytes.now)) }
        ensures gives { (a : Attempt) → (view self.old).work ≡ Open a
            → CommitGives (option_copied label.entry) (view self.old) (view self.new) a result }
        ensures goes { goes self.old self.new };

    /// Ends the attempt without its edits.
    fn rollback(&mut self, why: Ending)
        requires open_now { is_open (view self.old).work ≡ true }
        requires may_end { MayEnd (view self.old) why }
        ensures gives { (a : Attempt) → (view self.old).work ≡ Open a
            → RollbackGives why (view self.old) (view self.new) a }
        ensures goes { goes self.old self.new };

    /// Begins a look at a snapshot.
    fn look(&mut self, who: Who, snapshot: u64) -> Result<(), Refusal>
        requires idle { (view self.old).work ≡ Idle }
        requires own { who.session ≡ (view self.old).session }
        ensures gives { LookGives who snapshot (view self.old) (view self.new) result }
        ensures need { TellsNeed (seats self.new) 2 (view self.new) result }
        ensures goes { goes self.old self.new };

    /// Begins a look at all retained snapshots, and gives them in rising number.
    fn look_all(&mut self, who: Who) -> Result<Seq<Mark>, Refusal>
        requires idle { (view self.old).work ≡ Idle }
        requires own { who.session ≡ (view self.old).session }
        ensures gives { LookAllGives who (view self.old) (view self.new) result }
        ensures need { TellsNeed (seats self.new) 2 (view self.new) result }
        ensures goes { goes self.old self.new };

    /// Reads a page as of a snapshot that the look pins.
    fn past(&mut self, snapshot: u32, page: u32, out: &mut Page) -> Result<(), Refusal>
        requires looking_now { is_looking (view self.old).work ≡ true }
        requires pinned { (l : Look) → (view self.old).work ≡ Looking l → Pins (view self.old) l snapshot }
        requires in_store { page < (view self.old).opened.base.page_count }
        ensures gives { (l : Look) → (view self.old).work ≡ Looking l
            → PastGives (is_honest self.new) snapshot page out.new (view self.old) (view self.new) l result }
        ensures goes { goes self.old self.new };

    /// Ends the look.
    fn unlook(&mut self, why: Ending)
        requires looking_now { is_looking (view self.old).work ≡ true }
        requires may_end { MayEnd (view self.old) why }
        ensures gives { (l : Look) → (view self.old).work ≡ Looking l
            → UnlookGives why (view self.old) (view self.new) l }
        ensures goes { goes self.old self.new };

    /// Drops the snapshots below a number.
    fn drop_below(&mut self, who: Who, below: u64) -> Result<(), Refusal>
        requires idle { (view self.old).work ≡ Idle }
        requires own { who.session ≡ (view self.old).session }
        ensures gives { DropGives who below (view self.old) (view self.new) result }
        ensures need { TellsDropNeed (seats self.new) (view self.old) (view self.new) result }
        ensures goes { goes self.old self.new };
}
