//! A store with one of its seats.

ghost use Rattle.std.specs.Prelude.{◌≡◌, [], None};
ghost use Rattle.journal_law.specs.Seats.{Idle, Waits};
ghost use Rattle.store.specs.Frames.{GoesOn};
ghost use Rattle.store.specs.Kept.{IsTabled, IsTabled-prop};
ghost use Rattle.store.specs.Seen.{IsSeated, view_of};
ghost use Rattle.store.specs.Seats.{IsReady, IsSized, IsWhole};
ghost use Rattle.turn.specs.Seats.{mine, seen};
ghost use Rattle.turn.specs.Tables.{table_of};
ghost use Rattle.turn.specs.Views.{longer};

use crate::ending::ending_of;
use crate::kept::KeptTable;
use crate::recall::recall;
use crate::shared::Store;
use crate::told::tell;
use disk_model::Disk;
use history::Mark;
use journal_law::{Ending, Seat, ToldFault};
use retro_base::{Page, Refusal, Who};
use std::alloc::Global;
use std::sync::Wait;
use values::Seq;

/// A store as one of its seats sees it.
pub struct Held<'a, R: Wait, D: Disk + Drop> {
    pub(crate) alloc: Global,
    pub(crate) rt: &'a R,
    pub(crate) store: &'a Store<D>,
    pub(crate) seat: crate::shared::Seat<D>,
    /// Whose what the seat has open is.
    pub(crate) who: Who,
    /// The snapshot that an open look is at; none where it is at all.
    pub(crate) asked: Option<u64>,
    /// The faults that the seat was told since its last line, the last one at the end.
    pub(crate) told: Vec<ToldFault>,
    /// The page table of the snapshot that the open look read last.
    pub(crate) kept: Option<KeptTable<D>>,
    ghost ready: { IsReady (table_of store.now.turn) seat },
    ghost whole: { IsWhole seat },
    ghost sized: { IsSized store.now.pages seat },
    ghost seated: { IsSeated who asked told.items seat },
    ghost tabled: { IsTabled seat kept } by { IsTabled-prop seat-code seat kept },
}

impl<'a, R: Wait, D: Disk + Drop> Held<'a, R, D> {
    /// A store with a seat of its own that has nothing open.
    pub fn new(
        alloc: Global,
        rt: &'a R,
        store: &'a Store<D>,
        seat: crate::shared::Seat<D>,
    ) -> Held<'a, R, D>
        requires ready { IsReady (table_of store.now.turn) seat × IsWhole seat }
        requires sized { IsSized store.now.pages seat }
        requires idle { (mine seat).work ≡ None }
        ensures seat { result.seat ≡ seat }
        ensures store { table_of result.store.now.turn ≡ table_of store.now.turn }
        ensures told { result.told.items ≡ [] }
        // What it has seen is what the seat has seen: no line, where the store was just opened.
        ensures front { (view_of D.state D.faults result.asked result.told.items result.seat).front ≡ seen seat }
        ensures session { (view_of D.state D.faults result.asked result.told.items result.seat).session ≡ seat.number }
        ensures idle { (view_of D.state D.faults result.asked result.told.items result.seat).work ≡ Idle }
    {
        Held {
            alloc,
            rt,
            store,
            seat,
            who: Who {
                phase: 0,
                session: 0,
                item: 0,
            },
            asked: None,
            told: Vec::new(alloc),
            kept: None,
        }
    }

    /// The seat.
    pub fn into_seat(self) -> crate::shared::Seat<D>
        ensures ready { IsReady (table_of self.entry.store.now.turn) result × IsWhole result }
        ensures seat { result ≡ self.entry.seat }
    {
        let Held {
            alloc: _,
            rt: _,
            store: _,
            seat,
            who: _,
            asked: _,
            told: _,
            kept: _,
        } = self;
        seat
    }

    /// Both have then seen the longer of what the two had seen. It waits for nobody.
    pub fn meet(&mut self, other: &mut Held<'a, R, D>)
        requires store { table_of other.old.store.now.turn ≡ table_of self.old.store.now.turn }
        ensures waits { Waits (view_of D.state D.faults self.old.asked self.old.told.items self.old.seat)
            (view_of D.state D.faults self.new.asked self.new.told.items self.new.seat)
            (view_of D.state D.faults self.old.asked self.old.told.items self.old.seat).work }
        ensures others { Waits (view_of D.state D.faults other.old.asked other.old.told.items other.old.seat)
            (view_of D.state D.faults other.new.asked other.new.told.items other.new.seat)
            (view_of D.state D.faults other.old.asked other.old.told.items other.old.seat).work }
        ensures seen { (seen self.new.seat ≡ longer (seen self.old.seat) (seen other.old.seat))
            × (seen other.new.seat ≡ seen self.new.seat) }
        ensures goes { GoesOn (table_of self.old.store.now.turn) (table_of self.new.store.now.turn)
            self.old.seat self.new.seat }
        ensures other_goes { GoesOn (table_of other.old.store.now.turn) (table_of other.new.store.now.turn)
            other.old.seat other.new.seat }
    {
        self.kept = None;
        other.kept = None;
        self.store.meet(&mut self.seat, &mut other.seat);
    }
}

impl<'a, R: Wait, D: Disk + Drop> Seat for Held<'a, R, D> {
    ghost use Rattle.store.specs.Frames.{GoesOn, goes_on, honest_stays, seats_stay, stays};
    ghost use Rattle.store.specs.Seen.{IsHonest, seats_in, view_of};
    ghost use Rattle.turn.specs.Seats.{opening};
    ghost use Rattle.turn.specs.Tables.{table_of};

    ghost view = { λ h. view_of D.state D.faults h.asked h.told.items h.seat };

    ghost is_honest = { λ h. IsHonest D.is_honest D.state h.seat };

    ghost goes = { λ h k. GoesOn (table_of h.store.now.turn) (table_of k.store.now.turn) h.seat k.seat };

    ghost stays = { λ h. stays (table_of h.store.now.turn) h.seat };

    ghost goes_on = { λ h k l one two. goes_on (table_of h.store.now.turn) (table_of k.store.now.turn)
        (table_of l.store.now.turn) h.seat k.seat l.seat one two };

    ghost honest_stays = { λ h k goes. honest_stays D.is_honest D.state (table_of h.store.now.turn)
        (table_of k.store.now.turn) h.seat k.seat goes };

    ghost seats = { λ h. seats_in (opening h.seat) };

    ghost seats_stay = { λ h k goes. seats_stay (table_of h.store.now.turn) (table_of k.store.now.turn)
        h.seat k.seat goes };

    fn pages(&self) -> u32 {
        self.store.pages()
    }

    fn begin(&mut self, who: Who) -> Result<(), Refusal> {
        self.who = who;
        self.store.begin(self.rt, &mut self.seat, who)
    }

    fn read(&mut self, page: u32, out: &mut Page) -> Result<(), Refusal> {
        self.store
            .read(self.rt, &mut self.seat, self.who, page, out)
    }

    fn edit(&mut self, page: u32, bytes: &Page) -> Result<(), Refusal> {
        self.store
            .edit(self.rt, &mut self.seat, self.who, page, bytes)
    }

    fn commit(&mut self, label: Option<&[u8]>) -> Result<Option<u32>, Refusal> {
        self.store.commit(self.rt, &mut self.seat, self.who, label)
    }

    fn rollback(&mut self, why: Ending) {
        self.store
            .rollback(self.rt, &mut self.seat, self.who, ending_of(why));
        self.told.clear();
    }

    fn look(&mut self, who: Who, snapshot: u64) -> Result<(), Refusal> {
        self.who = who;
        self.asked = Some(snapshot);
        match self.store.look(self.rt, &mut self.seat, who, snapshot) {
            Ok(_) => Ok(()),
            Err(why) => Err(why),
        }
    }

    fn look_all(&mut self, who: Who) -> Result<Seq<Mark>, Refusal> {
        self.who = who;
        self.asked = None;
        self.store.look_all(self.rt, &mut self.seat, who)
    }

    fn past(&mut self, snapshot: u32, page: u32, out: &mut Page) -> Result<(), Refusal> {
        self.told.reserve(1)?;
        match recall(
            self.alloc,
            self.rt,
            self.store,
            &mut self.seat,
            &mut self.kept,
            snapshot,
            page,
            out,
        ) {
            Ok(()) => Ok(()),
            Err(fault) => {
                tell(&mut self.told, fault.why);
                Err(fault.why)
            }
        }
    }

    fn unlook(&mut self, why: Ending) {
        self.kept = None;
        self.store
            .unlook(self.rt, &mut self.seat, self.who, ending_of(why));
        self.told.clear();
    }

    fn drop_below(&mut self, who: Who, below: u64) -> Result<(), Refusal> {
        self.who = who;
        self.store.drop_below(self.rt, &mut self.seat, who, below)
    }
}
