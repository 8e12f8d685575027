//! The parts of the work.

ghost use Rattle.std.specs.Prelude.{◌≡◌, None, true};
ghost use Rattle.store.specs.Seats.{IsReady, IsSized, IsWhole};
ghost use Rattle.turn.specs.Seats.{IsSame, mine};
ghost use Rattle.turn.specs.Tables.{table_of};

use crate::measured::{commit_often, commit_plain_often, enter_often, read_often, recall_often};
use crate::prepared::Setting;
use disk_model::Disk;
use std::alloc::Global;
use std::sync::Wait;
use store::{Seat, Store};

/// What is done so often.
#[derive(Clone, Copy, PartialEq, Eq)]
pub enum Part {
    /// A transaction writes a page and declares a snapshot.
    Commits,
    /// A transaction writes a page.
    Plain,
    /// The desk is entered.
    Entries,
    /// A page that is in memory is read.
    Reads,
    /// A page that is not in memory is read.
    Fetches,
    /// A page that was captured, and copied, is read as of a snapshot.
    Recalls,
}

impl Part {
    /// Each part.
    pub const ALL: [Part; 6] = [
        Part::Commits,
        Part::Plain,
        Part::Entries,
        Part::Reads,
        Part::Fetches,
        Part::Recalls,
    ];

    /// The word that asks for it.
    pub fn word(self) -> &'static str {
        match self {
            Part::Commits => "commits",
            Part::Plain => "plain",
            Part::Entries => "entries",
            Part::Reads => "reads",
            Part::Fetches => "fetches",
            Part::Recalls => "recalls",
        }
    }
}

/// Whether a part was done so often.
pub fn does<R: Wait, D: Disk + Drop>(
    rt: &R,
    alloc: Global,
    store: &Store<D>,
    seat: &mut Seat<D>,
    part: Part,
    count: u32,
    setting: Setting,
) -> bool
    requires ready { IsReady (table_of store.now.turn) seat.old × IsWhole seat.old }
    requires idle { (mine seat.old).work ≡ None }
    requires sized { IsSized store.now.pages seat.old }
    ensures ready { IsReady (table_of store.now.turn) seat.new × IsWhole seat.new }
    ensures idle { result ≡ true → (mine seat.new).work ≡ None }
    ensures same { IsSame seat.old seat.new }
{
    match part {
        Part::Commits => commit_often(rt, store, seat, count),
        Part::Plain => commit_plain_often(rt, store, seat, count),
        Part::Entries => enter_often(rt, store, seat, count),
        Part::Reads => read_often(rt, store, seat, count, None),
        Part::Fetches => read_often(rt, store, seat, count, Some(setting.upper_half())),
        Part::Recalls => recall_often(rt, alloc, store, seat, count),
    }
}
