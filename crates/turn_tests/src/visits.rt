//! Entries of one seat.

ghost use Rattle.std.specs.Prelude.{◌≡◌, ◌≤◌, ◌+◌, ◌∷◌, ◌++◌, [], ℕ, Bool, List, take, true};
ghost use Rattle.retro_base.specs.declared.device.Device.{Device};
ghost use Rattle.retro_base.specs.declared.device.Device.TheVariants.{Pagelog};
ghost use Rattle.history.specs.declared.journal.FailedCall.{FailedCall};
ghost use Rattle.history.specs.declared.journal.What.TheVariants.{Fault};
ghost use Rattle.turn.specs.Views.{PARTS};
ghost use Rattle.turn.specs.Seats.{held, mine};
ghost use Rattle.turn_tests.specs.Ready.{IsReady, IsTold, Keeps, line_by};
ghost use Rattle.turn_tests.specs.Meanings.{is_quiet};
ghost use Rattle.turn.specs.Tables.{table_of};

use crate::small::{Book, Shelf};
use history::{FailedCall, Label, Line, What, Writes};
use retro_base::{Device, Who};
use std::alloc::Global;
use std::sync::Wait;
use turn::seat::Seat;
use turn::turn::Turn;

// The line of an item in the one phase.
fn line_by(session: u16, item: u32, what: What) -> Line
    ensures { result ≡ line_by session item what }
{
    Line {
        who: Who {
            phase: 1,
            session,
            item,
        },
        what,
    }
}

// Adds a line of the seat to the journal. Its answer is how many lines were added: 0 for want of memory.
fn add<R: Wait>(
    rt: &R,
    turn: &Turn<Book, Shelf>,
    seat: &mut Seat<Book, Shelf>,
    item: u32,
    what: What,
    lines: u64,
) -> u64
    requires ready { IsReady (table_of turn.now) lines seat.old }
    requires whole { (mine seat.old).parts ≡ PARTS }
    requires quiet { is_quiet what ≡ true }
    requires told { IsTold what (mine seat.old).faults }
    ensures ready { IsReady (table_of turn.now) (lines + result) seat.new }
    ensures same { Keeps seat.old seat.new }
    ensures line { (mine seat.new).lines
        ≡ (mine seat.old).lines ++ take result (line_by seat.old.number item what ∷ []) }
    ensures one { result ≤ 1 }
{
    let line = line_by(seat.number(), item, what);
    let mut book = turn.enter_desk(rt, seat);
    let added = book.add(line);
    turn.leave_desk(seat, book);
    u64::from(added)
}

// Meets a fault of the log in the desk, and adds its line. Its answer is how many lines were added.
fn fail_in_desk<R: Wait>(
    rt: &R,
    turn: &Turn<Book, Shelf>,
    seat: &mut Seat<Book, Shelf>,
    lines: u64,
) -> u64
    requires ready { IsReady (table_of turn.now) lines seat.old }
    requires whole { (mine seat.old).parts ≡ PARTS }
    ensures ready { IsReady (table_of turn.now) (lines + result) seat.new }
    ensures same { Keeps seat.old seat.new }
    ensures one { result ≤ 1 }
{
    let session = seat.number();
    let mut book = turn.enter_desk(rt, seat);
    let count = book.fail();
    let what = What::Fault {
        device: Device::Log,
        count,
        call: FailedCall::Read,
    };
    let added = book.add(line_by(session, 0, what));
    turn.leave_desk(seat, book);
    u64::from(added)
}

// Meets a fault of the page log in the vault. Its answer is the fault's count.
fn fail_in_vault<R: Wait>(
    rt: &R,
    turn: &Turn<Book, Shelf>,
    seat: &mut Seat<Book, Shelf>,
    lines: u64,
) -> u64
    requires ready { IsReady (table_of turn.now) lines seat.old }
    ensures ready { IsReady (table_of turn.now) lines seat.new }
    ensures same { Keeps seat.old seat.new }
    ensures told { (call : FailedCall) → IsTold (Fault Pagelog result call) (mine seat.new).faults }
{
    let mut shelf = turn.enter_vault(rt, seat);
    let count = shelf.fail();
    turn.leave_vault(seat, shelf);
    count
}

/// Raises what is held by one, where it is below this many lines. Its answer is what is then held.
pub(crate) fn hold<R: Wait>(
    rt: &R,
    turn: &Turn<Book, Shelf>,
    seat: &mut Seat<Book, Shelf>,
    lines: u64,
) -> u64
    requires ready { IsReady (table_of turn.now) lines seat.old }
    ensures ready { IsReady (table_of turn.now) lines seat.new }
    ensures same { Keeps seat.old seat.new }
    ensures held { held seat.new ≡ result }
{
    let mut shelf = turn.enter_vault(rt, seat);
    shelf.raise(lines);
    let held = shelf.held;
    turn.leave_vault(seat, shelf);
    held
}

/// The desk then knows of so many that are held.
pub(crate) fn acknowledge<R: Wait>(
    rt: &R,
    turn: &Turn<Book, Shelf>,
    seat: &mut Seat<Book, Shelf>,
    count: u64,
    lines: u64,
)
    requires ready { IsReady (table_of turn.now) lines seat.old }
    requires held { count ≤ held seat.old }
    ensures ready { IsReady (table_of turn.now) lines seat.new }
    ensures same { Keeps seat.old seat.new }
{
    let mut book = turn.enter_desk(rt, seat);
    book.acknowledge(count);
    turn.leave_desk(seat, book);
}

/// One line more is held, where there are so many, and then acknowledged. Its answer is the horizon.
pub(crate) fn copy<R: Wait>(
    rt: &R,
    turn: &Turn<Book, Shelf>,
    seat: &mut Seat<Book, Shelf>,
    lines: u64,
) -> (u32, u32)
    requires ready { IsReady (table_of turn.now) lines seat.old }
    ensures ready { IsReady (table_of turn.now) lines seat.new }
    ensures same { Keeps seat.old seat.new }
{
    let held = hold(rt, turn, seat, lines);
    acknowledge(rt, turn, seat, held, lines);
    turn.horizon(seat)
}

// How the transaction of an item ends: one of two declares a snapshot, the other is rolled back.
fn end_of(alloc: Global, item: u32) -> What
    ensures quiet { is_quiet result ≡ true }
    ensures told { (faults : List (Device × ℕ)) → IsTold result faults }
{
    if item.is_multiple_of(2) {
        What::Done {
            label: Some(Label::new(Vec::new(alloc))),
            writes: Writes::new(Vec::new(alloc)),
        }
    } else {
        What::RolledBack
    }
}

// A fault on each side, with its line. Its answer is how many lines were added.
fn meet_faults<R: Wait>(rt: &R, turn: &Turn<Book, Shelf>, seat: &mut Seat<Book, Shelf>) -> u64
    requires { IsReady (table_of turn.now) 0 seat.old × ((mine seat.old).parts ≡ PARTS) }
    ensures ready { IsReady (table_of turn.now) result seat.new }
    ensures same { Keeps seat.old seat.new }
    ensures two { result ≤ 2 }
{
    let lines = fail_in_desk(rt, turn, seat, 0);
    let count = fail_in_vault(rt, turn, seat, lines);
    let what = What::Fault {
        device: Device::Pagelog,
        count,
        call: FailedCall::Read,
    };
    lines + add(rt, turn, seat, 0, what, lines)
}

/// A fault on each side, and then so many rounds: a transaction, and one line more that is held. Its answer is how many
/// lines were added.
pub fn visit<R: Wait>(
    rt: &R,
    alloc: Global,
    turn: &Turn<Book, Shelf>,
    seat: &mut Seat<Book, Shelf>,
    rounds: u32,
) -> u64
    requires { IsReady (table_of turn.now) 0 seat.old × ((mine seat.old).parts ≡ PARTS) }
    ensures ready { IsReady (table_of turn.now) result seat.new }
    ensures same { Keeps seat.old seat.new }
{
    let mut lines = meet_faults(rt, turn, seat);
    'rounds: for item in 0..rounds {
        lines += add(rt, turn, seat, item, What::Began, lines);
        lines += add(rt, turn, seat, item, end_of(alloc, item), lines);
        copy(rt, turn, seat, lines);
    }
    lines
}

/// So many rounds of a helper, of a seat with so many lines or more: one line more is held.
pub fn help<R: Wait>(
    rt: &R,
    turn: &Turn<Book, Shelf>,
    helper: &mut Seat<Book, Shelf>,
    lines: u64,
    rounds: u32,
)
    requires { IsReady (table_of turn.now) lines helper.old }
    ensures ready { IsReady (table_of turn.now) lines helper.new }
    ensures same { Keeps helper.old helper.new }
{
    for _ in 0..rounds {
        copy(rt, turn, helper, lines);
    }
}
