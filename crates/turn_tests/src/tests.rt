//! What many threads leave behind, line by line.

use crate::small::{Book, Shelf};
use crate::{with_helpers, with_last, with_meeting, with_seats};
use history::{Line, What};
use std::test::Fail;

// Whether the lines of one session are its two faults, and then so many transactions, in order, each of which began and
// ended as its number says.
fn are_pairs(lines: &[Line], session: u16, pairs: u32) -> bool {
    let mut faults: u64 = 0;
    let mut item: u32 = 0;
    let mut is_open = false;
    for line in lines {
        if line.who.session != session {
            continue;
        }
        if let What::Fault { .. } = line.what {
            faults = faults.saturating_add(1);
            continue;
        }
        let fits = match line.what {
            What::Began => !is_open,
            What::Done { .. } => is_open && item.is_multiple_of(2),
            What::RolledBack => is_open && !item.is_multiple_of(2),
            _ => false,
        };
        if !fits || line.who.item != item {
            return false;
        }
        if is_open {
            item = line.who.item.wrapping_add(1);
        }
        is_open = !is_open;
    }
    faults == 2 && item == pairs && !is_open
}

// Whether so many sessions have two faults and so many transactions each, and nobody else a line.
fn have_pairs(book: &Book, sessions: u16, pairs: u32) -> bool {
    let lines = book.lines.as_slice();
    (0..sessions).all(|session| are_pairs(lines, session, pairs))
        && lines.iter().all(|line| line.who.session < sessions)
        && book.works.are_ended()
}

// How many lines, snapshots, faults of the log, faults of the page log, and entries to the vault there were.
fn counts(book: &Book, shelf: &Shelf) -> (usize, u32, u64, u64, u64) {
    (
        book.lines.len(),
        book.newest,
        book.faults,
        shelf.faults,
        shelf.entries,
    )
}

#[test]
fn two_seats_make_a_hundred_transactions_each(rt: HostRuntime) -> Result<(), Fail> {
    let Some((book, shelf)) = with_seats(&rt, rt.alloc(), 2, 100) else {
        panic!(rt; "no memory")
    };
    assert!(rt; have_pairs(&book, 2, 100) && counts(&book, &shelf) == (404, 100, 2, 2, 202));
    assert!(rt; book.acked == shelf.held && (100..=202).contains(&shelf.held));
    Ok(())
}

#[test]
fn sixteen_seats_enter_both_locks_ten_thousand_times(rt: HostRuntime) -> Result<(), Fail> {
    let Some((book, shelf)) = with_seats(&rt, rt.alloc(), 16, 160) else {
        panic!(rt; "no memory")
    };
    assert!(rt; have_pairs(&book, 16, 160) && counts(&book, &shelf) == (5152, 1280, 16, 16, 2576));
    assert!(rt; book.acked == shelf.held && (160..=322).contains(&shelf.held));
    Ok(())
}

#[test]
fn two_helpers_raise_what_is_held_and_their_seat_goes_on(rt: HostRuntime) -> Result<(), Fail> {
    let Some((book, shelf, horizon)) = with_helpers(&rt, rt.alloc(), 100) else {
        panic!(rt; "no memory")
    };
    assert!(rt; counts(&book, &shelf) == (206, 51, 2, 2, 204) && horizon == (1, 51));
    assert!(rt; shelf.held == 200 && book.acked == 200);
    Ok(())
}

#[test]
fn two_seats_meet_and_one_acknowledges_what_the_other_held(rt: HostRuntime) -> Result<(), Fail> {
    let Some((book, shelf, horizon)) = with_meeting(&rt, rt.alloc(), 3) else {
        panic!(rt; "no memory")
    };
    assert!(rt; have_pairs(&book, 2, 3) && counts(&book, &shelf) == (16, 4, 2, 2, 9));
    assert!(rt; horizon == (1, 4) && shelf.held == 7 && book.acked == 7);
    Ok(())
}

#[test]
fn the_last_of_all_seats_enters_both_locks(rt: HostRuntime) -> Result<(), Fail> {
    let Some((book, shelf)) = with_last(&rt, rt.alloc(), 65536) else {
        panic!(rt; "no memory")
    };
    assert!(rt; are_pairs(book.lines.as_slice(), 65535, 1) && book.works.are_ended());
    assert!(rt; counts(&book, &shelf) == (4, 1, 1, 1, 2));
    Ok(())
}
