//! What an entry costs: so many seats, each in a thread of its own, make so many rounds, of four entries each.
//! With no words the small run; with two numbers, as `8 10000`, so many seats and rounds.
#![tactic(auto)]

use std::env;
use std::env::Env;
use std::process::ExitCode;
use std::sync::Wait;
use std::thread::Threads;
use turn_tests::with_seats;

/// The most seats that may be asked for.
const SEATS: u32 = 16;

fn tell<R: Print + AllocGlobal + Threads + Wait + Sync>(
    rt: &R,
    seats: u32,
    rounds: u32,
) -> Option<()> {
    if seats > SEATS {
        return None;
    }
    let (book, _shelf) = with_seats(rt, rt.alloc(), seats, rounds)?;
    println!(rt;
        "{seats} seats of {rounds} rounds: {} lines",
        book.lines.len()
    )
    .ok()
}

/// What the words ask for; nothing where they ask for nothing known, or memory runs out.
fn run<R: Print + AllocGlobal + Threads + Wait + Sync>(rt: &R, words: &[String]) -> Option<()> {
    match words {
        [] => tell(rt, 4, 50),
        [seats, rounds] => tell(rt, seats.parse().ok()?, rounds.parse().ok()?),
        _ => None,
    }
}

// The words behind the program's own name; none where they are not all text, or memory runs out.
fn words(rt: &(impl Env + AllocGlobal)) -> Vec<String> {
    if let Ok(words) = env::args(rt)
        && let Ok(words) = words.skip(1).collect(rt.alloc())
    {
        return words;
    }
    Vec::new(rt.alloc())
}

fn main(rt: HostRuntime) -> ExitCode {
    let words = words(&rt);
    match run(&rt, words.as_slice()) {
        Some(()) => ExitCode::SUCCESS,
        None => ExitCode::FAILURE,
    }
}
