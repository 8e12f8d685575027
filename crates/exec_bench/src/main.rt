//! Statements over pages in memory: what they reply at the limits, beside plain tables, over ten thousand rows, and
//! when a call fails. With a word only those whose costs over pages and over plain tables are compared.
#![tactic(auto)]

mod both;
mod lines;
mod stories;
mod texts;

use lines::{FULL, LONG, REFUSED};
use retro_base::Refusal;
use std::alloc::Global;
use std::env::{self, Env};
use std::process::ExitCode;
use stories::{compared, faults, large, last_numbers, many, replies_of, texts_indexed, wide};

fn story(alloc: Global, out: &mut String) -> Result<(), Refusal> {
    replies_of(alloc, &FULL, out)?;
    replies_of(alloc, &LONG, out)?;
    replies_of(alloc, &REFUSED, out)?;
    last_numbers(alloc, out)?;
    many(alloc, out)?;
    wide(alloc, out)?;
    texts_indexed(alloc, out)?;
    faults(alloc, out)?;
    large(alloc, out)
}

fn told(alloc: Global, compares: bool) -> Result<String, Refusal> {
    let mut out = String::new(alloc);
    if !compares {
        story(alloc, &mut out)?;
    }
    compared(alloc, &mut out)?;
    Ok(out)
}

// Whether there is a word behind the program's own name.
fn has_word(rt: &(impl Env + AllocGlobal)) -> bool {
    match env::args(rt) {
        Ok(mut words) => words.nth(1).is_some(),
        Err(_) => false,
    }
}

fn main(rt: HostRuntime) -> ExitCode {
    let Ok(text) = told(rt.alloc(), has_word(&rt)) else {
        return ExitCode::FAILURE;
    };
    match print!(rt; "{text}") {
        Ok(()) => ExitCode::SUCCESS,
        Err(_) => ExitCode::FAILURE,
    }
}
