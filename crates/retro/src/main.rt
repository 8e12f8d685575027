//! The program `retro`: runs a script over tables that keep declared past states, and writes a transcript of every
//! reply; makes stores in folders, and shows what they hold; and runs loads, of which it writes a summary.
#![tactic(auto)]

#[cfg(test)]
mod apart;
mod asking;
mod command_line;
#[cfg(test)]
mod commits;
mod crew;
#[cfg(test)]
mod devices;
#[cfg(test)]
mod faults;
mod formatting;
#[cfg(test)]
mod held_up;
mod keeping;
mod laws;
mod loading;
#[cfg(test)]
mod log_fault;
mod memory;
#[cfg(test)]
mod moving;
#[cfg(test)]
mod overlapping;
mod phases;
mod program;
#[cfg(test)]
mod reading_faults;
#[cfg(test)]
mod rows;
mod running;
mod saying;
mod seats;
mod showing;
mod slots;
mod storing;
mod summary;
#[cfg(test)]
mod trial;
mod words;
mod working;

use crew::Crew;
use disk_file::FileCabinet;
use feeds::{StdSink, StdSource};
use fold_kit::{Combiner, FoldSet, How};
use program::retro;
use retro_base::SESSIONS;
use saying::lack_memory;
use session::{Items, NoGate};
use std::alloc::AllocError;
use std::env;
use std::env::Env;
use std::io::ErrorKind;
use std::process::ExitCode;

// The words behind the program's own name; none where they are not all text.
fn given_words(rt: &(impl Env + AllocGlobal)) -> Result<Vec<String>, AllocError> {
    match env::args(rt) {
        Ok(words) => words.skip(1).collect(rt.alloc()),
        Err(error) => {
            if error.kind() == ErrorKind::OutOfMemory {
                return Err(AllocError);
            }
            Ok(Vec::new(rt.alloc()))
        }
    }
}

fn main(rt: HostRuntime) -> ExitCode {
    let mut source = StdSource::new(rt.stdin());
    let mut sink = StdSink::new(rt.stdout());
    let Ok(words) = given_words(&rt) else {
        return ExitCode::from(lack_memory(&mut sink).number());
    };
    let mut cabinet = FileCabinet::new(rt.alloc(), &rt);
    let folds = FoldSet::new(
        Combiner::new(How::Min, |a: i128, b: i128| a.min(b)),
        Combiner::new(How::Max, |a: i128, b: i128| a.max(b)),
        Combiner::new(How::Add, |a: i128, b: i128| a.wrapping_add(b)),
    );
    let crew = Crew {
        rt: &rt,
        threads: SESSIONS,
        runner: &Items {
            gate: &NoGate,
            folds: &folds,
        },
    };
    let status = retro(
        rt.alloc(),
        &crew,
        words.as_slice(),
        &mut source,
        &mut sink,
        &mut cabinet,
    );
    ExitCode::from(status)
}
