//! Runs of the program over stores in memory.

ghost use Rattle.std.specs.Prelude.{◌<◌};

use crate::crew::Crew;
use crate::program::retro;
use disk_model::Cabinet;
use feeds::{MemSink, MemSource, Sink, Source};
use fold_kit::{Combiner, FoldSet, How};
use session::{Gate, Items, NoGate, RunItems};
use std::alloc::{AllocError, Global};
use std::sync::Wait;
use std::thread::Threads;

/// What a run ended with, and wrote.
#[derive(Drop)]
pub struct Outcome {
    pub status: u8,
    pub text: Vec<u8>,
}

impl Outcome {
    /// Whether it ended so.
    pub fn is(&self, status: u8, text: &[u8]) -> bool {
        self.status == status && self.text.as_slice() == text
    }
}

// The program, without the clauses that no test needs.
fn ended<R: Threads + Wait + Sync, S: Source, K: Sink, C: Cabinet, I: RunItems + Sync>(
    alloc: Global,
    crew: &Crew<'_, R, I>,
    words: &[String],
    source: &mut S,
    sink: &mut K,
    cabinet: &mut C,
) -> u8
    requires { 0 < crew.now.threads }
{
    retro(alloc, crew, words, source, sink, cabinet)
}

fn owned(alloc: Global, words: &[&str]) -> Result<Vec<String>, AllocError> {
    let mut all = Vec::new(alloc);
    for word in words {
        all.push(String::from_str(alloc, word)?)?;
    }
    Ok(all)
}

// The status and the text of the program, with folds of its own.
fn written<R: Threads + Wait + Sync, S: Source, C: Cabinet, G: Gate + Sync>(
    rt: &R,
    alloc: Global,
    threads: usize,
    words: &[String],
    source: &mut S,
    cabinet: &mut C,
    gate: &G,
) -> Result<Outcome, AllocError>
    requires { 0 < threads }
{
    let mut sink = MemSink::new(alloc, Vec::new(alloc));
    let folds = FoldSet::new(
        Combiner::new(How::Min, |a: i128, b: i128| a.min(b)),
        Combiner::new(How::Max, |a: i128, b: i128| a.max(b)),
        Combiner::new(How::Add, |a: i128, b: i128| a.wrapping_add(b)),
    );
    let crew = Crew {
        rt,
        threads,
        runner: &Items {
            gate,
            folds: &folds,
        },
    };
    let status = ended(alloc, &crew, words, source, &mut sink, cabinet);
    let text = sink.bytes().to_vec(alloc)?;
    Ok(Outcome { status, text })
}

/// Runs the program with these words over a cabinet, in so many threads, with a gate.
pub fn told_at<R: Threads + Wait + Sync, C: Cabinet, G: Gate + Sync>(
    rt: &R,
    alloc: Global,
    threads: usize,
    cabinet: &mut C,
    words: &[&str],
    script: &[u8],
    gate: &G,
) -> Result<Outcome, AllocError>
    requires { 0 < threads }
{
    let words = owned(alloc, words)?;
    let mut source = MemSource::new(script.to_vec(alloc)?, Vec::new(alloc));
    written(
        rt,
        alloc,
        threads,
        words.as_slice(),
        &mut source,
        cabinet,
        gate,
    )
}

/// That, in one thread, in which the sessions of a phase run in turn.
pub fn told<R: Threads + Wait + Sync, C: Cabinet>(
    rt: &R,
    alloc: Global,
    cabinet: &mut C,
    words: &[&str],
    script: &[u8],
) -> Result<Outcome, AllocError> {
    told_at(rt, alloc, 1, cabinet, words, script, &NoGate)
}

/// Words, the script, a status, and the text.
pub type Row = (&'static [&'static str], &'static [u8], u8, &'static [u8]);

// Whether the program ends so with the words of the row.
fn ends_so<R: Threads + Wait + Sync, C: Cabinet>(
    rt: &R,
    alloc: Global,
    cabinet: &mut C,
    row: &Row,
) -> Result<bool, AllocError> {
    let (words, script, status, text) = row;
    let outcome = told(rt, alloc, cabinet, words, script)?;
    Ok(outcome.is(*status, text))
}

/// The number of the first row that ends in another way on a cabinet, on which they come in order.
pub fn first_wrong<R: Threads + Wait + Sync, C: Cabinet>(
    rt: &R,
    alloc: Global,
    cabinet: &mut C,
    rows: &[Row],
) -> Result<Option<usize>, AllocError> {
    for (number, row) in rows.iter().enumerate() {
        if !ends_so(rt, alloc, cabinet, row)? {
            return Ok(Some(number));
        }
    }
    Ok(None)
}
