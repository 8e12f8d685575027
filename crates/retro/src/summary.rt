//! The summary of a load.

ghost use Rattle.std.specs.Prelude.{◌≡◌, ◌<◌, ◌++◌, IfOk, OnOk, length, map};
ghost use Rattle.std.specs.List.{flat_map};
ghost use Rattle.session.specs.Replies.{kept_by_place, text_of};
ghost use Rattle.session.specs.Wording.{word};
ghost use Rattle.workload.specs.Load.{table_numbers};
ghost use Rattle.retro.specs.Loads.{IsSummary, count_of, declares, is_commit, is_number, load_line};
ghost use Rattle.retro.specs.Loads.{number_at, numbers_in, numbers_of, past_line, summary, sums_line};

use crate::saying::push_number;
use crate::showing::push_line;
use crate::storing::Ended;
use history::{Line, What};
use retro_base::{JOURNAL_LINES, WORKER_LINES};
use session::{Kept, Plan};
use std::alloc::{AllocError, Global};
use values::Seq;

fn is_commit(line: &Line) -> bool
    ensures { result ≡ is_commit line.now.what }
{
    matches!(line.what, What::Done { .. })
}

fn declares(line: &Line) -> bool
    ensures { result ≡ declares line.now.what }
{
    matches!(line.what, What::Done { label: Some(_), .. })
}

fn commits_in(journal: &[Line]) -> usize
    ensures { result ≡ count_of is_commit journal.now }
{
    journal.iter().filter(|line| is_commit(line)).count()
}

fn snapshots_in(journal: &[Line]) -> usize
    ensures { result ≡ count_of declares journal.now }
{
    journal.iter().filter(|line| declares(line)).count()
}

// Why an item was cut short, where the journal has so many lines at its end.
fn cut_line(lines: u64) -> &'static [u8]
    ensures { result.now ≡ text_of lines Kept.CutShort }
{
    if lines > JOURNAL_LINES - WORKER_LINES - 2 {
        b"refused 13 JournalFull\n"
    } else {
        b"refused 1 OutOfMemory\n"
    }
}

// The reply lines of an item.
fn reply_of(lines: u64, kept: &Kept) -> &[u8]
    ensures { result.now ≡ text_of lines kept.now }
{
    match kept {
        Kept::Told(text) => text.as_slice(),
        Kept::CutShort => cut_line(lines),
        Kept::NotRun => b"not run\n",
    }
}

// Whether a line of a reply stands for a number.
fn is_number(line: &[u8]) -> bool
    ensures { result ≡ is_number line.now }
{
    !(line.is_empty() || line == b"rows 1".as_slice() || line == b"committed".as_slice())
}

fn numbers_in<'a>(alloc: Global, reply: &'a [u8]) -> Result<Vec<&'a [u8]>, AllocError>
    ensures { IfOk result (λ numbers. map (λ number. number.now) numbers.items ≡ numbers_in reply.now) }
{
    reply
        .split(|byte| *byte == b'\n')
        .filter(|line| is_number(line))
        .collect(alloc)
}

// The number at a place, or else the first.
fn number_at<'a>(numbers: &[&'a [u8]], place: usize) -> &'a [u8]
    ensures { result.now ≡ number_at (map (λ number. number.now) numbers.now) place }
{
    let Some(first) = numbers.first() else {
        return &[];
    };
    match numbers.get(place) {
        Some(number) => number,
        None => first,
    }
}

// What stands for the numbers of the item of a number.
fn numbers_of<'a>(
    alloc: Global,
    lines: u64,
    kept: &'a [Kept],
    item: usize,
) -> Result<Vec<&'a [u8]>, AllocError>
    requires { 0 < item }
    ensures { IfOk result (λ numbers. map (λ number. number.now) numbers.items ≡ numbers_of lines kept.now item) }
{
    match kept.get(item - 1) {
        Some(kept) => numbers_in(alloc, reply_of(lines, kept)),
        None => numbers_in(alloc, &[]),
    }
}

// Adds a blank and a word.
fn push_word(text: &mut Vec<u8>, added: &[u8]) -> Result<(), AllocError>
    ensures { OnOk result (text.new.items ≡ text.old.items ++ word added.now) }
{
    text.extend_from_slice(b" ")?;
    text.extend_from_slice(added)
}

// Adds the first line.
fn push_load(alloc: Global, text: &mut Vec<u8>, seed: u32, rounds: u32) -> Result<(), AllocError>
    ensures { OnOk result (text.new.items ≡ text.old.items ++ load_line seed rounds) }
{
    text.extend_from_slice(b"load")?;
    push_number(alloc, text, u64::from(seed))?;
    push_number(alloc, text, u64::from(rounds))?;
    text.push(b'\n')?;
    Ok(())
}

// Adds a number for each table.
#[tactic(auto, using(crate::proofs::Loaded::four))]
fn push_each(text: &mut Vec<u8>, numbers: &[&[u8]]) -> Result<(), AllocError>
    ensures { OnOk result (text.new.items ≡ text.old.items
        ++ flat_map (λ table. word (number_at (map (λ number. number.now) numbers.now) table)) table_numbers) }
{
    push_word(text, number_at(numbers, 0))?;
    push_word(text, number_at(numbers, 1))?;
    push_word(text, number_at(numbers, 2))?;
    push_word(text, number_at(numbers, 3))
}

// Adds the line of the sums of the tables.
fn push_sums(alloc: Global, text: &mut Vec<u8>, lines: u64, kept: &[Kept]) -> Result<(), AllocError>
    ensures { OnOk result (text.new.items ≡ text.old.items ++ sums_line lines kept.now) }
{
    let numbers = numbers_of(alloc, lines, kept, 3)?;
    text.extend_from_slice(b"sums")?;
    push_each(text, numbers.as_slice())?;
    text.push(b'\n')?;
    Ok(())
}

// Adds the line of the sum over the snapshots.
fn push_past(alloc: Global, text: &mut Vec<u8>, lines: u64, kept: &[Kept]) -> Result<(), AllocError>
    ensures { OnOk result (text.new.items ≡ text.old.items ++ past_line lines kept.now) }
{
    let numbers = numbers_of(alloc, lines, kept, 2)?;
    text.extend_from_slice(b"past")?;
    push_word(text, number_at(numbers.as_slice(), 0))?;
    text.push(b'\n')?;
    Ok(())
}

// What is kept of the first session of the last phase.
fn last_kept<'a>(plan: &Plan, kept: &'a [Seq<Seq<Kept>>]) -> &'a [Kept]
    ensures { result.now ≡ kept_by_place kept.now (length plan.now) 0 }
{
    let Some(index) = plan.as_slice().len().checked_sub(1) else {
        return &[];
    };
    match kept.get(index) {
        Some(sessions) => match sessions.as_slice().first() {
            Some(items) => items.as_slice(),
            None => &[],
        },
        None => &[],
    }
}

// The lines of the summary.
fn lines_of(
    alloc: Global,
    seed: u32,
    rounds: u32,
    kept: &[Kept],
    captures: u64,
    journal: &[Line],
) -> Result<Vec<u8>, AllocError>
    ensures { IfOk result (λ text. text.items ≡ summary seed rounds kept.now captures journal.now) }
{
    let lines = journal.len() as u64;
    let mut text = Vec::new(alloc);
    push_load(alloc, &mut text, seed, rounds)?;
    push_line(alloc, &mut text, "committed", commits_in(journal) as u64)?;
    push_line(alloc, &mut text, "snapshots", snapshots_in(journal) as u64)?;
    push_line(alloc, &mut text, "captures", captures)?;
    push_sums(alloc, &mut text, lines, kept)?;
    push_past(alloc, &mut text, lines, kept)?;
    Ok(text)
}

/// The summary of a run of a load, if what it replied was kept.
pub fn summary_of(
    alloc: Global,
    seed: u32,
    rounds: u32,
    plan: &Plan,
    ended: &Ended,
) -> Result<Vec<u8>, AllocError>
    ensures { IfOk result (λ text. IsSummary seed rounds plan.now ended.now text.items) }
{
    match &ended.kept {
        Ok(kept) => lines_of(
            alloc,
            seed,
            rounds,
            last_kept(plan, kept.as_slice()),
            ended.captures,
            ended.journal.as_slice(),
        ),
        Err(AllocError) => Err(AllocError),
    }
}
