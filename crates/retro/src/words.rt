//! What the words of the program ask for.

ghost use Rattle.std.specs.Prelude.{◌≡◌, Some, IfOk, string_bytes};
ghost use Rattle.std.specs.Char.{is_ascii_digit};
ghost use Rattle.std.specs.List.{list_all};
ghost use Rattle.retro.specs.Words.{Answers, asked_by, format, is_number, is_plain, IsReady, load, number_of};

use crate::command_line;
use disk_model::Sizes;
use retro_base::{MAX_CAPACITY, MAX_PAGES, MIN_CAPACITY, MIN_PAGES};
use std::alloc::Global;

/// The last seed of a load.
pub const LAST_SEED: u32 = 65536;
/// The most rounds of a load.
pub const MOST_ROUNDS: u32 = 2000;

/// What the words ask for.
pub enum Command<Dir> {
    /// To run a script, over an empty store in memory where no folder is named.
    Run { dir: Option<Dir> },
    /// To make a store of these sizes in a folder.
    Format { dir: Dir, sizes: Sizes },
    /// To tell what the store in a folder shows of itself.
    Show { dir: Dir },
    /// To run the script of a load, over an empty store in memory.
    Load { seed: u32, rounds: u32 },
}

/// What is wrong with the words.
#[derive(Clone, Copy, Debug, PartialEq, Eq)]
pub enum Mistake {
    /// They are none of the good ones.
    BadWords,
    /// A size, a seed or a number of rounds is out of its range.
    BadSizes,
    /// Memory ran out before it was known.
    OutOfMemory,
}

// Whether the word does not begin with a hyphen.
fn is_plain(word: &str) -> bool
    ensures { result ≡ is_plain word.now }
{
    match word.as_bytes() {
        [first, ..] => *first != b'-',
        [] => true,
    }
}

fn are_plain(words: &[String]) -> bool
    ensures { result ≡ list_all (λ word. is_plain (string_bytes word)) words.now }
{
    words.iter().all(|word| is_plain(word.as_str()))
}

fn are_digits(word: &str) -> bool
    ensures { result ≡ list_all is_ascii_digit word.now }
{
    word.as_bytes().iter().all(|byte| byte.is_ascii_digit())
}

// Whether the word is 1 to 10 decimal digits.
fn is_number(word: &str) -> bool
    ensures { result ≡ is_number word.now }
{
    !word.is_empty() && word.len() <= 10 && are_digits(word)
}

/// The number of 1 to 10 decimal digits; None of any other word.
pub fn number_of(word: &str) -> Option<u64>
    ensures { result ≡ number_of word.now }
{
    if !is_number(word) {
        return None;
    }
    word.parse().ok()
}

/// The store of that many pages and page images, in a folder.
pub fn making<'a>(dir: &'a str, pages: u64, capacity: u64) -> Result<Command<&'a str>, Mistake>
    ensures given { Answers (λ d. d.now) result (format dir.now (Some pages) (Some capacity)) }
    ensures ready { IfOk result IsReady }
{
    if let (Ok(pages), Ok(capacity)) = (u32::try_from(pages), u32::try_from(capacity))
        && pages >= MIN_PAGES
        && pages <= MAX_PAGES
        && capacity >= MIN_CAPACITY
        && capacity <= MAX_CAPACITY
    {
        return Ok(Command::Format {
            dir,
            sizes: Sizes { pages, capacity },
        });
    }
    Err(Mistake::BadSizes)
}

/// The load of a seed and so many rounds.
pub fn loading<'a>(seed: u64, rounds: u64) -> Result<Command<&'a str>, Mistake>
    ensures given { Answers (λ d. d.now) result (load (Some seed) (Some rounds)) }
    ensures ready { IfOk result IsReady }
{
    if let (Ok(seed), Ok(rounds)) = (u32::try_from(seed), u32::try_from(rounds))
        && seed <= LAST_SEED
        && rounds >= 1
        && rounds <= MOST_ROUNDS
    {
        return Ok(Command::Load { seed, rounds });
    }
    Err(Mistake::BadSizes)
}

/// What the words ask for, or what is wrong with them.
pub fn command_of<'a>(alloc: Global, words: &'a [String]) -> Result<Command<&'a str>, Mistake>
    ensures given { Answers (λ d. d.now) result (asked_by words.now) }
    ensures ready { IfOk result IsReady }
{
    if !are_plain(words) {
        return Err(Mistake::BadWords);
    }
    match command_line::parse(alloc, words) {
        Ok(matches) => command_line::read(&matches),
        Err(mistake) => Err(mistake),
    }
}
