//! The command line of the program, as `clap` reads it.

ghost use Rattle.std.specs.Prelude.{◌≡◌, ◌≢◌, ◌⊎◌, codes, Err, false, IfOk, MatchResult, option_map};
ghost use Rattle.std.specs.Prelude.{string_bytes, true};
ghost use Rattle.std.specs.List.{list_all};
ghost use Rattle.clap.specs.declared.builder.command.Command.TheViews.{out-Command};
ghost use Rattle.clap.specs.Words.{app_of, first_of, found_of, kind_of, rows_of, rule_of, shape_of, subcommand_rows_of};
ghost use Rattle.retro.specs.CommandLine.{chosen, format, formatted, command_line, load, loaded, matched};
ghost use Rattle.retro.specs.CommandLine.{number_at, optional_folder, program, run, show, shown, wanted};
ghost use Rattle.retro.specs.Words.{Answers, asked_by, is_plain, IsReady};
ghost use Rattle.retro.specs.declared.words.Mistake.TheVariants.{BadWords, OutOfMemory};

use crate::words::{Command, Mistake, loading, making, number_of};
use clap::builder::ValueParser;
use clap::error::ErrorKind;
use clap::{Arg, ArgMatches};
use std::alloc::{AllocError, Global};

// The names of the words behind a verb.
const DIR: &str = "DIR";

const PAGES: &str = "PAGES";

const CAPACITY: &str = "CAPACITY";

const SEED: &str = "SEED";

const ROUNDS: &str = "N";

// A word that has to be there.
fn wanted<'a>(alloc: Global, name: &'a str) -> Arg<'a>
    ensures rule { rule_of result ≡ wanted name.now }
    ensures local { result.global ≡ false }
{
    Arg::new(alloc, name).required(true)
}

// A folder, which may be left out.
fn folder<'a>(alloc: Global) -> Arg<'a>
    ensures rule { rule_of result ≡ optional_folder }
    ensures local { result.global ≡ false }
{
    Arg::new(alloc, DIR).value_parser(ValueParser::NonEmptyString)
}

fn run<'a>(alloc: Global) -> Result<clap::Command<'a>, AllocError>
    ensures shape { IfOk result (λ c. shape_of c ≡ run) }
    ensures local { IfOk result (λ c. (out-Command c).has_globals ≡ false) }
{
    clap::Command::new(alloc, "run").arg(folder(alloc))
}

fn show<'a>(alloc: Global) -> Result<clap::Command<'a>, AllocError>
    ensures shape { IfOk result (λ c. shape_of c ≡ show) }
    ensures local { IfOk result (λ c. (out-Command c).has_globals ≡ false) }
{
    clap::Command::new(alloc, "show").arg(folder(alloc).required(true))
}

fn load<'a>(alloc: Global) -> Result<clap::Command<'a>, AllocError>
    ensures shape { IfOk result (λ c. shape_of c ≡ load) }
    ensures local { IfOk result (λ c. (out-Command c).has_globals ≡ false) }
{
    clap::Command::new(alloc, "load")
        .arg(wanted(alloc, SEED))?
        .arg(wanted(alloc, ROUNDS))
}

fn format<'a>(alloc: Global) -> Result<clap::Command<'a>, AllocError>
    ensures shape { IfOk result (λ c. shape_of c ≡ format) }
    ensures local { IfOk result (λ c. (out-Command c).has_globals ≡ false) }
{
    clap::Command::new(alloc, "format")
        .arg(folder(alloc).required(true))?
        .arg(wanted(alloc, PAGES))?
        .arg(wanted(alloc, CAPACITY))
}

// The command of the program, before it has verbs.
fn program<'a>(alloc: Global) -> clap::Command<'a>
    ensures { app_of result ≡ program }
{
    clap::Command::new(alloc, "retro")
        .no_binary_name(true)
        .disable_help_flag(true)
        .disable_help_subcommand(true)
        .subcommand_required(true)
}

// The command of the program.
fn command_line<'a>(alloc: Global) -> Result<clap::Command<'a>, AllocError>
    ensures { IfOk result (λ c. app_of c ≡ command_line) }
{
    let run = run(alloc)?;
    let show = show(alloc)?;
    let load = load(alloc)?;
    let format = format(alloc)?;
    program(alloc)
        .subcommand(run)?
        .subcommand(show)?
        .subcommand(load)?
        .subcommand(format)
}

// What is wrong where a parse fails.
fn mistake_of(error: &clap::Error) -> Mistake
    ensures { ((kind_of error.now ≡ ErrorKind.OutOfMemory) × (result ≡ OutOfMemory))
        ⊎ ((kind_of error.now ≢ ErrorKind.OutOfMemory) × (result ≡ BadWords)) }
{
    if error.kind() == ErrorKind::OutOfMemory {
        return Mistake::OutOfMemory;
    }
    Mistake::BadWords
}

/// The matches of words that do not begin with a hyphen.
pub fn parse<'a>(alloc: Global, words: &'a [String]) -> Result<ArgMatches<'a>, Mistake>
    requires { list_all (λ word. is_plain (string_bytes word)) words.now ≡ true }
    ensures { MatchResult result (λ m. matched (subcommand_rows_of m) ≡ asked_by words.now)
        (λ mistake. (mistake ≡ OutOfMemory) ⊎ ((mistake ≡ BadWords) × (asked_by words.now ≡ Err BadWords))) }
{
    let Ok(command_line) = command_line(alloc) else {
        return Err(Mistake::OutOfMemory);
    };
    match command_line.try_get_matches_from(words) {
        Ok(matches) => Ok(matches),
        Err(error) => Err(mistake_of(&error)),
    }
}

// The word that was given for a name.
fn word_at<'a>(matches: &ArgMatches<'a>, name: &str) -> Option<&'a str>
    ensures { option_map (λ word. word.now) result ≡ first_of name.now (rows_of (found_of matches.now)) }
{
    matches.get_str(name)
}

// The number that was given for a name.
fn number_at(matches: &ArgMatches<'_>, name: &str) -> Option<u64>
    ensures { result ≡ number_at name.now (rows_of (found_of matches.now)) }
{
    match word_at(matches, name) {
        Some(word) => number_of(word),
        None => None,
    }
}

fn loaded<'a>(matches: &ArgMatches<'a>) -> Result<Command<&'a str>, Mistake>
    ensures given { Answers (λ d. d.now) result (loaded (rows_of (found_of matches.now))) }
    ensures ready { IfOk result IsReady }
{
    match (number_at(matches, SEED), number_at(matches, ROUNDS)) {
        (Some(seed), Some(rounds)) => loading(seed, rounds),
        _ => Err(Mistake::BadWords),
    }
}

fn formatted<'a>(matches: &ArgMatches<'a>) -> Result<Command<&'a str>, Mistake>
    ensures given { Answers (λ d. d.now) result (formatted (rows_of (found_of matches.now))) }
    ensures ready { IfOk result IsReady }
{
    let Some(dir) = word_at(matches, DIR) else {
        return Err(Mistake::BadWords);
    };
    match (number_at(matches, PAGES), number_at(matches, CAPACITY)) {
        (Some(pages), Some(capacity)) => making(dir, pages, capacity),
        _ => Err(Mistake::BadWords),
    }
}

fn shown<'a>(matches: &ArgMatches<'a>) -> Result<Command<&'a str>, Mistake>
    ensures given { Answers (λ d. d.now) result (shown (first_of (codes "DIR") (rows_of (found_of matches.now)))) }
    ensures ready { IfOk result IsReady }
{
    match word_at(matches, DIR) {
        Some(dir) => Ok(Command::Show { dir }),
        None => Err(Mistake::BadWords),
    }
}

fn chosen<'a>(verb: &str, matches: &ArgMatches<'a>) -> Result<Command<&'a str>, Mistake>
    ensures given { Answers (λ d. d.now) result (chosen verb.now (rows_of (found_of matches.now))) }
    ensures ready { IfOk result IsReady }
{
    match verb {
        "run" => Ok(Command::Run {
            dir: word_at(matches, DIR),
        }),
        "show" => shown(matches),
        "load" => loaded(matches),
        "format" => formatted(matches),
        _ => Err(Mistake::BadWords),
    }
}

/// What the matches ask for.
pub fn read<'a>(matches: &ArgMatches<'a>) -> Result<Command<&'a str>, Mistake>
    ensures given { Answers (λ d. d.now) result (matched (subcommand_rows_of matches.now)) }
    ensures ready { IfOk result IsReady }
{
    match matches.subcommand() {
        Some((verb, inner)) => chosen(verb, inner),
        None => Err(Mistake::BadWords),
    }
}
