//! The top call.

ghost use Rattle.std.specs.Prelude.{◌≡◌, ◌<◌, Err};
ghost use Rattle.retro.specs.Headline.{Does};
ghost use Rattle.retro.specs.Says.{IsStatus};
ghost use Rattle.retro.specs.Seen.{seen};
ghost use Rattle.retro.specs.Words.{asked_by};

use crate::crew::Crew;
use crate::formatting::format;
use crate::keeping::keep;
use crate::loading::load;
use crate::running::run;
use crate::saying::{Status, lack_memory, say};
use crate::showing::show;
use crate::words::{Command, Mistake, command_of};
use disk_model::Cabinet;
use feeds::{Sink, Source};
use session::RunItems;
use std::alloc::Global;
use std::sync::Wait;
use std::thread::Threads;

/// Runs the program, and answers the exit status. It is 2 where the words are none of the good ones, and 9 where a
/// number is out of its range, unless memory ran out before that was known. The other words are:
///
/// - `run`: reads a script from the source, runs it over an empty store in memory, which holds no tables, and writes
///   the transcript of every reply to the sink, or one line that says why there is none. The status is 4 where the
///   source failed; else 3 where the script has a bad line; else 5 where the sink failed; 8 where memory ran out;
///   else 0. The transcript is that of one journal, which a run of the script may leave.
/// - `format DIR PAGES CAPACITY`: makes a store in the cabinet, in the place of one that stood there.
/// - `show DIR`: writes what the store in the cabinet shows of itself, and writes nothing on it.
/// - `run DIR`: reads a script first, as `run` does, and runs it over the store in the cabinet, at which each session
///   has a seat of its own. The transcript is written whole also where its journal tells a fault of a device; the
///   status is then 6 in place of 0.
/// - `load SEED N`: makes the script of a load of N rounds, runs it as `run` does, and writes a summary of it to the
///   sink.
///
/// The sessions of a phase run at once, in at most as many threads as the crew says: with one they run in turn. The
/// copier and the flusher run beside them, in threads of their own.
///
/// `format`, `show` and `run DIR` end with 6 where a call of the cabinet or of a device failed; `show` and `run DIR`
/// with 7 where the bytes are no store's; with 5 where the sink failed; with 8 where memory ran out; else with 0. The
/// devices are back in the cabinet.
pub fn retro<R: Threads + Wait + Sync, S: Source, K: Sink, C: Cabinet, I: RunItems + Sync>(
    alloc: Global,
    crew: &Crew<'_, R, I>,
    words: &[String],
    source: &mut S,
    sink: &mut K,
    cabinet: &mut C,
) -> u8
    requires threads { 0 < crew.now.threads }
    ensures status { IsStatus result }
    ensures bad_words { result ≡ 2 → asked_by words.now ≡ Err Mistake.BadWords }
    ensures bad_sizes { result ≡ 9 → asked_by words.now ≡ Err Mistake.BadSizes }
    ensures does { Does C.faults C.is_out C.tells C.store C.Device.extent C.Device.faults C.Device.is_honest
        C.Device.remembers C.Device.state C.Device.clock (source.new ≡ source.old)
        (seen S.left S.faults source.old source.new) (seen K.held K.faults sink.old sink.new) cabinet.old cabinet.new
        (asked_by words.now) result }
{
    match command_of(alloc, words) {
        Ok(Command::Run { dir: None }) => run(alloc, crew, source, sink),
        Ok(Command::Run { dir: Some(dir) }) => keep(alloc, crew, source, sink, cabinet, dir),
        Ok(Command::Format { dir, sizes }) => format(alloc, sink, cabinet, dir, sizes),
        Ok(Command::Show { dir }) => show(alloc, sink, cabinet, dir),
        Ok(Command::Load { seed, rounds }) => load(alloc, crew, sink, seed, rounds),
        Err(Mistake::BadWords) => say(sink, b"retro: bad words\n", Status::BadWords).number(),
        Err(Mistake::BadSizes) => say(sink, b"retro: bad sizes\n", Status::BadSizes).number(),
        Err(Mistake::OutOfMemory) => lack_memory(sink).number(),
    }
}
