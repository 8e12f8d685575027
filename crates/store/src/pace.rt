//! The workers of a store: what tells them that nothing more will come, when they rest, and when they end.

ghost use Rattle.std.specs.Prelude.{◌≡◌, ◌<◌, ◌+◌, false, if◌then◌else◌, IfNone, IfSome};
ghost use Rattle.store.specs.WorkerRounds.{EndsSo};

use std::sync::{OnceLock, OnceToken, Wait};
use std::thread::Parker;
use std::time::Duration;

/// A worker of a store: the one that copies what stands captured, or the one that writes pages back.
#[derive(Clone, Copy)]
pub enum Worker {
    Copier,
    Flusher,
}

impl Worker {
    // How long it rests between two rounds at most, so that there is something to do in the next: a write round makes
    // the pages durable while nobody else is at the desk.
    fn rest(self) -> Duration {
        match self {
            Worker::Copier => Duration::from_millis(1),
            Worker::Flusher => Duration::from_millis(10),
        }
    }
}

/// What tells the workers of a phase that its sessions have ended.
#[derive(Drop)]
pub struct Done {
    pub(crate) flag: OnceLock<()>,
    copier: Parker,
    flusher: Parker,
}

/// Why a worker ended whose last round found nothing to do.
#[derive(Drop)]
pub enum Ended<'a> {
    /// It was told so, as this shows.
    Told(OnceToken<'a, ()>),
    /// As many rounds in a row as a worker makes found nothing.
    Idled,
}

impl Done {
    /// Not yet told.
    pub fn new() -> Done {
        Done {
            flag: OnceLock::new(),
            copier: Parker::new(),
            flusher: Parker::new(),
        }
    }

    /// Tells them: one that rests goes on at once. It answers what shows that they were told, but where another call is
    /// just telling them.
    pub fn set(&self) -> Option<OnceToken<'_, ()>>
        ensures { IfSome result (λ token. token.of ≡ self.now.flag.id) }
    {
        let first = self.flag.try_set(());
        self.copier.unpark();
        self.flusher.unpark();
        match first {
            Ok(token) => Some(token),
            Err(()) => self.told(),
        }
    }

    /// What shows that they were told, if they were.
    pub fn told(&self) -> Option<OnceToken<'_, ()>>
        ensures { IfSome result (λ token. token.of ≡ self.now.flag.id) }
    {
        self.flag.witness()
    }

    // Has a worker rest, until it is told.
    pub(crate) fn rest<R: Wait>(&self, rt: &R, worker: Worker) {
        if self.told().is_some() {
            return;
        }
        match worker {
            Worker::Copier => self.copier.park_timeout(rt, worker.rest()),
            Worker::Flusher => self.flusher.park_timeout(rt, worker.rest()),
        }
    }
}

/// A worker ends behind so many rounds in a row that found nothing to do.
pub const IDLE_ROUNDS: u32 = 1_000_000;

// Why a worker ends behind a round, which found more to do or not, where it does: the round began when the worker was
// told or not, behind so many idle ones in a row.
pub(crate) fn ends_behind<'a>(
    idle: &mut u32,
    more: bool,
    told: Option<OnceToken<'a, ()>>,
) -> Option<Ended<'a>>
    requires few { idle.old < IDLE_ROUNDS }
    ensures goes_on { IfNone result (idle.new < IDLE_ROUNDS) }
    ensures counted { idle.new ≡ (if more then 0 else idle.old + 1) }
    ensures nothing { IfSome result (λ ended. more ≡ false) }
    ensures ends { IfSome result (EndsSo told.entry idle.new) }
{
    if more {
        *idle = 0;
        return None;
    }
    *idle += 1;
    if let Some(token) = told {
        return Some(Ended::Told(token));
    }
    if *idle == IDLE_ROUNDS {
        return Some(Ended::Idled);
    }
    None
}
