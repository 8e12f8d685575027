//! Which calls of a device fail.

ghost use Rattle.std.specs.Prelude.{◌≡◌, ◌≤◌, ◌↔◌, IsTrue};
ghost use Rattle.disk_mem.specs.Plan.{counted, IsFate, IsListed, IsStopped, made};

use std::marker::Model;

/// A kind of call of a device.
#[derive(Clone, Copy, Debug, PartialEq, Eq)]
pub enum Call {
    Read,
    Write,
    Sync,
}

/// How a call is to end.
#[derive(Clone, Copy)]
pub enum Fate {
    Goes,
    Fails,
    // Fails, and leaves all as it was.
    Stopped,
}

/// Which calls fail, and how many of each kind there were.
#[derive(Drop)]
pub struct Schedule {
    failing: Vec<(Call, u64)>,
    stop: Option<u64>,
    reads: u64,
    writes: u64,
    syncs: u64,
}

impl Model for Schedule {
    ghost use Rattle.disk_mem.specs.Plan.{Plan};

    ghost Value = { Plan };

    ghost view = { λ s. record {
      failing = s.failing.items;
      stop = s.stop;
      reads = s.reads;
      writes = s.writes;
      syncs = s.syncs;
    } };
}

impl Schedule {
    /// No call was made yet.
    pub fn new(failing: Vec<(Call, u64)>, stop: Option<u64>) -> Schedule
        ensures { result ≡ record { failing = failing.items; stop = stop; reads = 0; writes = 0; syncs = 0 } }
    {
        Schedule {
            failing,
            stop,
            reads: 0,
            writes: 0,
            syncs: 0,
        }
    }

    /// How many calls of that kind there were.
    pub fn made(&self, call: Call) -> u64
        ensures { result ≡ made self.now call }
    {
        match call {
            Call::Read => self.reads,
            Call::Write => self.writes,
            Call::Sync => self.syncs,
        }
    }

    /// Counts a call, and says how it is to end.
    pub fn turn(&mut self, call: Call) -> Fate
        ensures counted { self.new ≡ counted self.old call }
        ensures later { self.old.writes ≤ self.new.writes }
        ensures fate { IsFate self.old call result }
    {
        let fate = self.fate(call);
        self.count(call);
        fate
    }

    // How the next call of that kind is to end.
    fn fate(&self, call: Call) -> Fate
        ensures { IsFate self.now call result }
    {
        if self.is_stopped() {
            return Fate::Stopped;
        }
        if self.is_listed(call) {
            return Fate::Fails;
        }
        Fate::Goes
    }

    // Each further call fails.
    fn is_stopped(&self) -> bool
        ensures { IsTrue result ↔ IsStopped self.now }
    {
        let (reads, writes, syncs) = (self.reads, self.writes, self.syncs);
        match self.stop {
            Some(last) => {
                let calls = u128::from(reads) + u128::from(writes) + u128::from(syncs);
                u128::from(last) <= calls
            }
            None => false,
        }
    }

    // The next call of that kind is listed.
    fn is_listed(&self, call: Call) -> bool
        ensures { IsTrue result ↔ IsListed self.now call }
    {
        match self.made(call).checked_add(1) {
            Some(number) => self.failing.contains(&(call, number)),
            None => false,
        }
    }

    fn count(&mut self, call: Call)
        ensures counted { self.new ≡ counted self.old call }
        ensures later { self.old.writes ≤ self.new.writes }
    {
        match call {
            Call::Read => self.reads = self.reads.saturating_add(1),
            Call::Write => self.writes = self.writes.saturating_add(1),
            Call::Sync => self.syncs = self.syncs.saturating_add(1),
        }
    }
}
