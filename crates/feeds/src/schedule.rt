//! Which calls of a source or a sink fail.

ghost use Rattle.std.specs.Prelude.{◌≡◌, ◌≤◌, ◌↔◌, IsTrue, Contains, cond};
ghost use Rattle.retro_base.specs.Cause.{raised};

/// Which calls fail, and how many were made and have failed. Both counts stop at the last value of a u64.
#[derive(Drop)]
pub struct Schedule {
    pub failing: Vec<u64>,
    pub calls: u64,
    pub faults: u64,
}

impl Schedule {
    /// No call was made yet. The listed calls will fail, numbered from 1.
    pub fn new(failing: Vec<u64>) -> Schedule
        ensures { result ≡ record { failing = failing; calls = 0; faults = 0 } }
    {
        Schedule {
            failing,
            calls: 0,
            faults: 0,
        }
    }

    /// Counts a call, and a fault where it is listed. True where it fails.
    pub fn fails(&mut self) -> bool
        ensures listed { IsTrue result ↔ Contains self.old.failing.items (raised self.old.calls) }
        ensures counted { self.new.calls ≡ raised self.old.calls }
        ensures faulted { self.new.faults ≡ cond result (raised self.old.faults) self.old.faults }
        ensures later { self.old.faults ≤ self.new.faults }
        ensures same { self.new.failing ≡ self.old.failing }
    {
        self.calls = self.calls.saturating_add(1);
        let fails = self.failing.contains(&self.calls);
        if fails {
            self.fault();
        }
        fails
    }

    /// Counts a fault.
    pub fn fault(&mut self)
        ensures faulted { self.new ≡ record self.old { faults = raised self.old.faults } }
        ensures later { self.old.faults ≤ self.new.faults }
    {
        self.faults = self.faults.saturating_add(1);
    }
}
