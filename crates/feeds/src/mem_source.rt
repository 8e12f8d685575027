//! A source in memory.

ghost use Rattle.std.specs.Prelude.{◌≡◌, ◌<◌, ◌↔◌, Some, IfOk, OnErr, IsErr, Contains, min, length, take, drop};
ghost use Rattle.retro_base.specs.Cause.{HasCause, raised};

use crate::Source;
use crate::schedule::Schedule;
use retro_base::Failed;
use std::marker::Model;

/// A source in memory. A listed call fails and takes nothing; each other one takes as much as it can.
#[derive(Drop)]
pub struct MemSource {
    bytes: Vec<u8>,
    place: usize,
    schedule: Schedule,
}

impl Model for MemSource {
    ghost use Rattle.std.specs.Prelude.{◌≤◌, drop, vec_len};
    ghost use Rattle.feeds.specs.Stock.{Stock};

    ghost Value = { Stock };

    ghost view = { λ s. record {
      bytes = drop s.place s.bytes.items;
      failing = s.schedule.failing.items;
      calls = s.schedule.calls;
      faults = s.schedule.faults;
    } };

    ghost invariant = { λ s. s.place ≤ vec_len s.bytes };
}

impl MemSource {
    /// A source of these bytes. The listed calls of `take` fail, numbered from 1.
    pub fn new(bytes: Vec<u8>, failing: Vec<u64>) -> MemSource
        ensures { result ≡ record { bytes = bytes.items; failing = failing.items; calls = 0; faults = 0 } }
    {
        MemSource {
            bytes,
            place: 0,
            schedule: Schedule::new(failing),
        }
    }
}

impl Source for MemSource {
    ghost left = { λ s. Some s.bytes };

    ghost faults = { λ s. s.faults };

    fn take(&mut self, out: &mut [u8]) -> Result<usize, Failed>
        requires { 0 < length out.old }
        // Exactly the listed calls fail.
        ensures listed { IsErr result ↔ Contains self.old.failing (raised self.old.calls) }
        ensures most { IfOk result (λ n. n ≡ min (length self.old.bytes) (length out.old)) }
        ensures bytes { IfOk result (λ n. take n out.new ≡ take n self.old.bytes) }
        ensures ok { IfOk result (λ n. self.new ≡ record self.old {
          bytes = drop n self.old.bytes;
          calls = raised self.old.calls;
        }) }
        ensures err { OnErr result (self.new ≡ record self.old {
          calls = raised self.old.calls;
          faults = raised self.old.faults;
        }) }
        ensures cause { HasCause self.old.faults self.new.faults result }
    {
        if self.schedule.fails() {
            return Err(Failed);
        }
        let rest = &self.bytes[self.place..];
        let taken = rest.len().min(out.len());
        out[..taken].copy_from_slice(&rest[..taken]);
        self.place += taken;
        Ok(taken)
    }

    fn faults(&self) -> u64 {
        self.schedule.faults
    }
}
