//! A sink in memory.

ghost use Rattle.std.specs.Prelude.{◌≡◌, ◌<◌, [], ◌++◌, Some, IfOk, OnErr, OnOk, IsErr, Contains, length};
ghost use Rattle.retro_base.specs.Cause.{HasCause, raised};

use crate::Sink;
use crate::schedule::Schedule;
use retro_base::Failed;
use std::alloc::Global;
use std::marker::Model;

/// A sink in memory. A listed call fails and adds nothing; each other one adds all its bytes, unless memory
/// runs out, which is a fault.
#[derive(Drop)]
pub struct MemSink {
    bytes: Vec<u8>,
    schedule: Schedule,
}

impl Model for MemSink {
    ghost use Rattle.feeds.specs.Stock.{Stock};

    ghost Value = { Stock };

    ghost view = { λ s. record {
      bytes = s.bytes.items;
      failing = s.schedule.failing.items;
      calls = s.schedule.calls;
      faults = s.schedule.faults;
    } };
}

impl MemSink {
    /// A sink that holds nothing. The listed calls of `put` fail, numbered from 1.
    pub fn new(alloc: Global, failing: Vec<u64>) -> MemSink
        ensures { result ≡ record { bytes = []; failing = failing.items; calls = 0; faults = 0 } }
    {
        MemSink {
            bytes: Vec::new(alloc),
            schedule: Schedule::new(failing),
        }
    }

    /// The bytes that it holds.
    pub fn bytes(&self) -> &[u8]
        ensures { result.now ≡ self.now.bytes }
    {
        &self.bytes
    }
}

impl Sink for MemSink {
    ghost held = { λ s. Some s.bytes };

    ghost faults = { λ s. s.faults };

    fn put(&mut self, bytes: &[u8]) -> Result<usize, Failed>
        requires { 0 < length bytes.now }
        // The listed calls fail, and else only those for which there is no memory.
        ensures listed { Contains self.old.failing (raised self.old.calls) → IsErr result }
        ensures all { IfOk result (λ n. n ≡ length bytes.now) }
        ensures ok { OnOk result (self.new ≡ record self.old {
          bytes = self.old.bytes ++ bytes.now;
          calls = raised self.old.calls;
        }) }
        ensures err { OnErr result (self.new ≡ record self.old {
          calls = raised self.old.calls;
          faults = raised self.old.faults;
        }) }
        ensures cause { HasCause self.old.faults self.new.faults result }
    {
        if self.schedule.fails() {
            return Err(Failed);
        }
        if self.bytes.extend_from_slice(bytes).is_err() {
            self.schedule.fault();
            return Err(Failed);
        }
        Ok(bytes.len())
    }

    fn faults(&self) -> u64 {
        self.schedule.faults
    }
}
