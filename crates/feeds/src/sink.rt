//! Where the bytes of a transcript go.

ghost use Rattle.std.specs.Prelude.{◌≡◌, ◌≤◌, ◌<◌, ℕ, List, Option, IfOk, OnErr, OnOk, length, take};
ghost use Rattle.retro_base.specs.Cause.{HasCause};
ghost use Rattle.feeds.specs.Feeds.{added};

use retro_base::Failed;

/// Where bytes are written to.
pub trait Sink {
    // The bytes that the sink holds, where it tells them.
    ghost held: { Self → Option (List ℕ) };

    // How many calls have failed. The count stops at the last value of a u64.
    ghost faults: { Self → ℕ };

    /// Adds the first of these bytes to what the sink holds, and answers how many. A sink that takes none
    /// has failed.
    fn put(&mut self, bytes: &[u8]) -> Result<usize, Failed>
        requires { 0 < length bytes.now }
        ensures some { IfOk result (λ n. 0 < n) }
        ensures bound { IfOk result (λ n. n ≤ length bytes.now) }
        ensures ok { IfOk result (λ n. held self.new ≡ added (held self.old) (take n bytes.now)) }
        ensures err { OnErr result (held self.new ≡ held self.old) }
        ensures cause { HasCause (faults self.old) (faults self.new) result };

    /// How many calls have failed.
    fn faults(&self) -> u64
        ensures { result ≡ faults self.now };
}

/// Puts all of these bytes into the sink, in order. After an error it holds a front of them.
pub fn put_all<K: Sink>(sink: &mut K, bytes: &[u8]) -> Result<(), Failed>
    ensures ok { OnOk result (K.held sink.new ≡ added (K.held sink.old) bytes.now) }
    ensures err { OnErr result ((n : ℕ) × (n ≤ length bytes.now) ×
        (K.held sink.new ≡ added (K.held sink.old) (take n bytes.now))) }
    ensures cause { HasCause (K.faults sink.old) (K.faults sink.new) result }
{
    let mut place = 0;
    'puts: while place < bytes.len() {
        let taken = sink.put(&bytes[place..])?;
        place += taken;
    }
    Ok(())
}
