//! A device that need not keep every byte.

ghost use Rattle.std.specs.Prelude.{◌≤◌, [], length};

use disk_model::{Disk, Failed};
use retro_base::Refusal;
use std::alloc::Global;

/// How many calls of each kind there were.
#[derive(Clone, Copy, Drop)]
pub struct Calls {
    pub reads: u64,
    pub writes: u64,
    pub syncs: u64,
}

/// A device in memory of which no call fails, which keeps the first of every so many bytes, and reads them all as that
/// one: of page images the first byte, so that a million of them take a million bytes; of each byte, that byte. It
/// counts its calls. It does not say that it is honest.
#[derive(Drop)]
pub struct Slim {
    bytes: Vec<u8>,
    grain: u64,
    size: u64,
    calls: Calls,
}

impl Slim {
    /// A device of that many bytes, all of them 0, which keeps one of so many.
    pub fn new(alloc: Global, size: u64, grain: u64) -> Result<Slim, Refusal> {
        let kept = size.checked_div(grain).unwrap_or(0);
        let bytes = vec![in alloc; 0; kept as usize]?;
        let calls = Calls {
            reads: 0,
            writes: 0,
            syncs: 0,
        };
        Ok(Slim {
            bytes,
            grain,
            size,
            calls,
        })
    }

    /// How often it was called.
    pub fn calls(&self) -> Calls {
        self.calls
    }

    // Where the bytes that it keeps of so many from that place on begin and end.
    fn range(&self, place: u64, count: usize) -> (usize, usize)
        ensures { (result.0 ≤ result.1) × (result.1 ≤ length self.now.bytes.items) }
    {
        let start = place.checked_div(self.grain).unwrap_or(0) as usize;
        let kept = (count as u64).checked_div(self.grain).unwrap_or(0) as usize;
        let end = start.saturating_add(kept).min(self.bytes.len());
        (start.min(end), end)
    }
}

impl Disk for Slim {
    ghost extent = { λ d. d.size };

    ghost faults = { λ _. 0 };

    ghost is_honest = { λ _. ⊥ };

    ghost remembers = { ⊥ };

    ghost state = { λ _. record { seen = []; is_loose = λ _. ⊥ } };

    ghost clock = { λ _. record { moment = 0; left_since = λ _ _. ⊥ } };

    ghost sized = { λ _ no. absurd no };

    ghost counts_now = { λ _ _ _ no _ _. absurd no };

    ghost only_now = { λ _ _ no _. absurd no };

    fn size(&self) -> u64 {
        self.size
    }

    fn faults(&self) -> u64 {
        0
    }

    fn read_at(&mut self, place: u64, out: &mut [u8]) -> Result<(), Failed> {
        self.calls.reads = self.calls.reads.saturating_add(1);
        let (start, end) = self.range(place, out.len());
        spread(&self.bytes[start..end], out);
        Ok(())
    }

    fn write_at(&mut self, place: u64, bytes: &[u8]) -> Result<(), Failed> {
        self.calls.writes = self.calls.writes.saturating_add(1);
        let (start, end) = self.range(place, bytes.len());
        gather(bytes, &mut self.bytes[start..end]);
        Ok(())
    }

    fn sync(&mut self) -> Result<(), Failed> {
        self.calls.syncs = self.calls.syncs.saturating_add(1);
        Ok(())
    }
}

// Fills `out` with as many of each byte as there are for one.
fn spread(kept: &[u8], out: &mut [u8]) {
    if kept.len() == out.len() {
        out.copy_from_slice(kept);
    } else if let Some(byte) = kept.first() {
        out.fill(*byte);
    }
}

// Keeps the first of as many bytes as there are for one.
fn gather(bytes: &[u8], kept: &mut [u8]) {
    if kept.len() == bytes.len() {
        kept.copy_from_slice(bytes);
    } else if let (Some(first), Some(byte)) = (kept.first_mut(), bytes.first()) {
        *first = *byte;
    }
}
