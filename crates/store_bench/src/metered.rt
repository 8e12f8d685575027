//! Devices that count their calls.

ghost use Rattle.std.specs.Prelude.{[]};

use disk_model::{Disk, Failed, Four};
use std::fmt;
use std::sync::atomic::{AtomicU64, Ordering};

/// How many calls of each kind a device had.
#[derive(Clone, Copy, Drop)]
pub struct Calls {
    pub reads: u64,
    pub writes: u64,
    pub syncs: u64,
}

impl Calls {
    /// How many there were since then.
    pub fn since(self, before: Calls) -> Calls {
        Calls {
            reads: self.reads.saturating_sub(before.reads),
            writes: self.writes.saturating_sub(before.writes),
            syncs: self.syncs.saturating_sub(before.syncs),
        }
    }
}

impl fmt::Display for Calls {
    fn fmt<W: fmt::Write>(&self, f: &mut fmt::Formatter<W>) -> fmt::Result {
        write!(f, "{}/{}/{}", self.reads, self.writes, self.syncs)
    }
}

/// Counts the calls of a device, which has it by reference.
#[derive(Drop)]
pub struct Meter {
    reads: AtomicU64,
    writes: AtomicU64,
    syncs: AtomicU64,
}

impl Meter {
    /// None as yet.
    pub fn new() -> Meter {
        Meter {
            reads: AtomicU64::new(0),
            writes: AtomicU64::new(0),
            syncs: AtomicU64::new(0),
        }
    }

    /// How many there were.
    pub fn calls(&self) -> Calls {
        Calls {
            reads: self.reads.load(Ordering::SeqCst),
            writes: self.writes.load(Ordering::SeqCst),
            syncs: self.syncs.load(Ordering::SeqCst),
        }
    }
}

/// A meter for each device of a store.
pub fn meters() -> Four<Meter> {
    Four {
        log: Meter::new(),
        pages: Meter::new(),
        pagelog: Meter::new(),
        maplog: Meter::new(),
    }
}

/// How many calls there were of each device.
pub fn calls_of(meters: &Four<Meter>) -> Four<Calls> {
    Four {
        log: meters.log.calls(),
        pages: meters.pages.calls(),
        pagelog: meters.pagelog.calls(),
        maplog: meters.maplog.calls(),
    }
}

/// How many there were since then.
pub fn calls_since(meters: &Four<Meter>, before: &Four<Calls>) -> Four<Calls> {
    let now = calls_of(meters);
    Four {
        log: now.log.since(before.log),
        pages: now.pages.since(before.pages),
        pagelog: now.pagelog.since(before.pagelog),
        maplog: now.maplog.since(before.maplog),
    }
}

/// A device that does what another does, and counts its calls. It does not say that it is honest.
#[derive(Drop)]
pub struct Metered<'a, D: Disk + Drop> {
    disk: D,
    meter: &'a Meter,
}

impl<'a, D: Disk + Drop> Metered<'a, D> {
    /// Each device with the meter of the same name.
    pub fn each(disks: Four<D>, meters: &'a Four<Meter>) -> Four<Metered<'a, D>> {
        let Four {
            log,
            pages,
            pagelog,
            maplog,
        } = disks;
        Four {
            log: Metered {
                disk: log,
                meter: &meters.log,
            },
            pages: Metered {
                disk: pages,
                meter: &meters.pages,
            },
            pagelog: Metered {
                disk: pagelog,
                meter: &meters.pagelog,
            },
            maplog: Metered {
                disk: maplog,
                meter: &meters.maplog,
            },
        }
    }
}

impl<'a, D: Disk + Drop> Disk for Metered<'a, D> {
    ghost extent = { λ d. D.extent d.disk };

    ghost faults = { λ d. D.faults d.disk };

    ghost is_honest = { λ _. ⊥ };

    ghost remembers = { ⊥ };

    ghost state = { λ _. record { seen = []; is_loose = λ _. ⊥ } };

    ghost clock = { λ _. record { moment = 0; left_since = λ _ _. ⊥ } };

    ghost sized = { λ _ no. absurd no };

    ghost counts_now = { λ _ _ _ no _ _. absurd no };

    ghost only_now = { λ _ _ no _. absurd no };

    fn size(&self) -> u64 {
        self.disk.size()
    }

    fn faults(&self) -> u64 {
        self.disk.faults()
    }

    fn read_at(&mut self, place: u64, out: &mut [u8]) -> Result<(), Failed> {
        self.meter.reads.fetch_add(1, Ordering::SeqCst);
        self.disk.read_at(place, out)
    }

    fn write_at(&mut self, place: u64, bytes: &[u8]) -> Result<(), Failed> {
        self.meter.writes.fetch_add(1, Ordering::SeqCst);
        self.disk.write_at(place, bytes)
    }

    fn sync(&mut self) -> Result<(), Failed> {
        self.meter.syncs.fetch_add(1, Ordering::SeqCst);
        self.disk.sync()
    }
}
