//! A page, and what it was at earlier snapshots.

ghost use Rattle.std.specs.Prelude.{◌≡◌, ◌≤◌, [], replicate, true, OnErr, OnOk};
ghost use Rattle.retro_base.specs.declared.limits.TheConstants.{PAGE_BYTES};
ghost use Rattle.plain_store.specs.Page.{IsWithin, bytes_at, captured, may_change};

use retro_base::Page;
use std::alloc::{AllocError, Global};
use std::marker::Model;

/// The bytes that a page had up to a snapshot.
#[derive(Clone, Copy, Debug)]
pub struct Version {
    pub upto: u32,
    pub bytes: Page,
}

/// A page, with the bytes that it had up to earlier snapshots. A version is added where the page changes for the first
/// time behind a snapshot, so that a declaration copies nothing.
#[derive(Drop)]
pub struct VersionedPage {
    bytes: Page,
    past: Vec<Version>,
}

impl Model for VersionedPage {
    ghost use Rattle.plain_store.specs.Page.{PlainPage, DoNotFall};

    ghost Value = { PlainPage };

    ghost view = { λ p. record { bytes = p.bytes; past = p.past.items } };

    ghost invariant = { λ p. DoNotFall 0 p.past.items };
}

impl VersionedPage {
    /// A page of zeros.
    pub fn zero(alloc: Global) -> VersionedPage
        ensures { result ≡ record { bytes = replicate PAGE_BYTES 0; past = [] } }
    {
        VersionedPage {
            bytes: Page::zero(),
            past: Vec::new(alloc),
        }
    }

    /// The bytes.
    pub fn bytes(&self) -> &Page
        ensures { result.now ≡ self.now.bytes }
    {
        &self.bytes
    }

    /// The bytes at a snapshot. It takes as many steps as the number of versions has bits.
    pub fn bytes_at(&self, snapshot: u32) -> &Page
        ensures { result.now ≡ bytes_at snapshot self.now.bytes self.now.past }
    {
        let place = self.past.partition_point(|version| version.upto < snapshot);
        match self.past.get(place) {
            Some(version) => &version.bytes,
            None => &self.bytes,
        }
    }

    // Whether the bytes may change: there is no snapshot, or they are kept for the newest one.
    fn may_change(&self, newest: u32) -> bool
        ensures { result ≡ may_change newest self.now.past }
    {
        match self.past.last() {
            Some(version) => newest == 0 || version.upto == newest,
            None => newest == 0,
        }
    }

    /// Keeps the bytes as those at the newest snapshot, unless they are kept. Refused for want of memory alone, and
    /// then as before.
    pub fn capture(&mut self, newest: u32) -> Result<(), AllocError>
        requires { IsWithin newest self.old }
        ensures done { OnOk result (self.new ≡ captured newest self.old) }
        ensures refused { OnErr result (self.new ≡ self.old) }
    {
        if self.may_change(newest) {
            return Ok(());
        }
        self.past.push(Version {
            upto: newest,
            bytes: self.bytes,
        })?;
        Ok(())
    }

    /// Changes the bytes.
    pub fn put(&mut self, bytes: &Page)
        ensures { self.new ≡ record self.old { bytes = bytes.now } }
    {
        self.bytes = *bytes;
    }
}
