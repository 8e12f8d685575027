//! The four devices of a store, and the bytes that each has.

ghost use Rattle.std.specs.Prelude.{◌≡◌};
ghost use Rattle.disk_model.specs.Sizes.{log_bytes, maplog_bytes, maplog_half, pagelog_bytes, pages_bytes};

/// The four devices of a store.
#[derive(Debug, Drop)]
pub struct Four<D> {
    /// The log of the desk.
    pub log: D,
    /// The pages.
    pub pages: D,
    /// The log of page images.
    pub pagelog: D,
    /// The log of mappings.
    pub maplog: D,
}

/// How many pages a store has, and how many page images its archive holds.
#[derive(Clone, Copy, Debug, PartialEq, Eq)]
pub struct Sizes {
    pub pages: u32,
    pub capacity: u32,
}

// A page's bytes and a log region's. `retro_base` has the same two for what is no device; neither crate stands on the
// other, and the proofs of `opening` fail where they differ.
const PAGE_BYTES: u64 = 1024;

const LOG_REGION_BYTES: u64 = 16_777_216;

impl Sizes {
    /// The bytes of the log's device: two regions.
    pub fn log_bytes(self) -> u64
        ensures { result ≡ log_bytes }
    {
        2 * LOG_REGION_BYTES
    }

    /// The bytes of the device of the pages.
    pub fn pages_bytes(self) -> u64
        ensures { result ≡ pages_bytes self.pages }
    {
        PAGE_BYTES * u64::from(self.pages)
    }

    /// The bytes of the device of the page images.
    pub fn pagelog_bytes(self) -> u64
        ensures { result ≡ pagelog_bytes self.capacity }
    {
        PAGE_BYTES * u64::from(self.capacity)
    }

    /// The bytes of one of the two regions of the device of the mappings: 32 for each page image, and 4,096 more.
    pub fn maplog_half(self) -> u64
        ensures { result ≡ maplog_half self.capacity }
    {
        32 * u64::from(self.capacity) + 4096
    }

    /// The bytes of the device of the mappings: two regions.
    pub fn maplog_bytes(self) -> u64
        ensures { result ≡ maplog_bytes self.capacity }
    {
        2 * self.maplog_half()
    }
}
