//! A store opened from its four devices.

ghost use Rattle.std.specs.Prelude.{◌≡◌, ◌≤◌, ℕ, None, [], length, slice_get, Some, IfErr, IfOk, MatchResult};
ghost use Rattle.history.specs.Marks.{newest};
ghost use Rattle.opening.specs.Devices.{AreUnwritten, IsUnopened, of_each, SameCounts};
ghost use Rattle.store.specs.Opening.{AreLooked, AreOpenedFrom, AreReadBy, AreRefused};
ghost use Rattle.store.specs.Opening.{BeginsWith, disks_of, four_of, IsShownOf};
ghost use Rattle.store.specs.Seats.{IsReady, IsSized, IsWhole, Sat, start_of};
ghost use Rattle.store.specs.Start.{opened_base};
ghost use Rattle.turn.specs.Seats.{mine, seen};
ghost use Rattle.turn.specs.Tables.{table_of};

use crate::shared::{Seat, Store};
use archive::Archive;
use desk::Unopened;
use disk_model::{Disk, Four, Sizes};
use history::Version;
use retro_base::{Device, Refusal};
use std::alloc::Global;
use store_core::{Core, sizes};

/// What a store shows of itself.
#[derive(Clone, Copy)]
pub struct Shown {
    pub sizes: Sizes,
    /// The oldest retained snapshot; 1 where none was declared.
    pub oldest: u32,
    /// The newest snapshot; 0 where none was declared.
    pub newest: u32,
    /// How many captures were made, over all its runs.
    pub captures: u64,
}

// The four devices of a store that is not opened.
fn gathered<D: Disk + Drop>(log: D, pages: D, archive: Archive<D>) -> Four<D>
    ensures { result ≡ four_of log pages archive.pagelog.disk archive.side.disk }
{
    let (pagelog, maplog) = archive.into_disks();
    Four {
        log,
        pages,
        pagelog,
        maplog,
    }
}

// The core beside an archive that was just opened, of the sizes that the log told before. `first` is the device of the
// log as it was before that, `slots` and `maps` are those of the archive before it was opened.
fn beside<D: Disk + Drop>(
    alloc: Global,
    version: Version,
    log: D,
    pages: D,
    archive: Archive<D>,
    sizes: Sizes,
) -> Result<(Core<D>, Archive<D>), (Four<D>, Refusal)>
    ensures back { (first slots maps : D)
        → AreLooked D.extent D.faults D.is_honest D.remembers D.state D.clock version first log pages slots maps
        archive sizes
        → IfErr result (λ e. AreUnwritten D.extent D.is_honest D.remembers D.state D.clock
        (four_of first pages slots maps) e.0) }
    ensures cause { (first slots maps : D)
        → AreLooked D.extent D.faults D.is_honest D.remembers D.state D.clock version first log pages slots maps
        archive sizes
        → MatchResult result
        (λ r. SameCounts (of_each D.faults (four_of first pages slots maps)) (of_each D.faults (disks_of r.0 r.1)))
        (λ e. IsUnopened (AreRefused D.extent D.is_honest D.state version (four_of first pages slots maps))
        (of_each D.faults (four_of first pages slots maps)) (of_each D.faults e.0) e.1) }
    ensures opened { (first slots maps : D)
        → AreLooked D.extent D.faults D.is_honest D.remembers D.state D.clock version first log pages slots maps
        archive sizes
        → IfOk result (λ r. AreOpenedFrom D.is_honest D.state version (four_of first pages slots maps) r.0 r.1
        × AreReadBy D.extent D.is_honest D.remembers D.state D.clock (four_of first pages slots maps) r.0 r.1) }
{
    let mappings = match archive.kept() {
        Ok(mappings) => mappings,
        Err(why) => return Err((gathered(log, pages, archive), why)),
    };
    match Core::fetch(alloc, version, log, pages, &mappings, archive.end()) {
        Err(Unopened { log, pages, why }) => Err((gathered(log, pages, archive), why)),
        Ok(core) => {
            if core.sizes().capacity == sizes.capacity && core.sizes().pages == sizes.pages {
                return Ok((core, archive));
            }
            let (log, pages, _) = core.into_parts();
            let why = Refusal::NotAStore {
                device: Device::Log,
                place: 0,
            };
            Err((gathered(log, pages, archive), why))
        }
    }
}

// The core and the archive of four devices: the log is read whole, then the sizes of pages and page images are looked
// at, then the Maplog is read, and then whether it belongs to the log.
fn sides<D: Disk + Drop>(
    alloc: Global,
    version: Version,
    disks: Four<D>,
) -> Result<(Core<D>, Archive<D>), (Four<D>, Refusal)>
    ensures back { IfErr result (λ e. AreUnwritten D.extent D.is_honest D.remembers D.state D.clock disks e.0) }
    ensures cause { MatchResult result
        (λ r. SameCounts (of_each D.faults disks) (of_each D.faults (disks_of r.0 r.1)))
        (λ e. IsUnopened (AreRefused D.extent D.is_honest D.state version disks)
        (of_each D.faults disks) (of_each D.faults e.0) e.1) }
    ensures opened { IfOk result (λ r. AreOpenedFrom D.is_honest D.state version disks r.0 r.1
        × AreReadBy D.extent D.is_honest D.remembers D.state D.clock disks r.0 r.1) }
{
    let mut disks = disks;
    let sizes = match sizes(alloc, version, &mut disks.log) {
        Ok(sizes) => sizes,
        Err(why) => return Err((disks, why)),
    };
    let place = disks.pages.size();
    if place != sizes.pages_bytes() {
        let device = Device::Pages;
        return Err((disks, Refusal::NotAStore { device, place }));
    }
    let Four {
        log,
        pages,
        pagelog,
        maplog,
    } = disks;
    match Archive::fetch(alloc, pagelog, maplog, version, sizes) {
        Ok(archive) => beside(alloc, version, log, pages, archive, sizes),
        Err((pagelog, maplog, why)) => Err((
            Four {
                log,
                pages,
                pagelog,
                maplog,
            },
            why,
        )),
    }
}

impl<D: Disk + Drop> Store<D> {
    /// Opens the four devices of a store, whose logs are in records of that version, with so many seats, numbered from
    /// 0 on. It opens what `opening` says of their bytes. It is refused for want of memory; exactly where a call of a
    /// device failed; and where their bytes are those of no store, with the first device that breaks and the place: the
    /// log, then the sizes of the pages and of the page images, then the Maplog, then whether it belongs to the log. A
    /// log that tells other sizes when it is read again is refused at its first place. Nothing is written; all four are
    /// synced. Where it is refused they come back.
    pub fn fetch(
        alloc: Global,
        version: Version,
        disks: Four<D>,
        seats: u32,
    ) -> Result<(Store<D>, Vec<Seat<D>>), (Four<D>, Refusal)>
        requires seats { seats ≤ 65536 }
        ensures seats { IfOk result (λ r. (r.0.turn.table.shared.key.seats ≡ seats) × (length r.1.items ≡ seats)) }
        ensures ready { IfOk result (λ r. (k : ℕ) (s : Sat D) → slice_get r.1.items k ≡ Some s
            → IsReady (table_of r.0.turn) s × IsWhole s) }
        ensures new { IfOk result (λ r. (k : ℕ) (s : Sat D) → slice_get r.1.items k ≡ Some s
            → (s.number ≡ k) × ((mine s).work ≡ None) × (seen s ≡ [])) }
        ensures sized { IfOk result (λ r. (k : ℕ) (s : Sat D) → slice_get r.1.items k ≡ Some s → IsSized r.0.pages s) }
        ensures newest { IfOk result (λ r. r.0.newest ≡ newest (opened_base (start_of r.0.turn)).marks) }
        ensures begins { IfOk result (λ r. BeginsWith D.extent D.faults D.is_honest D.remembers D.state D.clock
            version disks (start_of r.0.turn) r.1.items) }
        ensures back { IfErr result (λ e. AreUnwritten D.extent D.is_honest D.remembers D.state D.clock disks e.0) }
        ensures cause { IfErr result (λ e. IsUnopened (AreRefused D.extent D.is_honest D.state version disks)
            (of_each D.faults disks) (of_each D.faults e.0) e.1) }
    {
        match sides(alloc, version, disks) {
            Err(refused) => Err(refused),
            Ok((core, archive)) => match Store::new(alloc, core, archive, seats) {
                Ok(store) => Ok(store),
                Err((core, archive)) => {
                    let (log, pages, _) = core.into_parts();
                    Err((gathered(log, pages, archive), Refusal::OutOfMemory))
                }
            },
        }
    }
}

/// What the store on four devices shows of itself, which are opened as `Store::fetch` opens them, and refused so. They
/// come back: nothing was written on them, and all four are synced.
pub fn show<D: Disk + Drop>(
    alloc: Global,
    version: Version,
    disks: Four<D>,
) -> Result<(Four<D>, Shown), (Four<D>, Refusal)>
    ensures back { MatchResult result
        (λ r. AreUnwritten D.extent D.is_honest D.remembers D.state D.clock disks r.0)
        (λ e. AreUnwritten D.extent D.is_honest D.remembers D.state D.clock disks e.0) }
    ensures cause { MatchResult result
        (λ r. SameCounts (of_each D.faults disks) (of_each D.faults r.0))
        (λ e. IsUnopened (AreRefused D.extent D.is_honest D.state version disks)
        (of_each D.faults disks) (of_each D.faults e.0) e.1) }
    ensures shown { IfOk result (λ r. IsShownOf D.is_honest D.state version disks r.1) }
{
    match sides(alloc, version, disks) {
        Err(refused) => Err(refused),
        Ok((core, archive)) => {
            let (oldest, newest) = core.horizon();
            let shown = Shown {
                sizes: core.sizes(),
                oldest,
                newest,
                captures: core.acked() + core.pending(),
            };
            let (log, pages, _) = core.into_parts();
            Ok((gathered(log, pages, archive), shown))
        }
    }
}
