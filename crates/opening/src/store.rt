//! The four devices of a store.

ghost use Rattle.std.specs.Prelude.{◌≡◌, ℕ, length, IfOk, IfErr, OnOk, MatchResult};
ghost use Rattle.history.specs.Right.{AreRight, IsBase};
ghost use Rattle.replay.specs.Joined.{AreJoined};
ghost use Rattle.replay.specs.Opened.{contents_of, Opens};
ghost use Rattle.retro_base.specs.declared.refusal.Refusal.TheVariants.{NotAStore};
ghost use Rattle.area_log.specs.Listed.{WrongSize};
ghost use Rattle.opening.specs.Devices.{AreHonest, AreUnwritten, HaveSizes, IsUnopened};
ghost use Rattle.opening.specs.Devices.{of_each, SameCounts, seen_of, SizesTell};
ghost use Rattle.opening.specs.Opening.{DevicesBreak, DevicesOpen, IsApart};

use crate::devices::{log_of, mappings_of, pages_of};
use disk_model::{Disk, Four, Sizes};
use history::{Log, Version};
use replay::{Opened, join};
use retro_base::{Device, Page, Refusal};
use skippy::Mappings;
use std::alloc::Global;
use values::Seq;

fn sized(device: Device, place: u64, size: u64) -> Result<(), Refusal>
    ensures { MatchResult result (λ _. place ≡ size)
        (λ e. (broken : ℕ) × (e ≡ NotAStore device broken) × WrongSize size place broken) }
{
    if place != size {
        return Err(Refusal::NotAStore { device, place });
    }
    Ok(())
}

// The store that these open to. Where log and Maplog do not belong together, the Maplog breaks at its end.
fn joined(
    alloc: Global,
    log: Log,
    pages: Vec<Page>,
    mappings: &Mappings,
    slots: &[Page],
    end: u64,
) -> Result<Opened, Refusal>
    requires base { IsBase log.base × AreRight log.base log.changes }
    requires pages { length pages.items ≡ log.base.page_count }
    requires slots { length slots.now ≡ log.base.capacity }
    ensures opens { IfOk result (Opens (contents_of log pages.items mappings.now slots.now)) }
    ensures joined { OnOk result (AreJoined (contents_of log pages.items mappings.now slots.now)) }
    ensures refused { IfErr result (IsApart (contents_of log pages.items mappings.now slots.now) end) }
{
    match join(alloc, log, Seq::from(pages), mappings, slots)? {
        Some(store) => Ok(store),
        None => Err(Refusal::NotAStore {
            device: Device::Maplog,
            place: end,
        }),
    }
}

/// The store that four devices open to, their logs in records of that version. Refused for want of memory, where a call
/// of a device fails, and exactly where their bytes are those of no store, with the first device that breaks and the
/// place where it does. The log is looked at first: its size, its headers, its framing, and its records in turn; then
/// the sizes of the pages and of the page images; then the Maplog as the log was; then pages and page images are read;
/// and last whether the Maplog belongs to the log. Nothing is written; log and Maplog are synced before they are read.
pub fn open_devices<D: Disk>(
    alloc: Global,
    version: Version,
    disks: &mut Four<D>,
) -> Result<Opened, Refusal>
    ensures unwritten { AreUnwritten D.extent D.is_honest D.remembers D.state D.clock disks.old disks.new }
    ensures cause { MatchResult result
        (λ _. SameCounts (of_each D.faults disks.old) (of_each D.faults disks.new))
        (IsUnopened (λ device broken. SizesTell (of_each D.extent disks.old) device broken
        × (AreHonest D.is_honest disks.old → DevicesBreak version (seen_of D.state disks.old) device broken))
        (of_each D.faults disks.old) (of_each D.faults disks.new)) }
    ensures sizes { OnOk result (HaveSizes (of_each D.extent disks.old)) }
    ensures opens { AreHonest D.is_honest disks.old → IfOk result (DevicesOpen version (seen_of D.state disks.old)) }
{
    let log = log_of(alloc, version, &mut disks.log)?;
    let (page_count, capacity) = (log.base.page_count, log.base.capacity);
    let sizes = Sizes {
        pages: page_count,
        capacity,
    };
    sized(Device::Pages, disks.pages.size(), sizes.pages_bytes())?;
    sized(Device::Pagelog, disks.pagelog.size(), sizes.pagelog_bytes())?;
    let (mappings, end) = mappings_of(alloc, version, &mut disks.maplog, sizes)?;
    let pages = pages_of(alloc, &mut disks.pages, Device::Pages, page_count)?;
    let slots = pages_of(alloc, &mut disks.pagelog, Device::Pagelog, capacity)?;
    joined(alloc, log, pages, &mappings, &slots, end)
}
