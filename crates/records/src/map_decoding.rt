//! Records of the Maplog from their bytes.

ghost use Rattle.std.specs.Prelude.{◌≡◌};
ghost use Rattle.records.specs.Reading.{Decodes, take_list};
ghost use Rattle.records.specs.Finds.{Finds};
ghost use Rattle.records.specs.Maplog.{map_entry_bytes, MapEntryFits};
ghost use Rattle.records.specs.MapReading.{take_start, take_mapped, no_matter, take_run};
ghost use Rattle.records.specs.MapReading.{take_low, take_map_entry, whole_map_entry};

use crate::decoding::{DecodeError, page_number_of, u16_of, u32_of, u64_of};
use crate::map_entry::{MapEntry, RUN_PAGES};
use history::Version;
use std::alloc::Global;
use values::Seq;

#[tactic(auto, unfolding(crate::specs::MapReading::take_start))]
fn start_of(version: Version, bytes: &[u8]) -> Result<(MapEntry, &[u8]), DecodeError>
    ensures { Decodes (λ x. (x.0, x.1.now)) result (take_start version bytes.now) }
{
    let (number, rest) = u16_of(bytes)?;
    let (low, rest) = u64_of(rest)?;
    let (capacity, rest) = u32_of(rest)?;
    if number != version.number() {
        return Err(DecodeError::Malformed);
    }
    Ok((MapEntry::Start { low, capacity }, rest))
}

fn pages_of(
    alloc: Global,
    version: Version,
    count: u32,
    bytes: &[u8],
) -> Result<(Seq<u32>, &[u8]), DecodeError>
    ensures { Decodes (λ x. (x.0, x.1.now)) result (take_list (take_mapped version) no_matter count 0 bytes.now) }
{
    let mut pages = Vec::new(alloc);
    let mut rest = bytes;
    for _ in 0..count {
        let (page, after) = page_number_of(version, rest)?;
        pages.push(page)?;
        rest = after;
    }
    Ok((Seq::from(pages), rest))
}

#[tactic(auto, unfolding(crate::specs::MapReading::take_run))]
fn run_of(alloc: Global, version: Version, bytes: &[u8]) -> Result<(MapEntry, &[u8]), DecodeError>
    ensures { Decodes (λ x. (x.0, x.1.now)) result (take_run version bytes.now) }
{
    let (first, rest) = u64_of(bytes)?;
    let (count, rest) = u32_of(rest)?;
    if count < 1 || count > RUN_PAGES {
        return Err(DecodeError::Malformed);
    }
    let (pages, rest) = pages_of(alloc, version, count, rest)?;
    Ok((MapEntry::Run { first, pages }, rest))
}

#[tactic(auto, unfolding(crate::specs::MapReading::take_low))]
fn low_of(bytes: &[u8]) -> Result<(MapEntry, &[u8]), DecodeError>
    ensures { Decodes (λ x. (x.0, x.1.now)) result (take_low bytes.now) }
{
    let (low, rest) = u64_of(bytes)?;
    Ok((MapEntry::Low { low }, rest))
}

#[tactic(auto, unfolding(crate::specs::MapReading::take_map_entry))]
fn entry_of(alloc: Global, version: Version, bytes: &[u8]) -> Result<(MapEntry, &[u8]), DecodeError>
    ensures { Decodes (λ x. (x.0, x.1.now)) result (take_map_entry version bytes.now) }
{
    match bytes {
        [1, rest @ ..] => start_of(version, rest),
        [2, rest @ ..] => run_of(alloc, version, rest),
        [3, rest @ ..] => low_of(rest),
        _ => Err(DecodeError::Malformed),
    }
}

#[tactic(auto, unfolding(crate::specs::MapReading::whole_map_entry))]
fn whole(alloc: Global, version: Version, bytes: &[u8]) -> Result<MapEntry, DecodeError>
    ensures { Decodes (λ e. e) result (whole_map_entry version bytes.now) }
{
    let (entry, rest) = entry_of(alloc, version, bytes)?;
    if !rest.is_empty() {
        return Err(DecodeError::Malformed);
    }
    Ok(entry)
}

/// The record of the Maplog that has these bytes, all of them. Malformed exactly where no record whose fields fit
/// theirs has them; that the record is right at its place is not looked at.
pub fn decode_mapping(
    alloc: Global,
    version: Version,
    bytes: &[u8],
) -> Result<MapEntry, DecodeError>
    ensures { Finds (λ entry. MapEntryFits version entry × (bytes.now ≡ map_entry_bytes version entry)) result }
{
    whole(alloc, version, bytes)
}
