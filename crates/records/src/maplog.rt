//! The Maplog, from the bodies of its records.

ghost use Rattle.std.specs.Prelude.{◌≡◌, ◌≤◌, ◌↔◌, ◌∷◌, [], ℕ, IsTrue, List, Err, OnOk};
ghost use Rattle.records.specs.declared.decoding.DecodeError.TheVariants.{Malformed};
ghost use Rattle.retro_base.specs.declared.limits.TheConstants.{MAX_CAPTURES};
ghost use Rattle.skippy.specs.Mappings as ghosts;
ghost use Rattle.records.specs.declared.map_entry.MapEntry.{MapEntry};
ghost use Rattle.records.specs.Finds.{Finds};
ghost use Rattle.gate_log.specs.Bodies.{bodies_of, Reads};
ghost use Rattle.records.specs.Maplog.{mappings_after, IsRightMapping, IsStart, IsStartBody, IsMappingBody, IsMaplog};

use crate::decoding::DecodeError;
use crate::map_decoding::decode_mapping;
use crate::map_entry::MapEntry;
use crate::unread::stopped_at;
use gate_log::Unread;
use history::{Version, are_pages};
use retro_base::MAX_CAPTURES;
use skippy::Mappings;
use std::alloc::{AllocError, Global};

// The mappings behind a start, if its number and its capacity are right.
fn right_start(alloc: Global, capacity: u32, low: u64, told: u32) -> Result<Mappings, DecodeError>
    ensures { Finds (λ (found : ghosts.Mappings). (told ≡ capacity) × (low ≤ MAX_CAPTURES) ×
        (found ≡ record { low = low; pages = [] })) result }
{
    if told != capacity || low > MAX_CAPTURES {
        return Err(DecodeError::Malformed);
    }
    Ok(Mappings::new(alloc, low))
}

fn no_start(_entry: MapEntry) -> Result<Mappings, DecodeError>
    ensures { result ≡ Err Malformed }
{
    Err(DecodeError::Malformed)
}

// The mappings behind the start, of that capacity, that this record is.
fn start_in(alloc: Global, capacity: u32, entry: MapEntry) -> Result<Mappings, DecodeError>
    ensures { Finds (IsStart capacity entry) result }
{
    match entry {
        MapEntry::Start {
            low,
            capacity: told,
        } => right_start(alloc, capacity, low, told),
        other => no_start(other),
    }
}

// The mappings behind the start, of that capacity, that has this body.
fn start_of(
    alloc: Global,
    version: Version,
    capacity: u32,
    body: &[u8],
) -> Result<Mappings, DecodeError>
    ensures { Finds (IsStartBody version capacity body.now) result }
{
    match decode_mapping(alloc, version, body) {
        Ok(entry) => start_in(alloc, capacity, entry),
        Err(error) => Err(error),
    }
}

// Whether a record of the Maplog is right behind these, in a store of that many pages.
fn is_right_mapping(page_count: u32, mappings: &Mappings, entry: &MapEntry) -> bool
    ensures { IsTrue result ↔ IsRightMapping page_count mappings.now entry.now }
{
    let end = mappings.end();
    match entry {
        MapEntry::Start { .. } => false,
        MapEntry::Run { first, pages } => {
            let pages = pages.as_slice();
            *first == end
                && end + pages.len() as u64 <= MAX_CAPTURES
                && are_pages(page_count, pages)
        }
        MapEntry::Low { low } => mappings.low() <= *low && *low <= end,
    }
}

fn allowed(page_count: u32, mappings: &Mappings, entry: MapEntry) -> Result<MapEntry, DecodeError>
    ensures { Finds (λ (found : MapEntry). (found ≡ entry) × IsRightMapping page_count mappings.now found) result }
{
    if !is_right_mapping(page_count, mappings, &entry) {
        return Err(DecodeError::Malformed);
    }
    Ok(entry)
}

// Adds what a record says that is right there.
fn add(mappings: &mut Mappings, entry: &MapEntry) -> Result<(), AllocError>
    requires { (page_count : ℕ) × IsRightMapping page_count mappings.old entry.now }
    ensures { OnOk result (mappings.new ≡ mappings_after mappings.old entry.now) }
{
    match entry {
        MapEntry::Start { .. } => (),
        MapEntry::Run { pages, .. } => mappings.push(pages.as_slice())?,
        MapEntry::Low { low } => mappings.trim(*low),
    }
    Ok(())
}

// The record that has this body and is right behind the mappings.
fn record_of(
    alloc: Global,
    version: Version,
    page_count: u32,
    mappings: &Mappings,
    body: &[u8],
) -> Result<MapEntry, DecodeError>
    ensures { Finds (IsMappingBody version page_count mappings.now body.now) result }
{
    match decode_mapping(alloc, version, body) {
        Ok(entry) => allowed(page_count, mappings, entry),
        Err(error) => Err(error),
    }
}

// The mappings behind these bodies, each that of a record that is right at its place.
fn mappings_of(
    alloc: Global,
    version: Version,
    page_count: u32,
    start: Mappings,
    bodies: &[Vec<u8>],
) -> Result<Mappings, Unread>
    ensures { (capacity : ℕ) (first : List ℕ) → IsStartBody version capacity first start →
        Reads (IsMaplog version page_count capacity) (first ∷ bodies_of bodies.now) result }
{
    let mut mappings = start;
    for (count, body) in bodies.iter().enumerate() {
        match record_of(alloc, version, page_count, &mappings, body) {
            Err(error) => return Err(stopped_at(error, count + 1)),
            Ok(entry) => add(&mut mappings, &entry)?,
        }
    }
    Ok(mappings)
}

/// The mappings of these bodies, in records of that version and beside a log of that many pages and that capacity: a
/// start of that capacity, and records that are right in turn. Refused for want of memory, and where the list breaks:
/// it is empty, or the body behind those that are told is no right record there.
pub fn read_maplog(
    alloc: Global,
    version: Version,
    page_count: u32,
    capacity: u32,
    bodies: &[Vec<u8>],
) -> Result<Mappings, Unread>
    ensures { Reads (IsMaplog version page_count capacity) (bodies_of bodies.now) result }
{
    let [first, others @ ..] = bodies else {
        return Err(Unread::Broken { behind: 0 });
    };
    match start_of(alloc, version, capacity, first) {
        Ok(start) => mappings_of(alloc, version, page_count, start, others),
        Err(error) => Err(stopped_at(error, 0)),
    }
}
