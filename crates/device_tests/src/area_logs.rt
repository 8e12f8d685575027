//! Logs of two halves.

use crate::faults::{Act, FAULT, Trial, wrong_in_four, wrong_in_six};
use crate::support::{
    again, again_failing, append, are_these, calls_of, crash, fetch, fill, framed, make, open, put,
    replace, zeros,
};
use disk_mem::{Call, MemDisk, RamDisk};
use disk_model::Disk;
use gate_log::Framed;
use retro_base::{Device, Refusal};
use std::alloc::Global;
use std::test::Fail;

// A log of 128 bytes with this body.
fn log_of(alloc: Global, body: &[u8]) -> Result<MemDisk, Refusal> {
    let mut disk = zeros(alloc, 128)?;
    make(alloc, &mut disk, body)?;
    Ok(disk)
}

// A log of 128 bytes whose body was replaced by the body 2.
fn replaced_log(alloc: Global) -> Result<MemDisk, Refusal> {
    let mut disk = log_of(alloc, &[1])?;
    replace(alloc, &mut disk, &[2])?;
    Ok(disk)
}

// Whether the log is of these bodies.
fn lists<D: Disk>(alloc: Global, disk: &mut D, want: &[&[u8]]) -> Result<bool, Refusal> {
    let bodies = open(alloc, disk)?;
    Ok(are_these(bodies.as_slice(), want))
}

#[test]
fn a_make_takes_four_calls_and_leaves_its_list_or_none(rt: HostRuntime) -> Result<(), Fail> {
    let alloc = rt.alloc();
    let trial = Trial {
        act: Act::Make,
        old: None,
        new: &[&[2, 3]],
    };
    let wrong = wrong_in_four(alloc, &zeros(alloc, 128)?, &trial)?;
    assert!(rt; wrong == None);
    Ok(())
}

#[test]
fn an_append_takes_four_calls_and_leaves_its_body_or_not(rt: HostRuntime) -> Result<(), Fail> {
    let alloc = rt.alloc();
    let trial = Trial {
        act: Act::Append,
        old: Some(&[&[1]]),
        new: &[&[1], &[2, 3]],
    };
    let wrong = wrong_in_four(alloc, &log_of(alloc, &[1])?, &trial)?;
    assert!(rt; wrong == None);
    Ok(())
}

#[test]
fn a_replace_takes_four_calls_and_leaves_the_old_list_or_the_new(
    rt: HostRuntime,
) -> Result<(), Fail> {
    let alloc = rt.alloc();
    let trial = Trial {
        act: Act::Replace,
        old: Some(&[&[1]]),
        new: &[&[3, 4]],
    };
    let wrong = wrong_in_four(alloc, &log_of(alloc, &[1])?, &trial)?;
    assert!(rt; wrong == None);
    Ok(())
}

#[test]
fn a_replace_behind_an_open_gate_takes_two_calls_more(rt: HostRuntime) -> Result<(), Fail> {
    let alloc = rt.alloc();
    let trial = Trial {
        act: Act::Replace,
        old: Some(&[&[2]]),
        new: &[&[3, 4]],
    };
    let wrong = wrong_in_six(alloc, &replaced_log(alloc)?, &trial)?;
    assert!(rt; wrong == None);
    Ok(())
}

// What an opening gives while that call fails, and whether the next one lists the body 1.
fn opened_twice(
    alloc: Global,
    disk: &MemDisk,
    call: Call,
    number: u64,
) -> Result<(Option<Refusal>, bool), Refusal> {
    let mut faulty = again_failing(alloc, disk, call, number)?;
    let first = open(alloc, &mut faulty).err();
    Ok((first, lists(alloc, &mut faulty, &[&[1]])?))
}

#[test]
fn a_fault_of_an_opening_changes_nothing(rt: HostRuntime) -> Result<(), Fail> {
    let alloc = rt.alloc();
    let disk = log_of(alloc, &[1])?;
    let opened = [
        opened_twice(alloc, &disk, Call::Sync, 1),
        opened_twice(alloc, &disk, Call::Read, 1),
        opened_twice(alloc, &disk, Call::Read, 2),
        opened_twice(alloc, &disk, Call::Read, 3),
    ];
    assert!(rt; opened == [Ok((FAULT.err(), true)); 4]);
    Ok(())
}

// What an opening gives whose first call fails, and which calls were made.
fn opened_in_vain(alloc: Global, disk: &MemDisk) -> Result<(Option<Refusal>, [u64; 3]), Refusal> {
    let mut stopped = again(alloc, disk, Some(0))?;
    let refusal = open(alloc, &mut stopped).err();
    Ok((refusal, calls_of(&stopped)))
}

#[test]
fn an_opening_syncs_before_it_reads(rt: HostRuntime) -> Result<(), Fail> {
    let alloc = rt.alloc();
    let opened = opened_in_vain(alloc, &log_of(alloc, &[1])?);
    assert!(rt; opened == Ok((FAULT.err(), [0, 0, 1])));
    Ok(())
}

// What a replace gives that stops after so many calls of its own, and what a crash then leaves.
fn stopped_replace(
    alloc: Global,
    disk: &MemDisk,
    calls: u64,
    body: &[u8],
) -> Result<(Result<(), Refusal>, MemDisk), Refusal> {
    let mut stopped = again(alloc, disk, Some(calls.saturating_add(4)))?;
    let done = replace(alloc, &mut stopped, body);
    Ok((done, crash(alloc, &stopped, 0xa5)?))
}

#[test]
fn a_closed_gate_is_not_written_again(rt: HostRuntime) -> Result<(), Fail> {
    let alloc = rt.alloc();
    let disk = replaced_log(alloc)?;
    let (first, left) = stopped_replace(alloc, &disk, 3, &[3])?;
    let (second, mut left) = stopped_replace(alloc, &left, 1, &[4])?;
    let same = lists(alloc, &mut left, &[&[2]]);
    assert!(rt; (first, second, same) == (FAULT, FAULT, Ok(true)));
    Ok(())
}

// Whether these bytes stand on the device from that place on.
fn stands_at(disk: &MemDisk, place: usize, want: &[u8]) -> bool {
    let bytes = disk.bytes();
    bytes.len() >= place && bytes[place..].starts_with(want)
}

// Whether a log of the one generation is replaced by a region of the other.
fn is_replaced_under(alloc: Global, generation: u64, next: u64) -> Result<bool, Refusal> {
    let mut disk = log_of(alloc, &[1])?;
    put(&mut disk, 8, &generation.to_be_bytes())?;
    replace(alloc, &mut disk, &[2])?;
    let is_next = stands_at(&disk, 64, &[0xa5, 0, 0, 0, 0, 0, 0, 0])
        && stands_at(&disk, 72, &next.to_be_bytes());
    Ok(is_next && lists(alloc, &mut disk, &[&[2]])?)
}

#[test]
fn generations_begin_again_at_1(rt: HostRuntime) -> Result<(), Fail> {
    let alloc = rt.alloc();
    let replaced = [
        is_replaced_under(alloc, 1, 2),
        is_replaced_under(alloc, 0xffff_ffff_ffff_fffe, 0xffff_ffff_ffff_ffff),
        is_replaced_under(alloc, 0xffff_ffff_ffff_ffff, 1),
    ];
    assert!(rt; replaced == [Ok(true); 3]);
    Ok(())
}

#[test]
fn a_full_log_has_room_again_after_a_replace(rt: HostRuntime) -> Result<(), Fail> {
    let alloc = rt.alloc();
    let mut disk = log_of(alloc, &[7; 33])?;
    let outcomes = [
        append(alloc, &mut disk, &[1, 2, 3, 4, 5]),
        replace(alloc, &mut disk, &[8]),
        append(alloc, &mut disk, &[1, 2, 3, 4, 5]),
    ];
    let both = lists(alloc, &mut disk, &[&[8], &[1, 2, 3, 4, 5]]);
    let (needed, free) = (11, 10);
    let full = Err(Refusal::NoRoom { needed, free });
    assert!(rt; (outcomes, both) == ([full, Ok(()), Ok(())], Ok(true)));
    Ok(())
}

// Two appends by one log.
fn append_twice<D: Disk>(alloc: Global, disk: &mut D) -> Result<[Result<(), Refusal>; 2], Refusal> {
    let framed = framed(alloc, &[2])?;
    let (mut log, _bodies) = fetch(alloc, disk)?;
    Ok([log.append(disk, &framed), log.append(disk, &framed)])
}

#[test]
fn a_fault_stops_a_log(rt: HostRuntime) -> Result<(), Fail> {
    let alloc = rt.alloc();
    let mut stopped = again(alloc, &log_of(alloc, &[1])?, Some(5))?;
    let outcomes = append_twice(alloc, &mut stopped)?;
    let (device, count) = (Device::Log, 1);
    let want = [FAULT, Err(Refusal::Stopped { device, count })];
    assert!(rt; (outcomes, stopped.faults()) == (want, 1));
    Ok(())
}

#[test]
fn a_region_is_opened_appended_to_and_replaced(rt: HostRuntime) -> Result<(), Fail> {
    let alloc = rt.alloc();
    let mut disk = zeros(alloc, 128)?;
    let filled = fill(alloc, &mut disk, &[1]);
    let closed = open(alloc, &mut disk).err();
    let writes = [
        put(&mut disk, 0, &[0xa5]),
        append(alloc, &mut disk, &[2]),
        append(alloc, &mut disk, &[3, 3]),
    ];
    let three = lists(alloc, &mut disk, &[&[1], &[2], &[3, 3]]);
    let replaced = replace(alloc, &mut disk, &[4]);
    let one = lists(alloc, &mut disk, &[&[4]]);
    let (device, place) = (Device::Log, 0);
    assert!(rt; (filled, closed) == (Ok(()), Some(Refusal::NotAStore { device, place })));
    assert!(rt; (writes, replaced, three, one) == ([Ok(()); 3], Ok(()), Ok(true), Ok(true)));
    Ok(())
}

// Whether a log on these zeros holds this body beside the one that it was made with, and alone.
fn holds<D: Disk>(alloc: Global, disk: &mut D, body: &[u8]) -> Result<bool, Refusal> {
    make(alloc, disk, &[1])?;
    append(alloc, disk, body)?;
    let two = lists(alloc, disk, &[&[1], body])?;
    replace(alloc, disk, body)?;
    Ok(two && lists(alloc, disk, &[body])?)
}

// Whether a log of that many bytes holds a body of so many.
fn holds_much(alloc: Global, size: u64, count: usize) -> Result<bool, Refusal> {
    let body = vec![in alloc; 0xa5; count]?;
    let mut disk = zeros(alloc, size)?;
    holds(alloc, &mut disk, &body)
}

#[test]
fn a_log_of_4_mib_holds_a_body_of_1_mib(rt: HostRuntime) -> Result<(), Fail> {
    let held = holds_much(rt.alloc(), 4_194_304, 1_048_576);
    assert!(rt; held == Ok(true));
    Ok(())
}

// Appends the numbers from 1 on and below this one, each in four bytes.
fn append_numbers<D: Disk>(alloc: Global, disk: &mut D, end: u32) -> Result<(), Refusal> {
    let (mut log, _bodies) = fetch(alloc, disk)?;
    for number in 1..end {
        let framed = framed(alloc, &number.to_be_bytes())?;
        log.append(disk, &framed)?;
    }
    Ok(())
}

// Whether the bodies are the numbers from 0 on, each in four bytes.
fn are_numbers(bodies: &[Vec<u8>]) -> bool {
    bodies.iter().zip(0u32..u32::MAX).all(|(body, number)| body.as_slice()
        == number.to_be_bytes().as_slice())
}

// How many bodies the log has, and whether they are the numbers in order.
fn counted<D: Disk>(alloc: Global, disk: &mut D) -> Result<(usize, bool), Refusal> {
    let bodies = open(alloc, disk)?;
    Ok((bodies.len(), are_numbers(&bodies)))
}

// What an opening gives once a record stands at that place whose length passes the half.
fn opened_broken<D: Disk>(
    alloc: Global,
    disk: &mut D,
    place: u64,
) -> Result<Option<Refusal>, Refusal> {
    put(disk, place, &[0xa5, 0xff])?;
    Ok(open(alloc, disk).err())
}

// How many bodies a log of the numbers below this one holds, and whether they are the numbers in order; and what an
// opening gives once a record stands behind them, at that place, whose length passes the half.
fn numbers_and_break(
    alloc: Global,
    end: u32,
    place: u64,
) -> Result<((usize, bool), Option<Refusal>), Refusal> {
    let mut disk = RamDisk::new(alloc, 131_072)?;
    make(alloc, &mut disk, &[0, 0, 0, 0])?;
    append_numbers(alloc, &mut disk, end)?;
    let numbers = counted(alloc, &mut disk)?;
    Ok((numbers, opened_broken(alloc, &mut disk, place)?))
}

#[test]
fn five_thousand_bodies_are_read_back_and_a_break_behind_them_is_told(
    rt: HostRuntime,
) -> Result<(), Fail> {
    // Each record has nine bytes, and the first stands behind a header of sixteen.
    let (device, place) = (Device::Log, 45_016);
    let held = numbers_and_break(rt.alloc(), 5000, place);
    assert!(rt; held == Ok(((5000, true), Some(Refusal::NotAStore { device, place }))));
    Ok(())
}

// The numbers below this one, each in four bytes.
fn numbers(alloc: Global, end: u32) -> Result<Vec<Framed>, Refusal> {
    let mut bodies = Vec::new(alloc);
    for number in 0..end {
        bodies.push(framed(alloc, &number.to_be_bytes())?)?;
    }
    Ok(bodies)
}

// Puts these bodies in the place of all.
fn replace_all<D: Disk>(alloc: Global, disk: &mut D, bodies: &[Framed]) -> Result<(), Refusal> {
    let (mut log, _bodies) = fetch(alloc, disk)?;
    log.replace(alloc, disk, bodies)
}

// How many bodies a log holds whose one body was replaced by the numbers below this one, and whether they are those.
fn holds_replaced(alloc: Global, end: u32) -> Result<(usize, bool), Refusal> {
    let bodies = numbers(alloc, end)?;
    let mut disk = RamDisk::new(alloc, 131_072)?;
    make(alloc, &mut disk, &[9])?;
    replace_all(alloc, &mut disk, &bodies)?;
    counted(alloc, &mut disk)
}

#[test]
fn a_body_is_replaced_by_a_thousand(rt: HostRuntime) -> Result<(), Fail> {
    let held = holds_replaced(rt.alloc(), 1000);
    assert!(rt; held == Ok((1000, true)));
    Ok(())
}
