//! Stores that are opened with a session, a copier and a flusher, and closed behind their steps.

ghost use Rattle.std.specs.Prelude.{◌≡◌, ◌≤◌, ◌+◌, IfOk, length, vec_capacity};
ghost use Rattle.store.specs.Closing.{AreReady};
ghost use Rattle.store_format.specs.Empty.{AreInRange};
ghost use Rattle.store_tests.specs.Steps.{MayCall, MayRound, Rests};
ghost use Rattle.turn.specs.Tables.{table_of};

use crate::steps::{Answer, Step, perform};
use disk_mem::MemDisk;
use disk_model::{Cabinet, Disk, Four, Sizes};
use history::Version;
use mem_cabinet::MemCabinet;
use race_model::Batch;
use retro_base::{Device, Refusal};
use std::alloc::Global;
use std::sync::Wait;
use store::{Closed, Seat, Store};
use store_format::format;
use values::Seq;

// The seats of a store: sixteen of sessions, the copier's and the flusher's.
const SEATS: u32 = 18;

const SMALL: Sizes = Sizes {
    pages: 128,
    capacity: 64,
};

const LARGE: Sizes = Sizes {
    pages: 1040,
    capacity: 2048,
};

/// The devices of an empty store of a name, of 128 pages and an archive of 64.
pub fn empty<C: Cabinet>(alloc: Global, cabinet: &mut C, name: &str) -> Option<Four<C::Device>> {
    made(alloc, cabinet, name, SMALL)
}

fn made<C: Cabinet>(
    alloc: Global,
    cabinet: &mut C,
    name: &str,
    sizes: Sizes,
) -> Option<Four<C::Device>>
    requires { AreInRange sizes }
{
    let Ok(disks) = cabinet.create(name, sizes) else {
        return None;
    };
    match format(alloc, Version::One, disks, sizes) {
        Ok(disks) => Some(disks),
        Err(_) => None,
    }
}

/// Such devices in memory, which remember what a crash may leave.
pub fn small(alloc: Global) -> Option<Four<MemDisk>> {
    let mut cabinet = MemCabinet::new(alloc, Vec::new(alloc));
    made(alloc, &mut cabinet, "store", SMALL)
}

/// The devices in memory of an empty store of 1,040 pages and an archive of 2,048.
pub fn large(alloc: Global) -> Option<Four<MemDisk>> {
    let mut cabinet = MemCabinet::new(alloc, Vec::new(alloc));
    made(alloc, &mut cabinet, "store", LARGE)
}

fn all_four<D: Disk + Drop>(
    log: Option<D>,
    pages: Option<D>,
    pagelog: Option<D>,
    maplog: Option<D>,
) -> Option<Four<D>> {
    Some(Four {
        log: log?,
        pages: pages?,
        pagelog: pagelog?,
        maplog: maplog?,
    })
}

/// A device, and behind how many of its calls it stops.
pub type Stop = (Device, u64);

// A device with the bytes of another, which stops where it is the one that does.
fn one_again(alloc: Global, disk: &MemDisk, device: Device, stop: Option<Stop>) -> Option<MemDisk> {
    let calls = match stop {
        Some((it, calls)) if it == device => Some(calls),
        _ => None,
    };
    disk.again(alloc, Vec::new(alloc), calls).ok()
}

/// Devices with the bytes of these that were not called yet, one of which may stop.
pub fn again(alloc: Global, disks: &Four<MemDisk>, stop: Option<Stop>) -> Option<Four<MemDisk>> {
    all_four(
        one_again(alloc, &disks.log, Device::Log, stop),
        one_again(alloc, &disks.pages, Device::Pages, stop),
        one_again(alloc, &disks.pagelog, Device::Pagelog, stop),
        one_again(alloc, &disks.maplog, Device::Maplog, stop),
    )
}

fn one_crashed(alloc: Global, disk: &MemDisk, fill: u8) -> Option<MemDisk> {
    disk.crash(alloc, fill).ok()
}

/// What a crash leaves of the devices, where each loose byte becomes one.
pub fn crashed(alloc: Global, disks: &Four<MemDisk>, fill: u8) -> Option<Four<MemDisk>> {
    all_four(
        one_crashed(alloc, &disks.log, fill),
        one_crashed(alloc, &disks.pages, fill),
        one_crashed(alloc, &disks.pagelog, fill),
        one_crashed(alloc, &disks.maplog, fill),
    )
}

// Performs the steps until one is refused, whose answer is then the last.
fn perform_all<R: Wait, D: Disk + Drop>(
    rt: &R,
    alloc: Global,
    store: &Store<D>,
    session: &mut Seat<D>,
    copying: &mut Seat<D>,
    flushing: &mut Seat<D>,
    steps: &[Step],
    answers: &mut Vec<Answer>,
)
    requires session { Rests (table_of store.now.turn) session.old }
    requires copying { MayRound (table_of store.now.turn) copying.old }
    requires flushing { MayRound (table_of store.now.turn) flushing.old }
    ensures session { MayCall (table_of store.now.turn) session.new }
    ensures copying { MayCall (table_of store.now.turn) copying.new }
    ensures flushing { MayCall (table_of store.now.turn) flushing.new }
{
    let Ok(mut batch) = Batch::new(alloc) else {
        return;
    };
    let mut item = 0_u32;
    'steps: for step in steps {
        let answer = perform(
            rt, alloc, store, session, copying, flushing, &mut batch, item, step,
        );
        if answers.push(answer).is_err() || answer.is_err() {
            return;
        }
        item = item.saturating_add(1);
    }
}

/// What the steps answered until one was refused, and what their store left. Of a store that was not opened the one
/// answer is why, and there are no lines.
#[derive(Drop)]
pub struct Played<D> {
    pub is_opened: bool,
    pub answers: Vec<Answer>,
    pub closed: Closed<D>,
}

/// A store that was opened, with a session, the copier and the flusher at their seats. Nobody is at the others.
pub struct Crew<D: Disk + Drop> {
    pub store: Store<D>,
    pub session: Seat<D>,
    pub copying: Seat<D>,
    pub flushing: Seat<D>,
    pub others: Vec<Seat<D>>,
}

/// Opens a store. Where it is refused, the devices come back.
pub fn open<D: Disk + Drop>(alloc: Global, disks: Four<D>) -> Result<Crew<D>, (Four<D>, Refusal)>
    ensures session { IfOk result (λ r. Rests (table_of r.store.turn) r.session) }
    ensures copying { IfOk result (λ r. MayRound (table_of r.store.turn) r.copying) }
    ensures flushing { IfOk result (λ r. MayRound (table_of r.store.turn) r.flushing) }
    ensures others { IfOk result (λ r. AreReady (table_of r.store.turn) r.others.items) }
    ensures count { IfOk result (λ r. length r.others.items + 3 ≡ r.store.turn.table.shared.key.seats) }
    ensures room { IfOk result (λ r. length r.others.items + 3 ≤ vec_capacity r.others) }
{
    match Store::fetch(alloc, Version::One, disks, SEATS) {
        Err(refused) => Err(refused),
        Ok((store, mut seats)) => {
            let Some(flushing) = seats.pop() else {
                unreachable!()
            };
            let Some(copying) = seats.pop() else {
                unreachable!()
            };
            let Some(session) = seats.pop() else {
                unreachable!()
            };
            Ok(Crew {
                store,
                session,
                copying,
                flushing,
                others: seats,
            })
        }
    }
}

/// Closes a store.
pub fn leave<D: Disk + Drop>(crew: Crew<D>) -> Closed<D>
    requires session { MayCall (table_of crew.store.turn) crew.session }
    requires copying { MayCall (table_of crew.store.turn) crew.copying }
    requires flushing { MayCall (table_of crew.store.turn) crew.flushing }
    requires others { AreReady (table_of crew.store.turn) crew.others.items }
    requires count { length crew.others.items + 3 ≡ crew.store.turn.table.shared.key.seats }
    requires room { length crew.others.items + 3 ≤ vec_capacity crew.others }
{
    let Crew {
        store,
        session,
        copying,
        flushing,
        others,
    } = crew;
    let mut seats = others;
    seats.push_reserved(session);
    seats.push_reserved(copying);
    seats.push_reserved(flushing);
    store.close(seats)
}

// What a store leaves that was not opened.
fn refused<D: Disk + Drop>(alloc: Global, disks: Four<D>, why: Refusal) -> Played<D> {
    let mut answers = Vec::new(alloc);
    let _ = answers.push(Err(why));
    let closed = Closed {
        disks,
        journal: Seq::new(alloc),
        captures: 0,
    };
    Played {
        is_opened: false,
        answers,
        closed,
    }
}

/// Opens a store, performs the steps, and closes it.
pub fn play<R: Wait, D: Disk + Drop>(
    rt: &R,
    alloc: Global,
    disks: Four<D>,
    steps: &[Step],
) -> Played<D> {
    let mut crew = match open(alloc, disks) {
        Ok(crew) => crew,
        Err((disks, why)) => return refused(alloc, disks, why),
    };
    let mut answers = Vec::new(alloc);
    perform_all(
        rt,
        alloc,
        &crew.store,
        &mut crew.session,
        &mut crew.copying,
        &mut crew.flushing,
        steps,
        &mut answers,
    );
    Played {
        is_opened: true,
        answers,
        closed: leave(crew),
    }
}

/// Steps, and what they answer.
pub type Story = (&'static [Step], &'static [Answer]);

/// What a store left, where the steps answered so.
pub fn told<R: Wait, D: Disk + Drop>(
    rt: &R,
    alloc: Global,
    disks: Four<D>,
    story: &Story,
) -> Option<Closed<D>> {
    let (steps, answers) = *story;
    let Played {
        is_opened: _,
        answers: given,
        closed,
    } = play(rt, alloc, disks, steps);
    if given.as_slice() == answers {
        return Some(closed);
    }
    None
}

/// Whether the store goes so, where it is opened again for each story.
pub fn all_told<R: Wait, D: Disk + Drop>(
    rt: &R,
    alloc: Global,
    disks: Four<D>,
    stories: &[Story],
) -> bool {
    let mut disks = disks;
    'stories: for story in stories {
        match told(rt, alloc, disks, story) {
            Some(closed) => disks = closed.disks,
            None => return false,
        }
    }
    true
}

/// Whether what a crash leaves of the devices, with each loose byte 0, 0xA5 or 0xFF, opens to a store that goes so.
pub fn all_open_to<R: Wait>(rt: &R, alloc: Global, disks: &Four<MemDisk>, story: &Story) -> bool {
    [0, 0xA5, 0xFF]
        .iter()
        .all(|fill| opens_to(rt, alloc, disks, *fill, story))
}

/// Whether what a crash leaves with that fill opens to a store that goes so.
pub fn opens_to<R: Wait>(
    rt: &R,
    alloc: Global,
    disks: &Four<MemDisk>,
    fill: u8,
    story: &Story,
) -> bool {
    match crashed(alloc, disks, fill) {
        Some(left) => told(rt, alloc, left, story).is_some(),
        None => false,
    }
}
