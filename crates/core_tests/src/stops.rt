//! A log that stops at each of the calls of an append, and one that is cut.

use core_trial::devices::{A, FLUSHER, Pair, devices};
use core_trial::failing::{crashed, half_written, stopping};
use core_trial::{Answer, Ask, Row, goes_so, run_on};
use disk_model::Disk;
use retro_base::{Device, Refusal};
use std::alloc::Global;
use std::test::Fail;

const BEGINS: Row = (Ask::Begin(A), Answer::Done);

const LOG_FAULT: Answer = Answer::No(Refusal::DiskFault {
    device: Device::Log,
    count: 1,
});

// The byte of page 7, and the newest snapshot.
type Shown = (u8, u64);

const BEFORE: Shown = (0, 0);

const BEHIND: Shown = (5, 1);

// So many calls of the log go, of which an opening makes four: a sync and three reads. What a commit then answers that
// sets page 7 to 5 and declares a snapshot; and what the images show on which the loose bytes are 0x00, 0xa5, 0xff, and
// as they were written at even places alone.
type Stop = (u64, Answer, [Shown; 4]);

// The body and a closed gate behind it are written and synced, then the gate in front, which stands at place 60.
const STOPS: [Stop; 5] = [
    (4, LOG_FAULT, [BEFORE; 4]),
    (5, LOG_FAULT, [BEFORE; 4]),
    (6, LOG_FAULT, [BEFORE; 4]),
    (7, LOG_FAULT, [BEFORE, BEHIND, BEFORE, BEHIND]),
    (8, Answer::Declared(Some(1)), [BEHIND; 4]),
];

// Whether the devices open to a store that shows this: a page that the log changes is dirty.
fn shows<D: Disk + Drop>(alloc: Global, devices: (D, D), want: Shown) -> Result<bool, Refusal> {
    let rows = [
        BEGINS,
        (Ask::Read(A, 7), Answer::Page(Some(want.0))),
        (Ask::Horizon, Answer::Pair(1, want.1)),
        (Ask::Owed, Answer::Pair(0, want.1)),
    ];
    Ok(run_on(alloc, devices, &rows)?.wrong.is_none())
}

// What becomes of the loose bytes.
#[derive(Clone, Copy)]
enum Loose {
    AllAre(u8),
    HalfWritten,
}

const LOOSE: [Loose; 4] = [
    Loose::AllAre(0x00),
    Loose::AllAre(0xa5),
    Loose::AllAre(0xff),
    Loose::HalfWritten,
];

// What a crash leaves of the devices.
fn image(alloc: Global, devices: &Pair, loose: Loose) -> Result<Pair, Refusal> {
    match loose {
        Loose::AllAre(fill) => crashed(alloc, devices, fill),
        Loose::HalfWritten => half_written(alloc, devices),
    }
}

fn image_shows(alloc: Global, devices: &Pair, loose: Loose, want: Shown) -> Result<bool, Refusal> {
    shows(alloc, image(alloc, devices, loose)?, want)
}

// Whether the images show this.
fn images_show(alloc: Global, devices: &Pair, want: &[Shown; 4]) -> Result<bool, Refusal> {
    for (loose, want) in LOOSE.iter().zip(want) {
        if !image_shows(alloc, devices, *loose, *want)? {
            return Ok(false);
        }
    }
    Ok(true)
}

// Whether a commit is answered so, and what it leaves.
fn committed<D: Disk + Drop>(
    alloc: Global,
    devices: (D, D),
    answer: Answer,
) -> Result<(bool, (D, D)), Refusal> {
    let rows = [
        BEGINS,
        (Ask::Edit(A, 7, 5), Answer::Done),
        (Ask::Mark(A, b"label"), answer),
    ];
    goes_so(alloc, devices, &rows)
}

// Whether a log that stops so answers and leaves what it should.
fn stops_so(alloc: Global, devices: &Pair, stop: &Stop) -> Result<bool, Refusal> {
    let (calls, answer, shown) = stop;
    let devices = stopping(alloc, devices, Some(*calls), None)?;
    let (is_answered, left) = committed(alloc, devices, *answer)?;
    Ok(is_answered && images_show(alloc, &left, shown)?)
}

fn first_wrong_of(alloc: Global, devices: &Pair) -> Result<Option<usize>, Refusal> {
    for (place, stop) in STOPS.iter().enumerate() {
        if !stops_so(alloc, devices, stop)? {
            return Ok(Some(place));
        }
    }
    Ok(None)
}

fn first_wrong_stop(alloc: Global) -> Result<Option<usize>, Refusal> {
    first_wrong_of(alloc, &devices(alloc, 16, 64)?)
}

#[test]
fn each_image_of_a_stopped_append_opens(rt: HostRuntime) -> Result<(), Fail> {
    assert!(rt; first_wrong_stop(rt.alloc()) == Ok(None));
    Ok(())
}

// A header of 16 bytes, and a base of 39 in 44, are before the gate of a log that was cut.
const CUT: [Row; 8] = [
    (Ask::Set(A, 7, 5), Answer::Declared(None)),
    (Ask::CutLog(FLUSHER), Answer::Is(false)),
    (Ask::WriteBack(FLUSHER), Answer::Is(true)),
    (Ask::WriteBack(FLUSHER), Answer::Is(false)),
    (Ask::CutLog(FLUSHER), Answer::Is(false)),
    (Ask::Settle(FLUSHER), Answer::Done),
    (Ask::CutLog(FLUSHER), Answer::Is(true)),
    (Ask::Free, Answer::Number(16_777_216 - 60)),
];

const OPENED: [Row; 3] = [
    (Ask::Owed, Answer::Pair(0, 0)),
    BEGINS,
    (Ask::Read(A, 7), Answer::Page(Some(5))),
];

// Whether a cut goes so, and the store that is then opened.
fn cut_goes_so<D: Disk + Drop>(alloc: Global, devices: (D, D)) -> Result<[bool; 2], Refusal> {
    let (is_cut, left) = goes_so(alloc, devices, &CUT)?;
    let (is_opened, _left) = goes_so(alloc, left, &OPENED)?;
    Ok([is_cut, is_opened])
}

fn log_is_cut(alloc: Global) -> Result<[bool; 2], Refusal> {
    cut_goes_so(alloc, devices(alloc, 16, 64)?)
}

#[test]
fn the_log_is_cut(rt: HostRuntime) -> Result<(), Fail> {
    assert!(rt; log_is_cut(rt.alloc()) == Ok([true; 2]));
    Ok(())
}
