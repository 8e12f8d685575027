//! A log that fills: a commit or a drop that finds no room makes it.

use crate::plays::{Story, again, all_told, large, told};
use crate::steps::{Answer, Step, Told};
use disk_mem::MemDisk;
use disk_model::Four;
use std::alloc::Global;
use std::sync::Wait;
use std::test::Fail;

// Of 1,024 pages a commit leaves a record of 1,050,633 bytes in the log: five of its own, four that tell how many pages
// it writes, and 1,026 for each. The region has 16,777,156 behind its header and its base: the sixteenth finds no room.
// The tenth declares a snapshot, so the eleventh captures each page, and those behind it none.
const MARKED: [Step; 23] = [
    Step::Plain(2, 1024, 1),
    Step::Plain(2, 1024, 2),
    Step::Plain(2, 1024, 3),
    Step::Plain(2, 1024, 4),
    Step::Plain(2, 1024, 5),
    Step::Plain(2, 1024, 6),
    Step::Plain(2, 1024, 7),
    Step::Plain(2, 1024, 8),
    Step::Plain(2, 1024, 9),
    Step::Marked(2, 1024, 10),
    Step::Plain(2, 1024, 11),
    Step::Plain(2, 1024, 12),
    Step::Plain(2, 1024, 13),
    Step::Plain(2, 1024, 14),
    Step::Plain(2, 1024, 15),
    Step::Plain(2, 1024, 16),
    Step::Plain(2, 1024, 17),
    Step::Plain(2, 1024, 18),
    Step::Plain(2, 1024, 19),
    Step::Plain(2, 1024, 20),
    Step::Read(2),
    Step::Past(1, 2),
    Step::Past(1, 1025),
];

const DONE: Answer = Ok(Told::Committed(None));

const LAST: Answer = Ok(Told::Page(Some(20)));

const WAS: Answer = Ok(Told::Past(0, Some(10)));

const MARKED_TOLD: [Answer; 23] = [
    DONE,
    DONE,
    DONE,
    DONE,
    DONE,
    DONE,
    DONE,
    DONE,
    DONE,
    Ok(Told::Committed(Some(1))),
    DONE,
    DONE,
    DONE,
    DONE,
    DONE,
    DONE,
    DONE,
    DONE,
    DONE,
    DONE,
    LAST,
    WAS,
    WAS,
];

const AGAIN: Story = (
    &[Step::Read(1025), Step::Past(1, 2), Step::Past(1, 1025)],
    &[LAST, WAS, WAS],
);

// How many lines and captures there are, where the store goes so and then, opened again.
fn left_by<R: Wait>(rt: &R, alloc: Global) -> Option<(usize, u64)> {
    let disks = large(alloc)?;
    let closed = told(rt, alloc, disks, &(&MARKED, &MARKED_TOLD))?;
    let left = (closed.journal.as_slice().len(), closed.captures);
    if all_told(rt, alloc, closed.disks, &[AGAIN]) {
        return Some(left);
    }
    None
}

// A transaction has two lines, and so has a look.
#[test]
fn commits_go_on_past_the_region_of_the_log(rt: HostRuntime) -> Result<(), Fail> {
    assert!(rt; left_by(&rt, rt.alloc()) == Some((46, 1024)));
    Ok(())
}

const GREAT: Step = Step::Plain(2, 1024, 1);

const ONE: Step = Step::Plain(2, 1, 4);

// Fifteen records as above, and these of 894 pages and of one, each five bytes longer by its mark: behind them 99,363
// bytes are free.
const MARKS: Story = (
    &[Step::Marked(2, 894, 2), Step::Marked(2, 1, 3)],
    &[Ok(Told::Committed(Some(1))), Ok(Told::Committed(Some(2)))],
);

const GREATS: Story = (&[GREAT; 15], &[DONE; 15]);

// Each takes 1,035 of them, so three are left.
const ONES: Story = (&[ONE; 96], &[DONE; 96]);

// A drop takes ten.
const DROPS: Story = (
    &[
        Step::Drop(2),
        Step::Horizon,
        Step::Past(2, 2),
        Step::Read(2),
    ],
    &[
        Ok(Told::Dropped),
        Ok(Told::Horizon(2, 2)),
        Ok(Told::Past(1, Some(3))),
        Ok(Told::Page(Some(4))),
    ],
);

const MARKS_ONE: Story = (
    &[Step::Marked(3, 1, 5), Step::Past(3, 3), Step::Past(1, 3)],
    &[
        Ok(Told::Committed(Some(3))),
        Ok(Told::Past(3, Some(5))),
        Ok(Told::Past(0, Some(2))),
    ],
);

// The devices of a store in whose log three bytes are free.
fn full<R: Wait>(rt: &R, alloc: Global) -> Option<Four<MemDisk>> {
    let greats = told(rt, alloc, large(alloc)?, &GREATS)?;
    let marks = told(rt, alloc, greats.disks, &MARKS)?;
    let ones = told(rt, alloc, marks.disks, &ONES)?;
    Some(ones.disks)
}

fn makes_room<R: Wait>(rt: &R, alloc: Global) -> Option<bool> {
    let disks = full(rt, alloc)?;
    let drops = all_told(rt, alloc, again(alloc, &disks, None)?, &[DROPS]);
    Some(drops && all_told(rt, alloc, disks, &[MARKS_ONE]))
}

#[test]
fn a_full_log_makes_room_for_a_drop_and_a_small_commit(rt: HostRuntime) -> Result<(), Fail> {
    assert!(rt; makes_room(&rt, rt.alloc()) == Some(true));
    Ok(())
}
