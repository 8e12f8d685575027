//! What transactions and reads of a store cost, by how many pages it has and how many snapshots are retained: the
//! calls of each device that a part makes, as reads, writes and syncs.
//! With words, as `commits 1000`, a part is done so often on a small store in memory; with two numbers behind them, as
//! `commits 1000 60000 10000`, on one of so many pages and snapshots; and with a folder at the end over the files of a
//! new store in it. The parts are `commits`, which write a page and declare a snapshot, `plain` ones, which declare
//! none, `entries` to the desk, `reads` of a page in memory, `fetches` of pages that are not, and `recalls` of a page
//! as of a snapshot; `all` are each of these. With no words each is done in memory, at few pages and snapshots and at
//! many.
#![tactic(auto)]

mod measured;
mod metered;
mod part;
mod prepared;
mod told;

ghost use Rattle.std.specs.Prelude.{◌≡◌, IfOk, true};
ghost use Rattle.disk_model.specs.Cabinet.{AreSized};
ghost use Rattle.store_format.specs.Empty.{AreInRange};

use disk_file::FileCabinet;
use disk_mem::RamDisk;
use disk_model::{Cabinet, Disk, Four, Sizes};
use history::Version;
use metered::{Meter, Metered, meters};
use part::Part;
use prepared::Setting;
use retro_base::{MAX_CAPACITY, MAX_PAGES, MIN_CAPACITY, MIN_PAGES, Refusal};
use std::alloc::Global;
use std::env;
use std::env::Env;
use std::fs::{File, Files};
use std::process::ExitCode;
use std::sync::Wait;
use store::Store;
use store_format::format;
use told::{Job, tell_job};

// The seats of the sessions, of the copier and of the flusher.
const SEATS: u32 = 18;

const FEW: Setting = Setting {
    pages: 4_000,
    snapshots: 10,
};

const MANY: Setting = Setting {
    pages: 60_000,
    snapshots: 10_000,
};

// Whether a store may have these sizes.
fn are_in_range(sizes: Sizes) -> bool
    ensures { result ≡ true → AreInRange sizes }
{
    (MIN_PAGES..=MAX_PAGES).contains(&sizes.pages)
        && (MIN_CAPACITY..=MAX_CAPACITY).contains(&sizes.capacity)
}

// An empty store of these sizes on devices of zeros.
fn formatted<D: Disk + Drop>(alloc: Global, disks: Four<D>, sizes: Sizes) -> Option<Four<D>>
    requires { AreSized D.extent sizes disks }
{
    if !are_in_range(sizes) {
        return None;
    }
    match format(alloc, Version::One, disks, sizes) {
        Ok(disks) => Some(disks),
        Err(_) => None,
    }
}

// Does a job on the devices of an empty store.
fn tell_on<R: AllocGlobal + Print + Wait, D: Disk + Drop>(
    rt: &R,
    disks: Four<D>,
    job: &Job,
) -> Option<()> {
    let meters = meters();
    let disks = Metered::each(disks, &meters);
    let Ok((store, mut seats)) = Store::fetch(rt.alloc(), Version::One, disks, SEATS) else {
        return None;
    };
    let Some(mut flushing) = seats.pop() else {
        unreachable!()
    };
    let Some(mut copying) = seats.pop() else {
        unreachable!()
    };
    let Some(mut session) = seats.pop() else {
        unreachable!()
    };
    let told = tell_job(
        rt,
        &store,
        &mut session,
        &mut copying,
        &mut flushing,
        &meters,
        job,
    );
    seats.push_reserved(session);
    seats.push_reserved(copying);
    seats.push_reserved(flushing);
    let _closed = store.close(seats);
    told
}

// Does a job on a new store of these sizes on devices of zeros.
fn tell_new<R: AllocGlobal + Print + Wait, D: Disk + Drop>(
    rt: &R,
    disks: Four<D>,
    sizes: Sizes,
    job: &Job,
) -> Option<()>
    requires { AreSized D.extent sizes disks }
{
    match formatted(rt.alloc(), disks, sizes) {
        Some(disks) => tell_on(rt, disks, job),
        None => None,
    }
}

// A device of that many zeros in memory.
fn zero_disk(alloc: Global, size: u64) -> Result<RamDisk, Refusal>
    ensures { IfOk result (λ disk. ⟦<RamDisk as Disk>⟧.extent disk ≡ size) }
{
    RamDisk::new(alloc, size)
}

// Devices in memory for a store of these sizes.
fn in_memory(alloc: Global, sizes: Sizes) -> Result<Four<RamDisk>, Refusal>
    ensures { IfOk result (AreSized ⟦<RamDisk as Disk>⟧.extent sizes) }
{
    Ok(Four {
        log: zero_disk(alloc, sizes.log_bytes())?,
        pages: zero_disk(alloc, sizes.pages_bytes())?,
        pagelog: zero_disk(alloc, sizes.pagelog_bytes())?,
        maplog: zero_disk(alloc, sizes.maplog_bytes())?,
    })
}

fn tell_in_memory<R: AllocGlobal + Print + Wait>(rt: &R, job: &Job) -> Option<()> {
    let Setting { pages, snapshots } = job.setting;
    println!(rt; "{pages} pages, {snapshots} snapshots").ok()?;
    let sizes = job.setting.sizes();
    let disks = in_memory(rt.alloc(), sizes).ok()?;
    tell_new(rt, disks, sizes, job)
}

fn tell_in_folder<R: AllocGlobal + Files<File = File> + Print + Wait>(
    rt: &R,
    job: &Job,
    folder: &str,
) -> Option<()> {
    let mut cabinet = FileCabinet::new(rt.alloc(), rt);
    let sizes = job.setting.sizes();
    let disks = cabinet.create(folder, sizes).ok()?;
    tell_new(rt, disks, sizes, job)
}

// The part of that word, or each, so often, on a store of a setting.
fn job_of(word: &str, count: &str, setting: Setting) -> Option<Job> {
    let part = match word {
        "all" => None,
        _ => Some(Part::ALL.into_iter().find(|part| part.word() == word)?),
    };
    Some(Job {
        part,
        count: count.parse().ok()?,
        setting,
    })
}

fn setting_of(pages: &str, snapshots: &str) -> Option<Setting> {
    Some(Setting {
        pages: pages.parse().ok()?,
        snapshots: snapshots.parse().ok()?,
    })
}

// Each part in memory at a setting.
fn tell_all<R: AllocGlobal + Print + Wait>(rt: &R, setting: Setting) -> Option<()> {
    let job = Job {
        part: None,
        count: 100,
        setting,
    };
    tell_in_memory(rt, &job)
}

/// What the words ask for; nothing where they ask for nothing known, a call is refused, or memory runs out.
fn run<R: AllocGlobal + Files<File = File> + Print + Wait>(rt: &R, words: &[String]) -> Option<()> {
    match words {
        [] => {
            tell_all(rt, FEW)?;
            tell_all(rt, MANY)
        }
        [part, count] => tell_in_memory(rt, &job_of(part, count, FEW)?),
        [part, count, folder] => tell_in_folder(rt, &job_of(part, count, FEW)?, folder),
        [part, count, pages, snapshots] => {
            tell_in_memory(rt, &job_of(part, count, setting_of(pages, snapshots)?)?)
        }
        [part, count, pages, snapshots, folder] => tell_in_folder(
            rt,
            &job_of(part, count, setting_of(pages, snapshots)?)?,
            folder,
        ),
        _ => None,
    }
}

// The words behind the program's own name; none where they are not all text, or memory runs out.
fn words(rt: &(impl Env + AllocGlobal)) -> Vec<String> {
    if let Ok(words) = env::args(rt)
        && let Ok(words) = words.skip(1).collect(rt.alloc())
    {
        return words;
    }
    Vec::new(rt.alloc())
}

fn main(rt: HostRuntime) -> ExitCode {
    let words = words(&rt);
    match run(&rt, words.as_slice()) {
        Some(()) => ExitCode::SUCCESS,
        None => ExitCode::FAILURE,
    }
}
