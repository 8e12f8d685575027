//! Records that are read, encoded and read again.

ghost use Rattle.std.specs.Prelude.{IfOk};
ghost use Rattle.history.specs.declared.log.Version.TheVariants.{One};
ghost use Rattle.history.specs.Right.{IsBase};
ghost use Rattle.records.specs.Entries.{BaseFits};

use crate::bodies::{CAPACITY, PAGES, base_of, commit, made};
use gate_log::Framed;
use history::{Base, RunningBase, Version, is_base};
use records::{Entry, decode, encode, read_log};
use retro_base::Refusal;
use std::alloc::Global;

/// The right base that has this body.
pub fn right_base(alloc: Global, body: &[u8]) -> Result<Base, Refusal>
    ensures right { IfOk result IsBase }
    ensures fits { IfOk result (BaseFits One) }
{
    let Ok(Entry::Base(base)) = decode(alloc, Version::One, body) else {
        return Err(Refusal::BadSizes);
    };
    if !is_base(&base) {
        return Err(Refusal::BadSizes);
    }
    Ok(base)
}

fn is_framed(framed: &Framed, body: &[u8]) -> bool {
    let bytes = framed.as_bytes();
    framed.len() == body.len() as u64 && bytes.get(4..bytes.len().saturating_sub(1)) == Some(body)
}

// The base of this body, encoded behind a copy out of its running form.
fn encoded_base(alloc: Global, body: &[u8]) -> Result<Framed, Refusal> {
    let running = RunningBase::new(alloc, right_base(alloc, body)?)?;
    let base = running.to_base(alloc)?;
    encode(alloc, Version::One, &Entry::Base(base))
}

/// Whether a base of so many snapshots and captured pages has the same bytes again, and is read of them.
#[inline(never)]
pub fn base_comes_back(alloc: Global, count: u32) -> Result<bool, Refusal> {
    let body = base_of(alloc, count, count)?;
    let same = is_framed(&encoded_base(alloc, &body)?, &body);
    match read_log(alloc, Version::One, &vec![in alloc; body]?) {
        Ok(log) => Ok(same && log.base.marks.len() == log.base.captured.len()),
        Err(_) => Err(Refusal::BadSizes),
    }
}

fn encoded_change(alloc: Global, body: &[u8]) -> Result<Framed, Refusal> {
    match decode(alloc, Version::One, body) {
        Ok(Entry::Change(change)) => encode(alloc, Version::One, &Entry::Change(change)),
        _ => Err(Refusal::BadSizes),
    }
}

/// Whether a commit of so many pages has the same bytes again, and is read of them.
#[inline(never)]
pub fn commit_comes_back(alloc: Global, pages: u32) -> Result<bool, Refusal> {
    let body = commit(alloc, 0, pages)?;
    let same = is_framed(&encoded_change(alloc, &body)?, &body);
    let mut bodies = vec![in alloc; made(alloc, PAGES, CAPACITY)?]?;
    bodies.push(body)?;
    match read_log(alloc, Version::One, &bodies) {
        Ok(log) => Ok(same && log.changes.len() == 1),
        Err(_) => Err(Refusal::BadSizes),
    }
}
