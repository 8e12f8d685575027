//! The log, from the bodies of its records.

ghost use Rattle.std.specs.Prelude.{◌≡◌, ◌∷◌, ℕ, List, Err, IfOk, IfErr};
ghost use Rattle.records.specs.declared.decoding.DecodeError.TheVariants.{Malformed};
ghost use Rattle.history.specs.declared.entry.Base.{Base};
ghost use Rattle.history.specs.declared.entry.Change.{Change};
ghost use Rattle.records.specs.declared.entry.Entry.TheVariants as entries;
ghost use Rattle.history.specs.History.{base_after};
ghost use Rattle.history.specs.Right.{IsBase, IsRight};
ghost use Rattle.records.specs.Finds.{Finds};
ghost use Rattle.gate_log.specs.Bodies.{bodies_of, BreaksAs, Reads};
ghost use Rattle.records.specs.InTurn.{InTurn};
ghost use Rattle.records.specs.Log.{IsBaseBody, IsChangeBody, IsLog};
ghost use Rattle.history.specs.Right.{AreRight};

use crate::decoding::{DecodeError, decode};
use crate::entry::Entry;
use crate::unread::stopped_at;
use gate_log::Unread;
use history::{Base, Change, Log, RunningBase, Version, is_base};
use std::alloc::Global;
use values::{Duplicate, Seq};

fn right_base(base: Base) -> Result<Base, DecodeError>
    ensures { Finds (λ (found : Base). (found ≡ base) × IsBase found) result }
{
    if !is_base(&base) {
        return Err(DecodeError::Malformed);
    }
    Ok(base)
}

fn no_base(_change: Change) -> Result<Base, DecodeError>
    ensures { result ≡ Err Malformed }
{
    Err(DecodeError::Malformed)
}

// The right base that this entry is.
fn base_in(entry: Entry) -> Result<Base, DecodeError>
    ensures { Finds (λ (base : Base). (entry ≡ entries.Base base) × IsBase base) result }
{
    match entry {
        Entry::Base(base) => right_base(base),
        Entry::Change(change) => no_base(change),
    }
}

// The right base that has this body.
fn base_of(alloc: Global, version: Version, body: &[u8]) -> Result<Base, DecodeError>
    ensures { Finds (IsBaseBody version body.now) result }
{
    match decode(alloc, version, body) {
        Ok(entry) => base_in(entry),
        Err(error) => Err(error),
    }
}

fn right_change(place: &RunningBase, change: Change) -> Result<Change, DecodeError>
    ensures { Finds (λ (found : Change). (found ≡ change) × IsRight place.now found) result }
{
    if !place.is_right(&change) {
        return Err(DecodeError::Malformed);
    }
    Ok(change)
}

fn no_change(_base: Base) -> Result<Change, DecodeError>
    ensures { result ≡ Err Malformed }
{
    Err(DecodeError::Malformed)
}

// The change that this entry is, if it is right there.
fn change_in(place: &RunningBase, entry: Entry) -> Result<Change, DecodeError>
    ensures { Finds (λ (change : Change). (entry ≡ entries.Change change) × IsRight place.now change) result }
{
    match entry {
        Entry::Base(base) => no_change(base),
        Entry::Change(change) => right_change(place, change),
    }
}

// The change that has this body and is right there.
fn change_of(
    alloc: Global,
    version: Version,
    place: &RunningBase,
    body: &[u8],
) -> Result<Change, DecodeError>
    ensures { Finds (IsChangeBody version place.now body.now) result }
{
    match decode(alloc, version, body) {
        Ok(entry) => change_in(place, entry),
        Err(error) => Err(error),
    }
}

// The changes that have these bodies behind the body of the base, each right at its place.
fn changes_of(
    alloc: Global,
    version: Version,
    base: &Base,
    bodies: &[Vec<u8>],
) -> Result<Seq<Change>, Unread>
    requires { IsBase base.now }
    ensures found { IfOk result (InTurn (IsChangeBody version) base_after base.now (bodies_of bodies.now)) }
    ensures broken { IfErr result (λ e. (first : List ℕ) → IsBaseBody version first base.now →
        BreaksAs (IsLog version) (first ∷ bodies_of bodies.now) e) }
{
    let mut place = RunningBase::new(alloc, base.copy(alloc)?)?;
    let mut changes = Vec::new(alloc);
    for body in bodies {
        match change_of(alloc, version, &place, body) {
            Err(error) => return Err(stopped_at(error, changes.len() + 1)),
            Ok(change) => {
                place.apply(alloc, &change)?;
                changes.push(change)?;
            }
        }
    }
    Ok(Seq::from(changes))
}

/// The log of these bodies in records of that version: a right base, and changes that are right in turn. Refused for
/// want of memory, and where the list breaks: it is empty, or the body behind those that are told is no right record
/// there.
#[tactic(auto, using(crate::proofs::Logs::in_turn_right))]
pub fn read_log(alloc: Global, version: Version, bodies: &[Vec<u8>]) -> Result<Log, Unread>
    ensures reads { Reads (IsLog version) (bodies_of bodies.now) result }
    ensures base { IfOk result (λ log. IsBase log.base) }
    ensures right { IfOk result (λ log. AreRight log.base log.changes) }
{
    let [first, others @ ..] = bodies else {
        return Err(Unread::Broken { behind: 0 });
    };
    match base_of(alloc, version, first) {
        Ok(base) => match changes_of(alloc, version, &base, others) {
            Ok(changes) => Ok(Log {
                version,
                base,
                changes,
            }),
            Err(error) => Err(error),
        },
        Err(error) => Err(stopped_at(error, 0)),
    }
}
