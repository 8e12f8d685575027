//! Entries that go on one leaf, one after the other.

ghost use Rattle.std.specs.Prelude.{◌≡◌, ◌<◌, ◌^◌, IfOk, MatchBool, length};
ghost use Rattle.std.specs.Option.{option_copied};
ghost use Rattle.index_page.specs.IndexPage.{AreWritable};
ghost use Rattle.tree_index.specs.Filling.{Fills, Follows, IsBound, first_above, lower};

use crate::walk::Met;
use index_page::{ENTRY_BYTES, Form, copy_of, insert, is_below, width};
use pager::Found;
use std::alloc::{AllocError, Global};
use std::slice;
use values::Seq;

/// What a leaf holds once some entries are added, how many they are, and how many belong there one after the other: so
/// many, or one more, which may have no room.
#[derive(Debug, Drop)]
pub struct Filled {
    pub held: Seq<Found>,
    pub count: usize,
    pub run: usize,
}

// The first key that is above an entry.
fn first_above<'a>(keys: &'a [Found], entry: &Found) -> Option<&'a Found>
    ensures { option_copied result ≡ first_above entry.now keys.now }
{
    keys.iter().find(|key| is_below(entry, key))
}

// Of two bounds the lower one.
fn lower<'a>(a: Option<&'a Found>, b: Option<&'a Found>) -> Option<&'a Found>
    ensures { option_copied result ≡ lower (option_copied a.entry) (option_copied b.entry) }
{
    match (a, b) {
        (Some(a), Some(b)) => Some(if is_below(b, a) { b } else { a }),
        (Some(a), None) => Some(a),
        (None, b) => b,
    }
}

// A bound above an entry: each that is not below the entry, and below the bound, goes its way.
fn bound_of<'a>(way: &'a [Met], entry: &Found) -> Option<&'a Found>
    ensures { IsBound entry.now way.now (option_copied result) }
{
    let mut bound = None;
    for met in way {
        if met.held.form == Form::Inner {
            bound = lower(bound, first_above(met.held.entries.as_slice(), entry));
        }
    }
    bound
}

// Whether an entry is of the kind of the first, and lies between it and the bound.
fn follows(first: &Found, bound: Option<&Found>, entry: &Found) -> bool
    ensures { MatchBool result (Follows first.now (option_copied bound.entry) entry.now)
        (Follows first.now (option_copied bound.entry) entry.now → ⊥) }
{
    if entry.value.kind() != first.value.kind() || is_below(entry, first) {
        return false;
    }
    match bound {
        Some(bound) => is_below(entry, bound),
        None => true,
    }
}

/// Adds the first of some entries to those of the leaf in which the first one belongs: those that go the same way and
/// surely have room. The way is that of the first one, above the leaf.
pub fn fill(
    alloc: Global,
    held: Seq<Found>,
    way: &[Met],
    entries: &[Found],
) -> Result<Filled, AllocError>
    requires held { AreWritable held }
    requires some { 0 < length entries.now }
    ensures { IfOk result (Fills held way.now entries.now) }
{
    let first = &entries[0];
    let bound = bound_of(way, first);
    let mut held = held;
    let mut used = width(held.as_slice());
    let mut count = 0;
    'entries: for entry in entries {
        if !follows(first, bound, entry) {
            let run = count;
            return Ok(Filled { held, count, run });
        }
        used += width(slice::from_ref(entry));
        if used > ENTRY_BYTES {
            let run = count + 1;
            return Ok(Filled { held, count, run });
        }
        held = insert(held, copy_of(alloc, entry)?)?;
        count += 1;
    }
    let run = count;
    Ok(Filled { held, count, run })
}
