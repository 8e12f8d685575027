//! What becomes of the rows of a table.

ghost use Rattle.std.specs.Prelude.{◌≡◌, ◌∷◌, ◌++◌, ◌+◌, ◌-◌, ◌^◌, ◌<◌, ◌≤◌, [], drop, length, take, OnOk};
ghost use Rattle.tables.specs.Fates.{counts, rewritten};

use crate::contents::NumberedRow;
use std::alloc::{AllocError, Global};
use values::{Row, Seq};

/// What becomes of a row.
#[derive(Debug, Drop)]
pub(crate) enum Fate {
    Stays,
    Goes,
    /// It gets these values, and keeps its number.
    Becomes(Row),
}

impl Fate {
    // One where the row is counted: it goes, or becomes another.
    fn count(&self) -> u64
        ensures { result ≡ counts self.now }
    {
        match self {
            Fate::Stays => 0,
            Fate::Goes => 1,
            Fate::Becomes(_) => 1,
        }
    }
}

/// What becomes of each row of a table, and how many rows are counted.
#[derive(Debug, Drop)]
pub(crate) struct Fates {
    pub each: Seq<Fate>,
    pub count: u64,
}

impl Fates {
    pub(crate) fn new(alloc: Global) -> Fates
        ensures { result ≡ record { each = []; count = 0 } }
    {
        Fates {
            each: Seq::new(alloc),
            count: 0,
        }
    }

    /// Adds what becomes of the next row.
    pub(crate) fn push(&mut self, fate: Fate) -> Result<(), AllocError>
        requires { self.old.count < 2 ^ 64 - 1 }
        ensures { OnOk result
            (self.new ≡ record { each = self.old.each ++ fate ∷ []; count = self.old.count + counts fate }) }
    {
        let count = fate.count();
        self.each.push(fate)?;
        self.count += count;
        Ok(())
    }
}

/// Does to each row what becomes of it; takes no memory.
pub(crate) fn rewrite(rows: &mut Vec<NumberedRow>, fates: Seq<Fate>)
    requires { length fates ≡ length rows.old.items }
    ensures { rows.new.items ≡ rewritten fates rows.old.items }
{
    let mut kept = 0;
    let mut place = 0;
    for fate in Vec::from(fates) {
        kept = settle(rows, kept, place, fate);
        place += 1;
    }
    rows.truncate(kept);
}

// Does to the row at a place what becomes of it, behind so many that were kept; gives how many are kept then.
fn settle(rows: &mut Vec<NumberedRow>, kept: usize, place: usize, fate: Fate) -> usize
    requires order { kept ≤ place }
    requires within { place < length rows.old.items }
    ensures front { take result rows.new.items ≡
        take kept rows.old.items ++ rewritten (fate ∷ []) (take 1 (drop place rows.old.items)) }
    ensures back { drop (place + 1) rows.new.items ≡ drop (place + 1) rows.old.items }
    ensures kept { result ≤ place + 1 }
    ensures long { length rows.new.items ≡ length rows.old.items }
{
    match fate {
        Fate::Goes => kept,
        Fate::Stays => {
            rows.swap(kept, place);
            kept + 1
        }
        Fate::Becomes(values) => {
            rows[place].row = values;
            rows.swap(kept, place);
            kept + 1
        }
    }
}
