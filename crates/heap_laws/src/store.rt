//! A store in memory.

ghost use Rattle.std.specs.Prelude.{◌≤◌, ◌∷◌, [], IfOk};
ghost use Rattle.pager.specs.MemPages.{shown};
ghost use Rattle.heap_laws.specs.Store.{WellFormed};
ghost use Rattle.heap_laws.specs.Table.{IsTable};

use heap_file::make;
use pager::{MemPager, Stop};
use retro_base::{Failed, Page};
use std::alloc::Global;

/// A store of so many pages, never written but for one table, and the table's first page. The table has no row. Refused
/// where the store has no page for it, or memory runs out.
pub fn with_table(alloc: Global, size: u32) -> Result<(MemPager, u32), Stop<Failed>>
    requires { 2 ≤ size }
    ensures table { IfOk result
        (λ store. IsTable size (shown store.0) store.1 (record { next_number = 0; rows = [] })) }
    ensures well { IfOk result (λ store. WellFormed size (shown store.0) (store.1 ∷ []) []) }
{
    let pages = vec![in alloc; Page::zero(); size as usize]?;
    let mut pager = MemPager::new(alloc, pages, Vec::new(alloc));
    let first = make(alloc, &mut pager)?;
    Ok((pager, first))
}
