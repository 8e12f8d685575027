//! Stores in memory, by name.

ghost use Rattle.std.specs.Prelude.{◌≡◌, ◌↔◌, ◌≤◌, ℕ, List, Some, None, IfNone, IfOk, IfSome, IsErr};
ghost use Rattle.std.specs.Prelude.{IsNone, IsTrue, OnErr, OnOk, Contains, length, position};
ghost use Rattle.mem_cabinet.specs.Shelves.{IsOut, blank, blank_store, has_name, none_out, shelf_of, store_of};
ghost use Rattle.disk_mem.specs.History.{state_of};
ghost use Rattle.disk_model.specs.Cabinet.{AreSized, Each, GoesOut, IsBlank, OneLessOut, Stands, TakesOut};
ghost use Rattle.disk_model.specs.Cause.{HasCause};
ghost use Rattle.retro_base.specs.Cause.{Rose, raised};

use disk_mem::MemDisk;
use disk_model::{Cabinet, Failed, Four, Sizes};
use retro_base::Refusal;
use std::alloc::{AllocError, Global};
use std::mem;

/// A name, and the store of that name unless it is out.
#[derive(Drop)]
pub struct Shelf {
    name: String,
    store: Option<Four<MemDisk>>,
}

// The place of the first shelf of that name.
fn place_of(shelves: &[Shelf], name: &str) -> Option<usize>
    ensures { result ≡ position (has_name name.now) shelves.now }
{
    shelves.iter().position(|shelf| shelf.name.as_str() == name)
}

// Puts a store, or none, on the first shelf of that name, which stands there, and gives what lay on it.
fn put(
    shelves: &mut [Shelf],
    place: usize,
    name: &str,
    store: Option<Four<MemDisk>>,
) -> Option<Four<MemDisk>>
    requires { position (has_name name.now) shelves.old ≡ Some place }
    ensures was { shelf_of shelves.old name.now ≡ Some result }
    ensures stands { Stands name.now (Some store) (shelf_of shelves.old) (shelf_of shelves.new) }
{
    mem::replace(&mut shelves[place].store, store)
}

// Whether the store of that name is out.
fn is_out(shelves: &[Shelf], name: &str) -> bool
    ensures { IsTrue result ↔ IsOut shelves.now name.now }
{
    match place_of(shelves, name) {
        Some(place) => shelves[place].store.is_none(),
        None => false,
    }
}

// Empties the shelf of that name, which is made if there is none.
#[tactic(auto, using(crate::proofs::Shelved::no_shelf))]
fn empty(alloc: Global, shelves: &mut Vec<Shelf>, name: &str) -> Result<(), AllocError>
    ensures ok { OnOk result (Stands name.now (Some None) (shelf_of shelves.old.items) (shelf_of shelves.new.items)) }
    ensures err { OnErr result (shelves.new.items ≡ shelves.old.items) }
{
    match place_of(shelves, name) {
        Some(place) => {
            drop(put(shelves, place, name, None));
            Ok(())
        }
        None => add(alloc, shelves, name),
    }
}

// Adds an empty shelf of that name.
#[tactic(auto, using(crate::proofs::Shelved::shelf_made))]
fn add(alloc: Global, shelves: &mut Vec<Shelf>, name: &str) -> Result<(), AllocError>
    requires { shelf_of shelves.old.items name.now ≡ None }
    ensures ok { OnOk result (Stands name.now (Some None) (shelf_of shelves.old.items) (shelf_of shelves.new.items)) }
    ensures err { OnErr result (shelves.new.items ≡ shelves.old.items) }
{
    let name = String::from_str(alloc, name)?;
    shelves.push(Shelf { name, store: None })?;
    Ok(())
}

// Takes the store of that name from its shelf; None where none stands there.
#[tactic(auto, using(crate::proofs::Shelved::no_shelf, crate::proofs::Shelved::was_out))]
fn take(shelves: &mut Vec<Shelf>, name: &str) -> Option<Four<MemDisk>>
    ensures was { result ≡ store_of shelves.old.items name.now }
    ensures some { IfSome result (λ _. Stands name.now (Some None) (shelf_of shelves.old.items)
        (shelf_of shelves.new.items)) }
    ensures none { IfNone result ((other : List ℕ) → shelf_of shelves.new.items other
        ≡ shelf_of shelves.old.items other) }
{
    let place = place_of(shelves, name)?;
    put(shelves, place, name, None)
}

// Puts a store that is out back on its shelf.
#[tactic(auto, using(crate::proofs::Shelved::no_shelf))]
fn put_back(shelves: &mut Vec<Shelf>, name: &str, store: Four<MemDisk>)
    requires { IsOut shelves.old.items name.now }
    ensures { Stands name.now (Some (Some store)) (shelf_of shelves.old.items) (shelf_of shelves.new.items) }
{
    let Some(place) = place_of(shelves, name) else {
        unreachable!()
    };
    drop(put(shelves, place, name, Some(store)));
}

// Four new devices of these sizes.
fn make(alloc: Global, sizes: Sizes) -> Result<Four<MemDisk>, Refusal>
    ensures { IfOk result (λ four. four ≡ blank_store sizes) }
{
    Ok(Four {
        log: blank(alloc, sizes.log_bytes())?,
        pages: blank(alloc, sizes.pages_bytes())?,
        pagelog: blank(alloc, sizes.pagelog_bytes())?,
        maplog: blank(alloc, sizes.maplog_bytes())?,
    })
}

// A device of which no call fails.
fn blank(alloc: Global, size: u64) -> Result<MemDisk, Refusal>
    ensures { IfOk result (λ disk. disk ≡ blank size) }
{
    MemDisk::new(alloc, size, Vec::new(alloc), None)
}

// Four new devices of these sizes, in the place of a store of that name, which is out then.
fn hand_out(
    alloc: Global,
    shelves: &mut Vec<Shelf>,
    name: &str,
    sizes: Sizes,
) -> Result<Four<MemDisk>, Refusal>
    ensures fresh { IfOk result (λ four. four ≡ blank_store sizes) }
    ensures ok { OnOk result (Stands name.now (Some None) (shelf_of shelves.old.items) (shelf_of shelves.new.items)) }
    ensures err { OnErr result (shelves.new.items ≡ shelves.old.items) }
{
    let four = make(alloc, sizes)?;
    match empty(alloc, shelves, name) {
        Ok(()) => Ok(four),
        Err(_) => Err(Refusal::OutOfMemory),
    }
}

/// Keeps stores in memory. The listed calls of `fetch` and `create` fail, numbered together from 1; apart from these
/// a call fails only where no store stands under its name, where the store is out, or for want of memory.
#[derive(Drop)]
pub struct MemCabinet {
    alloc: Global,
    shelves: Vec<Shelf>,
    failing: Vec<u64>,
    calls: u64,
    faults: u64,
}

impl MemCabinet {
    /// No stores.
    pub fn new(alloc: Global, failing: Vec<u64>) -> MemCabinet
        ensures faults { ⟦<MemCabinet as Cabinet>⟧.faults result ≡ 0 }
        ensures out { (name : List ℕ) → ⟦<MemCabinet as Cabinet>⟧.is_out result name → ⊥ }
        ensures none { (name : List ℕ) → ⟦<MemCabinet as Cabinet>⟧.store result name ≡ None }
    {
        MemCabinet {
            alloc,
            shelves: Vec::new(alloc),
            failing,
            calls: 0,
            faults: 0,
        }
    }

    // Counts a call of fetch or create; true where it is listed.
    fn is_listed(&mut self) -> bool
        ensures listed { IsTrue result ↔ Contains self.old.failing.items (raised self.old.calls) }
        ensures counted { self.new.calls ≡ raised self.old.calls }
        ensures faults { self.new.faults ≡ self.old.faults }
        ensures shelves { self.new.shelves ≡ self.old.shelves }
    {
        self.calls = self.calls.saturating_add(1);
        self.failing.contains(&self.calls)
    }

    // Four new devices in the place of a store of that name, which is out then; none where the call is listed, where
    // the store is out already, or where memory ran out.
    #[tactic(none)]
    fn made(&mut self, dir: &str, sizes: Sizes) -> Option<Four<MemDisk>>
        ensures fresh { IfSome result (λ four. four ≡ blank_store sizes) }
        ensures some { IfSome result (λ _. Stands dir.now (Some None) (shelf_of self.old.shelves.items)
            (shelf_of self.new.shelves.items)) }
        ensures none { IfNone result ((other : List ℕ) → shelf_of self.new.shelves.items other
            ≡ shelf_of self.old.shelves.items other) }
        ensures once { IsOut self.old.shelves.items dir.now → IsNone result }
        ensures listed { Contains self.old.failing.items (raised self.old.calls) → IsNone result }
        ensures faults { self.new.faults ≡ self.old.faults }
    {
        if self.is_listed() {
            return None;
        }
        if is_out(&self.shelves, dir) {
            return None;
        }
        match hand_out(self.alloc, &mut self.shelves, dir, sizes) {
            Ok(four) => Some(four),
            Err(_) => None,
        }
    }

    // Counts a failed call.
    fn fault(&mut self) -> Failed
        ensures later { self.old.faults ≤ self.new.faults }
        ensures rose { Rose self.old.faults self.new.faults }
        ensures shelves { self.new.shelves ≡ self.old.shelves }
    {
        self.faults = self.faults.saturating_add(1);
        Failed
    }
}

impl Cabinet for MemCabinet {
    type Device = MemDisk;

    ghost faults = { λ cabinet. cabinet.faults };

    ghost is_out = { λ cabinet. IsOut cabinet.shelves.items };

    ghost tells = { λ _. Unit {0} };

    ghost store = { λ cabinet. store_of cabinet.shelves.items };

    ghost none_out = { λ cabinet name _ out. none_out cabinet.shelves.items name out };

    fn faults(&self) -> u64 {
        self.faults
    }

    #[tactic(auto, using(crate::proofs::Shelved::goes_ok, crate::proofs::Shelved::takes_ok, crate::proofs::Shelved::goes_err, crate::proofs::Shelved::takes_err))]
    fn fetch(&mut self, dir: &str) -> Result<Four<MemDisk>, Failed>
        ensures cause { HasCause self.old.faults self.new.faults result }
        ensures out { GoesOut dir.now (IsOut self.old.shelves.items) (IsOut self.new.shelves.items) result }
        ensures none { store_of self.old.shelves.items dir.now ≡ None → IsErr result }
        ensures found { IfOk result (λ four. store_of self.old.shelves.items dir.now ≡ Some four) }
        ensures stands { TakesOut dir.now (store_of self.old.shelves.items) (store_of self.new.shelves.items) result }
        ensures listed { Contains self.old.failing.items (raised self.old.calls) → IsErr result }
    {
        if self.is_listed() {
            return Err(self.fault());
        }
        match take(&mut self.shelves, dir) {
            Some(four) => Ok(four),
            None => Err(self.fault()),
        }
    }

    fn create(&mut self, dir: &str, sizes: Sizes) -> Result<Four<MemDisk>, Failed>
        ensures cause { HasCause self.old.faults self.new.faults result }
        ensures out { GoesOut dir.now (IsOut self.old.shelves.items) (IsOut self.new.shelves.items) result }
        ensures once { IsOut self.old.shelves.items dir.now → IsErr result }
        ensures sized { IfOk result (λ four. AreSized (λ disk. length (state_of disk.past).seen) sizes four) }
        ensures blank { IfOk result (λ four. Each (IsBlank (λ disk. length (state_of disk.past).seen) (λ _. Unit {0})
            (λ disk. state_of disk.past)) four) }
        ensures stands { TakesOut dir.now (store_of self.old.shelves.items) (store_of self.new.shelves.items) result }
        ensures listed { Contains self.old.failing.items (raised self.old.calls) → IsErr result }
    {
        match self.made(dir, sizes) {
            Some(four) => Ok(four),
            None => Err(self.fault()),
        }
    }

    #[tactic(auto, using(crate::proofs::Shelved::came_back, crate::proofs::Shelved::stands_so))]
    fn put_back(&mut self, dir: &str, four: Four<MemDisk>)
        requires { IsOut self.old.shelves.items dir.now }
        ensures faults { self.new.faults ≡ self.old.faults }
        ensures out { OneLessOut dir.now (IsOut self.old.shelves.items) (IsOut self.new.shelves.items) }
        ensures stands { Stands dir.now (Some four) (store_of self.old.shelves.items)
            (store_of self.new.shelves.items) }
    {
        put_back(&mut self.shelves, dir, four);
    }
}
