//! The lists of steps, and what is looked at behind each.

use crate::desk::Fate;
use crate::images::{filled, fills_of, logs_of, maplogs_of, opens};
use crate::machine::Machine;
use crate::machine::Step::{
    self, Cut, Enter, Lay, Look, Make, Open, Receive, Settle, Stop, Take, Trim, Unlook, Write,
};
use crate::world::Change::{Both, Drop, Mark, One, Two};
use crate::world::at;
use retro_base::Page;
use std::alloc::{AllocError, Global};
use std::fmt;

// The steps that are tried at each machine.
const STEPS: [&[Step]; 5] = [
    &[Make(One), Make(Two), Make(Both), Make(Mark), Make(Drop)],
    &[Take(1), Take(2), Receive(0), Receive(1)],
    &[Write(2), Write(3), Settle, Stop, Cut],
    &[Lay(0), Lay(1), Enter(0), Enter(1), Trim],
    &[Look(1), Look(64), Unlook, Open],
];

// A longer list, with an opening in it.
const LIFE: [&[Step]; 9] = [
    &[Make(Mark), Look(1), Make(Two), Make(One)],
    &[Take(2), Lay(0), Enter(0), Receive(0)],
    &[Write(2), Write(3), Settle, Cut],
    &[Make(Both), Make(Two), Unlook, Make(Mark), Make(Drop)],
    &[Take(1), Lay(0), Enter(0), Stop, Open],
    &[Look(1), Take(1), Lay(0), Enter(0), Receive(0)],
    &[Make(Two), Take(2), Lay(0), Enter(0), Receive(0)],
    &[Make(Mark), Write(3), Write(2), Settle],
    &[Unlook, Make(Drop), Cut, Trim],
];

// Sixty-three captures sent at once, of which no snapshot needs any.
const FULL: [&[Step]; 2] = [
    &[Take(63), Lay(0), Enter(0), Receive(0), Write(2), Settle],
    &[Cut, Make(Drop), Trim, Look(1)],
];

// Behind them two more, in the last slot and in the first.
const WRAPPED: [&[Step]; 2] = [
    &[Make(Two), Take(2), Lay(0), Enter(0), Receive(0)],
    &[Write(2), Write(3), Settle, Cut, Make(Both), Stop, Open],
];

/// How many machines were seen, images opened and reads compared so far; the steps that led to the machine at hand;
/// and what is wrong there.
#[derive(Drop)]
pub struct Search {
    pub states: u64,
    pub images: u64,
    pub reads: u64,
    pub path: Vec<(Step, Fate)>,
    pub wrong: Option<&'static str>,
}

impl fmt::Display for Search {
    fn fmt<W: fmt::Write>(&self, f: &mut fmt::Formatter<W>) -> Result<(), fmt::Error> {
        match self.wrong {
            None => write!(f, "wrong 0"),
            Some(what) => write!(f, "wrong: {what} behind {:?}", self.path),
        }
    }
}

impl Search {
    pub fn new(alloc: Global) -> Search {
        Search {
            states: 0,
            images: 0,
            reads: 0,
            path: Vec::new(alloc),
            wrong: None,
        }
    }

    // Opens each image with these slots.
    fn open(&mut self, alloc: Global, machine: &Machine, slots: &[Page]) -> Result<(), AllocError> {
        let desk = &machine.desk;
        let pages = fills_of(alloc, desk.pages, desk.loose, &desk.past.pages)?;
        let maplogs = maplogs_of(alloc, &machine.vault)?;
        for log in &logs_of(alloc, desk)? {
            for pages in &pages {
                for maplog in &maplogs {
                    self.images = self.images.saturating_add(1);
                    if !opens(alloc, log, pages, maplog, slots)? {
                        self.wrong = Some("an image");
                    }
                }
            }
        }
        Ok(())
    }

    // Compares what readers find with the pages as of the snapshots that are pinned.
    fn read(&mut self, machine: &Machine) {
        for told in &machine.told {
            if machine.pins.contains(&told.snapshot) {
                self.reads = self.reads.saturating_add(1);
                let snapshot = machine.desk.history.snapshot(told.snapshot);
                if machine.vault.found(told) != at(&snapshot.pages, told.page) {
                    self.wrong = Some("a read");
                }
            }
        }
    }

    fn look(&mut self, alloc: Global, machine: &Machine) -> Result<(), AllocError> {
        self.states = self.states.saturating_add(1);
        self.read(machine);
        let vault = &machine.vault;
        for slots in &fills_of(alloc, vault.slots, vault.loose, &[])? {
            self.open(alloc, machine, &filled(alloc, slots)?)?;
        }
        Ok(())
    }

    // Makes each list of at most so many steps.
    fn visit(&mut self, alloc: Global, machine: &Machine, depth: u32) -> Result<(), AllocError> {
        self.look(alloc, machine)?;
        for step in STEPS.iter().copied().flatten() {
            for fate in step.fates() {
                if depth > 0
                    && self.wrong.is_none()
                    && let Some(next) = machine.after(alloc, *step, *fate)?
                {
                    self.path.push((*step, *fate))?;
                    self.visit(alloc, &next, depth - 1)?;
                    if self.wrong.is_none() {
                        self.path.pop();
                    }
                }
            }
        }
        Ok(())
    }

    // Makes these steps, and behind each of them each list of at most so many.
    fn follow(
        &mut self,
        alloc: Global,
        mut machine: Machine,
        steps: &[&[Step]],
        depth: u32,
    ) -> Result<Machine, AllocError> {
        for step in steps.iter().copied().flatten() {
            if self.wrong.is_none() {
                self.path.push((*step, Fate::Done))?;
                match machine.after(alloc, *step, Fate::Done)? {
                    Some(next) => machine = next,
                    None => self.wrong = Some("a step"),
                }
                self.visit(alloc, &machine, depth)?;
            }
        }
        Ok(machine)
    }

    /// Makes each list of steps from a store that was just made: a planted one where it is hasty.
    pub fn from_the_first(
        &mut self,
        alloc: Global,
        hasty: bool,
        depth: u32,
    ) -> Result<(), AllocError> {
        let machine = Machine::made(alloc, hasty)?;
        self.visit(alloc, &machine, depth)
    }

    /// Makes each list of steps from each machine of a longer list.
    pub fn along_a_life(&mut self, alloc: Global) -> Result<(), AllocError> {
        let machine = Machine::made(alloc, false)?;
        self.follow(alloc, machine, &LIFE, 3)?;
        if self.wrong.is_none() {
            self.path.clear();
        }
        Ok(())
    }

    /// Makes each list of steps where the captures come to the last slot and go on in the first.
    pub fn round_the_ring(&mut self, alloc: Global) -> Result<(), AllocError> {
        let machine = Machine::made(alloc, false)?;
        let full = self.follow(alloc, machine, &[&[Make(Both); 64]], 0)?;
        let full = self.follow(alloc, full, &FULL, 0)?;
        self.follow(alloc, full, &WRAPPED, 2)?;
        Ok(())
    }
}
