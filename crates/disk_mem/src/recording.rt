//! The bytes of a device in memory, and what made them so.

ghost use Rattle.std.specs.Prelude.{◌≡◌, ◌+◌, ◌-◌, ◌^◌, ◌<◌, ◌≤◌, [], length, OnOk, OnErr, IfOk};
ghost use Rattle.std.specs.VecDeque.{deque_capacity, deque_len};
ghost use Rattle.disk_mem.specs.declared.recording.Event.TheVariants.{Wrote, Lost};
ghost use Rattle.disk_mem.specs.Disks.{settled, stepped};
ghost use Rattle.disk_mem.specs.History.{Filled, owed, state_of, synced, TakenFrom};
ghost use Rattle.disk_model.specs.Disk.{written};

use crate::crash::{fill_loose, take_loose};
use std::alloc::{AllocError, Global};
use std::collections::VecDeque;
use std::marker::Model;
use values::Seq;

/// A call that changed a device, or what a crash may leave of it.
#[derive(Drop)]
pub enum Event {
    /// These bytes were written from that place on.
    Wrote { place: u64, bytes: Seq<u8> },
    /// A write of that many bytes from that place on failed.
    Lost { place: u64, count: u64 },
    /// A sync succeeded.
    Synced,
}

/// Contracts see the past, and for how many more lost writes it has room.
#[derive(Drop)]
pub struct Recording {
    alloc: Global,
    first: Vec<u8>,
    bytes: Vec<u8>,
    // The newest first.
    steps: VecDeque<Event>,
    room: usize,
}

impl Model for Recording {
    ghost use Rattle.std.specs.Prelude.{◌+◌, ◌*◌, ◌≤◌};
    ghost use Rattle.std.specs.VecDeque.{deque_capacity, deque_len};
    ghost use Rattle.disk_mem.specs.History.{owed, Recorded, RoomyPast};

    ghost Value = { RoomyPast };

    ghost view = { λ r. record { past = record { first = r.first.items; steps = r.steps.items }; room = r.room } };

    ghost invariant = { λ r. Recorded r.first.items r.steps.items r.bytes.items
        × (deque_len r.steps + owed r.steps.items + 2 * r.room ≤ deque_capacity r.steps) };
}

impl Recording {
    /// Begins with these bytes, and takes room for that many lost writes, each with a sync behind it.
    pub fn new(alloc: Global, bytes: Vec<u8>, room: usize) -> Result<Recording, AllocError>
        requires { room < 2 ^ 63 }
        ensures { IfOk result (λ r. r ≡ record { past = record { first = bytes.items; steps = [] }; room = room }) }
    {
        Ok(Recording {
            alloc,
            first: bytes.to_vec(alloc)?,
            bytes,
            steps: VecDeque::with_capacity(alloc, 2 * room)?,
            room,
        })
    }

    /// The bytes as they are now.
    pub fn bytes(&self) -> &[u8]
        ensures { result.now ≡ (state_of self.now.past).seen }
    {
        &self.bytes
    }

    /// The bytes that a crash leaves where each loose one is `fill`.
    pub fn crash(&self, alloc: Global, fill: u8) -> Result<Vec<u8>, AllocError>
        ensures { IfOk result (λ bytes. Filled fill (state_of self.now.past) bytes.items) }
    {
        let mut bytes = self.bytes.to_vec(alloc)?;
        fill_loose(&mut bytes, &self.steps, fill);
        Ok(bytes)
    }

    /// The bytes that a crash leaves where each loose one is taken from `left`.
    pub fn crash_as(&self, alloc: Global, left: &[u8]) -> Result<Vec<u8>, AllocError>
        requires { length left.now ≡ length (state_of self.now.past).seen }
        ensures { IfOk result (λ bytes. TakenFrom left.now (state_of self.now.past) bytes.items) }
    {
        let mut bytes = self.bytes.to_vec(alloc)?;
        take_loose(&mut bytes, &self.steps, left);
        Ok(bytes)
    }

    /// Writes these bytes from that place on, and takes room for the next sync.
    pub fn write(&mut self, place: u64, bytes: &[u8]) -> Result<(), AllocError>
        requires { place + length bytes.now ≤ length (state_of self.old.past).seen }
        ensures room { self.new.room ≡ self.old.room }
        ensures ok { OnOk result (self.new.past ≡ stepped self.old.past (Wrote place bytes.now)) }
        ensures err { OnErr result (self.new.past ≡ self.old.past) }
    {
        let copy = bytes.to_vec(self.alloc)?;
        self.steps.reserve(2 * self.room + 2)?;
        self.steps.push_front_reserved(Event::Wrote {
            place,
            bytes: Seq::from(copy),
        });
        overwrite(&mut self.bytes, place as usize, bytes);
        Ok(())
    }

    /// Loses a write of that many bytes from that place on. Its room was taken before.
    pub fn lose(&mut self, place: u64, count: u64)
        requires within { place + count ≤ length (state_of self.old.past).seen }
        requires room { 1 ≤ self.old.room }
        ensures past { self.new.past ≡ stepped self.old.past (Lost place count) }
        ensures room { self.new.room ≡ self.old.room - 1 }
    {
        self.steps.push_front_reserved(Event::Lost { place, count });
        self.room -= 1;
    }

    /// Makes all bytes durable. Its room was taken before.
    pub fn settle(&mut self)
        ensures past { self.new.past ≡ settled self.old.past }
        ensures room { self.new.room ≡ self.old.room }
    {
        add_sync(&mut self.steps);
    }
}

// Adds a sync, if a write stands behind the last.
fn add_sync(steps: &mut VecDeque<Event>)
    requires { deque_len steps.old + owed steps.old.items ≤ deque_capacity steps.old }
    ensures items { steps.new.items ≡ synced steps.old.items }
    ensures len { deque_len steps.new ≡ deque_len steps.old + owed steps.old.items }
    ensures capacity { deque_capacity steps.new ≡ deque_capacity steps.old }
{
    match steps.front() {
        None | Some(Event::Synced) => {}
        Some(_) => steps.push_front_reserved(Event::Synced),
    }
}

fn overwrite(bytes: &mut Vec<u8>, place: usize, with: &[u8])
    requires { place + length with.now ≤ length bytes.old.items }
    ensures { bytes.new.items ≡ written place with.now bytes.old.items }
{
    bytes[place..place + with.len()].copy_from_slice(with);
}
