//! What a store was opened with.

use archive::Archive;
use disk_model::Disk;
use std::snapshot::Snapshot;
use store_core::Core;
use turn::locked::Opening;

/// The core and the archive as they were when the store was opened, and how many seats it has; known to contracts
/// alone.
#[derive(Drop)]
pub struct Start<D: Disk> {
    pub core: Snapshot<Core<D>>,
    pub archive: Snapshot<Archive<D>>,
    pub seats: Snapshot<u32>,
}

impl<D: Disk> Opening for Start<D> {
    ghost use Rattle.store.specs.Start.{of_start, sound_front};

    ghost meaning = { of_start D.faults };

    ghost fronts = { λ start lines more lawful. sound_front start.core.value.desk.base lines more lawful };
}
