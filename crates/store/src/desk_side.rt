//! The core as the desk's lock keeps it.

use crate::start::Start;
use disk_model::Disk;
use journal_book::Work;
use store_core::Core;
use turn::locked::DeskValue;

/// The core, with what the store was opened with.
#[derive(Drop)]
pub struct DeskSide<D: Disk> {
    pub core: Core<D>,
    pub start: Start<D>,
}

impl<D: Disk + Drop> DeskValue for DeskSide<D> {
    type Opening = Start<D>;

    type Work = Work;

    ghost use Rattle.store.specs.Sides.{of_desk};

    ghost meaning = { of_desk D.is_honest D.state D.faults };

    fn horizon(&self) -> (u32, u32) {
        self.core.horizon()
    }
}
