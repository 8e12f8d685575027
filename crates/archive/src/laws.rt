//! What follows from the definitions.

ghost use Rattle.archive.specs.Laws.{ImagesHaveSlots, TableIsShown, TableStays};

use disk_model::Disk;

/// A reader's table may be kept over calls of an archive.
pub fn tables_are_kept()
    // It stays one of first mappings while those that it covers stay.
    ensures stays { TableStays }
    // It is one of the vault's first mappings exactly where it is one of those in memory.
    ensures shown { TableIsShown }
{}

/// Each image of the Pagelog's device has slots that the vault may have.
pub fn images_have_slots<D: Disk>()
    ensures { ImagesHaveSlots D.state }
{}
