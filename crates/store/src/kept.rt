//! The page table that a seat keeps while it looks.

ghost use Rattle.std.specs.Prelude.{◌≡◌, ◌≢◌, IfNone, IfSome};
ghost use Rattle.store.specs.Past.{IsTableOf};

use crate::shared::Seat;
use disk_model::Disk;
use page_table::SnapTable;
use std::marker::Model;
use std::snapshot::Snapshot;

/// The page table of a snapshot, as it is behind what a seat has seen.
#[derive(Drop)]
pub(crate) struct KeptTable<D: Disk + Drop> {
    snapshot: u32,
    table: SnapTable,
    seat: Snapshot<Seat<D>>,
}

impl<D: Disk + Drop> Model for KeptTable<D> {
    ghost use Rattle.store.specs.Kept.{Tabled};
    ghost use Rattle.store.specs.Past.{IsTableOf};

    ghost Value = { Tabled D };

    ghost view = { λ k. record { snapshot = k.snapshot; table = k.table; seat = k.seat.value } };

    ghost invariant = { λ k. IsTableOf D.is_honest D.state k.seat.value k.snapshot k.table };
}

impl<D: Disk + Drop> KeptTable<D> {
    /// Keeps the table of a snapshot behind what a seat has seen.
    pub(crate) fn new(seat: &Seat<D>, snapshot: u32, table: SnapTable) -> KeptTable<D>
        requires { IsTableOf D.is_honest D.state seat.now snapshot table }
        ensures { result ≡ record { snapshot = snapshot; table = table; seat = seat.now } }
    {
        KeptTable {
            snapshot,
            table,
            seat: Snapshot::of(seat),
        }
    }

    /// The table where it is of this snapshot.
    pub(crate) fn of(self, snapshot: u32) -> Option<SnapTable>
        ensures some { IfSome result (λ table. (self.snapshot ≡ snapshot) × (table ≡ self.table)) }
        ensures none { IfNone result (self.snapshot ≢ snapshot) }
        ensures table { IfSome result (IsTableOf D.is_honest D.state self.seat snapshot) }
    {
        let KeptTable {
            snapshot: other,
            table,
            seat: _,
        } = self;
        if other == snapshot {
            return Some(table);
        }
        None
    }
}
