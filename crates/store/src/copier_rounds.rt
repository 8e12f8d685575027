//! The worker that copies.

ghost use Rattle.std.specs.Prelude.{◌≡◌, ◌++◌, [], None, IfErr, OnOk};
ghost use Rattle.store.specs.Seats.{IsReady, IsWhole};
ghost use Rattle.store.specs.Seen.{view_of};
ghost use Rattle.turn.specs.Seats.{IsSame, mine, seen};
ghost use Rattle.turn.specs.Tables.{table_of};
ghost use Rattle.store.specs.WorkerRounds.{Copies, EndsWith, IsHeld, IsRoundRefusal, MayWork, WorkerGives};
ghost use Rattle.store.specs.WorkerRounds.{lines_left, worker};

use crate::pace::{Done, Ended, Worker, ends_behind};
use crate::shared::{Seat, Store};
use disk_model::Disk;
use race_model::Batch;
use retro_base::{Refusal, Who};
use std::sync::Wait;

/// Makes copy rounds, under item 0 of the seat in this phase, until one that began when it was told finds nothing
/// to copy, or 1,000,000 in a row do, or one is refused. On Ok the vault holds all that stood captured in the journal
/// that the seat then has seen. Each refusal is that of its last round: for want of memory; after the first fault of a
/// write; and where a call of the vault's devices failed, whose line is then the one that the seat leaves. The batch
/// is room to work in.
pub fn copier<'d, R: Wait, D: Disk + Drop>(
    store: &Store<D>,
    rt: &R,
    seat: &mut Seat<D>,
    phase: u16,
    batch: &mut Batch,
    done: &'d Done,
) -> Result<Ended<'d>, Refusal>
    requires ready { IsReady (table_of store.now.turn) seat.old × IsWhole seat.old }
    requires may { MayWork seat.old }
    ensures ready { IsReady (table_of store.now.turn) seat.new × IsWhole seat.new }
    ensures same { IsSame seat.old seat.new }
    ensures rounds { EndsWith (Copies D.is_honest D.state D.faults (table_of store.now.turn) D.remembers D.clock
        (worker phase seat.old.number)) done.now.flag.id result (batch.old, seat.old) (batch.new, seat.new) }
    ensures cause { IfErr result IsRoundRefusal }
    ensures lines { (mine seat.new).lines
        ≡ (mine seat.old).lines ++ lines_left (worker phase seat.old.number) result }
    ensures idle { (mine seat.new).work ≡ None }
    ensures again { lines_left (worker phase seat.old.number) result ≡ [] → MayWork seat.new }
    ensures gives { WorkerGives (worker phase seat.old.number) (view_of D.state D.faults None [] seat.old)
        (view_of D.state D.faults None [] seat.new) result }
    ensures held { OnOk result (IsHeld seat.new (seen seat.old)) }
    ensures all_held { OnOk result (IsHeld seat.new (seen seat.new)) }
{
    let who = Who {
        phase,
        session: seat.number(),
        item: 0,
    };
    let mut idle = 0;
    'rounds: for _ in rt.forever() {
        let told = done.told();
        match store.copy_round(rt, seat, who, batch) {
            Ok(more) => {
                if let Some(ended) = ends_behind(&mut idle, more, told) {
                    return Ok(ended);
                }
                done.rest(rt, Worker::Copier);
            }
            Err(why) => return Err(why),
        }
    }
    unreachable!()
}
