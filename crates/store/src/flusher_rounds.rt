//! The worker that writes back.

ghost use Rattle.std.specs.Prelude.{◌≡◌, ◌++◌, [], None, IfErr};
ghost use Rattle.store.specs.Rounds.{WritesRound};
ghost use Rattle.store.specs.Seats.{IsReady, IsWhole};
ghost use Rattle.store.specs.Seen.{view_of};
ghost use Rattle.turn.specs.Seats.{IsSame, mine};
ghost use Rattle.turn.specs.Tables.{table_of};
ghost use Rattle.store.specs.WorkerRounds.{EndsWith, IsRoundRefusal, MayWork, WorkerGives, lines_left, worker};

use crate::pace::{Done, Ended, Worker, ends_behind};
use crate::shared::{Seat, Store};
use disk_model::Disk;
use retro_base::{Refusal, Who};
use std::sync::Wait;

/// Makes write rounds, under item 0 of the seat in this phase, until one that began when it was told finds no page
/// that may be written back, or 1,000,000 in a row do, or one is refused. Each refusal is that of its last round: for
/// want of memory; after the first fault of a write; and where a call of the desk's devices failed, whose line is then
/// the one that the seat leaves.
pub fn flusher<'d, R: Wait, D: Disk + Drop>(
    store: &Store<D>,
    rt: &R,
    seat: &mut Seat<D>,
    phase: u16,
    done: &'d Done,
) -> Result<Ended<'d>, Refusal>
    requires ready { IsReady (table_of store.now.turn) seat.old × IsWhole seat.old }
    requires may { MayWork seat.old }
    ensures ready { IsReady (table_of store.now.turn) seat.new × IsWhole seat.new }
    ensures same { IsSame seat.old seat.new }
    ensures rounds { EndsWith (WritesRound D.is_honest D.state D.faults (table_of store.now.turn) D.remembers D.clock
        (worker phase seat.old.number)) done.now.flag.id result seat.old seat.new }
    ensures cause { IfErr result IsRoundRefusal }
    ensures lines { (mine seat.new).lines
        ≡ (mine seat.old).lines ++ lines_left (worker phase seat.old.number) result }
    ensures idle { (mine seat.new).work ≡ None }
    ensures again { lines_left (worker phase seat.old.number) result ≡ [] → MayWork seat.new }
    ensures gives { WorkerGives (worker phase seat.old.number) (view_of D.state D.faults None [] seat.old)
        (view_of D.state D.faults None [] seat.new) result }
{
    let who = Who {
        phase,
        session: seat.number(),
        item: 0,
    };
    let mut idle = 0;
    'rounds: for _ in rt.forever() {
        let told = done.told();
        match store.write_round(rt, seat, who) {
            Ok(more) => {
                if let Some(ended) = ends_behind(&mut idle, more, told) {
                    return Ok(ended);
                }
                done.rest(rt, Worker::Flusher);
            }
            Err(why) => return Err(why),
        }
    }
    unreachable!()
}
