//! No snapshot at which to ask.

ghost use Rattle.std.specs.Prelude.{◌≡◌};

use pager::Stop;
use retro_base::Refusal;
use rql::AsOf;
use sql_select::Answer;
use sql_tree::Select;

/// What answers queries as of no snapshot at all.
#[derive(Drop)]
pub struct NoSnapshot;

impl AsOf for NoSnapshot {
    ghost use Rattle.std.specs.Prelude.{true};

    type Fault = Refusal;

    ghost may_ask = { λ _ _. true };

    ghost told = { λ _ _. Unit {0} };

    ghost goes = { λ _ _. Unit {0} };

    ghost faults = { λ _. 0 };

    fn answer(&mut self, _snapshot: u32, _query: &Select) -> Result<Answer, Stop<Refusal>> {
        Err(Stop::Refused(Refusal::OutOfMemory))
    }

    fn faults(&self) -> u64 {
        0
    }

    ghost stays = { λ _. tt };

    ghost goes_on = { λ _ _ _ _ _. tt };
}
