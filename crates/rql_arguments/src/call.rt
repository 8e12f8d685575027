//! The reading of a call's arguments.

ghost use Rattle.std.specs.Prelude.{◌≡◌, IfOk, IfErr};
ghost use Rattle.rql_arguments.specs.Calls.{IsCall, IsCombination, IsRefused, place_at};
ghost use Rattle.rql_arguments.specs.Reading.{Finds};

use crate::pairs::pairs_in;
use crate::query::{query_of, snapshot_query_of};
use crate::word::{function_named, is_result_word};
use retro_base::Refusal;
use rql::{Function, Pair};
use sql_text::{Mechanism, RqlCall};
use sql_tree::Select;
use std::alloc::{AllocError, Global};
use values::{Duplicate, Name, Seq};

/// How the answers of a call are combined.
#[derive(Debug, Drop)]
pub enum Combination {
    /// One after the other.
    Collate,
    /// Their one values in one.
    InVariable(Function),
    /// Their rows in groups.
    InTable(Seq<Pair>),
    /// The intervals in which their rows stand.
    Intervals,
}

/// A call whose arguments are in their forms.
#[derive(Debug, Drop)]
pub struct Call {
    /// The select that lists the snapshots.
    pub snapshots: Select,
    /// The select that is asked at each of them.
    pub query: Select,
    /// The name of the result table.
    pub table: Name,
    pub combination: Combination,
}

/// What a call says whose arguments have their opening quotes at these places of its line. Refused for want of memory,
/// or as bad syntax at the place of the first argument that is outside its form.
pub fn call_of(alloc: Global, call: &RqlCall, places: &[u32]) -> Result<Call, Refusal>
    ensures found { IfOk result (IsCall call.now) }
    ensures only { IfOk result (λ said. (other : Call) → IsCall call.now other → other ≡ said) }
    ensures refused { IfErr result (IsRefused call.now places.now) }
{
    let snapshots = match snapshot_query_of(alloc, call.snapshots.as_slice())? {
        Some(query) => query,
        None => return Err(outside(places, 0)),
    };
    let query = match query_of(alloc, call.query.as_slice())? {
        Some(query) => query,
        None => return Err(outside(places, 1)),
    };
    if !is_result_word(call.table.as_slice()) {
        return Err(outside(places, 2));
    }
    let table = Name::new(call.table.copy(alloc)?);
    match combination_of(alloc, &call.mechanism)? {
        Some(combination) => Ok(Call {
            snapshots,
            query,
            table,
            combination,
        }),
        None => Err(outside(places, 3)),
    }
}

// The refusal of the argument that has this index.
fn outside(places: &[u32], argument: usize) -> Refusal
    ensures { result ≡ Refusal.Syntax (place_at places.now argument) }
{
    let place = match places.get(argument) {
        Some(place) => *place,
        None => 0,
    };
    Refusal::Syntax { place }
}

fn combination_of(alloc: Global, mechanism: &Mechanism) -> Result<Option<Combination>, AllocError>
    ensures { IfOk result (Finds (IsCombination mechanism.now)) }
{
    match mechanism {
        Mechanism::CollateData => Ok(Some(Combination::Collate)),
        Mechanism::AggregateDataInVariable { function } => {
            match function_named(function.as_slice()) {
                Some(function) => Ok(Some(Combination::InVariable(function))),
                None => Ok(None),
            }
        }
        Mechanism::AggregateDataInTable { pairs } => match pairs_in(alloc, pairs.as_slice())? {
            Some(pairs) => Ok(Some(Combination::InTable(pairs))),
            None => Ok(None),
        },
        Mechanism::CollateDataIntoIntervals => Ok(Some(Combination::Intervals)),
    }
}
