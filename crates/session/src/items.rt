//! What runs the items of a script, one at a time.

ghost use Rattle.std.specs.Prelude.{◌≡◌, ◌⊎◌, [], IfOk, None, Some};
ghost use Rattle.session.specs.Answered.{as_told, done_by};
ghost use Rattle.session.specs.Held.{held};
ghost use Rattle.session.specs.Replies.{answer_or_refusal, lineless};
ghost use Rattle.session.specs.Wording.{refusal_text};

use crate::beside::results_asked;
use crate::calling::call;
use crate::dropping::drop_below;
use crate::ending::Told;
use crate::gate::Gate;
use crate::item::{Done, RunItems};
use crate::listing::snap_ids;
use crate::looking::as_of;
use crate::plan::Task;
use crate::result_table::{ResultTable, ResultTables};
use crate::texts::write_answer;
use crate::transacting::transaction;
use crate::wording::write_refusal;
use fold_kit::Folds;
use journal_law::Seat;
use retro_base::{Refusal, Who};
use script::SessionName;
use sql_select::Answer;
use sql_tree::Select;
use std::alloc::{AllocError, Global};
use values::Seq;

/// Runs items: the gate is told of their points, and the folds combine numbers.
#[derive(Drop)]
pub struct Items<'a, G: Gate, F: Folds> {
    pub gate: &'a G,
    pub folds: &'a F,
}

// What became of an item of which this is told, with the result table that it leaves.
fn done_by(told: Told, table: Option<ResultTable>) -> Result<Done, AllocError>
    ensures { result ≡ done_by told table }
{
    match told {
        Ok(Some(text)) => Ok(Done::Told { text, table }),
        Ok(None) => Ok(Done::CutShort),
        Err(AllocError) => Err(AllocError),
    }
}

// The same as a list of bytes.
fn as_told(told: Result<Option<Vec<u8>>, AllocError>) -> Told
    ensures { result ≡ as_told (λ text. text.items) told }
{
    match told {
        Ok(Some(text)) => Ok(Some(Seq::from(text))),
        Ok(None) => Ok(None),
        Err(AllocError) => Err(AllocError),
    }
}

// The reply of a query that has this answer.
fn reply_of(alloc: Global, answered: Result<Answer, Refusal>) -> Told
    ensures { IfOk result (λ told. told ≡ Some (answer_or_refusal answered)) }
{
    let mut text = Vec::new(alloc);
    match answered {
        Ok(answer) => write_answer(alloc, &answer, &mut text)?,
        Err(why) => write_refusal(alloc, &[], why, &mut text)?,
    }
    Ok(Some(Seq::from(text)))
}

// The reply of a query of a result table.
fn reply_of_results(alloc: Global, query: &Select, results: &ResultTables) -> Told
    ensures { IfOk result (λ told. (told ≡ Some (refusal_text [] Refusal.OutOfMemory))
        ⊎ (told ≡ Some (lineless (held results.now) (Task.Results query.now)))) }
{
    let answered = results_asked(alloc, query, results);
    reply_of(alloc, answered)
}

// The reply of a line that is refused at this byte of it.
fn reply_of_syntax(alloc: Global, place: u32) -> Told
    ensures { IfOk result (λ told. told ≡ Some (refusal_text [] (Refusal.Syntax place))) }
{
    let mut text = Vec::new(alloc);
    write_refusal(alloc, &[], Refusal::Syntax { place }, &mut text)?;
    Ok(Some(Seq::from(text)))
}

impl<'a, G: Gate, F: Folds> RunItems for Items<'a, G, F> {
    fn run_item<S: Seat>(
        &self,
        alloc: Global,
        seat: S,
        who: Who,
        names: &[SessionName],
        task: &Task,
        results: &ResultTables,
    ) -> (S, Result<Done, AllocError>) {
        match task {
            Task::Transaction(asked) => {
                let (seat, told) = transaction(alloc, seat, self.gate, who, names, asked);
                (seat, done_by(as_told(told), None))
            }
            Task::AsOf(query) => {
                let (seat, told) = as_of(alloc, seat, self.gate, who, names, query);
                (seat, done_by(told, None))
            }
            Task::SnapIds(query) => {
                let (seat, told) = snap_ids(alloc, seat, self.gate, who, names, query);
                (seat, done_by(told, None))
            }
            Task::Call(said) => {
                let (seat, told, table) = call(
                    alloc, seat, self.gate, who, names, said, self.folds,
                );
                (seat, done_by(told, table))
            }
            Task::DropBelow(below) => {
                let (seat, told) = drop_below(alloc, seat, who, names, *below);
                (seat, done_by(told, None))
            }
            Task::Results(query) => (seat, done_by(reply_of_results(alloc, query, results), None)),
            Task::Syntax { place } => (seat, done_by(reply_of_syntax(alloc, *place), None)),
        }
    }
}
