//! The plan of a script: what its sessions ask for.

ghost use Rattle.std.specs.Prelude.{◌≡◌, ◌∷◌, [], IfOk};
ghost use Rattle.script.specs.Limits.{ScriptFits};
ghost use Rattle.script.specs.declared.structure.Item as item;
ghost use Rattle.script.specs.declared.structure.Single as single;
ghost use Rattle.session.specs.Plan.{AreSessions, AreTasks, IsPlan, IsTask, PlanFits, names_of};

use retro_base::Refusal;
use rql_arguments::{Call, call_of};
use script::{Item, Phase, Script, Session, SessionName, Single, Transaction};
use sql_text::{AsOf, RqlCall};
use sql_tree::Select;
use std::alloc::{AllocError, Global};
use values::{Duplicate, Seq};

/// What an item asks for.
#[derive(Debug, Drop)]
pub enum Task {
    /// Statements, and their end.
    Transaction(Transaction),
    /// A query as of a snapshot.
    AsOf(AsOf),
    /// A query of the table of snapshots.
    SnapIds(Select),
    /// A call over many snapshots, its arguments read.
    Call(Call),
    /// To drop the snapshots below a number.
    DropBelow(u64),
    /// A query of a result table.
    Results(Select),
    /// Nothing: the line, or an argument of its call, is refused at this byte.
    Syntax { place: u32 },
}

/// A session: its name, and the tasks of its items in order.
#[derive(Debug, Drop)]
pub struct SessionPlan {
    pub name: SessionName,
    pub tasks: Seq<Task>,
}

/// The phases in order, and the sessions of each.
pub type Plan = Seq<Seq<SessionPlan>>;

// What a call asks for, whose arguments have their opening quotes at these places.
fn called(alloc: Global, call: RqlCall, places: Seq<u32>) -> Result<Task, AllocError>
    ensures { IfOk result (λ task. IsTask (Item.Single (Single.Call call places)) task) }
{
    match call_of(alloc, &call, places.as_slice()) {
        Ok(said) => Ok(Task::Call(said)),
        Err(Refusal::Syntax { place }) => Ok(Task::Syntax { place }),
        Err(_) => Err(AllocError),
    }
}

fn single_task(alloc: Global, single: Single) -> Result<Task, AllocError>
    ensures { IfOk result (λ task. IsTask (Item.Single single) task) }
{
    match single {
        Single::AsOf(query) => Ok(Task::AsOf(query)),
        Single::DropBelow(below) => Ok(Task::DropBelow(below)),
        Single::SnapIds(query) => Ok(Task::SnapIds(query)),
        Single::Call { call, places } => called(alloc, call, places),
        Single::Results(query) => Ok(Task::Results(query)),
        Single::Syntax { place } => Ok(Task::Syntax { place }),
    }
}

fn task_of(alloc: Global, item: Item) -> Result<Task, AllocError>
    ensures { IfOk result (λ task. IsTask item task) }
{
    match item {
        Item::Transaction(transaction) => Ok(Task::Transaction(transaction)),
        Item::Single(single) => single_task(alloc, single),
    }
}

fn tasks_of(alloc: Global, items: Seq<Item>) -> Result<Seq<Task>, AllocError>
    ensures { IfOk result (λ tasks. AreTasks items tasks) }
{
    let mut tasks = Seq::new(alloc);
    for item in Vec::from(items) {
        tasks.push(task_of(alloc, item)?)?;
    }
    Ok(tasks)
}

fn sessions_of(alloc: Global, sessions: Seq<Session>) -> Result<Seq<SessionPlan>, AllocError>
    ensures { IfOk result (λ plans. AreSessions sessions plans) }
{
    let mut plans = Seq::new(alloc);
    for session in Vec::from(sessions) {
        let tasks = tasks_of(alloc, session.items)?;
        let name = session.name;
        plans.push(SessionPlan { name, tasks })?;
    }
    Ok(plans)
}

/// What a script asks for.
pub fn plan_of(alloc: Global, script: Script) -> Result<Plan, AllocError>
    requires { ScriptFits script }
    ensures plan { IfOk result (λ plan. IsPlan script plan) }
    ensures fits { IfOk result (λ plan. PlanFits plan) }
{
    let mut plan = Seq::new(alloc);
    for phase in Vec::from(script.phases) {
        plan.push(sessions_of(alloc, phase.sessions)?)?;
    }
    Ok(plan)
}

/// The names of the sessions of a phase, in order.
pub fn names_of(alloc: Global, sessions: &[SessionPlan]) -> Result<Seq<SessionName>, AllocError>
    ensures { IfOk result (λ names. names ≡ names_of sessions.now) }
{
    let mut names = Seq::new(alloc);
    for session in sessions {
        let bytes = Seq::from(Vec::from_slice(alloc, session.name.bytes())?);
        names.push(SessionName::new(bytes))?;
    }
    Ok(names)
}
