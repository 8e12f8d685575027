//! What no clause says: a plan and a transcript written out by hand, and that calls succeed.

use history::{FailedCall, Label, Line, What, Writes};
use retro_base::{Device, Refusal, Who};
use script::read;
use session::{Kept, Plan, Task, plan_of, print};
use std::alloc::{AllocError, Global};
use std::test::Fail;
use values::Seq;

/// The plan of a script.
fn planned(alloc: Global, script: &[u8]) -> Result<Plan, Refusal> {
    let script = read(alloc, script)?;
    Ok(plan_of(alloc, script)?)
}

fn show_task(text: &mut String, task: &Task) -> Result<(), AllocError> {
    match task {
        Task::Transaction(_) => text.push_str(" transaction"),
        Task::AsOf(_) => text.push_str(" query"),
        Task::SnapIds(_) => text.push_str(" snapshots"),
        Task::Call(_) => text.push_str(" call"),
        Task::DropBelow(below) => write!(text, " drop{below}"),
        Task::Results(_) => text.push_str(" results"),
        Task::Syntax { place } => write!(text, " syntax{place}"),
    }
}

/// A plan in short: a stroke before each phase, and a point before each session.
fn show(text: &mut String, plan: &Plan) -> Result<(), AllocError> {
    for sessions in plan.as_slice() {
        text.push('/')?;
        for session in sessions.as_slice() {
            text.push('.')?;
            for task in session.tasks.as_slice() {
                show_task(text, task)?;
            }
        }
    }
    Ok(())
}

const SCRIPT: &[u8] =
    b"SESSION a\nINSERT INTO t VALUES (1)\nCOMMIT\nSELECT AS OF 3 * FROM t\nSELECT * FROM SnapIds\nSESSION b\n\
      CollateData('SELECT snap_id FROM SnapIds','SELECT v FROM t','rql_c')\nSELECT * FROM rql_c\n\
      CollateData('SELECT snap_id FROM SnapIds','SELECT v FROM t','c')\nPHASE\nSESSION c\nDROP SNAPSHOTS BELOW 2\n";

#[test]
fn a_script_is_planned(rt: HostRuntime) -> Result<(), Fail> {
    let mut text = String::new(rt.alloc());
    if let Ok(plan) = planned(rt.alloc(), SCRIPT) {
        show(&mut text, &plan)?;
    }
    assert_eq!(rt;
        text.as_str(),
        "/. transaction query snapshots. call results syntax60/. drop2"
    );
    Ok(())
}

fn who(phase: u16, session: u16, item: u32) -> Who {
    Who {
        phase,
        session,
        item,
    }
}

fn says(journal: &mut Seq<Line>, who: Who, what: What) -> Result<(), AllocError> {
    journal.push(Line { who, what })?;
    Ok(())
}

/// The lines of a run: an item that committed, one that was cut short, a drop, and a fault of the copier.
fn lines(alloc: Global) -> Result<Seq<Line>, AllocError> {
    let mut journal = Seq::new(alloc);
    let label = Some(Label::new(Vec::new(alloc)));
    let writes = Writes::new(Vec::new(alloc));
    let device = Device::Maplog;
    says(&mut journal, who(1, 0, 1), What::Began)?;
    says(&mut journal, who(1, 0, 1), What::Done { label, writes })?;
    says(&mut journal, who(1, 0, 2), What::Looked { snapshot: 3 })?;
    says(&mut journal, who(1, 0, 2), What::Unlooked)?;
    says(&mut journal, who(2, 0, 1), What::Dropped { below: 2 })?;
    says(
        &mut journal,
        who(2, 16, 0),
        What::Fault {
            device,
            count: 7,
            call: FailedCall::Write,
        },
    )?;
    Ok(journal)
}

fn told(alloc: Global, text: &[u8]) -> Result<Kept, AllocError> {
    Ok(Kept::Told(Seq::from(Vec::from_slice(alloc, text)?)))
}

/// What is kept of the run: in the second session of the first phase an item is cut short, and behind it none is run.
fn kept(alloc: Global) -> Result<Seq<Seq<Seq<Kept>>>, AllocError> {
    let mut a = Seq::new(alloc);
    a.push(told(alloc, b"ok 1\ncommitted as 6\n")?)?;
    a.push(told(alloc, b"rows 0\n")?)?;
    a.push(told(alloc, b"rows 1\n6,\n")?)?;
    let mut b = Seq::new(alloc);
    b.push(Kept::CutShort)?;
    b.push(Kept::NotRun)?;
    b.push(Kept::NotRun)?;
    let mut c = Seq::new(alloc);
    c.push(told(alloc, b"dropped below 2\n")?)?;
    let mut first = Seq::new(alloc);
    first.push(a)?;
    first.push(b)?;
    let mut second = Seq::new(alloc);
    second.push(c)?;
    let mut phases = Seq::new(alloc);
    phases.push(first)?;
    phases.push(second)?;
    Ok(phases)
}

fn printed(alloc: Global) -> Result<Vec<u8>, Refusal> {
    let plan = planned(alloc, SCRIPT)?;
    let kept = kept(alloc)?;
    let journal = lines(alloc)?;
    Ok(print(alloc, &plan, kept.as_slice(), 5, journal.as_slice())?)
}

const TRANSCRIPT: &[u8] =
    b"phase 1\nsession a\nitem 1\nok 1\ncommitted as 6\nitem 2\nrows 0\nitem 3\nrows 1\n6,\nsession b\nitem 1\n\
      refused 1 OutOfMemory\nitem 2\nnot run\nitem 3\nnot run\nphase 2\nsession c\nitem 1\ndropped below 2\njournal\n\
      1 a 1 done as 6\n1 a 2 looked 3\n1 a 2 unlooked\n2 c 1 dropped below 2\n2 copier 0 fault maplog 7\n";

#[test]
fn a_run_is_printed(rt: HostRuntime) -> Result<(), Fail> {
    let same = match printed(rt.alloc()) {
        Ok(text) => text.as_slice() == TRANSCRIPT,
        Err(_) => false,
    };
    assert!(rt; same);
    Ok(())
}
