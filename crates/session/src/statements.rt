//! The statement lines of a transaction, over a pager.

ghost use Rattle.std.specs.Prelude.{◌≡◌, ◌++◌, [], IfErr, OnOk};
ghost use Rattle.std.specs.List.{AllByRecursion};
ghost use Rattle.pager.specs.Pages.{Leads};
ghost use Rattle.script.specs.Limits.{StatementFits};
ghost use Rattle.sql_tree.specs.Statement.{IsStatement};
ghost use Rattle.sql_tree.specs.declared.statement.Statement.TheVariants as statement;
ghost use Rattle.script.specs.declared.structure.Reading.TheVariants as reading;
ghost use Rattle.session.specs.Wording.{outcome_text};
ghost use Rattle.session.specs.LinesRun.{IsStop, LineAdds, LineGives, LinesGive, ShowsOne, reply_or_end, reply_or_stop};

use crate::texts::write_reply;
use crate::wording::write_refusal;
use pager::{EditPager, Stop};
use retro_base::Refusal;
use script::Reading;
use sql_exec::run;
use sql_tree::Statement;
use std::alloc::{AllocError, Global};
use tables::Reply;

// Whether a refusal is a statement's reply, or ends the attempt.
fn reply_or_end(why: Refusal) -> Result<Refusal, Refusal>
    ensures { result ≡ reply_or_end why }
{
    match why {
        Refusal::OutOfMemory => Err(why),
        Refusal::NotAStore { .. } => Err(why),
        Refusal::PagesFull { .. } => Err(why),
        _ => Ok(why),
    }
}

// The same of what ended a statement.
fn reply_or_stop<F: Drop>(stop: Stop<F>) -> Result<Refusal, Refusal>
    ensures { result ≡ reply_or_stop stop }
{
    match stop {
        Stop::Refused(why) => reply_or_end(why),
        Stop::Pager(_) => Err(Refusal::OutOfMemory),
    }
}

// Does a statement; an Err ends the attempt.
fn do_statement<P>(
    alloc: Global,
    pager: &mut P,
    statement: &Statement,
) -> Result<Result<Reply, Refusal>, Refusal>
where
    P: EditPager,
    P::Fault: Drop,
    requires fits { IsStatement statement.now }
    ensures gives { ShowsOne P.tells → Leads (P.tells pager.old) (P.tells pager.new)
        (λ was now. LineGives (P.size pager.old) (reading.Read statement.now) was now result) }
    ensures stops { IfErr result IsStop }
    ensures goes { P.goes pager.old pager.new }
    ensures size { P.size pager.new ≡ P.size pager.old }
{
    match run(alloc, statement, pager, None) {
        Ok(reply) => Ok(Ok(reply)),
        Err(stop) => match reply_or_stop(stop) {
            Ok(why) => Ok(Err(why)),
            Err(why) => Err(why),
        },
    }
}

// Does a statement line; an Err ends the attempt.
fn do_line<P>(
    alloc: Global,
    pager: &mut P,
    line: &Reading<Statement>,
) -> Result<Result<Reply, Refusal>, Refusal>
where
    P: EditPager,
    P::Fault: Drop,
    requires fits { StatementFits line.now }
    ensures gives { ShowsOne P.tells → Leads (P.tells pager.old) (P.tells pager.new)
        (λ was now. LineGives (P.size pager.old) line.now was now result) }
    ensures stops { IfErr result IsStop }
    ensures goes { P.goes pager.old pager.new }
    ensures size { P.size pager.new ≡ P.size pager.old }
{
    match line {
        Reading::Read(statement) => do_statement(alloc, pager, statement),
        Reading::Syntax { place } => Ok(Err(Refusal::Syntax { place: *place })),
    }
}

// Appends what a statement line replies.
fn write_outcome(
    alloc: Global,
    outcome: Result<Reply, Refusal>,
    out: &mut Vec<u8>,
) -> Result<(), AllocError>
    ensures { OnOk result (out.new.items ≡ out.old.items ++ outcome_text outcome) }
{
    match outcome {
        Ok(reply) => write_reply(alloc, &reply, out),
        Err(why) => write_refusal(alloc, &[], why, out),
    }
}

// Does a statement line, and appends its reply; an Err ends the attempt.
fn add_line<P>(
    alloc: Global,
    pager: &mut P,
    line: &Reading<Statement>,
    text: &mut Vec<u8>,
) -> Result<(), Refusal>
where
    P: EditPager,
    P::Fault: Drop,
    requires fits { StatementFits line.now }
    ensures gives { ShowsOne P.tells → Leads (P.tells pager.old) (P.tells pager.new)
        (λ was now. LineAdds (P.size pager.old) line.now text.old.items text.new.items was now result) }
    ensures stops { IfErr result IsStop }
    ensures goes { P.goes pager.old pager.new }
    ensures size { P.size pager.new ≡ P.size pager.old }
{
    match do_line(alloc, pager, line) {
        Ok(outcome) => match write_outcome(alloc, outcome, text) {
            Ok(()) => Ok(()),
            Err(_) => Err(Refusal::OutOfMemory),
        },
        Err(why) => Err(why),
    }
}

/// Does the statement lines of a transaction, one after the other, and appends their replies. An Err ends the attempt.
pub fn do_lines<P>(
    alloc: Global,
    pager: &mut P,
    lines: &[Reading<Statement>],
    text: &mut Vec<u8>,
) -> Result<(), Refusal>
where
    P: EditPager,
    P::Fault: Drop,
    requires empty { text.old.items ≡ [] }
    requires fit { AllByRecursion StatementFits lines.now }
    ensures gives { ShowsOne P.tells → Leads (P.tells pager.old) (P.tells pager.new)
        (LinesGive (P.size pager.old) lines.now text.new.items result) }
    ensures stops { IfErr result IsStop }
    ensures goes { P.goes pager.old pager.new }
{
    for line in lines {
        match add_line(alloc, pager, line, text) {
            Ok(()) => (),
            Err(why) => return Err(why),
        }
    }
    Ok(())
}
