//! A script as far as it was read.

ghost use Rattle.std.specs.Prelude.{◌≡◌, ◌==◌, ◌⊎◌, ◌∷◌, [], IfOk, IfErr, length};
ghost use Rattle.std.specs.List.{list_any};
ghost use Rattle.std.specs.Str.{bytes_eq};
ghost use Rattle.script.specs.Script.{end_step, finished, has_name, is_closed, new_session};
ghost use Rattle.script.specs.Script.{open_step, opened, phase_step, phases_of, session_step};
ghost use Rattle.script.specs.Script.{sessions_of, single_step, statement_step, step};

use crate::line::Line;
use crate::name::SessionName;
use crate::structure::{End, Item, Phase, Reading, Script, Session, Single, Transaction};
use retro_base::{ITEMS, PHASES, Refusal, SESSIONS};
use sql_tree::Statement;
use std::alloc::{AllocError, Global};
use std::mem;
use values::Seq;

/// A session whose lines are being read.
#[derive(Drop)]
pub struct OpenSession {
    /// The sessions of the phase that stand before it.
    pub before: Seq<Session>,
    pub name: SessionName,
    pub items: Seq<Item>,
    /// Those of the open transaction; none where no transaction is open.
    pub statements: Seq<Reading<Statement>>,
}

/// A phase whose lines are being read.
#[derive(Drop)]
pub struct OpenPhase {
    /// The phases that stand before it.
    pub phases: Seq<Phase>,
    /// The items of the script that were opened.
    pub items: usize,
    /// The session that is open, if one is.
    pub session: Option<OpenSession>,
}

/// A script as far as it was read.
#[derive(Drop)]
pub enum ScriptSoFar {
    /// No line that counts was read.
    Empty,
    Open(OpenPhase),
}

impl OpenSession {
    fn new(alloc: Global, before: Seq<Session>, name: SessionName) -> OpenSession
        ensures { result ≡ new_session before name }
    {
        OpenSession {
            before,
            name,
            items: Seq::new(alloc),
            statements: Seq::new(alloc),
        }
    }

    fn is_closed(&self) -> bool
        ensures { result ≡ (length self.now.statements == 0) }
    {
        self.statements.is_empty()
    }

    // The number of items opened behind a line that opens one unless a transaction is open, where this many were
    // before; none where that is one too many.
    fn opened(&self, items: usize) -> Option<usize>
        ensures { result ≡ opened items self.now }
    {
        if !self.is_closed() {
            return Some(items);
        }
        if items >= ITEMS {
            return None;
        }
        Some(items + 1)
    }
}

// The sessions of a phase, the open one the last.
fn sessions_of(alloc: Global, session: Option<OpenSession>) -> Result<Seq<Session>, AllocError>
    ensures { IfOk result (λ sessions. sessions ≡ sessions_of session) }
{
    match session {
        None => Ok(Seq::new(alloc)),
        Some(session) => {
            let OpenSession {
                before: mut sessions,
                name,
                items,
                statements: _,
            } = session;
            sessions.push(Session { name, items })?;
            Ok(sessions)
        }
    }
}

fn has_name(sessions: &[Session], name: &[u8]) -> bool
    ensures { result ≡ has_name name.now sessions.now }
{
    sessions.iter().any(|session| session.name.bytes() == name)
}

impl OpenPhase {
    fn new(alloc: Global, session: Option<OpenSession>) -> OpenPhase
        ensures { result ≡ record { phases = []; items = 0; session = session } }
    {
        OpenPhase {
            phases: Seq::new(alloc),
            items: 0,
            session,
        }
    }

    fn is_closed(&self) -> bool
        ensures { result ≡ is_closed self.now.session }
    {
        match &self.session {
            None => true,
            Some(session) => session.is_closed(),
        }
    }

    // All phases, this one the last.
    fn into_phases(self, alloc: Global) -> Result<Seq<Phase>, AllocError>
        ensures { IfOk result (λ phases. phases ≡ phases_of self) }
    {
        let OpenPhase {
            mut phases,
            items: _,
            session,
        } = self;
        let sessions = sessions_of(alloc, session)?;
        phases.push(Phase { sessions })?;
        Ok(phases)
    }

    // Behind a PHASE line.
    fn next_phase(self, alloc: Global) -> Result<Option<OpenPhase>, AllocError>
        ensures { IfOk result (λ next. next ≡ phase_step self) }
    {
        if !self.is_closed() || self.phases.len() + 1 >= PHASES {
            return Ok(None);
        }
        let items = self.items;
        Ok(Some(OpenPhase {
            phases: self.into_phases(alloc)?,
            items,
            session: None,
        }))
    }

    // Behind a SESSION line.
    fn next_session(self, alloc: Global, name: SessionName) -> Result<Option<OpenPhase>, AllocError>
        ensures { IfOk result (λ next. next ≡ session_step name self) }
    {
        if !self.is_closed() {
            return Ok(None);
        }
        let OpenPhase {
            phases,
            items,
            session,
        } = self;
        let before = sessions_of(alloc, session)?;
        if before.len() >= SESSIONS || has_name(before.as_slice(), name.bytes()) {
            return Ok(None);
        }
        Ok(Some(OpenPhase {
            phases,
            items,
            session: Some(OpenSession::new(alloc, before, name)),
        }))
    }

    fn statement(self, reading: Reading<Statement>) -> Result<Option<OpenPhase>, AllocError>
        ensures { IfOk result (λ next. next ≡ statement_step self reading self.session) }
    {
        let OpenPhase {
            phases,
            items,
            session,
        } = self;
        let Some(mut session) = session else {
            return Ok(None);
        };
        let Some(items) = session.opened(items) else {
            return Ok(None);
        };
        session.statements.push(reading)?;
        Ok(Some(OpenPhase {
            phases,
            items,
            session: Some(session),
        }))
    }

    fn end(self, alloc: Global, end: End) -> Result<Option<OpenPhase>, AllocError>
        ensures { IfOk result (λ next. next ≡ end_step self end self.session) }
    {
        let OpenPhase {
            phases,
            items,
            session,
        } = self;
        let Some(mut session) = session else {
            return Ok(None);
        };
        let Some(items) = session.opened(items) else {
            return Ok(None);
        };
        let statements = mem::replace(&mut session.statements, Seq::new(alloc));
        session
            .items
            .push(Item::Transaction(Transaction { statements, end }))?;
        Ok(Some(OpenPhase {
            phases,
            items,
            session: Some(session),
        }))
    }

    fn single(self, single: Single) -> Result<Option<OpenPhase>, AllocError>
        ensures { IfOk result (λ next. next ≡ single_step self single self.session) }
    {
        let OpenPhase {
            phases,
            items,
            session,
        } = self;
        let Some(mut session) = session else {
            return Ok(None);
        };
        if !session.is_closed() || items >= ITEMS {
            return Ok(None);
        }
        session.items.push(Item::Single(single))?;
        Ok(Some(OpenPhase {
            phases,
            items: items + 1,
            session: Some(session),
        }))
    }

    // Behind one line more, if the line may stand there.
    fn step(self, alloc: Global, line: Line) -> Result<Option<OpenPhase>, AllocError>
        ensures { IfOk result (λ next. next ≡ open_step self line) }
    {
        match line {
            Line::Skipped => Ok(Some(self)),
            Line::Phase => self.next_phase(alloc),
            Line::Session(name) => self.next_session(alloc, name),
            Line::Statement(reading) => self.statement(reading),
            Line::Ends(end) => self.end(alloc, end),
            Line::Single(single) => self.single(single),
            Line::Bad => Ok(None),
        }
    }
}

impl ScriptSoFar {
    /// What was read and one line more, if the line may stand there.
    pub fn step(self, alloc: Global, line: Line) -> Result<Option<ScriptSoFar>, AllocError>
        ensures { IfOk result (λ next. next ≡ step self line) }
    {
        match self {
            ScriptSoFar::Empty => Ok(first_step(alloc, line)),
            ScriptSoFar::Open(phase) => {
                let next = phase.step(alloc, line)?;
                Ok(next.map(|phase| ScriptSoFar::Open(phase)))
            }
        }
    }

    /// The script, where the lines end before the line of this number. Refused where a transaction is open, or for
    /// want of memory.
    pub fn finish(self, alloc: Global, number: u64) -> Result<Script, Refusal>
        ensures good { IfOk result (λ script. finished number self ≡ Ok script) }
        ensures bad { IfErr result (λ e. (e ≡ Refusal.OutOfMemory) ⊎
            ((e ≡ Refusal.BadScript number) × (finished number self ≡ Err number))) }
    {
        match self {
            ScriptSoFar::Empty => Ok(Script {
                phases: Seq::new(alloc),
            }),
            ScriptSoFar::Open(phase) => {
                if !phase.is_closed() {
                    return Err(Refusal::BadScript { line: number });
                }
                Ok(Script {
                    phases: phase.into_phases(alloc)?,
                })
            }
        }
    }
}

fn first_step(alloc: Global, line: Line) -> Option<ScriptSoFar>
    ensures { result ≡ step ScriptSoFar.Empty line }
{
    match line {
        Line::Skipped => Some(ScriptSoFar::Empty),
        Line::Phase => Some(ScriptSoFar::Open(OpenPhase::new(alloc, None))),
        Line::Session(name) => {
            let session = OpenSession::new(alloc, Seq::new(alloc), name);
            Some(ScriptSoFar::Open(OpenPhase::new(alloc, Some(session))))
        }
        _ => None,
    }
}
