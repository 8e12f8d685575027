//! What a script says: phases of sessions of items.

use crate::name::SessionName;
use sql_text::{AsOf, RqlCall};
use sql_tree::{Select, Statement};
use values::{Seq, Text};

/// What a statement line reads as.
#[derive(Debug, Drop)]
pub enum Reading<T> {
    Read(T),
    /// The grammar refuses the line, at this byte of it.
    Syntax { place: u32 },
}

/// How a transaction ends.
#[derive(Debug, Drop)]
pub enum End {
    /// `COMMIT`, or `COMMIT WITH SNAPSHOT` and the snapshot's label.
    Commit(Option<Text>),
    /// `ROLLBACK`.
    Rollback,
}

/// The statement lines of a transaction in order, and its end.
#[derive(Debug, Drop)]
pub struct Transaction {
    pub statements: Seq<Reading<Statement>>,
    pub end: End,
}

/// An item of one line.
#[derive(Debug, Drop)]
pub enum Single {
    /// A query as of a snapshot.
    AsOf(AsOf),
    /// `DROP SNAPSHOTS BELOW` and the number.
    DropBelow(u64),
    /// A query of the table of snapshots.
    SnapIds(Select),
    /// A call over many snapshots, with the places of its arguments' opening quotes in the line, from 0.
    Call { call: RqlCall, places: Seq<u32> },
    /// A query of a result table.
    Results(Select),
    /// The grammar refuses the line, at this byte of it.
    Syntax { place: u32 },
}

/// What a session does at once.
#[derive(Debug, Drop)]
pub enum Item {
    Transaction(Transaction),
    Single(Single),
}

/// A session: its name, and its items in order.
#[derive(Debug, Drop)]
pub struct Session {
    pub name: SessionName,
    pub items: Seq<Item>,
}

/// A phase: its sessions in order.
#[derive(Debug, Drop)]
pub struct Phase {
    pub sessions: Seq<Session>,
}

/// A script: its phases in order.
#[derive(Debug, Drop)]
pub struct Script {
    pub phases: Seq<Phase>,
}
