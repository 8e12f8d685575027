//! What a line of the language says.

use sql_tree::{Select, Statement};
use values::{Seq, Text};

/// A line, read.
#[derive(Debug, Drop)]
pub enum Parsed {
    /// A statement, at the state of now.
    Plain(Statement),
    AsOf(AsOf),
    /// The end of a transaction: with none, `COMMIT`; with a label, `COMMIT WITH SNAPSHOT`, where a label left out is
    /// the empty text.
    Commit(Option<Text>),
    /// `ROLLBACK`
    Rollback,
    /// `DROP SNAPSHOTS BELOW number`
    DropBelow(u64),
    /// A call over many snapshots.
    Rql(RqlCall),
}

/// A call over many snapshots, its arguments as bytes without their quotes, each doubled quote as one.
#[derive(Debug, Drop)]
pub struct RqlCall {
    /// The select that lists the snapshots.
    pub snapshots: Seq<u8>,
    /// The select that is asked at each of them.
    pub query: Seq<u8>,
    /// The name of the result table.
    pub table: Seq<u8>,
    pub mechanism: Mechanism,
}

/// How a call combines the answers, with its fourth argument where it has one.
#[derive(Debug, Drop)]
pub enum Mechanism {
    CollateData,
    AggregateDataInVariable { function: Seq<u8> },
    AggregateDataInTable { pairs: Seq<u8> },
    CollateDataIntoIntervals,
}

/// `SELECT AS OF snapshot ..`: a query at the state of a snapshot.
#[derive(Debug, Drop)]
pub struct AsOf {
    pub snapshot: u64,
    pub query: Select,
}
