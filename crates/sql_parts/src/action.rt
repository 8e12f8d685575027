//! What a sentence puts out.

use sql_tree::{Comparison, Direction, Operator};
use values::{Kind, Name, Seq, Text};

/// What a sentence puts out beside the contents of its tokens: the parts before it, the last first, are put together.
#[derive(Clone, Copy)]
pub enum Action {
    Term(TermAction),
    Step(StepAction),
    Table(TableAction),
    Row(RowAction),
    Update(UpdateAction),
    Output(OutputAction),
    List(ListAction),
    Query(QueryAction),
    Line(LineAction),
}

/// Literals, columns and operands.
#[derive(Clone, Copy)]
pub enum TermAction {
    Integer,
    /// The number behind a minus.
    Negative,
    Text,
    PlainColumn,
    QualifiedColumn,
    LiteralOperand,
    ColumnOperand,
    CurrentSnapshot,
}

/// Steps of expressions and conditions, and the ends of these.
#[derive(Clone, Copy)]
pub enum StepAction {
    /// An operand as an expression.
    Leaf,
    Apply(Operator),
    Compare(Comparison),
    Not,
    And,
    Or,
    Expression,
    Condition,
    NoCondition,
}

/// CREATE TABLE and CREATE INDEX.
#[derive(Clone, Copy)]
pub enum TableAction {
    Column(Kind),
    /// The table with its first column.
    CreateTable,
    NextColumn,
    Finish,
    CreateIndex,
}

/// INSERT.
#[derive(Clone, Copy)]
pub enum RowAction {
    FirstValue,
    NextValue,
    /// The insert with its first tuple.
    Insert,
    NextTuple,
    Finish,
}

/// UPDATE and DELETE.
#[derive(Clone, Copy)]
pub enum UpdateAction {
    Assign,
    /// The update with its first assignment.
    Update,
    NextAssignment,
    Finish,
    Delete,
}

/// The outputs of a select.
#[derive(Clone, Copy)]
pub enum OutputAction {
    Value,
    CountRows,
    Count,
    Sum,
    Min,
    Max,
    Named,
    Unnamed,
}

/// The list of a select, and its first table.
#[derive(Clone, Copy)]
pub enum ListAction {
    All,
    First,
    Next,
    From,
}

/// The other parts of a select.
#[derive(Clone, Copy)]
pub enum QueryAction {
    Distinct,
    Second,
    Filter,
    GroupBy,
    OrderBy(Direction),
    Limit,
    Finish,
    AsOf,
}

/// Lines that are no statements.
#[derive(Clone, Copy)]
pub enum LineAction {
    Commit,
    CommitUnlabelled,
    CommitLabelled,
    Rollback,
    DropBelow,
    /// An argument of a call, of up to 200 bytes.
    Argument,
    CollateData,
    AggregateDataInVariable,
    AggregateDataInTable,
    CollateDataIntoIntervals,
}

/// What a sentence puts out, one after the other: the contents of its tokens, and actions behind the parts that they
/// put together.
#[derive(Drop)]
pub enum Op {
    Name(Name),
    Integer(i64),
    Text(Text),
    /// A text of more than 200 bytes.
    LongText(Seq<u8>),
    Act(Action),
}
