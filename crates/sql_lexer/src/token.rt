//! The tokens of a line.

use values::{Name, Seq, Text};

/// A word that the language keeps for itself, read in any case.
#[derive(Clone, Copy, Debug, PartialEq, Eq)]
pub enum Keyword {
    AggregateDataInTable,
    AggregateDataInVariable,
    And,
    As,
    Asc,
    Below,
    By,
    CollateData,
    CollateDataIntoIntervals,
    Commit,
    Count,
    Create,
    CurrentSnapshot,
    Delete,
    Desc,
    Distinct,
    Drop,
    From,
    Group,
    Index,
    Insert,
    Int,
    Into,
    Limit,
    Max,
    Min,
    Not,
    Of,
    On,
    Or,
    Order,
    Rollback,
    Select,
    Set,
    Snapshot,
    Snapshots,
    Sum,
    Table,
    Text,
    Update,
    Values,
    Where,
    With,
}

/// A sign.
#[derive(Clone, Copy, Debug, PartialEq, Eq)]
pub enum Sign {
    Open,
    Close,
    Comma,
    Dot,
    Star,
    Plus,
    Minus,
    Equal,
    NotEqual,
    Less,
    AtMost,
    Greater,
    AtLeast,
}

/// A token.
#[derive(Debug, Drop)]
pub enum Token {
    Keyword(Keyword),
    /// A word of 1 to 32 bytes that is no keyword.
    Name(Name),
    /// A word of more than 32 bytes.
    LongWord,
    /// Decimal digits of a number up to i64's last value.
    Integer(i64),
    /// Decimal digits of a greater number.
    BigInteger,
    /// A text of up to 200 bytes, without its quotes, each doubled quote as one.
    Text(Text),
    /// A text of more than 200 bytes, likewise.
    LongText(Seq<u8>),
    Sign(Sign),
}

/// A token, and the place of its first byte in the line, from 0.
#[derive(Debug, Drop)]
pub struct Placed {
    pub token: Token,
    pub place: usize,
}

/// How the tokens of a line end.
#[derive(Clone, Copy, Debug, PartialEq, Eq)]
pub enum Ending {
    /// With the line.
    Whole,
    /// At the first byte that is part of no token.
    BadByte { place: usize },
    /// At a text that the line does not close.
    Unclosed,
}

/// The tokens of a line, and how they end.
#[derive(Debug, Drop)]
pub struct Lexed {
    pub tokens: Seq<Placed>,
    pub ending: Ending,
}
