//! The grammar: classes of tokens, rules, and the symbols of their right sides.

use sql_lexer::{Keyword, Sign};
use sql_parts::Action;

/// All that the grammar sees of a token, or the end of the line.
#[derive(Clone, Copy, PartialEq, Eq)]
pub enum Class {
    Keyword(Keyword),
    Sign(Sign),
    Name,
    /// A word that is too long for a name.
    LongWord,
    /// Digits of a number up to the last value of an i64.
    Integer,
    /// Digits of a greater number.
    BigInteger,
    /// A text of up to 64 bytes.
    ShortText,
    /// A text of 65 to 200 bytes.
    Text,
    /// A text of more than 200 bytes.
    LongText,
    /// The end of the line.
    End,
}

/// How many columns may still come.
#[derive(Clone, Copy)]
pub enum Room {
    Fifteen,
    Fourteen,
    Thirteen,
    Twelve,
    Eleven,
    Ten,
    Nine,
    Eight,
    Seven,
    Six,
    Five,
    Four,
    Three,
    Two,
    One,
}

/// A rule of the grammar.
#[derive(Clone, Copy)]
pub enum Rule {
    Sentence,
    Created,
    Column,
    Kind,
    MoreColumns(Room),
    Tuple,
    MoreValues,
    MoreTuples,
    Assignment,
    MoreAssignments,
    Where,
    Selected,
    Query,
    List,
    MoreOutputs,
    Output,
    OutputValue,
    Counted,
    OutputName,
    Clauses,
    Second,
    Grouping,
    MoreGroups,
    Ordering,
    MoreKeys,
    Key,
    SortDirection,
    Limit,
    Value,
    Expression,
    MoreTerms,
    Term,
    MoreFactors,
    Factor,
    Operand,
    ColumnName,
    Qualifier,
    Literal,
    Condition,
    MoreConjunctions,
    Conjunction,
    MoreNegations,
    Negation,
    Compared,
    SnapshotChoice,
    Argument,
    LabelChoice,
}

/// A part of a rule's right side.
#[derive(Clone, Copy)]
pub enum Symbol {
    /// Takes a token of the class, and puts out its content.
    Take(Class),
    Put(Action),
    Use(Rule),
}
