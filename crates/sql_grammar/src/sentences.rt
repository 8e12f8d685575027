//! The right sides with many forms: a sentence by its first word, what is created, the value of an output, a
//! comparison.

ghost use Rattle.std.specs.Prelude.{◌≡◌};
ghost use Rattle.sql_grammar.specs.Grammar.{more_columns as columns_within};
ghost use Rattle.sql_grammar.specs.declared.grammar.Class.{Class};
ghost use Rattle.sql_grammar.specs.declared.grammar.Rule.TheVariants as rule;
ghost use Rattle.sql_grammar.specs.Table.{expansion};

use crate::grammar::Symbol::{Put, Use};
use crate::grammar::{Class, Room, Rule, Symbol};
use crate::symbols::{
    ARGUMENT, AT_LEAST, AT_MOST, BELOW, CLOSE, COLLATE_DATA, COMMA, COMMIT, COUNT, CREATE, DELETE,
    DROP, EQUAL, FROM, GREATER, IN_TABLE, IN_VARIABLE, INDEX, INSERT, INTEGER, INTO,
    INTO_INTERVALS, LESS, MAX, MIN, NAME, NEXT_COLUMN, NOT_EQUAL, ON, OPEN, ROLLBACK, SELECT, SET,
    SNAPSHOTS, SUM, TABLE, UPDATE, VALUES,
};
use sql_lexer::{Keyword, Sign};
use sql_parts::{
    Action, LineAction, OutputAction, RowAction, StepAction, TableAction, UpdateAction,
};
use sql_tree::Comparison;

const INSERT_ROWS: [Symbol; 8] = [
    INSERT,
    INTO,
    NAME,
    VALUES,
    Use(Rule::Tuple),
    Put(Action::Row(RowAction::Insert)),
    Use(Rule::MoreTuples),
    Put(Action::Row(RowAction::Finish)),
];

const UPDATE_ROWS: [Symbol; 8] = [
    UPDATE,
    NAME,
    SET,
    Use(Rule::Assignment),
    Put(Action::Update(UpdateAction::Update)),
    Use(Rule::MoreAssignments),
    Use(Rule::Where),
    Put(Action::Update(UpdateAction::Finish)),
];

const COLLATE_DATA_CALL: [Symbol; 9] = [
    COLLATE_DATA,
    OPEN,
    ARGUMENT,
    COMMA,
    ARGUMENT,
    COMMA,
    ARGUMENT,
    CLOSE,
    Put(Action::Line(LineAction::CollateData)),
];

const IN_VARIABLE_CALL: [Symbol; 11] = [
    IN_VARIABLE,
    OPEN,
    ARGUMENT,
    COMMA,
    ARGUMENT,
    COMMA,
    ARGUMENT,
    COMMA,
    ARGUMENT,
    CLOSE,
    Put(Action::Line(LineAction::AggregateDataInVariable)),
];

const IN_TABLE_CALL: [Symbol; 11] = [
    IN_TABLE,
    OPEN,
    ARGUMENT,
    COMMA,
    ARGUMENT,
    COMMA,
    ARGUMENT,
    COMMA,
    ARGUMENT,
    CLOSE,
    Put(Action::Line(LineAction::AggregateDataInTable)),
];

const INTO_INTERVALS_CALL: [Symbol; 9] = [
    INTO_INTERVALS,
    OPEN,
    ARGUMENT,
    COMMA,
    ARGUMENT,
    COMMA,
    ARGUMENT,
    CLOSE,
    Put(Action::Line(LineAction::CollateDataIntoIntervals)),
];

/// A sentence, by its first word.
pub fn sentence(class: Class) -> &'static [Symbol]
    ensures { result.now ≡ expansion rule.Sentence class }
{
    use Rule::*;
    match class {
        Class::Keyword(Keyword::Create) => &[CREATE, Use(Created)],
        Class::Keyword(Keyword::Insert) => &INSERT_ROWS,
        Class::Keyword(Keyword::Update) => &UPDATE_ROWS,
        Class::Keyword(Keyword::Delete) => &[
            DELETE,
            FROM,
            NAME,
            Use(Where),
            Put(Action::Update(UpdateAction::Delete)),
        ],
        Class::Keyword(Keyword::Select) => &[SELECT, Use(Selected)],
        Class::Keyword(Keyword::Commit) => &[COMMIT, Use(SnapshotChoice)],
        Class::Keyword(Keyword::Rollback) => &[ROLLBACK, Put(Action::Line(LineAction::Rollback))],
        Class::Keyword(Keyword::CollateData) => &COLLATE_DATA_CALL,
        Class::Keyword(Keyword::AggregateDataInVariable) => &IN_VARIABLE_CALL,
        Class::Keyword(Keyword::AggregateDataInTable) => &IN_TABLE_CALL,
        Class::Keyword(Keyword::CollateDataIntoIntervals) => &INTO_INTERVALS_CALL,
        _ => &[
            DROP,
            SNAPSHOTS,
            BELOW,
            INTEGER,
            Put(Action::Line(LineAction::DropBelow)),
        ],
    }
}

/// What CREATE makes.
pub fn created(class: Class) -> &'static [Symbol]
    ensures { result.now ≡ expansion rule.Created class }
{
    use Rule::*;
    match class {
        Class::Keyword(Keyword::Table) => &[
            TABLE,
            NAME,
            OPEN,
            Use(Column),
            Put(Action::Table(TableAction::CreateTable)),
            Use(MoreColumns(Room::Fifteen)),
            CLOSE,
        ],
        _ => &[
            INDEX,
            NAME,
            ON,
            NAME,
            OPEN,
            NAME,
            CLOSE,
            Put(Action::Table(TableAction::CreateIndex)),
        ],
    }
}

/// The value of an output.
pub fn output_value(class: Class) -> &'static [Symbol]
    ensures { result.now ≡ expansion rule.OutputValue class }
{
    use Rule::*;
    match class {
        Class::Keyword(Keyword::Count) => &[COUNT, OPEN, Use(Counted)],
        Class::Keyword(Keyword::Sum) => &[
            SUM,
            OPEN,
            Use(Value),
            CLOSE,
            Put(Action::Output(OutputAction::Sum)),
        ],
        Class::Keyword(Keyword::Min) => &[
            MIN,
            OPEN,
            Use(Value),
            CLOSE,
            Put(Action::Output(OutputAction::Min)),
        ],
        Class::Keyword(Keyword::Max) => &[
            MAX,
            OPEN,
            Use(Value),
            CLOSE,
            Put(Action::Output(OutputAction::Max)),
        ],
        _ => &[Use(Value), Put(Action::Output(OutputAction::Value))],
    }
}

/// A comparison, and its right operand.
pub fn compared(class: Class) -> &'static [Symbol]
    ensures { result.now ≡ expansion rule.Compared class }
{
    use Rule::*;
    match class {
        Class::Sign(Sign::Equal) => &[
            EQUAL,
            Use(Operand),
            Put(Action::Step(StepAction::Compare(Comparison::Equal))),
        ],
        Class::Sign(Sign::NotEqual) => &[
            NOT_EQUAL,
            Use(Operand),
            Put(Action::Step(StepAction::Compare(Comparison::NotEqual))),
        ],
        Class::Sign(Sign::Less) => &[
            LESS,
            Use(Operand),
            Put(Action::Step(StepAction::Compare(Comparison::Less))),
        ],
        Class::Sign(Sign::AtMost) => &[
            AT_MOST,
            Use(Operand),
            Put(Action::Step(StepAction::Compare(Comparison::AtMost))),
        ],
        Class::Sign(Sign::Greater) => &[
            GREATER,
            Use(Operand),
            Put(Action::Step(StepAction::Compare(Comparison::Greater))),
        ],
        _ => &[
            AT_LEAST,
            Use(Operand),
            Put(Action::Step(StepAction::Compare(Comparison::AtLeast))),
        ],
    }
}

/// A comma and a column, and as many more as there is room for.
pub fn more_columns(room: Room) -> &'static [Symbol]
    ensures { result.now ≡ columns_within room }
{
    use Room::*;
    use Rule::*;
    match room {
        Fifteen => &[COMMA, Use(Column), NEXT_COLUMN, Use(MoreColumns(Fourteen))],
        Fourteen => &[COMMA, Use(Column), NEXT_COLUMN, Use(MoreColumns(Thirteen))],
        Thirteen => &[COMMA, Use(Column), NEXT_COLUMN, Use(MoreColumns(Twelve))],
        Twelve => &[COMMA, Use(Column), NEXT_COLUMN, Use(MoreColumns(Eleven))],
        Eleven => &[COMMA, Use(Column), NEXT_COLUMN, Use(MoreColumns(Ten))],
        Ten => &[COMMA, Use(Column), NEXT_COLUMN, Use(MoreColumns(Nine))],
        Nine => &[COMMA, Use(Column), NEXT_COLUMN, Use(MoreColumns(Eight))],
        Eight => &[COMMA, Use(Column), NEXT_COLUMN, Use(MoreColumns(Seven))],
        Seven => &[COMMA, Use(Column), NEXT_COLUMN, Use(MoreColumns(Six))],
        Six => &[COMMA, Use(Column), NEXT_COLUMN, Use(MoreColumns(Five))],
        Five => &[COMMA, Use(Column), NEXT_COLUMN, Use(MoreColumns(Four))],
        Four => &[COMMA, Use(Column), NEXT_COLUMN, Use(MoreColumns(Three))],
        Three => &[COMMA, Use(Column), NEXT_COLUMN, Use(MoreColumns(Two))],
        Two => &[COMMA, Use(Column), NEXT_COLUMN, Use(MoreColumns(One))],
        One => &[
            COMMA,
            Use(Column),
            NEXT_COLUMN,
            Put(Action::Table(TableAction::Finish)),
        ],
    }
}
