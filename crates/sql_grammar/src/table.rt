//! The grammar: the right side with which a rule goes on.

ghost use Rattle.std.specs.Prelude.{◌≡◌, ◌≤◌};
ghost use Rattle.sql_grammar.specs.Grammar.{class_of as class_of_token};
ghost use Rattle.sql_grammar.specs.declared.grammar.Class.{Class};
ghost use Rattle.sql_grammar.specs.declared.grammar.Rule.TheVariants as rule;
ghost use Rattle.sql_grammar.specs.Table.{expansion, place};

use crate::grammar::Symbol::{Put, Use};
use crate::grammar::{Class, Rule, Symbol};
use crate::sentences::{compared, created, more_columns, output_value, sentence};
use crate::symbols::{
    AND, AS, ASC, BY, CLOSE, COMMA, CURRENT_SNAPSHOT, DESC, DISTINCT, DOT, EQUAL, FROM, GROUP, INT,
    INTEGER, LIMIT, LONG_TEXT, MINUS, NAME, NEGATED, NOT, OF, OPEN, OR, ORDER, PLUS, SHORT_TEXT,
    SNAPSHOT, STAR, SUBTRACTED, TEXT, VALUE_TEXT, WHERE, WITH,
};
use retro_base::LABEL_BYTES;
use sql_lexer::{Keyword, Sign, Token};
use sql_parts::{
    Action, LineAction, ListAction, OutputAction, QueryAction, RowAction, StepAction, TableAction,
    TermAction, UpdateAction,
};
use sql_tree::{Direction, Operator};

/// The class of a token.
pub fn class_of(token: &Token) -> Class
    ensures { result ≡ class_of_token token.now }
{
    match token {
        Token::Keyword(keyword) => Class::Keyword(*keyword),
        Token::Name(_) => Class::Name,
        Token::LongWord => Class::LongWord,
        Token::Integer(_) => Class::Integer,
        Token::BigInteger => Class::BigInteger,
        Token::Text(text) => {
            if text.bytes().len() <= LABEL_BYTES {
                Class::ShortText
            } else {
                Class::Text
            }
        }
        Token::LongText(_) => Class::LongText,
        Token::Sign(sign) => Class::Sign(*sign),
    }
}

/// The right side of the rule that goes on with the class, and the rule's last where none does.
#[inline(never)]
pub fn right_side(rule: Rule, class: Class) -> &'static [Symbol]
    ensures { result.now ≡ expansion rule class }
{
    use Rule::*;
    match rule {
        Sentence => sentence(class),
        Created => created(class),
        Column => &[NAME, Use(Kind)],
        Kind => match class {
            Class::Keyword(Keyword::Int) => &[
                INT,
                Put(Action::Table(TableAction::Column(values::Kind::Int))),
            ],
            _ => &[
                TEXT,
                Put(Action::Table(TableAction::Column(values::Kind::Text))),
            ],
        },
        MoreColumns(room) => match class {
            Class::Sign(Sign::Comma) => more_columns(room),
            _ => &[Put(Action::Table(TableAction::Finish))],
        },
        Tuple => &[
            OPEN,
            Use(Literal),
            Put(Action::Row(RowAction::FirstValue)),
            Use(MoreValues),
            CLOSE,
        ],
        // The rules which a long line has most of are not looked for behind all others.
        MoreOutputs | Output | OutputValue => output_side(rule, class),
        OutputName | Value | Expression => group_side(rule, class),
        MoreTerms | Term | MoreFactors | Factor => operand_side(rule, class),
        Operand | ColumnName | Qualifier | Literal | Condition => condition_side(rule, class),
        MoreConjunctions | Conjunction => line_side(rule, class),
        MoreNegations | Negation | Compared => line_side(rule, class),
        _ => change_side(rule, class),
    }
}

fn change_side(rule: Rule, class: Class) -> &'static [Symbol]
    requires { 6 ≤ place rule }
    ensures { result.now ≡ expansion rule class }
{
    use Rule::*;
    match rule {
        MoreValues => match class {
            Class::Sign(Sign::Comma) => &[
                COMMA,
                Use(Literal),
                Put(Action::Row(RowAction::NextValue)),
                Use(MoreValues),
            ],
            _ => &[],
        },
        MoreTuples => match class {
            Class::Sign(Sign::Comma) => &[
                COMMA,
                Use(Tuple),
                Put(Action::Row(RowAction::NextTuple)),
                Use(MoreTuples),
            ],
            _ => &[],
        },
        Assignment => &[
            NAME,
            EQUAL,
            Use(Value),
            Put(Action::Update(UpdateAction::Assign)),
        ],
        _ => select_side(rule, class),
    }
}

fn select_side(rule: Rule, class: Class) -> &'static [Symbol]
    requires { 9 ≤ place rule }
    ensures { result.now ≡ expansion rule class }
{
    use Rule::*;
    match rule {
        MoreAssignments => match class {
            Class::Sign(Sign::Comma) => &[
                COMMA,
                Use(Assignment),
                Put(Action::Update(UpdateAction::NextAssignment)),
                Use(MoreAssignments),
            ],
            _ => &[],
        },
        Where => match class {
            Class::Keyword(Keyword::Where) => &[
                WHERE,
                Use(Condition),
                Put(Action::Step(StepAction::Condition)),
            ],
            _ => &[Put(Action::Step(StepAction::NoCondition))],
        },
        Selected => match class {
            Class::Keyword(Keyword::As) => &[
                AS,
                OF,
                INTEGER,
                Use(Query),
                Put(Action::Query(QueryAction::AsOf)),
            ],
            _ => &[Use(Query), Put(Action::Query(QueryAction::Finish))],
        },
        _ => output_side(rule, class),
    }
}

fn output_side(rule: Rule, class: Class) -> &'static [Symbol]
    requires { 12 ≤ place rule }
    ensures { result.now ≡ expansion rule class }
{
    use Rule::*;
    match rule {
        Query => match class {
            Class::Keyword(Keyword::Distinct) => &[
                DISTINCT,
                Use(List),
                Use(Clauses),
                Put(Action::Query(QueryAction::Distinct)),
            ],
            _ => &[Use(List), Use(Clauses)],
        },
        List => match class {
            Class::Sign(Sign::Star) => &[STAR, FROM, NAME, Put(Action::List(ListAction::All))],
            _ => &[
                Use(Output),
                Put(Action::List(ListAction::First)),
                Use(MoreOutputs),
                FROM,
                NAME,
                Put(Action::List(ListAction::From)),
            ],
        },
        MoreOutputs => match class {
            Class::Sign(Sign::Comma) => &[
                COMMA,
                Use(Output),
                Put(Action::List(ListAction::Next)),
                Use(MoreOutputs),
            ],
            _ => &[],
        },
        Output => &[Use(OutputValue), Use(OutputName)],
        OutputValue => output_value(class),
        _ => group_side(rule, class),
    }
}

fn group_side(rule: Rule, class: Class) -> &'static [Symbol]
    requires { 17 ≤ place rule }
    ensures { result.now ≡ expansion rule class }
{
    use Rule::*;
    match rule {
        Counted => match class {
            Class::Sign(Sign::Star) => &[STAR, CLOSE, Put(Action::Output(OutputAction::CountRows))],
            _ => &[Use(Value), CLOSE, Put(Action::Output(OutputAction::Count))],
        },
        OutputName => match class {
            Class::Keyword(Keyword::As) => &[AS, NAME, Put(Action::Output(OutputAction::Named))],
            _ => &[Put(Action::Output(OutputAction::Unnamed))],
        },
        Clauses => &[
            Use(Second),
            Use(Where),
            Put(Action::Query(QueryAction::Filter)),
            Use(Grouping),
            Use(Ordering),
            Use(Limit),
        ],
        Second => match class {
            Class::Sign(Sign::Comma) => &[COMMA, NAME, Put(Action::Query(QueryAction::Second))],
            _ => &[],
        },
        _ => key_side(rule, class),
    }
}

fn key_side(rule: Rule, class: Class) -> &'static [Symbol]
    requires { 21 ≤ place rule }
    ensures { result.now ≡ expansion rule class }
{
    use Rule::*;
    match rule {
        Grouping => match class {
            Class::Keyword(Keyword::Group) => &[
                GROUP,
                BY,
                Use(ColumnName),
                Put(Action::Query(QueryAction::GroupBy)),
                Use(MoreGroups),
            ],
            _ => &[],
        },
        MoreGroups => match class {
            Class::Sign(Sign::Comma) => &[
                COMMA,
                Use(ColumnName),
                Put(Action::Query(QueryAction::GroupBy)),
                Use(MoreGroups),
            ],
            _ => &[],
        },
        Ordering => match class {
            Class::Keyword(Keyword::Order) => &[ORDER, BY, Use(Key), Use(MoreKeys)],
            _ => &[],
        },
        MoreKeys => match class {
            Class::Sign(Sign::Comma) => &[COMMA, Use(Key), Use(MoreKeys)],
            _ => &[],
        },
        Key => &[Use(ColumnName), Use(SortDirection)],
        _ => term_side(rule, class),
    }
}

fn term_side(rule: Rule, class: Class) -> &'static [Symbol]
    requires { 26 ≤ place rule }
    ensures { result.now ≡ expansion rule class }
{
    use Rule::*;
    match rule {
        SortDirection => match class {
            Class::Keyword(Keyword::Asc) => &[
                ASC,
                Put(Action::Query(QueryAction::OrderBy(Direction::Ascending))),
            ],
            Class::Keyword(Keyword::Desc) => &[
                DESC,
                Put(Action::Query(QueryAction::OrderBy(Direction::Descending))),
            ],
            _ => &[Put(Action::Query(QueryAction::OrderBy(Direction::Ascending)))],
        },
        Limit => match class {
            Class::Keyword(Keyword::Limit) => &[
                LIMIT,
                INTEGER,
                Put(Action::Query(QueryAction::Limit)),
            ],
            _ => &[],
        },
        Value => &[Use(Expression), Put(Action::Step(StepAction::Expression))],
        Expression => &[Use(Term), Use(MoreTerms)],
        _ => operand_side(rule, class),
    }
}

fn operand_side(rule: Rule, class: Class) -> &'static [Symbol]
    requires { 30 ≤ place rule }
    ensures { result.now ≡ expansion rule class }
{
    use Rule::*;
    match rule {
        MoreTerms => match class {
            Class::Sign(Sign::Plus) => &[
                PLUS,
                Use(Term),
                Put(Action::Step(StepAction::Apply(Operator::Add))),
                Use(MoreTerms),
            ],
            Class::Sign(Sign::Minus) => &[MINUS, Use(Term), SUBTRACTED, Use(MoreTerms)],
            _ => &[],
        },
        Term => &[Use(Factor), Use(MoreFactors)],
        MoreFactors => match class {
            Class::Sign(Sign::Star) => &[
                STAR,
                Use(Factor),
                Put(Action::Step(StepAction::Apply(Operator::Multiply))),
                Use(MoreFactors),
            ],
            _ => &[],
        },
        Factor => match class {
            Class::Sign(Sign::Open) => &[OPEN, Use(Expression), CLOSE],
            _ => &[Use(Operand), Put(Action::Step(StepAction::Leaf))],
        },
        _ => condition_side(rule, class),
    }
}

fn condition_side(rule: Rule, class: Class) -> &'static [Symbol]
    requires { 34 ≤ place rule }
    ensures { result.now ≡ expansion rule class }
{
    use Rule::*;
    match rule {
        Operand => match class {
            Class::Keyword(Keyword::CurrentSnapshot) => &[
                CURRENT_SNAPSHOT,
                OPEN,
                CLOSE,
                Put(Action::Term(TermAction::CurrentSnapshot)),
            ],
            Class::Name => &[
                Use(ColumnName),
                Put(Action::Term(TermAction::ColumnOperand)),
            ],
            _ => &[Use(Literal), Put(Action::Term(TermAction::LiteralOperand))],
        },
        ColumnName => &[NAME, Use(Qualifier)],
        Qualifier => match class {
            Class::Sign(Sign::Dot) => &[DOT, NAME, Put(Action::Term(TermAction::QualifiedColumn))],
            _ => &[Put(Action::Term(TermAction::PlainColumn))],
        },
        Literal => match class {
            Class::Integer => &[INTEGER, Put(Action::Term(TermAction::Integer))],
            Class::Sign(Sign::Minus) => &[MINUS, INTEGER, Put(Action::Term(TermAction::Negative))],
            Class::ShortText => &[SHORT_TEXT, Put(Action::Term(TermAction::Text))],
            _ => &[VALUE_TEXT, Put(Action::Term(TermAction::Text))],
        },
        Condition => &[Use(Conjunction), Use(MoreConjunctions)],
        _ => line_side(rule, class),
    }
}

fn line_side(rule: Rule, class: Class) -> &'static [Symbol]
    requires { 39 ≤ place rule }
    ensures { result.now ≡ expansion rule class }
{
    use Rule::*;
    match rule {
        MoreConjunctions => match class {
            Class::Keyword(Keyword::Or) => &[
                OR,
                Use(Conjunction),
                Put(Action::Step(StepAction::Or)),
                Use(MoreConjunctions),
            ],
            _ => &[],
        },
        Conjunction => &[Use(Negation), Use(MoreNegations)],
        MoreNegations => match class {
            Class::Keyword(Keyword::And) => &[
                AND,
                Use(Negation),
                Put(Action::Step(StepAction::And)),
                Use(MoreNegations),
            ],
            _ => &[],
        },
        Negation => match class {
            Class::Keyword(Keyword::Not) => &[NOT, Use(Negation), NEGATED],
            Class::Sign(Sign::Open) => &[OPEN, Use(Condition), CLOSE],
            _ => &[Use(Operand), Use(Compared)],
        },
        Compared => compared(class),
        SnapshotChoice => match class {
            Class::Keyword(Keyword::With) => &[WITH, SNAPSHOT, Use(LabelChoice)],
            _ => &[Put(Action::Line(LineAction::Commit))],
        },
        _ => last_side(rule, class),
    }
}

fn last_side(rule: Rule, class: Class) -> &'static [Symbol]
    requires { 45 ≤ place rule }
    ensures { result.now ≡ expansion rule class }
{
    use Rule::*;
    match rule {
        Argument => match class {
            Class::ShortText => &[SHORT_TEXT, Put(Action::Line(LineAction::Argument))],
            Class::Text => &[VALUE_TEXT, Put(Action::Line(LineAction::Argument))],
            _ => &[LONG_TEXT],
        },
        _ => match class {
            Class::ShortText => &[SHORT_TEXT, Put(Action::Line(LineAction::CommitLabelled))],
            _ => &[Put(Action::Line(LineAction::CommitUnlabelled))],
        },
    }
}
