//! The symbols that right sides are made of.

use crate::grammar::Symbol::{Put, Use};
use crate::grammar::{Class, Rule, Symbol};
use sql_lexer::{Keyword, Sign};
use sql_parts::{Action, StepAction, TableAction};
use sql_tree::Operator;

pub const CREATE: Symbol = Symbol::Take(Class::Keyword(Keyword::Create));

pub const INSERT: Symbol = Symbol::Take(Class::Keyword(Keyword::Insert));

pub const INTO: Symbol = Symbol::Take(Class::Keyword(Keyword::Into));

pub const NAME: Symbol = Symbol::Take(Class::Name);

pub const VALUES: Symbol = Symbol::Take(Class::Keyword(Keyword::Values));

pub const UPDATE: Symbol = Symbol::Take(Class::Keyword(Keyword::Update));

pub const SET: Symbol = Symbol::Take(Class::Keyword(Keyword::Set));

pub const DELETE: Symbol = Symbol::Take(Class::Keyword(Keyword::Delete));

pub const FROM: Symbol = Symbol::Take(Class::Keyword(Keyword::From));

pub const SELECT: Symbol = Symbol::Take(Class::Keyword(Keyword::Select));

pub const COMMIT: Symbol = Symbol::Take(Class::Keyword(Keyword::Commit));

pub const ROLLBACK: Symbol = Symbol::Take(Class::Keyword(Keyword::Rollback));

pub const DROP: Symbol = Symbol::Take(Class::Keyword(Keyword::Drop));

pub const SNAPSHOTS: Symbol = Symbol::Take(Class::Keyword(Keyword::Snapshots));

pub const BELOW: Symbol = Symbol::Take(Class::Keyword(Keyword::Below));

pub const INTEGER: Symbol = Symbol::Take(Class::Integer);

pub const TABLE: Symbol = Symbol::Take(Class::Keyword(Keyword::Table));

pub const OPEN: Symbol = Symbol::Take(Class::Sign(Sign::Open));

pub const CLOSE: Symbol = Symbol::Take(Class::Sign(Sign::Close));

pub const INDEX: Symbol = Symbol::Take(Class::Keyword(Keyword::Index));

pub const ON: Symbol = Symbol::Take(Class::Keyword(Keyword::On));

pub const INT: Symbol = Symbol::Take(Class::Keyword(Keyword::Int));

pub const TEXT: Symbol = Symbol::Take(Class::Keyword(Keyword::Text));

pub const COMMA: Symbol = Symbol::Take(Class::Sign(Sign::Comma));

pub const EQUAL: Symbol = Symbol::Take(Class::Sign(Sign::Equal));

pub const WHERE: Symbol = Symbol::Take(Class::Keyword(Keyword::Where));

pub const AS: Symbol = Symbol::Take(Class::Keyword(Keyword::As));

pub const OF: Symbol = Symbol::Take(Class::Keyword(Keyword::Of));

pub const DISTINCT: Symbol = Symbol::Take(Class::Keyword(Keyword::Distinct));

pub const STAR: Symbol = Symbol::Take(Class::Sign(Sign::Star));

pub const COUNT: Symbol = Symbol::Take(Class::Keyword(Keyword::Count));

pub const SUM: Symbol = Symbol::Take(Class::Keyword(Keyword::Sum));

pub const MIN: Symbol = Symbol::Take(Class::Keyword(Keyword::Min));

pub const MAX: Symbol = Symbol::Take(Class::Keyword(Keyword::Max));

pub const GROUP: Symbol = Symbol::Take(Class::Keyword(Keyword::Group));

pub const BY: Symbol = Symbol::Take(Class::Keyword(Keyword::By));

pub const ORDER: Symbol = Symbol::Take(Class::Keyword(Keyword::Order));

pub const ASC: Symbol = Symbol::Take(Class::Keyword(Keyword::Asc));

pub const DESC: Symbol = Symbol::Take(Class::Keyword(Keyword::Desc));

pub const LIMIT: Symbol = Symbol::Take(Class::Keyword(Keyword::Limit));

pub const PLUS: Symbol = Symbol::Take(Class::Sign(Sign::Plus));

pub const MINUS: Symbol = Symbol::Take(Class::Sign(Sign::Minus));

pub const CURRENT_SNAPSHOT: Symbol = Symbol::Take(Class::Keyword(Keyword::CurrentSnapshot));

pub const DOT: Symbol = Symbol::Take(Class::Sign(Sign::Dot));

pub const SHORT_TEXT: Symbol = Symbol::Take(Class::ShortText);

pub const VALUE_TEXT: Symbol = Symbol::Take(Class::Text);

pub const LONG_TEXT: Symbol = Symbol::Take(Class::LongText);

pub const ARGUMENT: Symbol = Use(Rule::Argument);

pub const COLLATE_DATA: Symbol = Symbol::Take(Class::Keyword(Keyword::CollateData));

pub const IN_VARIABLE: Symbol = Symbol::Take(Class::Keyword(Keyword::AggregateDataInVariable));

pub const IN_TABLE: Symbol = Symbol::Take(Class::Keyword(Keyword::AggregateDataInTable));

pub const INTO_INTERVALS: Symbol = Symbol::Take(Class::Keyword(Keyword::CollateDataIntoIntervals));

pub const OR: Symbol = Symbol::Take(Class::Keyword(Keyword::Or));

pub const AND: Symbol = Symbol::Take(Class::Keyword(Keyword::And));

pub const NOT: Symbol = Symbol::Take(Class::Keyword(Keyword::Not));

pub const NOT_EQUAL: Symbol = Symbol::Take(Class::Sign(Sign::NotEqual));

pub const LESS: Symbol = Symbol::Take(Class::Sign(Sign::Less));

pub const AT_MOST: Symbol = Symbol::Take(Class::Sign(Sign::AtMost));

pub const GREATER: Symbol = Symbol::Take(Class::Sign(Sign::Greater));

pub const AT_LEAST: Symbol = Symbol::Take(Class::Sign(Sign::AtLeast));

pub const WITH: Symbol = Symbol::Take(Class::Keyword(Keyword::With));

pub const SNAPSHOT: Symbol = Symbol::Take(Class::Keyword(Keyword::Snapshot));

pub const NEXT_COLUMN: Symbol = Put(Action::Table(TableAction::NextColumn));

pub const SUBTRACTED: Symbol = Put(Action::Step(StepAction::Apply(Operator::Subtract)));

pub const NEGATED: Symbol = Put(Action::Step(StepAction::Not));
