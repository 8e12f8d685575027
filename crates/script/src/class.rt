//! What a statement line that the grammar refuses is, by its first tokens.

ghost use Rattle.std.specs.Prelude.{◌≡◌, ◌&&◌, ◌||◌, false, drop, slice_get, if◌then◌else◌};
ghost use Rattle.std.specs.List.{position_or_len};
ghost use Rattle.std.specs.Option.{option_map_or};
ghost use Rattle.script.specs.Class.{keyword_of, keyword_at, is_from, is_as, is_of, is_snapshots, is_snap_ids};
ghost use Rattle.script.specs.Class.{is_result_name, is_own_table, names_own_table, reads_own_table, class_of};

use sql_lexer::{Keyword, Placed, Token};

/// What a statement line is, where the grammar refuses it.
#[derive(Clone, Copy, Debug, PartialEq, Eq)]
pub enum Class {
    /// A statement of a transaction.
    Statement,
    /// The end of a transaction.
    End,
    /// An item of its own.
    Single,
}

/// What a statement line of this text and these tokens is, where the grammar refuses it.
pub fn class_of(text: &[u8], tokens: &[Placed]) -> Class
    ensures { result ≡ class_of text.now tokens.now }
{
    match keyword_at(tokens, 0) {
        Some(Keyword::Commit) => Class::End,
        Some(Keyword::Rollback) => Class::End,
        Some(Keyword::CollateData) => Class::Single,
        Some(Keyword::AggregateDataInVariable) => Class::Single,
        Some(Keyword::AggregateDataInTable) => Class::Single,
        Some(Keyword::CollateDataIntoIntervals) => Class::Single,
        Some(Keyword::Drop) => drop_class(tokens),
        Some(Keyword::Select) => select_class(text, tokens),
        _ => Class::Statement,
    }
}

fn drop_class(tokens: &[Placed]) -> Class
    ensures { result ≡ (if is_snapshots (keyword_at tokens.now 1) then Class.Single else Class.Statement) }
{
    if is_snapshots(keyword_at(tokens, 1)) {
        Class::Single
    } else {
        Class::Statement
    }
}

fn select_class(text: &[u8], tokens: &[Placed]) -> Class
    ensures { result ≡ (if (is_as (keyword_at tokens.now 1) && is_of (keyword_at tokens.now 2))
        || reads_own_table text.now tokens.now then Class.Single else Class.Statement) }
{
    if (is_as(keyword_at(tokens, 1)) && is_of(keyword_at(tokens, 2)))
        || reads_own_table(text, tokens)
    {
        Class::Single
    } else {
        Class::Statement
    }
}

fn keyword_at(tokens: &[Placed], place: usize) -> Option<Keyword>
    ensures { result ≡ keyword_at tokens.now place }
{
    match tokens.get(place) {
        Some(placed) => keyword_of(&placed.token),
        None => None,
    }
}

fn keyword_of(token: &Token) -> Option<Keyword>
    ensures { result ≡ keyword_of token.now }
{
    match token {
        Token::Keyword(keyword) => Some(*keyword),
        _ => None,
    }
}

fn is_from(keyword: Option<Keyword>) -> bool
    ensures { result ≡ is_from keyword }
{
    matches!(keyword, Some(Keyword::From))
}

fn is_as(keyword: Option<Keyword>) -> bool
    ensures { result ≡ is_as keyword }
{
    matches!(keyword, Some(Keyword::As))
}

fn is_of(keyword: Option<Keyword>) -> bool
    ensures { result ≡ is_of keyword }
{
    matches!(keyword, Some(Keyword::Of))
}

fn is_snapshots(keyword: Option<Keyword>) -> bool
    ensures { result ≡ is_snapshots keyword }
{
    matches!(keyword, Some(Keyword::Snapshots))
}

/// Whether the name behind the first FROM is that of snapshots or of results.
fn reads_own_table(text: &[u8], tokens: &[Placed]) -> bool
    ensures { result ≡ reads_own_table text.now tokens.now }
{
    let from = first_from(tokens);
    from < tokens.len() && names_own_table_at(text, tokens, from + 1)
}

fn names_own_table_at(text: &[u8], tokens: &[Placed], index: usize) -> bool
    ensures { result ≡ option_map_or (λ t. names_own_table text.now t.place t.token)
        (slice_get tokens.now index) false }
{
    match tokens.get(index) {
        Some(placed) => names_own_table(text, placed.place, &placed.token),
        None => false,
    }
}

/// The place of the first FROM, or the number of tokens where there is none.
fn first_from(tokens: &[Placed]) -> usize
    ensures { result ≡ position_or_len (λ t. is_from (keyword_of t.token)) tokens.now }
{
    for (place, placed) in tokens.iter().enumerate() {
        if is_from(keyword_of(&placed.token)) {
            return place;
        }
    }
    tokens.len()
}

/// Whether the token at this place of the text is the name of such a table.
fn names_own_table(text: &[u8], place: usize, token: &Token) -> bool
    ensures { result ≡ names_own_table text.now place token.now }
{
    match token {
        Token::Name(name) => is_own_table(name.bytes()),
        Token::LongWord => is_result_name(text_from(text, place)),
        _ => false,
    }
}

fn text_from(text: &[u8], place: usize) -> &[u8]
    ensures { result.now ≡ drop place text.now }
{
    let (_, rest) = text.split_at(text.len().min(place));
    rest
}

fn is_own_table(name: &[u8]) -> bool
    ensures { result ≡ is_own_table name.now }
{
    is_snap_ids(name) || is_result_name(name)
}

/// Whether a table of this name is that of the snapshots.
pub fn is_snap_ids(name: &[u8]) -> bool
    ensures { result ≡ is_snap_ids name.now }
{
    name == b"SnapIds".as_slice()
}

/// Whether a table of this name is one of results.
pub fn is_result_name(name: &[u8]) -> bool
    ensures { result ≡ is_result_name name.now }
{
    name.starts_with(b"rql_")
}
