//! The two selects of a call.

ghost use Rattle.std.specs.Prelude.{◌≡◌, ◌∷◌, [], IfOk};
ghost use Rattle.rql_arguments.specs.Forms.{IsQuery, IsSnapshotQuery, lists_snapshots};
ghost use Rattle.rql_arguments.specs.Reading.{Finds, is_whole, lists_only, select_of};
ghost use Rattle.sql_text.specs.Places.{tokens_of};

use retro_base::{LINE_BYTES, Refusal};
use sql_lexer::{Ending, Keyword, Lexed, Placed, Token, lex, one_reading};
use sql_text::{Parsed, broken_lines_say_nothing, parse};
use sql_tree::{Select, Statement};
use std::alloc::{AllocError, Global};

/// The select without AS OF that a text is, if it is one.
pub fn query_of(alloc: Global, text: &[u8]) -> Result<Option<Select>, AllocError>
    ensures { IfOk result (Finds (IsQuery text.now)) }
{
    // A law for the proof: a text says something or breaks.
    broken_lines_say_nothing();
    if text.len() > LINE_BYTES {
        return Ok(None);
    }
    match parse(alloc, text) {
        Ok(parsed) => Ok(select_of(parsed)),
        Err(Refusal::Syntax { place: _ }) => Ok(None),
        Err(_) => Err(AllocError),
    }
}

fn select_of(parsed: Parsed) -> Option<Select>
    ensures { result ≡ select_of parsed }
{
    match parsed {
        Parsed::Plain(Statement::Select(query)) => Some(query),
        _ => None,
    }
}

/// The select of snapshots that a text is, if it is one.
pub fn snapshot_query_of(alloc: Global, text: &[u8]) -> Result<Option<Select>, AllocError>
    ensures { IfOk result (Finds (IsSnapshotQuery text.now)) }
{
    // A law for the proof: a text has one list of tokens.
    one_reading();
    let query = match query_of(alloc, text)? {
        Some(query) => query,
        None => return Ok(None),
    };
    let lexed = lex(alloc, text)?;
    if lists_only(&lexed, &query) {
        Ok(Some(query))
    } else {
        Ok(None)
    }
}

fn lists_only(lexed: &Lexed, query: &Select) -> bool
    ensures { result ≡ lists_only lexed.now query.now }
{
    is_whole(lexed.ending)
        && lists_snapshots(lexed.tokens.as_slice())
        && query.second.is_none()
        && query.group_by.is_empty()
}

/// Whether a line ends with its last token.
pub fn is_whole(ending: Ending) -> bool
    ensures { result ≡ is_whole ending }
{
    matches!(ending, Ending::Whole)
}

fn lists_snapshots(tokens: &[Placed]) -> bool
    ensures { result ≡ lists_snapshots (tokens_of tokens.now) }
{
    match tokens {
        [first, second, third, fourth, ..] => begin_so(
            &first.token,
            &second.token,
            &third.token,
            &fourth.token,
        ),
        _ => false,
    }
}

fn begin_so(first: &Token, second: &Token, third: &Token, fourth: &Token) -> bool
    ensures { result ≡ lists_snapshots (first.now ∷ second.now ∷ third.now ∷ fourth.now ∷ []) }
{
    match (first, second, third, fourth) {
        (
            Token::Keyword(Keyword::Select),
            Token::Name(column),
            Token::Keyword(Keyword::From),
            Token::Name(table),
        ) => column.bytes() == b"snap_id".as_slice() && table.bytes() == b"SnapIds".as_slice(),
        _ => false,
    }
}
