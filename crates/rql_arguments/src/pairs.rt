//! The pairs of a column and a function.

ghost use Rattle.std.specs.Prelude.{◌≡◌, IfOk};
ghost use Rattle.rql_arguments.specs.Forms.{ArePairs};
ghost use Rattle.rql_arguments.specs.Reading.{Finds, function_of, is_close, is_comma};
ghost use Rattle.rql_arguments.specs.Reading.{is_open, pair_of, paired, pairs_of};
ghost use Rattle.sql_text.specs.Places.{tokens_of};

use crate::query::is_whole;
use rql::{Function, Pair};
use sql_lexer::{Keyword, Placed, Sign, Token, lex, one_reading};
use std::alloc::{AllocError, Global};
use values::{Duplicate, Seq};

/// The pairs that a text is, if it is one or more.
pub fn pairs_in(alloc: Global, text: &[u8]) -> Result<Option<Seq<Pair>>, AllocError>
    ensures { IfOk result (Finds (ArePairs text.now)) }
{
    // A law for the proof: a text has one list of tokens.
    one_reading();
    let lexed = lex(alloc, text)?;
    if is_whole(lexed.ending) {
        pairs_of(alloc, lexed.tokens.as_slice())
    } else {
        Ok(None)
    }
}

fn pairs_of(alloc: Global, tokens: &[Placed]) -> Result<Option<Seq<Pair>>, AllocError>
    ensures { IfOk result (λ pairs. pairs ≡ pairs_of (tokens_of tokens.now)) }
{
    let mut pairs = Seq::new(alloc);
    let mut rest = tokens;
    while let [a, b, c, d, e, more @ ..] = rest {
        match pair_of(alloc, &a.token, &b.token, &c.token, &d.token, &e.token)? {
            Some(pair) => pairs.push(pair)?,
            None => return Ok(None),
        }
        match more {
            [] => return Ok(Some(pairs)),
            [comma, behind @ ..] => {
                if !is_comma(&comma.token) {
                    return Ok(None);
                }
                rest = behind;
            }
        }
    }
    Ok(None)
}

// The pair that five tokens are, if they are one.
fn pair_of(
    alloc: Global,
    a: &Token,
    b: &Token,
    c: &Token,
    d: &Token,
    e: &Token,
) -> Result<Option<Pair>, AllocError>
    ensures { IfOk result (λ pair. pair ≡ pair_of a.now b.now c.now d.now e.now) }
{
    if is_open(a) && is_comma(c) && is_close(e) {
        paired(alloc, b, function_of(d))
    } else {
        Ok(None)
    }
}

fn paired(
    alloc: Global,
    column: &Token,
    function: Option<Function>,
) -> Result<Option<Pair>, AllocError>
    ensures { IfOk result (λ pair. pair ≡ paired column.now function) }
{
    match (column, function) {
        (Token::Name(name), Some(function)) => {
            let column = name.copy(alloc)?;
            Ok(Some(Pair { column, function }))
        }
        _ => Ok(None),
    }
}

fn is_open(token: &Token) -> bool
    ensures { result ≡ is_open token.now }
{
    matches!(token, Token::Sign(Sign::Open))
}

fn is_comma(token: &Token) -> bool
    ensures { result ≡ is_comma token.now }
{
    matches!(token, Token::Sign(Sign::Comma))
}

fn is_close(token: &Token) -> bool
    ensures { result ≡ is_close token.now }
{
    matches!(token, Token::Sign(Sign::Close))
}

fn function_of(token: &Token) -> Option<Function>
    ensures { result ≡ function_of token.now }
{
    match token {
        Token::Keyword(Keyword::Min) => Some(Function::Min),
        Token::Keyword(Keyword::Max) => Some(Function::Max),
        Token::Keyword(Keyword::Sum) => Some(Function::Sum),
        Token::Keyword(Keyword::Count) => Some(Function::Count),
        _ => None,
    }
}
