//! What the lines of a script are.

ghost use Rattle.std.specs.Prelude.{◌≡◌, ◌<◌, ◌^◌, IfOk, IfErr, length, if◌then◌else◌};
ghost use Rattle.script.specs.Limits.{LineFits};
ghost use Rattle.script.specs.Line.{IsLine, IsTextLine, IsSessionLine, IsStatementLine, IsOnly, is_text};
ghost use Rattle.script.specs.Line.{parsed_line, plain_line, query_line, refused_line, text_places};
ghost use Rattle.script.specs.Text.{in_bounds};
ghost use Rattle.sql_text.specs.Line.{HasLimits};
ghost use Rattle.sql_text.specs.Places.{AllBefore};
ghost use Rattle.sql_tree.specs.Statement.{IsSelect, IsStatement};

use crate::class::{Class, class_of, is_result_name, is_snap_ids};
use crate::name::{SessionName, is_session_name};
use crate::structure::{End, Reading, Single};
use crate::text::{is_phase, is_session, is_skipped, session_name, text_of};
use retro_base::{LINE_BYTES, Refusal};
use sql_lexer::{Placed, Token, lex, one_reading};
use sql_text::{Parsed, broken_lines_say_nothing, lines_break_at_one_place, parse_lexed};
use sql_tree::{Select, Statement};
use std::alloc::{AllocError, Global};
use values::Seq;

/// What a line of a script is.
#[derive(Debug, Drop)]
pub enum Line {
    /// Empty, or a comment.
    Skipped,
    /// `PHASE`.
    Phase,
    /// `SESSION` and a name.
    Session(SessionName),
    /// The end of a transaction.
    Ends(End),
    /// An item of its own.
    Single(Single),
    /// A statement of a transaction.
    Statement(Reading<Statement>),
    /// Bad, whatever stands before it.
    Bad,
}

/// What a line is, by its bytes without its end, and whether it goes too far in the script. Refused for want of memory
/// alone.
pub fn read_line(alloc: Global, bytes: &[u8], too_far: bool) -> Result<Line, Refusal>
    ensures found { IfOk result (IsLine (if too_far then None else in_bounds bytes.now)) }
    ensures only { IfOk result (IsOnly (IsLine (if too_far then None else in_bounds bytes.now))) }
    ensures fits { IfOk result LineFits }
    ensures refused { IfErr result (λ e. e ≡ Refusal.OutOfMemory) }
{
    if too_far || bytes.len() > LINE_BYTES {
        return Ok(Line::Bad);
    }
    text_line(alloc, text_of(bytes))
}

fn text_line(alloc: Global, text: &[u8]) -> Result<Line, Refusal>
    requires { length text.now < 2 ^ 32 }
    ensures found { IfOk result (IsTextLine text.now) }
    ensures only { IfOk result (IsOnly (IsTextLine text.now)) }
    ensures fits { IfOk result LineFits }
    ensures refused { IfErr result (λ e. e ≡ Refusal.OutOfMemory) }
{
    if is_skipped(text) {
        return Ok(Line::Skipped);
    }
    if is_phase(text) {
        return Ok(Line::Phase);
    }
    if is_session(text) {
        return Ok(session_line(alloc, session_name(text))?);
    }
    statement_line(alloc, text)
}

fn session_line(alloc: Global, name: &[u8]) -> Result<Line, AllocError>
    ensures found { IfOk result (IsSessionLine name.now) }
    ensures only { IfOk result (IsOnly (IsSessionLine name.now)) }
    ensures fits { IfOk result LineFits }
{
    if !is_session_name(name) {
        return Ok(Line::Bad);
    }
    let bytes = Seq::from(Vec::from_slice(alloc, name)?);
    Ok(Line::Session(SessionName::new(bytes)))
}

fn statement_line(alloc: Global, text: &[u8]) -> Result<Line, Refusal>
    requires { length text.now < 2 ^ 32 }
    ensures found { IfOk result (IsStatementLine text.now) }
    ensures only { IfOk result (IsOnly (IsStatementLine text.now)) }
    ensures fits { IfOk result LineFits }
    ensures refused { IfErr result (λ e. e ≡ Refusal.OutOfMemory) }
{
    // Laws for the proof: the text has one list of tokens, and says one thing or breaks at one place.
    one_reading();
    broken_lines_say_nothing();
    lines_break_at_one_place();
    let lexed = lex(alloc, text)?;
    let class = class_of(text, lexed.tokens.as_slice());
    let places = text_places(alloc, lexed.tokens.as_slice())?;
    match parse_lexed(alloc, text, lexed) {
        Ok(parsed) => Ok(parsed_line(places, parsed)),
        Err(Refusal::Syntax { place }) => Ok(refused_line(class, place)),
        Err(refusal) => Err(refusal),
    }
}

// The places of the texts among the tokens.
fn text_places(alloc: Global, tokens: &[Placed]) -> Result<Seq<u32>, AllocError>
    requires { AllBefore (2 ^ 32) tokens.now }
    ensures { IfOk result (λ places. places ≡ text_places tokens.now) }
{
    let mut places = Seq::new(alloc);
    for placed in tokens {
        if is_text(&placed.token) {
            places.push(placed.place as u32)?;
        }
    }
    Ok(places)
}

fn is_text(token: &Token) -> bool
    ensures { result ≡ is_text token.now }
{
    matches!(token, Token::Text(_) | Token::LongText(_))
}

// The line that says this, with texts at these places.
fn parsed_line(places: Seq<u32>, parsed: Parsed) -> Line
    requires { HasLimits parsed }
    ensures found { result ≡ parsed_line places parsed }
    ensures fits { LineFits result }
{
    match parsed {
        Parsed::Plain(statement) => plain_line(statement),
        Parsed::AsOf(query) => Line::Single(Single::AsOf(query)),
        Parsed::Commit(label) => Line::Ends(End::Commit(label)),
        Parsed::Rollback => Line::Ends(End::Rollback),
        Parsed::DropBelow(below) => Line::Single(Single::DropBelow(below)),
        Parsed::Rql(call) => Line::Single(Single::Call { call, places }),
    }
}

fn plain_line(statement: Statement) -> Line
    requires { IsStatement statement }
    ensures found { result ≡ plain_line statement }
    ensures fits { LineFits result }
{
    match statement {
        Statement::Select(query) => query_line(query),
        other => Line::Statement(Reading::Read(other)),
    }
}

fn query_line(query: Select) -> Line
    requires { IsSelect query }
    ensures found { result ≡ query_line query }
    ensures fits { LineFits result }
{
    if is_snap_ids(query.table.bytes()) {
        Line::Single(Single::SnapIds(query))
    } else if is_result_name(query.table.bytes()) {
        Line::Single(Single::Results(query))
    } else {
        Line::Statement(Reading::Read(Statement::Select(query)))
    }
}

fn refused_line(class: Class, place: u32) -> Line
    ensures found { result ≡ refused_line class place }
    ensures fits { LineFits result }
{
    match class {
        Class::Statement => Line::Statement(Reading::Syntax { place }),
        Class::End => Line::Bad,
        Class::Single => Line::Single(Single::Syntax { place }),
    }
}
