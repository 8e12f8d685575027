//! Splits a line into its tokens.

ghost use Rattle.std.specs.Prelude.{◌≡◌, ◌<◌, ◌≤◌, ◌-◌, ◌^◌, ◌∷◌, ◌↔◌, ℕ, List, IsTrue};
ghost use Rattle.std.specs.Prelude.{IfOk, IfSome, IfNone, length, min, slice_index};
ghost use Rattle.std.specs.Char.{is_ascii_digit};
ghost use Rattle.std.specs.List.{AllByRecursion, prefix_len};
ghost use Rattle.std.specs.Str.Parse.{digits_value};
ghost use Rattle.values.specs.Name.{begins_word, continues_word};
ghost use Rattle.sql_lexer.specs.Front.{IsFront, IsFirstToken};
ghost use Rattle.sql_lexer.specs.Lexes.{EveryLineLexes, HasOneReading, Lexes, is_blank};
ghost use Rattle.sql_lexer.specs.Token.{IsWord, IsNumber, Spells, quote, quoted, sign_bytes, goes_on};
ghost use Rattle.values.specs.Text.{IsPrintable};

use crate::keyword::keyword_of;
use crate::token::{Ending, Lexed, Placed, Sign, Token};
use std::alloc::{AllocError, Global};
use values::{NAME_BYTES, Name, Seq, TEXT_BYTES, Text, begins_word, continues_word, is_printable};

const QUOTE: u8 = b'\'';

/// What stands at the front of the rest of a line.
#[derive(Drop)]
enum Front {
    Blank,
    Token { token: Token, length: usize },
    BadByte { offset: usize },
    Unclosed,
}

/// The tokens of a line, each with its place, and how they end. Refused for want of memory alone.
pub fn lex(alloc: Global, line: &[u8]) -> Result<Lexed, AllocError>
    ensures { IfOk result (λ lexed. Lexes 0 line.now lexed.tokens lexed.ending) }
{
    // Most tokens take two bytes or more.
    let mut tokens = Seq::from(Vec::with_capacity(alloc, line.len() / 2)?);
    let mut place = 0;
    while place < line.len() {
        match front_of(alloc, &line[place..])? {
            Front::Blank => place += 1,
            Front::Token { token, length } => {
                tokens.push(Placed { token, place })?;
                place += length;
            }
            Front::BadByte { offset } => {
                let place = place + offset;
                return Ok(Lexed {
                    tokens,
                    ending: Ending::BadByte { place },
                });
            }
            Front::Unclosed => {
                return Ok(Lexed {
                    tokens,
                    ending: Ending::Unclosed,
                });
            }
        }
    }
    Ok(Lexed {
        tokens,
        ending: Ending::Whole,
    })
}

/// The law of one reading: no line has two lists of tokens or two endings.
pub fn one_reading()
    ensures { HasOneReading }
{}

/// The law of every line: each has a list of tokens and an ending.
pub fn every_line_lexes()
    ensures { EveryLineLexes }
{}

fn front_of(alloc: Global, bytes: &[u8]) -> Result<Front, AllocError>
    requires { 0 < length bytes.now }
    ensures { IfOk result (IsFront bytes.now) }
{
    let first = bytes[0];
    if is_blank(first) {
        Ok(Front::Blank)
    } else if begins_word(first) {
        word_at(alloc, bytes)
    } else if first.is_ascii_digit() {
        Ok(digits_at(bytes))
    } else if first == QUOTE {
        text_at(alloc, bytes)
    } else if let Some(sign) = sign_at(bytes) {
        Ok(Front::Token {
            token: Token::Sign(sign),
            length: sign.bytes().len(),
        })
    } else {
        Ok(Front::BadByte { offset: 0 })
    }
}

fn is_blank(byte: u8) -> bool
    ensures { result ≡ is_blank byte }
{
    byte == b' ' || byte == b'\t'
}

fn word_at(alloc: Global, bytes: &[u8]) -> Result<Front, AllocError>
    requires some { 0 < length bytes.now }
    requires word { IsTrue (begins_word (slice_index bytes.now 0)) }
    ensures { IfOk result (IsFront bytes.now) }
{
    let length = word_length(bytes);
    let token = word_token(alloc, &bytes[..length])?;
    Ok(Front::Token { token, length })
}

fn word_length(bytes: &[u8]) -> usize
    ensures { result ≡ prefix_len continues_word bytes.now }
{
    bytes
        .iter()
        .take_while(|byte| continues_word(**byte))
        .count()
}

fn word_token(alloc: Global, word: &[u8]) -> Result<Token, AllocError>
    requires { IsWord word.now }
    ensures spelt { IfOk result (Spells word.now) }
    ensures word { IfOk result (λ t. goes_on t ≡ continues_word) }
{
    if word.len() > NAME_BYTES {
        return Ok(Token::LongWord);
    }
    if let Some(keyword) = keyword_of(word) {
        return Ok(Token::Keyword(keyword));
    }
    Ok(Token::Name(Name::new(Seq::from(word.to_vec(alloc)?))))
}

fn digits_at(bytes: &[u8]) -> Front
    requires some { 0 < length bytes.now }
    requires digit { IsTrue (is_ascii_digit (slice_index bytes.now 0)) }
    ensures { IsFront bytes.now result }
{
    let length = digits_length(bytes);
    let token = number_token(&bytes[..length]);
    Front::Token { token, length }
}

fn digits_length(bytes: &[u8]) -> usize
    ensures { result ≡ prefix_len is_ascii_digit bytes.now }
{
    bytes
        .iter()
        .take_while(|byte| byte.is_ascii_digit())
        .count()
}

fn number_token(digits: &[u8]) -> Token
    requires { IsNumber digits.now }
    ensures spelt { Spells digits.now result }
    ensures number { goes_on result ≡ is_ascii_digit }
{
    match i64::try_from(saturating_number(digits)) {
        Ok(number) => Token::Integer(number),
        Err(_) => Token::BigInteger,
    }
}

fn saturating_number(digits: &[u8]) -> u64
    requires { IsNumber digits.now }
    ensures { result ≡ min (2 ^ 64 - 1) (digits_value 10 digits.now) }
{
    let mut number: u64 = 0;
    for digit in digits {
        number = number
            .saturating_mul(10)
            .saturating_add(u64::from(*digit - b'0'));
    }
    number
}

fn text_at(alloc: Global, bytes: &[u8]) -> Result<Front, AllocError>
    requires some { 0 < length bytes.now }
    requires quoted { slice_index bytes.now 0 ≡ quote }
    ensures { IfOk result (IsFront bytes.now) }
{
    let mut text = Vec::new(alloc);
    let mut end = 1;
    while end < bytes.len() {
        let byte = bytes[end];
        if byte == QUOTE {
            end += 1;
            if end == bytes.len() || bytes[end] != QUOTE {
                let token = text_token(text);
                return Ok(Front::Token { token, length: end });
            }
        } else if !is_printable(byte) {
            return Ok(Front::BadByte { offset: end });
        }
        text.push(byte)?;
        end += 1;
    }
    Ok(Front::Unclosed)
}

fn text_token(text: Vec<u8>) -> Token
    requires { AllByRecursion IsPrintable text.items }
    ensures { Spells (quoted text.items) result }
{
    if text.len() > TEXT_BYTES {
        Token::LongText(Seq::from(text))
    } else {
        Token::Text(Text::new(Seq::from(text)))
    }
}

fn sign_at(bytes: &[u8]) -> Option<Sign>
    requires { 0 < length bytes.now }
    ensures sign { IfSome result
        (λ s. IsFirstToken bytes.now (Token.Sign s) (length (sign_bytes s))) }
    ensures none { IfNone result
        ((s : Sign) (more : List ℕ) → sign_bytes s ≡ slice_index bytes.now 0 ∷ more → ⊥) }
{
    match bytes[0] {
        b'(' => Some(Sign::Open),
        b')' => Some(Sign::Close),
        b',' => Some(Sign::Comma),
        b'.' => Some(Sign::Dot),
        b'*' => Some(Sign::Star),
        b'+' => Some(Sign::Plus),
        b'-' => Some(Sign::Minus),
        b'=' => Some(Sign::Equal),
        b'<' => match bytes.get(1) {
            Some(b'>') => Some(Sign::NotEqual),
            Some(b'=') => Some(Sign::AtMost),
            _ => Some(Sign::Less),
        },
        b'>' => match bytes.get(1) {
            Some(b'=') => Some(Sign::AtLeast),
            _ => Some(Sign::Greater),
        },
        _ => None,
    }
}
