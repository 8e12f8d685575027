//! Reading a line.

ghost use Rattle.std.specs.Prelude.{◌≡◌, ◌<◌, ◌^◌, List, IfOk, IfErr, length};
ghost use Rattle.sql_lexer.specs.declared.token.Token.{Token};
ghost use Rattle.sql_lexer.specs.Lexes.{Lexes};
ghost use Rattle.sql_grammar.specs.declared.grammar.Rule.TheVariants as rule;
ghost use Rattle.sql_parts.specs.declared.parsed.Parsed.{Parsed};
ghost use Rattle.sql_text.specs.Line.{BrokenLinesSayNothing, HasLimits, IsRefused, LinesBreakAtOnePlace, Spells};
ghost use Rattle.sql_grammar.specs.Machine.{Stands};
ghost use Rattle.sql_text.specs.Places.{AllBefore, IsWithin, tokens_of};
ghost use Rattle.sql_text.specs.Reading.{IsRefusedAmong, IsRefusedEarly, IsRefusedFor, IsSaid};

use retro_base::Refusal;
use sql_build::assemble;
use sql_grammar::{Machine, Rule};
use sql_lexer::{Ending, Lexed, Placed, lex, one_reading};
use sql_parts::Parsed;
use std::alloc::Global;
use values::Seq;

fn syntax(place: usize) -> Refusal
    requires { place < 2 ^ 32 }
    ensures { result ≡ Refusal.Syntax place }
{
    Refusal::Syntax {
        place: place as u32,
    }
}

// The machine behind all tokens, if they begin a sentence.
fn begin(alloc: Global, tokens: Seq<Placed>) -> Result<Machine, Refusal>
    requires { AllBefore (2 ^ 32) tokens }
    ensures ok { IfOk result (λ m. Stands rule.Sentence (tokens_of tokens) m.expected m.ops) }
    ensures err { IfErr result (IsRefusedAmong tokens) }
{
    let mut machine = Machine::new(alloc, Rule::Sentence)?;
    let tokens: Vec<Placed> = Vec::from(tokens);
    for placed in tokens {
        if !machine.take(placed.token)? {
            return Err(syntax(placed.place));
        }
    }
    Ok(machine)
}

// What the tokens that the machine took say, if they are a sentence.
fn finish(alloc: Global, mut machine: Machine, end: usize) -> Result<Parsed, Refusal>
    requires end { end < 2 ^ 32 }
    requires stands { (ts : List Token) × Stands rule.Sentence ts machine.expected machine.ops }
    ensures ok { IfOk result (λ p. (ts : List Token) → Stands rule.Sentence ts machine.expected machine.ops →
        IsSaid ts p) }
    ensures err { IfErr result (λ e. (ts : List Token) → Stands rule.Sentence ts machine.expected machine.ops →
        IsRefusedEarly ts end e) }
{
    if !machine.finish()? {
        return Err(syntax(end));
    }
    match assemble(alloc, machine.into_ops())? {
        Some(parsed) => Ok(parsed),
        None => unreachable!(),
    }
}

// What the tokens of a line with this end say.
fn read(alloc: Global, lexed: Lexed, end: usize) -> Result<Parsed, Refusal>
    requires places { IsWithin end lexed }
    requires end { end < 2 ^ 32 }
    ensures ok { IfOk result (λ p. (lexed.ending ≡ Ending.Whole) × IsSaid (tokens_of lexed.tokens) p) }
    ensures err { IfErr result (IsRefusedFor lexed end) }
{
    let Lexed { tokens, ending } = lexed;
    match ending {
        Ending::BadByte { place } => Err(syntax(place)),
        Ending::Unclosed => {
            begin(alloc, tokens)?;
            Err(syntax(end))
        }
        Ending::Whole => finish(alloc, begin(alloc, tokens)?, end),
    }
}

/// What a line says whose tokens are at hand, as `parse` does.
pub fn parse_lexed(alloc: Global, line: &[u8], lexed: Lexed) -> Result<Parsed, Refusal>
    requires length { length line.now < 2 ^ 32 }
    requires lexed { Lexes 0 line.now lexed.tokens lexed.ending }
    ensures found { IfOk result (λ p. Spells line.now p) }
    ensures only { IfOk result (λ p. (q : Parsed) → Spells line.now q → q ≡ p) }
    ensures limits { IfOk result (λ p. HasLimits p) }
    ensures refused { IfErr result (λ e. IsRefused line.now e) }
{
    one_reading();
    read(alloc, lexed, line.len())
}

/// What the line says. Refused for want of memory, or as bad syntax: at the first byte that is part of no token; else
/// at the token with which the tokens so far begin no sentence; else at the line's end.
pub fn parse(alloc: Global, line: &[u8]) -> Result<Parsed, Refusal>
    requires { length line.now < 2 ^ 32 }
    ensures found { IfOk result (λ p. Spells line.now p) }
    ensures only { IfOk result (λ p. (q : Parsed) → Spells line.now q → q ≡ p) }
    ensures limits { IfOk result (λ p. HasLimits p) }
    ensures refused { IfErr result (λ e. IsRefused line.now e) }
{
    let lexed = lex(alloc, line)?;
    parse_lexed(alloc, line, lexed)
}

/// The law that the two answers of `parse` exclude each other.
pub fn broken_lines_say_nothing()
    ensures { BrokenLinesSayNothing }
{
    one_reading();
}

/// The law that the place of a refusal is the only one.
pub fn lines_break_at_one_place()
    ensures { LinesBreakAtOnePlace }
{
    one_reading();
}
