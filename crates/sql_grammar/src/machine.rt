//! The machine that reads a sentence, token by token.

ghost use Rattle.std.specs.Prelude.{◌≡◌, ◌++◌, ◌∷◌, [], IfOk, OnOk, MatchOption, IsTrue, ◌↔◌, List};
ghost use Rattle.std.specs.Option.{option_to_list};
ghost use Rattle.sql_grammar.specs.Grammar.{content_of};

use crate::grammar::{Class, Rule, Symbol};
use crate::table::{class_of, right_side};
use sql_lexer::Token;
use sql_parts::Op;
use std::alloc::{AllocError, Global};
use std::marker::Model;
use values::Seq;

/// What is left of a right side behind which others go on first.
#[derive(Drop)]
struct Left {
    next: Symbol,
    rest: &'static [Symbol],
}

/// The symbols that are expected: those of the innermost right side, and what is left of each that it stands in, the
/// innermost at the end. Contracts see them all, the next one first.
#[derive(Drop)]
struct Expected {
    side: &'static [Symbol],
    outer: Vec<Left>,
}

impl Model for Expected {
    ghost use Rattle.std.specs.Prelude.{◌++◌, List};
    ghost use Rattle.sql_grammar.specs.Expected.{left};
    ghost use Rattle.sql_grammar.specs.declared.grammar.Symbol.{Symbol};

    ghost Value = { List Symbol };

    ghost view = { λ e. e.side.now ++ left e.outer.items };
}

impl Expected {
    fn one(alloc: Global, symbol: Symbol) -> Result<Expected, AllocError>
        ensures { IfOk result (λ e. e ≡ symbol ∷ []) }
    {
        let mut outer = Vec::new(alloc);
        outer.push(Left {
            next: symbol,
            rest: &[],
        })?;
        Ok(Expected { side: &[], outer })
    }

    #[tactic(auto, using(crate::proofs::Stack::above))]
    fn pop(&mut self) -> Option<Symbol>
        ensures { MatchOption result ((self.old ≡ []) × (self.new ≡ [])) (λ next. self.old ≡ next ∷ self.new) }
    {
        match self.side {
            [next, rest @ ..] => {
                self.side = rest;
                Some(*next)
            }
            [] => {
                let left = self.outer.pop()?;
                self.side = left.rest;
                Some(left.next)
            }
        }
    }

    /// Expects these symbols before all others.
    #[tactic(auto, using(crate::proofs::Stack::above))]
    fn push(&mut self, symbols: &'static [Symbol]) -> Result<(), AllocError>
        ensures { OnOk result (self.new ≡ symbols.now ++ self.old) }
    {
        if let [next, rest @ ..] = self.side {
            self.outer.push(Left { next: *next, rest })?;
        }
        self.side = symbols;
        Ok(())
    }
}

/// A sentence that is read up to some token.
#[derive(Drop)]
pub struct Machine {
    expected: Expected,
    ops: Seq<Op>,
}

impl Machine {
    ghost use Rattle.sql_lexer.specs.declared.token.Token.{Token};
    ghost use Rattle.sql_grammar.specs.declared.grammar.Class.TheVariants.{End};
    ghost use Rattle.sql_grammar.specs.declared.grammar.Rule.{Rule};
    ghost use Rattle.sql_grammar.specs.Derivation.{IsIn};
    ghost use Rattle.sql_grammar.specs.Machine.{Ends, Continues, Stands, Takes, Wants};
    ghost use Rattle.sql_grammar.specs.Table.{follow};

    /// Before the first token of a sentence of the rule.
    pub fn new(alloc: Global, rule: Rule) -> Result<Machine, AllocError>
        requires { IsIn End (follow rule) }
        ensures { IfOk result (λ m. Stands rule [] m.expected m.ops) }
    {
        Ok(Machine {
            expected: Expected::one(alloc, Symbol::Use(rule))?,
            ops: Seq::new(alloc),
        })
    }

    // Goes on to the next token that is wanted, which is to have this class; none where the sentence is over.
    fn settle(&mut self, class: Class) -> Result<Option<Class>, AllocError>
        ensures { IfOk result (λ wanted. (r : Rule) (so_far : List Token)
            → Continues r so_far class self.old.expected self.old.ops
            → Wants wanted r so_far class self.new.expected self.new.ops) }
    {
        while let Some(symbol) = self.expected.pop() {
            match symbol {
                Symbol::Take(wanted) => return Ok(Some(wanted)),
                Symbol::Put(action) => self.ops.push(Op::Act(action))?,
                Symbol::Use(rule) => self.expected.push(right_side(rule, class))?,
            }
        }
        Ok(None)
    }

    /// Takes the next token; false where the tokens so far and this one begin no sentence.
    pub fn take(&mut self, token: Token) -> Result<bool, AllocError>
        ensures { IfOk result (λ taken. (r : Rule) (so_far : List Token)
            → Stands r so_far self.old.expected self.old.ops
            → Takes taken r so_far token self.new.expected self.new.ops) }
    {
        let class = class_of(&token);
        if !is_wanted(class, self.settle(class)?) {
            return Ok(false);
        }
        if let Some(op) = content(token) {
            self.ops.push(op)?;
        }
        Ok(true)
    }

    /// Whether the tokens so far are a sentence.
    pub fn finish(&mut self) -> Result<bool, AllocError>
        ensures { IfOk result (λ ended. (r : Rule) (so_far : List Token)
            → Stands r so_far self.old.expected self.old.ops
            → Ends ended r so_far self.new.ops) }
    {
        Ok(self.settle(Class::End)?.is_none())
    }

    /// What the sentence put out.
    pub fn into_ops(self) -> Seq<Op>
        ensures { result ≡ self.ops }
    {
        self.ops
    }
}

fn is_wanted(class: Class, wanted: Option<Class>) -> bool
    ensures { IsTrue result ↔ (wanted ≡ Some class) }
{
    wanted == Some(class)
}

// What a token puts out, if it has a content.
fn content(token: Token) -> Option<Op>
    ensures { option_to_list result ≡ content_of token }
{
    match token {
        Token::Name(name) => Some(Op::Name(name)),
        Token::Integer(number) => Some(Op::Integer(number)),
        Token::Text(text) => Some(Op::Text(text)),
        Token::LongText(text) => Some(Op::LongText(text)),
        Token::Keyword(_keyword) => None,
        Token::Sign(_sign) => None,
        Token::LongWord | Token::BigInteger => None,
    }
}
