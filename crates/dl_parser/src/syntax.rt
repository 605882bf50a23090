//! The program that the tokens of a text spell, or the place where they stop.

ghost use Rattle.std.specs.Prelude.{◌≡◌, ◌≤◌, ◌-◌, ◌==◌, length, IfOk, IfErr, if◌then◌else◌, ◌&&◌};
ghost use Rattle.dl_limits.specs.Limits.{most_text};
ghost use Rattle.dl_lexer.specs.Cutting.{Covers};
ghost use Rattle.dl_ast.specs.Prelude.{lexemes, Spells, program, IsWellFormed};
ghost use Rattle.dl_parser.specs.Reading.{begins, same_kind};
ghost use Rattle.dl_parser.specs.Parsing.{state};
ghost use Rattle.dl_parser.specs.Viable.{IsRefused, continuous};

use crate::cursor::Parser;
use crate::stop::Stop;
use dl_ast::Program;
use dl_lexer::{Keyword, Kind, Token};
use std::alloc::Global;
use thiserror::Error;

/// Why some tokens spell no program.
#[derive(Clone, Copy, Debug, PartialEq, Eq, Error)]
pub enum ParseFault {
    /// The greatest number of tokens that begin some program.
    #[error("no program goes on with token {0}")]
    Syntax(u32),
    /// That same number, where the token that follows is the word of a continuous severity and
    /// is in a severity's place.
    #[error("token {0} is a continuous severity")]
    Continuous(u32),
    /// Memory ran out.
    #[error("out of memory")]
    OutOfMemory,
}

impl<'a> Parser<'a> {
    /// Whether the next token is the word of a continuous severity.
    fn is_continuous_next(&self) -> bool
        ensures { result ≡ begins continuous (state self.now).rest }
    {
        self.is_any_next(&[
            Kind::Word(Keyword::Lognorm),
            Kind::Word(Keyword::Gamma),
            Kind::Word(Keyword::Expon),
            Kind::Word(Keyword::Pareto),
            Kind::Word(Keyword::Weibull),
            Kind::Word(Keyword::Norm),
            Kind::Word(Keyword::Uniform),
            Kind::Word(Keyword::Beta),
            Kind::Word(Keyword::Chistogram),
        ])
    }

    /// Whether all tokens are taken.
    fn is_at_end(&self) -> bool
        ensures { result ≡ (length self.now.rest.now == 0) }
    {
        self.rest.is_empty()
    }

    /// How many of these tokens are taken, where those that are left are the last of them.
    fn taken(&self, tokens: &[Token]) -> u32
        requires left { length self.now.rest.now ≤ length tokens.now }
        requires few { length tokens.now ≤ most_text }
        ensures { result ≡ length tokens.now - length self.now.rest.now }
    {
        (tokens.len() - self.rest.len()) as u32
    }

    /// Why the parser stops at token `at`, where a token of this kind is wanted.
    fn fault(&self, kind: Kind, at: u32) -> ParseFault
        ensures { result ≡ if same_kind kind (Kind.Word Keyword.Dhistogram)
            && begins continuous (state self.now).rest
            then ParseFault.Continuous at else ParseFault.Syntax at }
    {
        if kind == Kind::Word(Keyword::Dhistogram) && self.is_continuous_next() {
            ParseFault::Continuous(at)
        } else {
            ParseFault::Syntax(at)
        }
    }
}

/// The one program that the tokens of a text of at most 1,048,576 bytes spell. Else the number of
/// the first token with which no program goes on, counted from 0, or want of memory.
#[tactic(auto, using(crate::proofs::Covered::covered_inside, crate::proofs::Covered::covered_few))]
pub fn parse(alloc: Global, source: &[u8], tokens: &[Token]) -> Result<Program, ParseFault>
    requires covered { Covers source.now (length source.now) tokens.now }
    requires short { length source.now ≤ most_text }
    ensures spelled { IfOk result (λ p. Spells program p (lexemes source.now tokens.now)) }
    ensures formed { IfOk result (λ p. IsWellFormed p) }
    ensures refused { IfErr result (IsRefused (lexemes source.now tokens.now)) }
{
    let mut parser = Parser {
        alloc,
        source,
        rest: tokens,
        end: 0,
    };
    match parser.program() {
        Ok(program) => {
            if parser.is_at_end() {
                return Ok(program);
            }
            Err(ParseFault::Syntax(parser.taken(tokens)))
        }
        Err(Stop::Wanted(kind)) => Err(parser.fault(kind, parser.taken(tokens))),
        Err(Stop::OutOfMemory) => Err(ParseFault::OutOfMemory),
    }
}
