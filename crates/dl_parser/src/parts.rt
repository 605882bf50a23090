//! Parts that follow one another.

ghost use Rattle.std.specs.Prelude.{◌≡◌};
ghost use Rattle.dl_ast.specs.Grammar.{some_of};
ghost use Rattle.dl_parser.specs.Reading.{begins, first};
ghost use Rattle.dl_parser.specs.Parsing.{state, ReadsBy};

use crate::cursor::Parser;
use crate::stop::{Stop, only};
use dl_ast::Items;

/// A part that may occur any number of times: the first one, and the others, each of which may be
/// led by a word or a sign. The next token alone decides whether another one follows.
pub(crate) trait Part: Sized + Drop {
    ghost use Rattle.std.specs.Prelude.{true};
    ghost use Rattle.dl_ast.specs.Rules.{Rule, many};
    ghost use Rattle.dl_parser.specs.Reading.{is_plain};

    /// The rule of the first one.
    ghost first_rule: { Rule Self };

    /// The rule of each other one.
    ghost next_rule: { Rule Self };

    /// Reads the first one.
    fn first(parser: &mut Parser<'_>) -> Result<Self, Stop>
        ensures source { parser.new.source ≡ parser.old.source }
        ensures reads { ReadsBy first_rule parser.old parser.new result };

    /// Reads another one.
    fn next(parser: &mut Parser<'_>) -> Result<Self, Stop>
        ensures source { parser.new.source ≡ parser.old.source }
        ensures reads { ReadsBy next_rule parser.old parser.new result };

    /// Whether another one follows.
    fn is_next(parser: &Parser<'_>) -> bool
        ensures { result ≡ begins (first next_rule) (state parser.now).rest };

    ghost plain: { is_plain (many next_rule) ≡ true };
}

impl<'a> Parser<'a> {
    /// The first one, and all that follow it.
    #[tactic(auto, using(crate::proofs::Loops::loop_starts, crate::proofs::Loops::loop_ends))]
    pub(crate) fn parts<T: Part>(&mut self) -> Result<Items<T>, Stop>
        ensures source { self.new.source ≡ self.old.source }
        ensures reads { ReadsBy (some_of T.first_rule T.next_rule) self.old self.new result }
    {
        let mut parts = only(self.alloc, T::first(self)?)?;
        'parts: while T::is_next(self) {
            parts.push(T::next(self)?)?;
        }
        Ok(Items::from_vec(parts))
    }
}
