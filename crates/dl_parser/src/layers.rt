//! Layers.

ghost use Rattle.std.specs.Prelude.{◌≡◌};
ghost use Rattle.dl_ast.specs.Prelude.{maybe, ◌≫◌, limit, layer};
ghost use Rattle.dl_parser.specs.Reading.{begins, first};
ghost use Rattle.dl_parser.specs.Parsing.{state, ReadsBy};

use crate::cursor::Parser;
use crate::stop::Stop;
use dl_ast::{Layer, LimitAst};
use dl_lexer::{Keyword, Kind, pair_of};

impl<'a> Parser<'a> {
    /// `NUMERAL | 'inf'`
    #[tactic(auto, unfolding(dl_ast::specs::Grammar::limit, dl_ast::specs::Grammar::numeral))]
    fn limit(&mut self) -> Result<LimitAst, Stop>
        ensures source { self.new.source ≡ self.old.source }
        ensures reads { ReadsBy limit self.old self.new result }
    {
        if self.is_next(Kind::Numeral) {
            return Ok(LimitAst::Finite(self.numeral()?));
        }
        self.take(Kind::Word(Keyword::Inf))?;
        Ok(LimitAst::Infinite)
    }

    /// `limit 'xs' NUMERAL`
    #[tactic(auto, unfolding(dl_ast::specs::Grammar::layer))]
    pub(crate) fn layer(&mut self) -> Result<Layer, Stop>
        ensures source { self.new.source ≡ self.old.source }
        ensures reads { ReadsBy layer self.old self.new result }
    {
        let start = self.start();
        let (limit, _) = pair_of(self.limit()?, self.take(Kind::Word(Keyword::Xs)))?;
        let (limit, attach) = pair_of(limit, self.numeral())?;
        Ok(Layer {
            limit,
            attach,
            span: self.since(start),
        })
    }

    /// A token of this kind, then `layer`
    #[tactic(auto, unfolding(dl_ast::specs::Grammar::layer))]
    pub(crate) fn layer_behind(&mut self, kind: Kind) -> Result<Layer, Stop>
        ensures source { self.new.source ≡ self.old.source }
        ensures reads { ReadsBy (kind ≫ layer) self.old self.new result }
    {
        self.take(kind)?;
        self.layer()
    }

    /// Whether a layer follows.
    #[tactic(auto, unfolding(dl_ast::specs::Grammar::layer, dl_ast::specs::Grammar::limit, dl_ast::specs::Grammar::numeral,))]
    fn is_layer_next(&self) -> bool
        ensures { result ≡ begins (first layer) (state self.now).rest }
    {
        self.is_next(Kind::Numeral) || self.is_next(Kind::Word(Keyword::Inf))
    }

    /// `layer?`
    pub(crate) fn layer_option(&mut self) -> Result<Option<Layer>, Stop>
        ensures source { self.new.source ≡ self.old.source }
        ensures reads { ReadsBy (maybe layer) self.old self.new result }
    {
        if !self.is_layer_next() {
            return Ok(None);
        }
        Ok(Some(self.layer()?))
    }
}
