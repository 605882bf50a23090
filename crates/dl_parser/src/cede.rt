//! Clauses that cede layers, of each claim or of a unit's sum.

ghost use Rattle.std.specs.Prelude.{◌≡◌};
ghost use Rattle.dl_ast.specs.Prelude.{maybe, side};
ghost use Rattle.dl_parser.specs.Factored.{whole_of, layers, clause};
ghost use Rattle.dl_parser.specs.Parsing.{ReadsBy};

use crate::cursor::Parser;
use crate::parts::Part;
use crate::stop::Stop;
use dl_ast::{CededLayer, Cession, Items, Layer, LimitAst, Numeral, Share};
use dl_lexer::{Keyword, Kind, pair_of};

impl<'a> Parser<'a> {
    /// A layer that is ceded whole, from `start` to the last token taken.
    fn whole(&self, limit: LimitAst, attach: Numeral, start: u32) -> CededLayer
        ensures { result ≡ whole_of limit attach (record { start = start; end = self.now.end }) }
    {
        let span = self.since(start);
        CededLayer {
            share: Share::Whole,
            layer: Layer {
                limit,
                attach,
                span,
            },
            span,
        }
    }

    /// A share of a layer, from `start` to the last token taken.
    fn share(&self, share: Share, layer: Layer, start: u32) -> CededLayer
        ensures { result ≡ record {
          share = share;
          layer = layer;
          span = record { start = start; end = self.now.end };
        } }
    {
        CededLayer {
            share,
            layer,
            span: self.since(start),
        }
    }
}

impl Part for CededLayer {
    ghost use Rattle.dl_parser.specs.Plain as grammar;
    ghost use Rattle.dl_parser.specs.Factored.{cession, next_cession};

    ghost first_rule = { cession };

    ghost next_rule = { next_cession };

    /// `layer | NUMERAL 'so' layer | NUMERAL 'po' layer`
    #[tactic(auto, unfolding(crate::specs::Factored::cession))]
    fn first(parser: &mut Parser<'_>) -> Result<CededLayer, Stop> {
        let start = parser.start();
        if parser.is_next(Kind::Word(Keyword::Inf)) {
            parser.take(Kind::Word(Keyword::Inf))?;
            let attach = parser.numeral_behind(Kind::Word(Keyword::Xs))?;
            return Ok(parser.whole(LimitAst::Infinite, attach, start));
        }
        let number = parser.numeral()?;
        if parser.is_next(Kind::Word(Keyword::Xs)) {
            let attach = parser.numeral_behind(Kind::Word(Keyword::Xs));
            let (number, attach) = pair_of(number, attach)?;
            return Ok(parser.whole(LimitAst::Finite(number), attach, start));
        }
        if parser.is_next(Kind::Word(Keyword::So)) {
            let layer = parser.layer_behind(Kind::Word(Keyword::So));
            let (number, layer) = pair_of(number, layer)?;
            return Ok(parser.share(Share::So(number), layer, start));
        }
        let layer = parser.layer_behind(Kind::Word(Keyword::Po));
        let (number, layer) = pair_of(number, layer)?;
        Ok(parser.share(Share::Po(number), layer, start))
    }

    /// `'and' cession`
    #[tactic(auto, unfolding(crate::specs::Factored::next_cession))]
    fn next(parser: &mut Parser<'_>) -> Result<CededLayer, Stop> {
        parser.take(Kind::Word(Keyword::And))?;
        CededLayer::first(parser)
    }

    #[tactic(auto, unfolding(crate::specs::Factored::next_cession))]
    fn is_next(parser: &Parser<'_>) -> bool {
        parser.is_next(Kind::Word(Keyword::And))
    }

    ghost plain = { grammar.plain.by_cessions };
}

impl<'a> Parser<'a> {
    /// `'net' 'of' | 'ceded' 'to'`, whether it is the first.
    #[tactic(auto, unfolding(dl_ast::specs::Grammar::side))]
    fn side(&mut self) -> Result<bool, Stop>
        ensures source { self.new.source ≡ self.old.source }
        ensures reads { ReadsBy side self.old self.new result }
    {
        if self.is_next(Kind::Word(Keyword::Net)) {
            return self.take_pair(Kind::Word(Keyword::Net), Kind::Word(Keyword::Of), true);
        }
        self.take_pair(Kind::Word(Keyword::Ceded), Kind::Word(Keyword::To), false)
    }

    /// `cession ('and' cession)*`
    #[tactic(auto, unfolding(crate::specs::Factored::layers))]
    fn layers(&mut self) -> Result<Items<CededLayer>, Stop>
        ensures source { self.new.source ≡ self.old.source }
        ensures reads { ReadsBy layers self.old self.new result }
    {
        self.parts()
    }

    /// The word of the clause, then `side cession ('and' cession)*`
    #[tactic(auto, unfolding(crate::specs::Factored::clause))]
    fn clause(&mut self, word: Kind) -> Result<Cession, Stop>
        ensures source { self.new.source ≡ self.old.source }
        ensures reads { ReadsBy (clause word) self.old self.new result }
    {
        let start = self.start();
        self.take(word)?;
        let net = self.side()?;
        let layers = self.layers()?;
        Ok(Cession {
            net,
            layers,
            span: self.since(start),
        })
    }

    /// The clause that begins with this word, or none.
    #[tactic(auto, unfolding(crate::specs::Factored::clause))]
    pub(crate) fn clause_option(&mut self, word: Kind) -> Result<Option<Cession>, Stop>
        ensures source { self.new.source ≡ self.old.source }
        ensures reads { ReadsBy (maybe (clause word)) self.old self.new result }
    {
        if !self.is_next(word) {
            return Ok(None);
        }
        Ok(Some(self.clause(word)?))
    }
}
