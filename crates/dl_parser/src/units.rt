//! Units and programs.

ghost use Rattle.std.specs.Prelude.{◌≡◌};
ghost use Rattle.dl_ast.specs.Prelude.{maybe, claims, count, zero_change, plain_or, freq, common, head};
ghost use Rattle.dl_parser.specs.Factored.{ratio, exposure, loss, ending, closing, exposed, listed, counted, body, named, units, book, program};
ghost use Rattle.dl_parser.specs.Reading.{begins, first};
ghost use Rattle.dl_parser.specs.Parsing.{state, ReadsBy};

use crate::cursor::Parser;
use crate::parts::Part;
use crate::stop::{Stop, only};
use dl_ast::{
    Cession, CountAst, Exposure, FreqAst, Items, Layer, NameAst, Numeral, PortHead, Program,
    SevAst, UnitAst, ZeroAst,
};
use dl_lexer::{Keyword, Kind, Text, pair_of};

/// The sizes of a unit's claims: `layer? sev occ?`.
#[derive(Drop)]
struct Loss {
    layer: Option<Layer>,
    sev: SevAst,
    occ: Option<Cession>,
}

/// A unit but for its name.
#[derive(Drop)]
struct Body {
    count: CountAst,
    loss: Loss,
    agr: Option<Cession>,
    note: Option<Text>,
}

impl Body {
    /// The unit of this name.
    fn named(self, name: NameAst) -> UnitAst
        ensures { result ≡ named name self }
    {
        UnitAst {
            name,
            count: self.count,
            layer: self.loss.layer,
            sev: self.loss.sev,
            occ: self.loss.occ,
            agr: self.agr,
            note: self.note,
        }
    }
}

/// The change of the probability of no claim, which is none where nothing is written.
fn plain_or(zero: Option<ZeroAst>) -> ZeroAst
    ensures { result ≡ plain_or zero }
{
    match zero {
        Some(zero) => zero,
        None => ZeroAst::Plain,
    }
}

impl<'a> Parser<'a> {
    /// `'fixed' | 'poisson' | 'geometric' | 'bernoulli' | 'binomial' NUMERAL | 'mixed' 'gamma'
    /// NUMERAL`
    #[tactic(auto, unfolding(dl_ast::specs::Grammar::count))]
    fn count(&mut self) -> Result<FreqAst, Stop>
        ensures source { self.new.source ≡ self.old.source }
        ensures reads { ReadsBy count self.old self.new result }
    {
        let start = self.start();
        if self.is_next(Kind::Word(Keyword::Fixed)) {
            self.take(Kind::Word(Keyword::Fixed))?;
            return Ok(FreqAst::Fixed(self.since(start)));
        }
        if self.is_next(Kind::Word(Keyword::Poisson)) {
            self.take(Kind::Word(Keyword::Poisson))?;
            return Ok(FreqAst::Poisson(self.since(start)));
        }
        if self.is_next(Kind::Word(Keyword::Geometric)) {
            self.take(Kind::Word(Keyword::Geometric))?;
            return Ok(FreqAst::Geometric(self.since(start)));
        }
        if self.is_next(Kind::Word(Keyword::Bernoulli)) {
            self.take(Kind::Word(Keyword::Bernoulli))?;
            return Ok(FreqAst::Bernoulli(self.since(start)));
        }
        if self.is_next(Kind::Word(Keyword::Binomial)) {
            let number = self.numeral_behind(Kind::Word(Keyword::Binomial))?;
            return Ok(FreqAst::Binomial(number, self.since(start)));
        }
        self.take(Kind::Word(Keyword::Mixed))?;
        let number = self.numeral_behind(Kind::Word(Keyword::Gamma))?;
        Ok(FreqAst::Gamma(number, self.since(start)))
    }

    /// `'zt' | 'zm' NUMERAL`
    #[tactic(auto, unfolding(dl_ast::specs::Grammar::zero_change))]
    fn zero_change(&mut self) -> Result<ZeroAst, Stop>
        ensures source { self.new.source ≡ self.old.source }
        ensures reads { ReadsBy zero_change self.old self.new result }
    {
        let start = self.start();
        if self.is_next(Kind::Word(Keyword::Zt)) {
            self.take(Kind::Word(Keyword::Zt))?;
            return Ok(ZeroAst::Truncated(self.since(start)));
        }
        let number = self.numeral_behind(Kind::Word(Keyword::Zm))?;
        Ok(ZeroAst::Modified(number, self.since(start)))
    }

    /// Whether `'zt'` follows, or `'zm'`.
    #[tactic(auto, unfolding(dl_ast::specs::Grammar::zero_change))]
    fn is_zero_change_next(&self) -> bool
        ensures { result ≡ begins (first zero_change) (state self.now).rest }
    {
        self.is_next(Kind::Word(Keyword::Zt)) || self.is_next(Kind::Word(Keyword::Zm))
    }

    /// `('zt' | 'zm' NUMERAL)?`
    fn zero_option(&mut self) -> Result<Option<ZeroAst>, Stop>
        ensures source { self.new.source ≡ self.old.source }
        ensures reads { ReadsBy (maybe zero_change) self.old self.new result }
    {
        if !self.is_zero_change_next() {
            return Ok(None);
        }
        Ok(Some(self.zero_change()?))
    }

    /// `count ('zt' | 'zm' NUMERAL)?`
    #[tactic(auto, unfolding(dl_ast::specs::Grammar::freq))]
    fn freq(&mut self) -> Result<(FreqAst, ZeroAst), Stop>
        ensures source { self.new.source ≡ self.old.source }
        ensures reads { ReadsBy freq self.old self.new result }
    {
        let (count, zero) = pair_of(self.count()?, self.zero_option())?;
        Ok((count, plain_or(zero)))
    }

    /// `'premium' 'at' NUMERAL 'lr'`
    #[tactic(auto, unfolding(crate::specs::Factored::ratio, dl_ast::specs::Grammar::premium))]
    fn ratio(&mut self) -> Result<Numeral, Stop>
        ensures source { self.new.source ≡ self.old.source }
        ensures reads { ReadsBy ratio self.old self.new result }
    {
        self.take_either(Kind::Word(Keyword::Prem), Kind::Word(Keyword::Premium))?;
        self.take(Kind::Word(Keyword::At))?;
        let (ratio, _) = pair_of(self.numeral()?, self.take(Kind::Word(Keyword::Lr)))?;
        Ok(ratio)
    }

    /// Whether `'claims'` follows, or `'claim'`.
    #[tactic(auto, unfolding(dl_ast::specs::Grammar::claims))]
    fn is_claims_next(&self) -> bool
        ensures { result ≡ begins (first claims) (state self.now).rest }
    {
        self.is_next(Kind::Word(Keyword::Claim)) || self.is_next(Kind::Word(Keyword::Claims))
    }

    /// `NUMERAL 'claims' | NUMERAL 'loss' | NUMERAL 'premium' 'at' NUMERAL 'lr'`
    #[tactic(auto, unfolding(crate::specs::Factored::exposure, dl_ast::specs::Grammar::claims))]
    fn exposure(&mut self) -> Result<Exposure, Stop>
        ensures source { self.new.source ≡ self.old.source }
        ensures reads { ReadsBy exposure self.old self.new result }
    {
        let start = self.start();
        let number = self.numeral()?;
        if self.is_claims_next() {
            let claims = self.take_either(Kind::Word(Keyword::Claim), Kind::Word(Keyword::Claims));
            let (number, _) = pair_of(number, claims)?;
            return Ok(Exposure::Claims(number, self.since(start)));
        }
        if self.is_next(Kind::Word(Keyword::Loss)) {
            let (number, _) = pair_of(number, self.take(Kind::Word(Keyword::Loss)))?;
            return Ok(Exposure::Loss(number, self.since(start)));
        }
        let (amount, ratio) = pair_of(number, self.ratio())?;
        Ok(Exposure::Premium {
            amount,
            ratio,
            span: self.since(start),
        })
    }

    /// `'dfreq' list list?`
    #[tactic(auto, unfolding(crate::specs::Factored::listed))]
    fn listed(&mut self) -> Result<CountAst, Stop>
        ensures source { self.new.source ≡ self.old.source }
        ensures reads { ReadsBy listed self.old self.new result }
    {
        let start = self.start();
        self.take(Kind::Word(Keyword::Dfreq))?;
        let (counts, probs) = self.lists()?;
        Ok(CountAst::Listed {
            counts,
            probs,
            span: self.since(start),
        })
    }

    /// `layer? sev occ?`
    #[tactic(auto, unfolding(crate::specs::Factored::loss))]
    fn loss(&mut self) -> Result<Loss, Stop>
        ensures source { self.new.source ≡ self.old.source }
        ensures reads { ReadsBy loss self.old self.new result }
    {
        let layered = pair_of(self.layer_option()?, self.sev())?;
        let occ = self.clause_option(Kind::Word(Keyword::Occurrence));
        let ((layer, sev), occ) = pair_of(layered, occ)?;
        Ok(Loss { layer, sev, occ })
    }

    /// `agr? NOTE?`
    #[tactic(auto, unfolding(crate::specs::Factored::ending))]
    fn ending(&mut self) -> Result<(Option<Cession>, Option<Text>), Stop>
        ensures source { self.new.source ≡ self.old.source }
        ensures reads { ReadsBy ending self.old self.new result }
    {
        let agr = self.clause_option(Kind::Word(Keyword::Aggregate))?;
        pair_of(agr, self.note_option())
    }

    /// `freq agr? NOTE?`
    #[tactic(auto, unfolding(crate::specs::Factored::closing))]
    fn closing(&mut self) -> Result<((FreqAst, ZeroAst), (Option<Cession>, Option<Text>)), Stop>
        ensures source { self.new.source ≡ self.old.source }
        ensures reads { ReadsBy closing self.old self.new result }
    {
        pair_of(self.freq()?, self.ending())
    }

    /// `exposure layer? sev occ? freq agr? NOTE?`
    #[tactic(auto, unfolding(crate::specs::Factored::exposed))]
    fn exposed(&mut self) -> Result<Body, Stop>
        ensures source { self.new.source ≡ self.old.source }
        ensures reads { ReadsBy exposed self.old self.new result }
    {
        let exposed = pair_of(self.exposure()?, self.loss())?;
        let ((exposure, loss), ((freq, zero), (agr, note))) = pair_of(exposed, self.closing())?;
        Ok(Body {
            count: CountAst::Exposed {
                exposure,
                freq,
                zero,
            },
            loss,
            agr,
            note,
        })
    }

    /// `'dfreq' list list? layer? sev occ? agr? NOTE?`
    #[tactic(auto, unfolding(crate::specs::Factored::counted))]
    fn counted(&mut self) -> Result<Body, Stop>
        ensures source { self.new.source ≡ self.old.source }
        ensures reads { ReadsBy counted self.old self.new result }
    {
        let counted = pair_of(self.listed()?, self.loss())?;
        let ((count, loss), (agr, note)) = pair_of(counted, self.ending())?;
        Ok(Body {
            count,
            loss,
            agr,
            note,
        })
    }

    /// What follows a unit's name: the next token decides which of the two.
    #[tactic(auto, unfolding(crate::specs::Factored::body, crate::specs::Factored::counted, crate::specs::Factored::listed,))]
    fn body(&mut self) -> Result<Body, Stop>
        ensures source { self.new.source ≡ self.old.source }
        ensures reads { ReadsBy body self.old self.new result }
    {
        if self.is_next(Kind::Word(Keyword::Dfreq)) {
            return self.counted();
        }
        self.exposed()
    }
}

impl Part for UnitAst {
    ghost use Rattle.dl_parser.specs.Plain as grammar;
    ghost use Rattle.dl_parser.specs.Factored.{unit};

    ghost first_rule = { unit };

    ghost next_rule = { unit };

    /// `'agg' NAME`, and what follows the name.
    #[tactic(auto, unfolding(crate::specs::Factored::unit))]
    fn first(parser: &mut Parser<'_>) -> Result<UnitAst, Stop> {
        parser.take(Kind::Word(Keyword::Agg))?;
        let (name, body) = pair_of(parser.name()?, parser.body())?;
        Ok(body.named(name))
    }

    fn next(parser: &mut Parser<'_>) -> Result<UnitAst, Stop> {
        UnitAst::first(parser)
    }

    #[tactic(auto, unfolding(crate::specs::Factored::unit))]
    fn is_next(parser: &Parser<'_>) -> bool {
        parser.is_next(Kind::Word(Keyword::Agg))
    }

    ghost plain = { grammar.plain.by_units };
}

impl<'a> Parser<'a> {
    /// `('common' NUMERAL)?`
    #[tactic(auto, unfolding(dl_ast::specs::Grammar::common))]
    fn common_option(&mut self) -> Result<Option<Numeral>, Stop>
        ensures source { self.new.source ≡ self.old.source }
        ensures reads { ReadsBy (maybe common) self.old self.new result }
    {
        if !self.is_next(Kind::Word(Keyword::Common)) {
            return Ok(None);
        }
        Ok(Some(self.numeral_behind(Kind::Word(Keyword::Common))?))
    }

    /// `'port' NAME ('common' NUMERAL)? NOTE?`
    #[tactic(auto, unfolding(dl_ast::specs::Grammar::head))]
    fn head(&mut self) -> Result<PortHead, Stop>
        ensures source { self.new.source ≡ self.old.source }
        ensures reads { ReadsBy head self.old self.new result }
    {
        self.take(Kind::Word(Keyword::Port))?;
        let (name, common) = pair_of(self.name()?, self.common_option())?;
        let ((name, common), note) = pair_of((name, common), self.note_option())?;
        Ok(PortHead { name, common, note })
    }

    /// `unit unit*`
    #[tactic(auto, unfolding(crate::specs::Factored::units))]
    fn units(&mut self) -> Result<Items<UnitAst>, Stop>
        ensures source { self.new.source ≡ self.old.source }
        ensures reads { ReadsBy units self.old self.new result }
    {
        self.parts()
    }

    /// `unit | head unit unit*`
    #[tactic(auto, unfolding(crate::specs::Factored::book))]
    fn book(&mut self) -> Result<(Option<PortHead>, Items<UnitAst>), Stop>
        ensures source { self.new.source ≡ self.old.source }
        ensures reads { ReadsBy book self.old self.new result }
    {
        if UnitAst::is_next(self) {
            let units = only(self.alloc, UnitAst::first(self)?)?;
            return Ok((None, Items::from_vec(units)));
        }
        let (head, units) = pair_of(self.head()?, self.units())?;
        Ok((Some(head), units))
    }

    /// `sevdef* book`
    #[tactic(auto, unfolding(crate::specs::Factored::program))]
    pub(crate) fn program(&mut self) -> Result<Program, Stop>
        ensures source { self.new.source ≡ self.old.source }
        ensures reads { ReadsBy program self.old self.new result }
    {
        let (sevs, (port, units)) = pair_of(self.definitions()?, self.book())?;
        Ok(Program { sevs, port, units })
    }
}
