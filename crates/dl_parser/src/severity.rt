//! Severities.

ghost use Rattle.std.specs.Prelude.{◌≡◌};
ghost use Rattle.dl_ast.specs.Rules.{many};
ghost use Rattle.dl_parser.specs.Factored.{atom, weighted, mixture, cost, sev, defined, sevdef};
ghost use Rattle.dl_parser.specs.Reading.{begins, first, enters};
ghost use Rattle.dl_parser.specs.Parsing.{state, ReadsBy, Adds, AddsAnd};

use crate::cursor::Parser;
use crate::stop::{Stop, only};
use dl_ast::{Atom, Items, ListAst, MixAst, SevAst, SevBody, SevDef};
use dl_lexer::{Keyword, Kind, Sign, pair_of};

impl<'a> Parser<'a> {
    /// `'dsev' list list? | 'sev' 'dhistogram' 'xps' list list?`
    #[tactic(auto, unfolding(crate::specs::Factored::atom))]
    fn atom(&mut self) -> Result<Atom, Stop>
        ensures source { self.new.source ≡ self.old.source }
        ensures reads { ReadsBy atom self.old self.new result }
    {
        if self.is_next(Kind::Word(Keyword::Dsev)) {
            self.take(Kind::Word(Keyword::Dsev))?;
        } else {
            self.take(Kind::Word(Keyword::Sev))?;
            self.take(Kind::Word(Keyword::Dhistogram))?;
            self.take(Kind::Word(Keyword::Xps))?;
        }
        let (values, probs) = self.lists()?;
        Ok(Atom { values, probs })
    }

    /// Whether an atom follows.
    #[tactic(auto, unfolding(crate::specs::Factored::atom))]
    fn is_atom_next(&self) -> bool
        ensures { result ≡ begins (first atom) (state self.now).rest }
    {
        self.is_next(Kind::Word(Keyword::Dsev)) || self.is_next(Kind::Word(Keyword::Sev))
    }

    /// Whether further atoms follow, or the weights.
    #[tactic(auto, unfolding(crate::specs::Factored::weighted, crate::specs::Factored::atom))]
    fn is_weighted_next(&self) -> bool
        ensures { result ≡ begins (first weighted) (state self.now).rest }
    {
        self.is_next(Kind::Word(Keyword::Dsev))
            || self.is_next(Kind::Word(Keyword::Sev))
            || self.is_next(Kind::Word(Keyword::Wts))
    }

    /// `atom*`, behind those that are there.
    #[tactic(auto, using(crate::proofs::Loops::loop_at_start, crate::proofs::Loops::loop_ends))]
    fn more_atoms(&mut self, atoms: &mut Vec<Atom>) -> Result<(), Stop>
        ensures source { self.new.source ≡ self.old.source }
        ensures reads { Adds (many atom) self.old self.new atoms.old.items atoms.new.items result }
    {
        'atoms: while self.is_atom_next() {
            atoms.push(self.atom()?)?;
        }
        Ok(())
    }

    /// `atom* 'wts' list`, behind the atoms that are there; the weights.
    #[tactic(auto, unfolding(crate::specs::Factored::weighted))]
    fn weighted(&mut self, atoms: &mut Vec<Atom>) -> Result<ListAst, Stop>
        ensures source { self.new.source ≡ self.old.source }
        ensures reads { AddsAnd weighted self.old self.new atoms.old.items atoms.new.items result }
    {
        self.more_atoms(atoms)?;
        self.take(Kind::Word(Keyword::Wts))?;
        self.list()
    }

    /// A mixture of these atoms, from `start` to the last token taken.
    fn mixed(&self, atoms: Vec<Atom>, weights: Option<ListAst>, start: u32) -> MixAst
        ensures { result ≡ record {
          atoms = atoms.items;
          weights = weights;
          span = record { start = start; end = self.now.end };
        } }
    {
        MixAst {
            atoms: Items::from_vec(atoms),
            weights,
            span: self.since(start),
        }
    }

    /// `atom | atom atom* 'wts' list`
    #[tactic(auto, unfolding(crate::specs::Factored::mixture))]
    fn mixture(&mut self) -> Result<MixAst, Stop>
        ensures source { self.new.source ≡ self.old.source }
        ensures reads { ReadsBy mixture self.old self.new result }
    {
        let start = self.start();
        let mut atoms = only(self.alloc, self.atom()?)?;
        if !self.is_weighted_next() {
            return Ok(self.mixed(atoms, None, start));
        }
        let weights = self.weighted(&mut atoms)?;
        Ok(self.mixed(atoms, Some(weights), start))
    }

    /// `mixture | REF`
    #[tactic(auto, unfolding(crate::specs::Factored::cost, dl_ast::specs::Grammar::reference))]
    fn cost(&mut self) -> Result<SevBody, Stop>
        ensures source { self.new.source ≡ self.old.source }
        ensures reads { ReadsBy cost self.old self.new result }
    {
        if self.is_mixture_next() {
            return Ok(SevBody::Mixture(self.mixture()?));
        }
        Ok(SevBody::Ref(self.reference()?))
    }

    /// Whether a mixture follows.
    #[tactic(auto, unfolding(crate::specs::Factored::mixture, crate::specs::Factored::atom))]
    fn is_mixture_next(&self) -> bool
        ensures { result ≡ begins (first mixture) (state self.now).rest }
    {
        self.is_atom_next()
    }

    /// A severity from `start` to the last token taken.
    fn severity(&self, body: SevBody, bang: bool, start: u32) -> SevAst
        ensures { result ≡ record {
          body = body;
          bang = bang;
          span = record { start = start; end = self.now.end };
        } }
    {
        SevAst {
            body,
            bang,
            span: self.since(start),
        }
    }

    /// `cost '!'?`
    #[tactic(auto, unfolding(crate::specs::Factored::sev))]
    pub(crate) fn sev(&mut self) -> Result<SevAst, Stop>
        ensures source { self.new.source ≡ self.old.source }
        ensures reads { ReadsBy sev self.old self.new result }
    {
        let start = self.start();
        let body = self.cost()?;
        if !self.is_next(Kind::Sign(Sign::Bang)) {
            return Ok(self.severity(body, false, start));
        }
        let (body, _) = pair_of(body, self.take(Kind::Sign(Sign::Bang)))?;
        Ok(self.severity(body, true, start))
    }

    /// Whether the mixture of a definition goes on: further atoms follow, or the weights, and no
    /// other definition does.
    fn is_defined_further(&self) -> bool
        ensures { result ≡ enters (Kind.Word Keyword.Sev) Kind.Name (first weighted)
            (state self.now).rest }
    {
        if self.are_next(Kind::Word(Keyword::Sev), Kind::Name) {
            return false;
        }
        self.is_weighted_next()
    }

    /// `mixture`, where a definition may follow.
    #[tactic(auto, unfolding(crate::specs::Factored::defined))]
    fn defined(&mut self) -> Result<MixAst, Stop>
        ensures source { self.new.source ≡ self.old.source }
        ensures reads { ReadsBy defined self.old self.new result }
    {
        let start = self.start();
        let mut atoms = only(self.alloc, self.atom()?)?;
        if !self.is_defined_further() {
            return Ok(self.mixed(atoms, None, start));
        }
        let weights = self.weighted(&mut atoms)?;
        Ok(self.mixed(atoms, Some(weights), start))
    }

    /// `'sev' NAME mixture`
    #[tactic(auto, unfolding(crate::specs::Factored::sevdef))]
    fn definition(&mut self) -> Result<SevDef, Stop>
        ensures source { self.new.source ≡ self.old.source }
        ensures reads { ReadsBy sevdef self.old self.new result }
    {
        let start = self.start();
        self.take(Kind::Word(Keyword::Sev))?;
        let (name, mix) = pair_of(self.name()?, self.defined())?;
        Ok(SevDef {
            name,
            mix,
            span: self.since(start),
        })
    }

    /// Whether a definition follows.
    #[tactic(auto, unfolding(crate::specs::Factored::sevdef))]
    fn is_definition_next(&self) -> bool
        ensures { result ≡ begins (first sevdef) (state self.now).rest }
    {
        self.is_next(Kind::Word(Keyword::Sev))
    }

    /// `sevdef*`
    #[tactic(auto, using(crate::proofs::Loops::loop_at_start, crate::proofs::Loops::loop_ends))]
    pub(crate) fn definitions(&mut self) -> Result<Items<SevDef>, Stop>
        ensures source { self.new.source ≡ self.old.source }
        ensures reads { ReadsBy (many sevdef) self.old self.new result }
    {
        let mut made = Vec::new(self.alloc);
        'definitions: while self.is_definition_next() {
            made.push(self.definition()?)?;
        }
        Ok(Items::from_vec(made))
    }
}
