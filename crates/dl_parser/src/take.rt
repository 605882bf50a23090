//! One token at a time.

ghost use Rattle.std.specs.Prelude.{◌≡◌, ◌-◌, ℕ, List, [], ◌∷◌, IfOk, IfErr, take, drop};
ghost use Rattle.dl_ast.specs.Prelude.{lexemes, one, ◌or◌, maybe, ◌≫◌, ◌means◌, numeral, name, note, reference};
ghost use Rattle.dl_parser.specs.Reading.{among, begins, start_of, two_at};
ghost use Rattle.dl_parser.specs.Within.{Inside};
ghost use Rattle.dl_parser.specs.Parsing.{state, ReadsBy, TakesBy};

use crate::cursor::Parser;
use crate::stop::Stop;
use dl_ast::{NameAst, Numeral};
use dl_lexer::{Kind, Span, Text, Token};

/// Whether a kind is one of these.
fn is_among(kind: Kind, kinds: &[Kind]) -> bool
    ensures { result ≡ among kind kinds.now }
{
    kinds.iter().any(|other| kind == *other)
}

/// Whether the first of these tokens is of this kind.
fn is_first(tokens: &[Token], kind: Kind) -> bool
    ensures { (source : List ℕ) → result ≡ begins (kind ∷ []) (lexemes source tokens.now) }
{
    match tokens.first() {
        Some(token) => token.kind == kind,
        None => false,
    }
}

impl<'a> Parser<'a> {
    /// Whether the next token is of this kind.
    pub(crate) fn is_next(&self, kind: Kind) -> bool
        ensures { result ≡ begins (kind ∷ []) (state self.now).rest }
    {
        match self.rest.first() {
            Some(token) => token.kind == kind,
            None => false,
        }
    }

    /// Whether the next two tokens are of these kinds.
    pub(crate) fn are_next(&self, kind: Kind, behind: Kind) -> bool
        ensures { result ≡ two_at kind behind (state self.now).rest }
    {
        match self.rest.split_first() {
            Some((token, rest)) => token.kind == kind && is_first(rest, behind),
            None => false,
        }
    }

    /// Whether the next token is of one of these kinds.
    pub(crate) fn is_any_next(&self, kinds: &[Kind]) -> bool
        ensures { result ≡ begins kinds.now (state self.now).rest }
    {
        match self.rest.first() {
            Some(token) => is_among(token.kind, kinds),
            None => false,
        }
    }

    /// Where the next token starts.
    pub(crate) fn start(&self) -> u32
        ensures { result ≡ start_of (state self.now).end (state self.now).rest }
    {
        match self.rest.first() {
            Some(token) => token.span.start,
            None => self.end,
        }
    }

    /// From there to the end of the last token taken.
    pub(crate) fn since(&self, start: u32) -> Span
        ensures { result ≡ record { start = start; end = self.now.end } }
    {
        Span {
            start,
            end: self.end,
        }
    }

    /// Takes a token of this kind.
    pub(crate) fn take(&mut self, kind: Kind) -> Result<Token, Stop>
        ensures source { self.new.source ≡ self.old.source }
        ensures reads { TakesBy (one kind) self.old self.new result }
        ensures inside { IfOk result (λ t. Inside self.old.source.now t.span) }
    {
        match self.rest.split_first() {
            Some((token, rest)) if token.kind == kind => {
                self.rest = rest;
                self.end = token.span.end;
                Ok(*token)
            }
            _ => Err(Stop::Wanted(kind)),
        }
    }

    /// Takes a token of one of these two kinds.
    pub(crate) fn take_either(&mut self, kind: Kind, other: Kind) -> Result<Token, Stop>
        ensures source { self.new.source ≡ self.old.source }
        ensures reads { TakesBy (one kind or one other) self.old self.new result }
    {
        if self.is_next(kind) {
            return self.take(kind);
        }
        self.take(other)
    }

    /// Takes a token of one kind and one of another behind it, which mean this together.
    pub(crate) fn take_pair<T: Copy>(
        &mut self,
        kind: Kind,
        behind: Kind,
        meaning: T,
    ) -> Result<T, Stop>
        ensures source { self.new.source ≡ self.old.source }
        ensures reads { ReadsBy (kind ≫ behind means meaning) self.old self.new result }
    {
        self.take(kind)?;
        self.take(behind)?;
        Ok(meaning)
    }

    /// The text of a token.
    fn text(&self, span: Span) -> Result<Text, Stop>
        requires { Inside self.now.source.now span }
        ensures reads { IfOk result
            (λ text. text ≡ take (span.end - span.start) (drop span.start self.now.source.now)) }
        ensures err { IfErr result (λ e. e ≡ Stop.OutOfMemory) }
    {
        let bytes = &self.source[span.start as usize..span.end as usize];
        Ok(Text::copy(self.alloc, bytes)?)
    }

    /// `NUMERAL`
    #[tactic(auto, unfolding(dl_ast::specs::Grammar::numeral))]
    pub(crate) fn numeral(&mut self) -> Result<Numeral, Stop>
        ensures source { self.new.source ≡ self.old.source }
        ensures reads { ReadsBy numeral self.old self.new result }
    {
        let token = self.take(Kind::Numeral)?;
        Ok(Numeral {
            text: self.text(token.span)?,
            span: token.span,
        })
    }

    /// A token of this kind, then `NUMERAL`
    #[tactic(auto, unfolding(dl_ast::specs::Grammar::numeral))]
    pub(crate) fn numeral_behind(&mut self, kind: Kind) -> Result<Numeral, Stop>
        ensures source { self.new.source ≡ self.old.source }
        ensures reads { ReadsBy (kind ≫ numeral) self.old self.new result }
    {
        self.take(kind)?;
        self.numeral()
    }

    /// `NAME`
    #[tactic(auto, unfolding(dl_ast::specs::Grammar::name))]
    pub(crate) fn name(&mut self) -> Result<NameAst, Stop>
        ensures source { self.new.source ≡ self.old.source }
        ensures reads { ReadsBy name self.old self.new result }
    {
        let token = self.take(Kind::Name)?;
        Ok(NameAst {
            text: self.text(token.span)?,
            span: token.span,
        })
    }

    /// `REF`, by the name behind its `sev.`.
    #[tactic(auto, unfolding(dl_ast::specs::Grammar::reference))]
    pub(crate) fn reference(&mut self) -> Result<NameAst, Stop>
        ensures source { self.new.source ≡ self.old.source }
        ensures reads { ReadsBy reference self.old self.new result }
    {
        let token = self.take(Kind::Ref)?;
        Ok(NameAst {
            text: self.name_behind(token.span)?,
            span: token.span,
        })
    }

    /// The text of a token but for its first four bytes, or no bytes where it has fewer.
    fn name_behind(&self, span: Span) -> Result<Text, Stop>
        requires { Inside self.now.source.now span }
        ensures reads { IfOk result (λ text. text
            ≡ drop 4 (take (span.end - span.start) (drop span.start self.now.source.now))) }
        ensures err { IfErr result (λ e. e ≡ Stop.OutOfMemory) }
    {
        let bytes = &self.source[span.start as usize..span.end as usize];
        Ok(Text::copy(self.alloc, &bytes[bytes.len().min(4)..])?)
    }

    /// `NOTE`
    #[tactic(auto, unfolding(dl_ast::specs::Grammar::note))]
    fn note(&mut self) -> Result<Text, Stop>
        ensures source { self.new.source ≡ self.old.source }
        ensures reads { ReadsBy note self.old self.new result }
    {
        let token = self.take(Kind::Note)?;
        self.text(token.span)
    }

    /// `NOTE?`
    #[tactic(auto, unfolding(dl_ast::specs::Grammar::note))]
    pub(crate) fn note_option(&mut self) -> Result<Option<Text>, Stop>
        ensures source { self.new.source ≡ self.old.source }
        ensures reads { ReadsBy (maybe note) self.old self.new result }
    {
        if !self.is_next(Kind::Note) {
            return Ok(None);
        }
        Ok(Some(self.note()?))
    }
}
