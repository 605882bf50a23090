//! A text that grows by one token at a time.

ghost use Rattle.std.specs.Prelude.{◌≡◌, [], ◌∷◌, ◌++◌, codes, IfOk, OnOk};
ghost use Rattle.dl_lexer.specs.declared.token.Sign.{Sign};
ghost use Rattle.dl_lexer.specs.Tokens.{sign_byte};
ghost use Rattle.dl_printer.specs.Pieces.{piece, word_piece, sign_piece, name_piece, numeral_piece};
ghost use Rattle.dl_printer.specs.Pieces.{note_piece, ref_piece};
ghost use Rattle.dl_printer.specs.Canonical.{is_tight_behind, is_tight_before, begins_line};
ghost use Rattle.dl_printer.specs.Canonical.{between};
ghost use Rattle.dl_printer.specs.Printing.{with_pieces};

use dl_ast::{NameAst, Numeral};
use dl_lexer::{Keyword, Kind, Sign, Text};
use std::alloc::{AllocError, Global};
use std::marker::Model;

/// Whether no gap follows a token of this kind.
fn is_tight_behind(kind: Kind) -> bool
    ensures { result ≡ is_tight_behind kind }
{
    match kind {
        Kind::Sign(Sign::Open) | Kind::Sign(Sign::Colon) => true,
        _ => false,
    }
}

/// Whether no gap precedes a token of this kind.
fn is_tight_before(kind: Kind) -> bool
    ensures { result ≡ is_tight_before kind }
{
    match kind {
        Kind::Sign(Sign::Close) | Kind::Sign(Sign::Colon) => true,
        _ => false,
    }
}

/// Whether a token of this kind begins a line.
fn begins_line(kind: Kind) -> bool
    ensures { result ≡ begins_line kind }
{
    match kind {
        Kind::Word(Keyword::Agg) | Kind::Word(Keyword::Port) | Kind::Word(Keyword::Sev) => true,
        _ => false,
    }
}

/// The gap between tokens of these kinds.
#[tactic(auto, unfolding(crate::specs::Canonical::between))]
fn between(last: Kind, kind: Kind) -> &'static [u8]
    ensures { result.now ≡ between last kind }
{
    if is_tight_behind(last) || is_tight_before(kind) {
        return b"";
    }
    if begins_line(kind) { b"\n" } else { b" " }
}

/// The byte of a sign.
fn byte_of(sign: Sign) -> &'static [u8]
    ensures { result.now ≡ sign_byte sign ∷ [] }
{
    match sign {
        Sign::Open => b"[",
        Sign::Close => b"]",
        Sign::Colon => b":",
        Sign::Comma => b",",
        Sign::Bang => b"!",
    }
}

/// The text so far.
#[derive(Drop)]
pub(crate) struct Printer {
    text: Vec<u8>,
    last: Option<Kind>,
}

impl Model for Printer {
    ghost use Rattle.dl_printer.specs.Printing.{SoFar};

    ghost Value = { SoFar };

    ghost view = { λ p. record { text = p.text.items; last = p.last } };
}

impl Printer {
    /// No text.
    pub(crate) fn new(alloc: Global) -> Printer
        ensures { result ≡ record { text = []; last = None } }
    {
        Printer {
            text: Vec::new(alloc),
            last: None,
        }
    }

    /// A token, with the gap before it.
    #[tactic(auto, unfolding(crate::specs::Canonical::gap, crate::specs::Printing::with_pieces, crate::specs::Pieces::piece,))]
    fn write(&mut self, kind: Kind, bytes: &[u8]) -> Result<(), AllocError>
        ensures { OnOk result (self.new ≡ with_pieces self.old (piece kind bytes.now)) }
    {
        if let Some(last) = self.last {
            self.text.extend_from_slice(between(last, kind))?;
        }
        self.text.extend_from_slice(bytes)?;
        self.last = Some(kind);
        Ok(())
    }

    /// A token of two parts, with the gap before it.
    #[tactic(auto, using(crate::proofs::Growing::in_two_parts), unfolding(crate::specs::Canonical::gap, crate::specs::Printing::with_pieces, crate::specs::Pieces::piece,))]
    fn write_pair(&mut self, kind: Kind, front: &[u8], back: &[u8]) -> Result<(), AllocError>
        ensures { OnOk result (self.new
            ≡ with_pieces self.old (piece kind (front.now ++ back.now))) }
    {
        if let Some(last) = self.last {
            self.text.extend_from_slice(between(last, kind))?;
        }
        self.text.extend_from_slice(front)?;
        self.text.extend_from_slice(back)?;
        self.last = Some(kind);
        Ok(())
    }

    /// A keyword.
    pub(crate) fn word(&mut self, keyword: Keyword) -> Result<(), AllocError>
        ensures { OnOk result (self.new ≡ with_pieces self.old (word_piece keyword)) }
    {
        self.write(Kind::Word(keyword), keyword.spelling())
    }

    /// A sign.
    pub(crate) fn sign(&mut self, sign: Sign) -> Result<(), AllocError>
        ensures { OnOk result (self.new ≡ with_pieces self.old (sign_piece sign)) }
    {
        self.write(Kind::Sign(sign), byte_of(sign))
    }

    /// A name.
    pub(crate) fn name(&mut self, name: &NameAst) -> Result<(), AllocError>
        ensures { OnOk result (self.new ≡ with_pieces self.old (name_piece name.now)) }
    {
        self.write(Kind::Name, name.text.as_slice())
    }

    /// A reference to the severity of this name.
    pub(crate) fn reference(&mut self, name: &NameAst) -> Result<(), AllocError>
        ensures { OnOk result (self.new ≡ with_pieces self.old (ref_piece name.now)) }
    {
        self.write_pair(Kind::Ref, b"sev.", name.text.as_slice())
    }

    /// A numeral.
    pub(crate) fn numeral(&mut self, numeral: &Numeral) -> Result<(), AllocError>
        ensures { OnOk result (self.new ≡ with_pieces self.old (numeral_piece numeral.now)) }
    {
        self.write(Kind::Numeral, numeral.text.as_slice())
    }

    /// A note.
    pub(crate) fn note(&mut self, note: &Text) -> Result<(), AllocError>
        ensures { OnOk result (self.new ≡ with_pieces self.old (note_piece note.now)) }
    {
        self.write(Kind::Note, note.as_slice())
    }

    /// The bytes of the text, and a newline.
    pub(crate) fn finish(self) -> Result<Vec<u8>, AllocError>
        ensures { IfOk result (λ text. text.items ≡ self.text ++ codes "\n") }
    {
        let mut text = self.text;
        text.push(b'\n')?;
        Ok(text)
    }
}
