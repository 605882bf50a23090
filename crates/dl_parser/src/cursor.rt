//! The place of a parser.

ghost use Rattle.dl_parser.specs.Within.{AllInside};

use dl_lexer::Token;
use std::alloc::Global;

/// The tokens that are left, and the end of the last one taken.
#[derive(Drop)]
pub(crate) struct Parser<'a> {
    pub(crate) alloc: Global,
    pub(crate) source: &'a [u8],
    pub(crate) rest: &'a [Token],
    pub(crate) end: u32,
    ghost inside: { AllInside source.now rest.now },
}
