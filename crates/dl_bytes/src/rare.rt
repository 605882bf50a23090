//! A part that few nodes of the syntax have.

ghost use Rattle.std.specs.Prelude.{◌≡◌, IfOk, option_copied};

use std::alloc::{AllocError, Global};
use std::marker::Model;

/// A part that may be missing, kept outside of its node: a node without it spends one word on it.
#[derive(Drop)]
pub struct Rare<T> {
    part: Option<Box<T>>,
}

impl<T> Model for Rare<T> {
    ghost use Rattle.std.specs.Prelude.{Option, option_map};

    ghost Value = { Option T };

    ghost view = { λ rare. option_map (λ kept. kept.value) rare.part };
}

impl<T: Drop> Rare<T> {
    /// The part where there is one; takes memory only there.
    pub fn new(alloc: Global, part: Option<T>) -> Result<Rare<T>, AllocError>
        ensures { IfOk result (λ rare. rare ≡ part) }
    {
        Ok(Rare {
            part: match part {
                Some(part) => Some(Box::new(alloc, part)?),
                None => None,
            },
        })
    }

    /// The part.
    pub fn as_ref(&self) -> Option<&T>
        ensures { option_copied result ≡ self.now }
    {
        match &self.part {
            Some(part) => Some(part),
            None => None,
        }
    }
}
