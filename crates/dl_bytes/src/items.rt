//! A list of parts that one thing owns, as a node of the syntax.

ghost use Rattle.std.specs.Prelude.{◌≡◌};

use std::marker::Model;

/// Some parts, in the order of the text.
#[derive(Drop)]
pub struct Items<T> {
    items: Vec<T>,
}

impl<T> Model for Items<T> {
    ghost use Rattle.std.specs.Prelude.{List};

    ghost Value = { List T };

    ghost view = { λ parts. parts.items.items };
}

impl<T> Items<T> {
    /// The parts of a vector; takes no memory.
    pub fn from_vec(v: Vec<T>) -> Items<T>
        ensures { result ≡ v.items }
    {
        Items { items: v }
    }

    /// The parts.
    pub fn as_slice(&self) -> &[T]
        ensures { result.now ≡ self.now }
    {
        &self.items
    }

    /// The parts as a vector; takes no memory.
    pub fn into_vec(self) -> Vec<T>
        ensures { result.items ≡ self }
    {
        self.items
    }
}
