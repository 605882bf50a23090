//! Parts of one kind: each of several, and one that may be left out.

ghost use Rattle.std.specs.Prelude.{◌≡◌, flat_map, OnOk};
ghost use Rattle.dl_printer.specs.Pieces.{optional};
ghost use Rattle.dl_printer.specs.Printing.{with_pieces};

use crate::printer::Printer;
use std::alloc::AllocError;

/// A node of the syntax that is printed alike in every place.
pub(crate) trait Printed {
    ghost use Rattle.std.specs.Prelude.{List};
    ghost use Rattle.dl_printer.specs.Pieces.{Piece};

    /// Its tokens.
    ghost pieces: { Self → List Piece };

    /// Puts them at the end of the text.
    fn print(&self, printer: &mut Printer) -> Result<(), AllocError>
        ensures { OnOk result (printer.new ≡ with_pieces printer.old (pieces self.now)) };
}

impl Printer {
    /// Each of some parts, in order.
    #[tactic(auto, using(crate::proofs::Growing::with_each), unfolding(crate::specs::Printing::with_pieces))]
    pub(crate) fn each<T: Printed>(&mut self, parts: &[T]) -> Result<(), AllocError>
        ensures { OnOk result (self.new ≡ with_pieces self.old (flat_map T.pieces parts.now)) }
    {
        for part in parts {
            part.print(self)?;
        }
        Ok(())
    }

    /// A part, where there is one.
    #[tactic(auto, unfolding(crate::specs::Pieces::optional, crate::specs::Printing::with_pieces))]
    pub(crate) fn option<T: Printed>(&mut self, part: &Option<T>) -> Result<(), AllocError>
        ensures { OnOk result (self.new ≡ with_pieces self.old (optional T.pieces part.now)) }
    {
        match part {
            Some(part) => part.print(self),
            None => Ok(()),
        }
    }
}
