//! Lists of numbers.

ghost use Rattle.std.specs.Prelude.{◌≡◌, OnOk};
ghost use Rattle.dl_printer.specs.Pieces.{optional, behind_colon};
ghost use Rattle.dl_printer.specs.Printing.{with_pieces};

use crate::parts::Printed;
use crate::printer::Printer;
use dl_ast::{ListAst, ListItem, Numeral};
use dl_lexer::{Rare, Sign};
use std::alloc::AllocError;

impl Printer {
    /// A numeral behind a colon, where there is one.
    #[tactic(auto, using(crate::proofs::Growing::with_append), unfolding(crate::specs::Pieces::optional, crate::specs::Printing::with_pieces))]
    fn behind_colon(&mut self, numeral: &Rare<Numeral>) -> Result<(), AllocError>
        ensures { OnOk result (self.new ≡ with_pieces self.old
            (optional behind_colon numeral.now)) }
    {
        match numeral.as_ref() {
            Some(numeral) => {
                self.sign(Sign::Colon)?;
                self.numeral(numeral)
            }
            None => Ok(()),
        }
    }
}

impl Printed for ListItem {
    ghost use Rattle.dl_printer.specs.Pieces.{item_pieces};

    ghost pieces = { item_pieces };

    #[tactic(auto, using(crate::proofs::Growing::with_append), unfolding(crate::specs::Pieces::item_pieces))]
    fn print(&self, printer: &mut Printer) -> Result<(), AllocError> {
        printer.numeral(&self.from)?;
        printer.behind_colon(&self.to)?;
        printer.behind_colon(&self.step)
    }
}

impl Printed for ListAst {
    ghost use Rattle.dl_printer.specs.Pieces.{list_pieces};

    ghost pieces = { list_pieces };

    #[tactic(auto, using(crate::proofs::Growing::with_append), unfolding(crate::specs::Pieces::list_pieces))]
    fn print(&self, printer: &mut Printer) -> Result<(), AllocError> {
        printer.sign(Sign::Open)?;
        printer.each(self.items.as_slice())?;
        printer.sign(Sign::Close)
    }
}
