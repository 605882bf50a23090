//! Severities.

ghost use Rattle.std.specs.Prelude.{◌≡◌, OnOk};
ghost use Rattle.dl_printer.specs.Pieces.{optional, weights_pieces, mixture_pieces, bang_pieces};
ghost use Rattle.dl_printer.specs.Pieces.{cost_pieces, sev_pieces};
ghost use Rattle.dl_printer.specs.Printing.{with_pieces};

use crate::parts::Printed;
use crate::printer::Printer;
use dl_ast::{Atom, ListAst, MixAst, SevAst, SevBody, SevDef};
use dl_lexer::{Keyword, Sign};
use std::alloc::AllocError;

impl Printed for Atom {
    ghost use Rattle.dl_printer.specs.Pieces.{atom_pieces};

    ghost pieces = { atom_pieces };

    #[tactic(auto, using(crate::proofs::Growing::with_append), unfolding(crate::specs::Pieces::atom_pieces))]
    fn print(&self, printer: &mut Printer) -> Result<(), AllocError> {
        printer.word(Keyword::Dsev)?;
        self.values.print(printer)?;
        printer.option(&self.probs)
    }
}

impl Printer {
    /// The weights of the atoms, where there are some.
    #[tactic(auto, using(crate::proofs::Growing::with_append), unfolding(crate::specs::Pieces::optional, crate::specs::Printing::with_pieces))]
    fn weights(&mut self, weights: &Option<ListAst>) -> Result<(), AllocError>
        ensures { OnOk result (self.new ≡ with_pieces self.old
            (optional weights_pieces weights.now)) }
    {
        match weights {
            Some(weights) => {
                self.word(Keyword::Wts)?;
                weights.print(self)
            }
            None => Ok(()),
        }
    }

    /// The final `!`, where there is one.
    #[tactic(auto, unfolding(crate::specs::Pieces::bang_pieces, crate::specs::Printing::with_pieces))]
    fn bang(&mut self, bang: bool) -> Result<(), AllocError>
        ensures { OnOk result (self.new ≡ with_pieces self.old (bang_pieces bang)) }
    {
        if !bang {
            return Ok(());
        }
        self.sign(Sign::Bang)
    }

    /// A mixture.
    #[tactic(auto, using(crate::proofs::Growing::with_append), unfolding(crate::specs::Pieces::mixture_pieces))]
    fn mixture(&mut self, mix: &MixAst) -> Result<(), AllocError>
        ensures { OnOk result (self.new ≡ with_pieces self.old (mixture_pieces mix.now)) }
    {
        self.each(mix.atoms.as_slice())?;
        self.weights(&mix.weights)
    }

    /// The amounts of one claim.
    #[tactic(auto, unfolding(crate::specs::Pieces::cost_pieces))]
    fn cost(&mut self, body: &SevBody) -> Result<(), AllocError>
        ensures { OnOk result (self.new ≡ with_pieces self.old (cost_pieces body.now)) }
    {
        match body {
            SevBody::Mixture(mix) => self.mixture(mix),
            SevBody::Ref(name) => self.reference(name),
        }
    }

    /// A severity.
    #[tactic(auto, using(crate::proofs::Growing::with_append), unfolding(crate::specs::Pieces::sev_pieces))]
    pub(crate) fn sev(&mut self, sev: &SevAst) -> Result<(), AllocError>
        ensures { OnOk result (self.new ≡ with_pieces self.old (sev_pieces sev.now)) }
    {
        self.cost(&sev.body)?;
        self.bang(sev.bang)
    }
}

impl Printed for SevDef {
    ghost use Rattle.dl_printer.specs.Pieces.{definition_pieces};

    ghost pieces = { definition_pieces };

    #[tactic(auto, using(crate::proofs::Growing::with_append), unfolding(crate::specs::Pieces::definition_pieces))]
    fn print(&self, printer: &mut Printer) -> Result<(), AllocError> {
        printer.word(Keyword::Sev)?;
        printer.name(&self.name)?;
        printer.mixture(&self.mix)
    }
}
