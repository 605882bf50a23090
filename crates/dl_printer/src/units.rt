//! Units and programs.

ghost use Rattle.std.specs.Prelude.{◌≡◌, OnOk};
ghost use Rattle.dl_printer.specs.Pieces.{freq_pieces, exposure_pieces, listed_pieces};
ghost use Rattle.dl_printer.specs.Pieces.{zero_pieces, count_pieces, late_count_pieces};
ghost use Rattle.dl_printer.specs.Pieces.{optional, common_pieces, program_pieces};
ghost use Rattle.dl_printer.specs.Printing.{with_pieces};

use crate::parts::Printed;
use crate::printer::Printer;
use dl_ast::{CountAst, Exposure, FreqAst, ListAst, Numeral, PortHead, Program, UnitAst, ZeroAst};
use dl_lexer::{Keyword, Text};
use std::alloc::AllocError;

impl Printer {
    /// The distribution of the claim count.
    #[tactic(auto, using(crate::proofs::Growing::with_append), unfolding(crate::specs::Pieces::freq_pieces))]
    fn freq(&mut self, freq: &FreqAst) -> Result<(), AllocError>
        ensures { OnOk result (self.new ≡ with_pieces self.old (freq_pieces freq.now)) }
    {
        match freq {
            FreqAst::Fixed(_) => self.word(Keyword::Fixed),
            FreqAst::Poisson(_) => self.word(Keyword::Poisson),
            FreqAst::Geometric(_) => self.word(Keyword::Geometric),
            FreqAst::Bernoulli(_) => self.word(Keyword::Bernoulli),
            FreqAst::Binomial(probability, _) => {
                self.word(Keyword::Binomial)?;
                self.numeral(probability)
            }
            FreqAst::Gamma(variation, _) => {
                self.word(Keyword::Mixed)?;
                self.word(Keyword::Gamma)?;
                self.numeral(variation)
            }
        }
    }

    /// The change of the probability of no claim.
    #[tactic(auto, using(crate::proofs::Growing::with_append), unfolding(crate::specs::Pieces::zero_pieces, crate::specs::Printing::with_pieces))]
    fn zero(&mut self, zero: &ZeroAst) -> Result<(), AllocError>
        ensures { OnOk result (self.new ≡ with_pieces self.old (zero_pieces zero.now)) }
    {
        match zero {
            ZeroAst::Plain => Ok(()),
            ZeroAst::Truncated(_) => self.word(Keyword::Zt),
            ZeroAst::Modified(probability, _) => {
                self.word(Keyword::Zm)?;
                self.numeral(probability)
            }
        }
    }

    /// The coefficient of variation of the shared factor, where there is one.
    #[tactic(auto, using(crate::proofs::Growing::with_append), unfolding(crate::specs::Pieces::optional, crate::specs::Printing::with_pieces))]
    fn common(&mut self, common: &Option<Numeral>) -> Result<(), AllocError>
        ensures { OnOk result (self.new ≡ with_pieces self.old
            (optional common_pieces common.now)) }
    {
        match common {
            Some(variation) => {
                self.word(Keyword::Common)?;
                self.numeral(variation)
            }
            None => Ok(()),
        }
    }

    /// An exposure.
    #[tactic(auto, using(crate::proofs::Growing::with_append), unfolding(crate::specs::Pieces::exposure_pieces))]
    fn exposure(&mut self, exposure: &Exposure) -> Result<(), AllocError>
        ensures { OnOk result (self.new ≡ with_pieces self.old (exposure_pieces exposure.now)) }
    {
        match exposure {
            Exposure::Claims(number, _) => {
                self.numeral(number)?;
                self.word(Keyword::Claims)
            }
            Exposure::Loss(amount, _) => {
                self.numeral(amount)?;
                self.word(Keyword::Loss)
            }
            Exposure::Premium { amount, ratio, .. } => {
                self.numeral(amount)?;
                self.word(Keyword::Premium)?;
                self.word(Keyword::At)?;
                self.numeral(ratio)?;
                self.word(Keyword::Lr)
            }
        }
    }

    /// Listed counts.
    #[tactic(auto, using(crate::proofs::Growing::with_append), unfolding(crate::specs::Pieces::listed_pieces))]
    fn listed(&mut self, counts: &ListAst, probs: &Option<ListAst>) -> Result<(), AllocError>
        ensures { OnOk result (self.new ≡ with_pieces self.old
            (listed_pieces counts.now probs.now)) }
    {
        self.word(Keyword::Dfreq)?;
        counts.print(self)?;
        self.option(probs)
    }

    /// What the claim count puts before the layer.
    #[tactic(auto, unfolding(crate::specs::Pieces::count_pieces))]
    fn count(&mut self, count: &CountAst) -> Result<(), AllocError>
        ensures { OnOk result (self.new ≡ with_pieces self.old (count_pieces count.now)) }
    {
        match count {
            CountAst::Exposed { exposure, .. } => self.exposure(exposure),
            CountAst::Listed { counts, probs, .. } => self.listed(counts, probs),
        }
    }

    /// What the claim count puts behind the occurrence clause.
    #[tactic(auto, using(crate::proofs::Growing::with_append), unfolding(crate::specs::Pieces::late_count_pieces, crate::specs::Printing::with_pieces))]
    fn late_count(&mut self, count: &CountAst) -> Result<(), AllocError>
        ensures { OnOk result (self.new ≡ with_pieces self.old (late_count_pieces count.now)) }
    {
        match count {
            CountAst::Exposed { freq, zero, .. } => {
                self.freq(freq)?;
                self.zero(zero)
            }
            CountAst::Listed { .. } => Ok(()),
        }
    }

    /// A program.
    #[tactic(auto, using(crate::proofs::Growing::with_append), unfolding(crate::specs::Pieces::program_pieces))]
    pub(crate) fn program(&mut self, program: &Program) -> Result<(), AllocError>
        ensures { OnOk result (self.new ≡ with_pieces self.old (program_pieces program.now)) }
    {
        self.each(program.sevs.as_slice())?;
        self.option(&program.port)?;
        self.each(program.units.as_slice())
    }
}

impl Printed for Text {
    ghost use Rattle.dl_printer.specs.Pieces.{note_piece};

    ghost pieces = { note_piece };

    /// A note.
    fn print(&self, printer: &mut Printer) -> Result<(), AllocError> {
        printer.note(self)
    }
}

impl Printed for UnitAst {
    ghost use Rattle.dl_printer.specs.Pieces.{unit_pieces};

    ghost pieces = { unit_pieces };

    #[tactic(auto, using(crate::proofs::Growing::with_append), unfolding(crate::specs::Pieces::unit_pieces))]
    fn print(&self, printer: &mut Printer) -> Result<(), AllocError> {
        printer.word(Keyword::Agg)?;
        printer.name(&self.name)?;
        printer.count(&self.count)?;
        printer.option(&self.layer)?;
        printer.sev(&self.sev)?;
        printer.clause_option(Keyword::Occurrence, &self.occ)?;
        printer.late_count(&self.count)?;
        printer.clause_option(Keyword::Aggregate, &self.agr)?;
        printer.option(&self.note)
    }
}

impl Printed for PortHead {
    ghost use Rattle.dl_printer.specs.Pieces.{head_pieces};

    ghost pieces = { head_pieces };

    #[tactic(auto, using(crate::proofs::Growing::with_append), unfolding(crate::specs::Pieces::head_pieces))]
    fn print(&self, printer: &mut Printer) -> Result<(), AllocError> {
        printer.word(Keyword::Port)?;
        printer.name(&self.name)?;
        printer.common(&self.common)?;
        printer.option(&self.note)
    }
}
