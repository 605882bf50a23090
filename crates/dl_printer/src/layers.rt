//! Layers, and the clauses that cede them.

ghost use Rattle.std.specs.Prelude.{◌≡◌, flat_map, OnOk};
ghost use Rattle.dl_printer.specs.Pieces.{optional, limit_pieces, share_pieces, ceded_pieces};
ghost use Rattle.dl_printer.specs.Pieces.{and_ceded_pieces, ceded_layers_pieces, side_pieces};
ghost use Rattle.dl_printer.specs.Pieces.{clause_pieces};
ghost use Rattle.dl_printer.specs.Printing.{with_pieces};

use crate::parts::Printed;
use crate::printer::Printer;
use dl_ast::{CededLayer, Cession, Layer, LimitAst, Share};
use dl_lexer::Keyword;
use std::alloc::AllocError;

impl Printer {
    /// What a layer pays at most.
    #[tactic(auto, unfolding(crate::specs::Pieces::limit_pieces))]
    fn limit(&mut self, limit: &LimitAst) -> Result<(), AllocError>
        ensures { OnOk result (self.new ≡ with_pieces self.old (limit_pieces limit.now)) }
    {
        match limit {
            LimitAst::Finite(limit) => self.numeral(limit),
            LimitAst::Infinite => self.word(Keyword::Inf),
        }
    }
}

impl Printed for Layer {
    ghost use Rattle.dl_printer.specs.Pieces.{layer_pieces};

    ghost pieces = { layer_pieces };

    #[tactic(auto, using(crate::proofs::Growing::with_append), unfolding(crate::specs::Pieces::layer_pieces))]
    fn print(&self, printer: &mut Printer) -> Result<(), AllocError> {
        printer.limit(&self.limit)?;
        printer.word(Keyword::Xs)?;
        printer.numeral(&self.attach)
    }
}

impl Printer {
    /// How much of a layer is ceded.
    #[tactic(auto, using(crate::proofs::Growing::with_append), unfolding(crate::specs::Pieces::share_pieces, crate::specs::Printing::with_pieces))]
    fn share(&mut self, share: &Share) -> Result<(), AllocError>
        ensures { OnOk result (self.new ≡ with_pieces self.old (share_pieces share.now)) }
    {
        match share {
            Share::Whole => Ok(()),
            Share::So(share) => {
                self.numeral(share)?;
                self.word(Keyword::So)
            }
            Share::Po(part) => {
                self.numeral(part)?;
                self.word(Keyword::Po)
            }
        }
    }

    /// A layer and how much of it is ceded.
    #[tactic(auto, using(crate::proofs::Growing::with_append), unfolding(crate::specs::Pieces::ceded_pieces))]
    fn ceded(&mut self, ceded: &CededLayer) -> Result<(), AllocError>
        ensures { OnOk result (self.new ≡ with_pieces self.old (ceded_pieces ceded.now)) }
    {
        self.share(&ceded.share)?;
        ceded.layer.print(self)
    }

    /// The same behind `and`.
    #[tactic(auto, using(crate::proofs::Growing::with_append), unfolding(crate::specs::Pieces::and_ceded_pieces))]
    fn and_ceded(&mut self, ceded: &CededLayer) -> Result<(), AllocError>
        ensures { OnOk result (self.new ≡ with_pieces self.old (and_ceded_pieces ceded.now)) }
    {
        self.word(Keyword::And)?;
        self.ceded(ceded)
    }

    /// The layers behind the first one.
    #[tactic(auto, using(crate::proofs::Growing::with_each), unfolding(crate::specs::Printing::with_pieces))]
    fn more_layers(&mut self, layers: &[CededLayer]) -> Result<(), AllocError>
        ensures { OnOk result (self.new ≡ with_pieces self.old
            (flat_map and_ceded_pieces layers.now)) }
    {
        for layer in layers {
            self.and_ceded(layer)?;
        }
        Ok(())
    }

    /// The layers of a clause.
    #[tactic(auto, using(crate::proofs::Growing::with_append), unfolding(crate::specs::Pieces::ceded_layers_pieces, crate::specs::Printing::with_pieces))]
    fn ceded_layers(&mut self, layers: &[CededLayer]) -> Result<(), AllocError>
        ensures { OnOk result (self.new ≡ with_pieces self.old (ceded_layers_pieces layers.now)) }
    {
        match layers.split_first() {
            Some((first, others)) => {
                self.ceded(first)?;
                self.more_layers(others)
            }
            None => Ok(()),
        }
    }

    /// Whether the unit keeps what is not ceded, or what is.
    #[tactic(auto, using(crate::proofs::Growing::with_append), unfolding(crate::specs::Pieces::side_pieces))]
    fn side(&mut self, net: bool) -> Result<(), AllocError>
        ensures { OnOk result (self.new ≡ with_pieces self.old (side_pieces net)) }
    {
        if net {
            self.word(Keyword::Net)?;
            return self.word(Keyword::Of);
        }
        self.word(Keyword::Ceded)?;
        self.word(Keyword::To)
    }

    /// A clause, which begins with this word.
    #[tactic(auto, using(crate::proofs::Growing::with_append), unfolding(crate::specs::Pieces::clause_pieces))]
    fn clause(&mut self, kind: Keyword, clause: &Cession) -> Result<(), AllocError>
        ensures { OnOk result (self.new ≡ with_pieces self.old (clause_pieces kind clause.now)) }
    {
        self.word(kind)?;
        self.side(clause.net)?;
        self.ceded_layers(clause.layers.as_slice())
    }

    /// A clause, where there is one.
    #[tactic(auto, unfolding(crate::specs::Pieces::optional, crate::specs::Printing::with_pieces))]
    pub(crate) fn clause_option(
        &mut self,
        kind: Keyword,
        clause: &Option<Cession>,
    ) -> Result<(), AllocError>
        ensures { OnOk result (self.new ≡ with_pieces self.old
            (optional (clause_pieces kind) clause.now)) }
    {
        match clause {
            Some(clause) => self.clause(kind, clause),
            None => Ok(()),
        }
    }
}
