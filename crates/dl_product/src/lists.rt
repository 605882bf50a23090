//! Lists of the ends of cells, in room that is lent.

ghost use Rattle.std.specs.Prelude.{◌≡◌, ℕ, ◌+◌, ◌<◌, ◌%◌, length, get_or, IfOk};
ghost use Rattle.dl_product.specs.Ends.{ArePaired, AreWidths};
ghost use Rattle.dl_product.specs.Operand.{HoldsEnds};
ghost use Rattle.dl_product.specs.Windows.{IsWindow};

use crate::ends::{Ends, Head};
use crate::operand::Operand;
use crate::steps::{set_length, take_multiples};
use crate::windows::{Window, window_of};
use dl_transform::Cells;
use std::alloc::{AllocError, Global};

/// Room for the lists of an operand. It is taken at the first product that needs it, and kept for
/// those after it.
#[derive(Drop)]
pub(crate) struct Lists {
    lows: Vec<u128>,
    highs: Vec<u128>,
    widths: Vec<u128>,
}

/// Writes into `out` how far each high end is above its low end.
fn take_widths(lows: &[u128], highs: &[u128], out: &mut Vec<u128>) -> Result<(), AllocError>
    requires { ArePaired lows.now highs.now }
    ensures alike { IfOk result (λ _. length out.new.items ≡ length lows.now) }
    ensures each { IfOk result (λ _. AreWidths lows.now out.new.items highs.now) }
{
    set_length(out, lows.len())?;
    for k in 0..out.len() {
        out[k] = highs[k] - lows[k];
    }
    Ok(())
}

impl Lists {
    /// Room for nothing yet. It takes no memory.
    pub(crate) fn new(alloc: Global) -> Self {
        Lists {
            lows: Vec::new(alloc),
            highs: Vec::new(alloc),
            widths: Vec::new(alloc),
        }
    }

    /// The cells of a head in a window of its high ends, where those that are not 0 lie `step`
    /// apart.
    pub(crate) fn read<'a>(
        &'a mut self,
        head: Head<'_>,
        window: Window,
        step: usize,
    ) -> Result<Operand<'a>, AllocError>
        requires some { 0 < step }
        requires window { IsWindow head.highs.now window.start window.end }
        requires apart { (i : ℕ) → 0 < i % step → get_or head.highs.now (window.start + i) 0 ≡ 0 }
        ensures ends { IfOk result (λ o. HoldsEnds head.entry.lows.now head.entry.highs.now o) }
        ensures step { IfOk result (λ o. o.step ≡ step) }
    {
        take_multiples(window.part(head.lows), step, &mut self.lows)?;
        take_multiples(window.part(head.highs), step, &mut self.highs)?;
        take_widths(
            self.lows.as_slice(),
            self.highs.as_slice(),
            &mut self.widths,
        )?;
        let lows = self.lows.as_slice();
        let inner = window_of(lows);
        Ok(Operand {
            cells: Cells {
                lows,
                widths: self.widths.as_slice(),
            },
            lows: Ends {
                items: inner.part(lows),
                start: window.start + inner.start * step,
            },
            highs: Ends {
                items: self.highs.as_slice(),
                start: window.start,
            },
            step,
        })
    }
}
