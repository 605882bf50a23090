//! The cells of a grid as a factor of a product.

ghost use Rattle.std.specs.Prelude.{◌<◌};
ghost use Rattle.dl_product.specs.Ends.{AreWidths};

use crate::ends::Ends;
use dl_transform::Cells;

/// The cells of a grid that lie `step` apart from the start of its high ends on, as low ends and
/// widths; its high ends; and its low ends alone, from their own start on.
#[derive(Clone, Copy)]
pub(crate) struct Operand<'a> {
    pub(crate) cells: Cells<'a>,
    pub(crate) lows: Ends<'a>,
    pub(crate) highs: Ends<'a>,
    pub(crate) step: usize,
    pub(crate) ghost widths: { AreWidths cells.lows.now cells.widths.now highs.items.now },
    pub(crate) ghost some: { 0 < step },
}
