//! The ends of a grid's cells as factors of a product.

ghost use Rattle.std.specs.Prelude.{◌≡◌, [], length};
ghost use Rattle.dl_transform.specs.Ends.{AreWords};
ghost use Rattle.dl_product.specs.Ends.{AreHeadEnds};
ghost use Rattle.dl_product.specs.Places.{ArePlaces};

use dl_transform::Cells;

/// The ends of the cells of a grid before a place from which on, as far as the grid is read, each
/// low end is 0 and each high end is `rest`.
#[derive(Clone, Copy)]
pub(crate) struct Head<'a> {
    pub(crate) lows: &'a [u128],
    pub(crate) highs: &'a [u128],
    pub(crate) rest: u128,
    pub(crate) ghost ends: { AreHeadEnds lows.now highs.now },
}

/// The low ends or the high ends of those cells of a grid that lie a step apart from `start` on, up
/// to the last that is not 0.
#[derive(Clone, Copy)]
pub(crate) struct Ends<'a> {
    pub(crate) items: &'a [u128],
    pub(crate) start: usize,
    pub(crate) ghost places: { ArePlaces start (length items.now) },
    pub(crate) ghost words: { AreWords items.now [] },
}

impl<'a> Ends<'a> {
    /// The items as low ends of cells with no widths.
    pub(crate) fn cells(self) -> Cells<'a>
        ensures { result.lows ≡ self.entry.items }
    {
        Cells {
            lows: self.items,
            widths: &[],
        }
    }
}
