//! Two transforms.

ghost use Rattle.std.specs.Prelude.{◌≡◌};
ghost use Rattle.dl_transform.specs.Transforms.{AreTransforms};

use crate::tables::Table;

/// Two transforms, and what times the first prime leaves 1 by the second. It serves products of up
/// to `2^levels` cells.
#[derive(Drop)]
pub struct Setup {
    pub(crate) first: Table,
    pub(crate) second: Table,
    pub(crate) inverse: u64,
    pub(crate) inverse_quotient: u64,
    pub(crate) levels: u32,
    pub ghost right: { AreTransforms first second inverse inverse_quotient levels },
}

impl Setup {
    /// Products of up to `2^levels` cells are served.
    pub fn levels(&self) -> u32
        ensures { result ≡ self.now.levels }
    {
        self.levels
    }
}
