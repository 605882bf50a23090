//! Tables of a transform.

ghost use Rattle.std.specs.Prelude.{◌<◌, length};
ghost use Rattle.dl_transform.specs.Residue.{IsFactorAt};
ghost use Rattle.dl_transform.specs.Table.{IsTable};

/// The constants of a transform modulo `p`. Each factor is beside its quotient, which a product
/// by it needs.
#[derive(Drop)]
pub(crate) struct Table {
    /// The modulus.
    pub(crate) p: u64,
    /// The root at each node: its square is the number of the node.
    pub(crate) roots: Vec<u64>,
    pub(crate) quotients: Vec<u64>,
    /// The inverse of the root at each node.
    pub(crate) inverses: Vec<u64>,
    pub(crate) inverse_quotients: Vec<u64>,
    /// The inverse of `-p` modulo `2^64`.
    pub(crate) minus_inverse: u64,
    /// The unit: the inverse of `2^64` modulo `p`.
    pub(crate) unit: u64,
    /// For each number of levels, the inverse of the product of `2^levels` and the unit.
    pub(crate) scales: Vec<u64>,
    pub(crate) scale_quotients: Vec<u64>,
}

impl Table {
    /// The inverse of the product of `2^levels` and the unit, modulo `p`, and its quotient.
    pub(crate) fn scale(&self, levels: u32) -> (u64, u64)
        requires table { IsTable self.now }
        requires inside { levels < length self.now.scales.items }
        ensures { IsFactorAt self.now.p self.now.scales.items levels result.0 result.1 }
    {
        let k = levels as usize;
        (self.scales[k], self.scale_quotients[k])
    }

    /// The root at a node, and its quotient.
    pub(crate) fn root(&self, node: usize) -> (u64, u64)
        requires table { IsTable self.now }
        requires inside { node < length self.now.roots.items }
        ensures { IsFactorAt self.now.p self.now.roots.items node result.0 result.1 }
    {
        (self.roots[node], self.quotients[node])
    }

    /// The inverse of the root at a node, and its quotient.
    pub(crate) fn inverse(&self, node: usize) -> (u64, u64)
        requires table { IsTable self.now }
        requires inside { node < length self.now.roots.items }
        ensures { IsFactorAt self.now.p self.now.inverses.items node result.0 result.1 }
    {
        (self.inverses[node], self.inverse_quotients[node])
    }
}
