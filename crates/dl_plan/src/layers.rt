//! Whether layers make a clause: shares of at most 1, and no overlap.

ghost use Rattle.std.specs.Prelude.{◌↔◌, IsTrue, All, AllPairs};
ghost use Rattle.dl_exact.specs.Fraction.{whole, ◌≤ℚ◌};
ghost use Rattle.dl_plan.specs.Clause.{Overlap};

use crate::cede::CedeLayer;
use dl_frac::Frac;

/// Whether no share passes 1.
pub(crate) fn shares_within(layers: &[CedeLayer]) -> bool
    ensures { IsTrue result ↔ All (λ l. l.share ≤ℚ whole 1) layers.now }
{
    layers.iter().all(|layer| is_at_most_one(layer.share))
}

/// Whether a fraction is at most 1.
fn is_at_most_one(x: Frac) -> bool
    ensures { IsTrue result ↔ (x ≤ℚ whole 1) }
{
    x.num() <= x.den()
}

/// Whether no two layers overlap.
pub(crate) fn are_apart(layers: &[CedeLayer]) -> bool
    ensures { IsTrue result ↔ AllPairs (λ l m. ¬ Overlap l m) layers.now }
{
    match layers.split_first() {
        Some((first, others)) => is_apart(first, others) && are_apart(others),
        None => true,
    }
}

/// Whether a layer overlaps none of the others.
fn is_apart(layer: &CedeLayer, others: &[CedeLayer]) -> bool
    ensures { IsTrue result ↔ All (λ m. ¬ Overlap layer.now m) others.now }
{
    others.iter().all(|other| !layer.overlaps(other))
}
