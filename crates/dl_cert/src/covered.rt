//! Which plans have certificates.

ghost use Rattle.std.specs.Prelude.{ℕ, ◌≤◌, ◌↔◌, IsNone, IsTrue, All, MatchOption, length};
ghost use Rattle.dl_limits.specs.Limits.{standard_units};
ghost use Rattle.dl_plan.specs.Valid.{IsValid};
ghost use Rattle.dl_cert.specs.Covered.{IsTable, IsWholeShaped, IsCoveredUnit, IsCovered, IsFirstUncovered, IsNotCovered};

use dl_limits::STANDARD_UNITS;
use dl_plan::{Freq, Plan, Unit};

/// Whether a count is a sum of equal parts: it is not listed, and a gamma count has a whole shape.
fn is_in_parts(freq: &Freq) -> bool
    ensures { IsTrue result ↔ (¬ IsTable freq.now × IsWholeShaped freq.now) }
{
    match freq {
        Freq::Table { .. } => false,
        Freq::Gamma { shape, .. } => shape.den() == 1,
        _ => true,
    }
}

/// Whether a unit has no listed count, no shape that is not whole, no aggregate clause and no
/// changed probability of no claim.
fn is_covered(unit: &Unit) -> bool
    ensures { IsTrue result ↔ IsCoveredUnit unit.now }
{
    is_in_parts(&unit.freq) && unit.cede.is_none() && unit.zero.is_none()
}

/// The first unit that is not covered, as are all behind the first 16.
fn first_uncovered(units: &[Unit]) -> Option<u32>
    ensures few { IsNone result → length units.now ≤ standard_units }
    ensures first { MatchOption result (All IsCoveredUnit units.now) (IsFirstUncovered units.now) }
{
    for i in 0..units.len() {
        if i == STANDARD_UNITS || !is_covered(&units[i]) {
            return Some(i as u32);
        }
    }
    None
}

/// The reason why a valid plan has no certificate: the number of its first unit that is not
/// covered, as are all behind the first 16, or 0 where its units share a factor. `None` where the
/// plan is covered.
pub fn not_covered(plan: &Plan) -> Option<u32>
    requires valid { IsValid plan.now }
    ensures { MatchOption result (IsCovered plan.now) (IsNotCovered plan.now) }
{
    if plan.common.is_some() {
        return Some(0);
    }
    first_uncovered(plan.units.as_slice())
}
