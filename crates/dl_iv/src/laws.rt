//! Laws of intervals. Nothing here runs.

ghost use Rattle.std.specs.Prelude.{◌≡◌, ℕ, ◌≤◌};
ghost use Rattle.dl_exact.specs.Fraction.{Fraction, ◌≤ℚ◌, lesser};
ghost use Rattle.dl_iv.specs.Enclosure.{LiesIn};

use crate::interval::Iv;

/// An interval holds what a narrower one holds.
pub fn law_wider<const B: u32>(narrow: Iv<B>, wide: Iv<B>)
    requires low { wide.lo ≤ narrow.lo }
    requires high { narrow.hi ≤ wide.hi }
    ensures holds { (x : Fraction) → LiesIn x narrow.entry → LiesIn x wide.entry }
{}

/// The lesser of two fractions is the greatest that is above neither.
pub fn law_lesser()
    ensures first { (x y : Fraction) → lesser x y ≤ℚ x }
    ensures second { (x y : Fraction) → lesser x y ≤ℚ y }
    ensures greatest { (x y z : Fraction) → z ≤ℚ x → z ≤ℚ y → z ≤ℚ lesser x y }
{}
