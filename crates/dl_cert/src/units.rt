//! The units of a plan, as its starts are tested by: the base of each, and its target.

ghost use Rattle.std.specs.Prelude.{ℕ, ◌≡◌, ◌^◌, ◌<◌, ◌≤◌, length, get_or, map, All, IfOk, MatchOption};
ghost use Rattle.dl_limits.specs.Limits.{admitted_bound, frac_bound, most_claims, most_expected};
ghost use Rattle.dl_budget.specs.Halvings.{halvings};
ghost use Rattle.dl_exact.specs.Fraction.{Fraction, whole, ◌over◌, ◌/ℚ◌, ◌≤ℚ◌};
ghost use Rattle.dl_plan.specs.Prelude.{IsProbability, IsUnbounded, HasPartsOf48Bits, pairs_of, conditioned, HasDistribution, thinned_mean, IsValidUnit};
ghost use Rattle.dl_plan.specs.declared.plan.Unit.{Unit as UnitOfPlan};
ghost use Rattle.dl_plan.specs.declared.plan.Freq.TheVariants.{Gamma, Poisson};
ghost use Rattle.dl_cert.specs.declared.base.Base.{Base as BaseOfUnit};
ghost use Rattle.dl_cert.specs.declared.base.Base.TheVariants.{Trial};
ghost use Rattle.dl_cert.specs.declared.base.Chance.{Chance as ChanceOfUnit};
ghost use Rattle.dl_cert.specs.Targets.{where_none, unit_parts};
ghost use Rattle.dl_cert.specs.Bases.{IsBaseOf};

use crate::base::{Base, Chance, Share};
use dl_budget::halvings;
use dl_frac::Frac;
use dl_panjer::{Rate, exp_neg, geometric_start, halved};
use dl_plan::{Freq, Sev, Unit};
use std::alloc::{AllocError, Global};

/// How many shares a Poisson count of this mean has, 0 where none is expected.
fn poisson_parts(mean: Frac) -> u32
    requires { mean ≤ℚ whole most_expected }
    ensures value { result ≡ where_none mean 0 (2 ^ halvings mean) }
    ensures few { result ≤ most_claims }
{
    if mean.num() == 0 {
        return 0;
    }
    1 << halvings(mean)
}

/// How many starts make up a unit of a valid plan.
pub(crate) fn parts(unit: &Unit) -> u32
    requires valid { (cells : ℕ) × IsValidUnit cells unit.now }
    ensures value { result ≡ unit_parts unit.now }
    ensures few { result ≤ most_claims }
{
    match &unit.freq {
        Freq::Fixed(claims) => *claims,
        Freq::Table { .. } => 0,
        Freq::Bernoulli(_) => 1,
        Freq::Binomial { trials, .. } => *trials,
        Freq::Poisson(_) => poisson_parts(unit.freq.thinned(&unit.sev)),
        Freq::Gamma { shape, .. } => {
            if unit.freq.thinned(&unit.sev).num() == 0 || shape.den() > 1 {
                return 0;
            }
            shape.num() as u32
        }
    }
}

/// The severity of the claims above 0 of a unit, where any are expected.
fn positive_claims(alloc: Global, unit: &Unit) -> Result<Option<Sev>, AllocError>
    requires valid { (cells : ℕ) × IsValidUnit cells unit.now }
    requires unbounded { IsUnbounded unit.now.freq }
    ensures { IfOk result (λ made. MatchOption made ((thinned_mean unit.now).num ≡ 0)
        (λ positive. HasDistribution positive (conditioned 0 (pairs_of unit.now.sev)))) }
{
    if unit.freq.thinned(&unit.sev).num() == 0 {
        return Ok(None);
    }
    unit.sev.positive(alloc)
}

/// The base of a Poisson unit.
fn poisson_base(alloc: Global, unit: &Unit) -> Result<Base, AllocError>
    requires valid { (cells : ℕ) × IsValidUnit cells unit.now }
    requires count { (mean : Fraction) × (unit.now.freq ≡ Poisson mean) }
    ensures { IfOk result (IsBaseOf unit.now) }
{
    let Some(positive) = positive_claims(alloc, unit)? else {
        return Ok(Base::Nothing);
    };
    let mean = unit.freq.thinned(&unit.sev);
    let part = halved(mean, halvings(mean));
    Ok(Base::Poisson(Share {
        positive,
        rate: Rate {
            num: part.num(),
            den: part.den(),
        },
        first: exp_neg(part),
    }))
}

/// The base of a gamma unit of this shape.
fn geometric_base(alloc: Global, unit: &Unit, shape: Frac) -> Result<Base, AllocError>
    requires valid { (cells : ℕ) × IsValidUnit cells unit.now }
    requires count { (mean : Fraction) × (unit.now.freq ≡ Gamma shape mean) }
    ensures { IfOk result (IsBaseOf unit.now) }
{
    if shape.den() > 1 {
        return Ok(Base::Nothing);
    }
    let Some(positive) = positive_claims(alloc, unit)? else {
        return Ok(Base::Nothing);
    };
    let beta = unit.freq.thinned(&unit.sev).div(shape).unwrap();
    let (rate, first) = geometric_start::<56>(beta);
    Ok(Base::Geometric(Share {
        positive,
        rate,
        first,
    }))
}

/// A claim with this probability, else none.
fn trial(q: Frac) -> Base
    requires { IsProbability q }
    ensures { (chance : ChanceOfUnit) × (result ≡ Trial chance) × (chance.q ≡ q) }
{
    Base::Trial(Chance { q })
}

/// The base of a unit.
pub(crate) fn base_of(alloc: Global, unit: &Unit) -> Result<Base, AllocError>
    requires valid { (cells : ℕ) × IsValidUnit cells unit.now }
    ensures { IfOk result (IsBaseOf unit.now) }
{
    match &unit.freq {
        Freq::Fixed(_) => Ok(trial(Frac::whole(1))),
        Freq::Table { .. } => Ok(Base::Nothing),
        Freq::Bernoulli(q) => Ok(trial(*q)),
        Freq::Binomial { q, .. } => Ok(trial(*q)),
        Freq::Poisson(_) => poisson_base(alloc, unit),
        Freq::Gamma { shape, .. } => geometric_base(alloc, unit, *shape),
    }
}

/// The base of each unit.
pub(crate) fn bases_of(alloc: Global, units: &[Unit]) -> Result<Vec<Base>, AllocError>
    requires valid { (cells : ℕ) × All (IsValidUnit cells) units.now }
    ensures many { IfOk result (λ bases. length bases.items ≡ length units.now) }
    ensures each { IfOk result (λ bases. (u : ℕ) (unit : UnitOfPlan) (base : BaseOfUnit)
        → u < length units.now → IsBaseOf (get_or units.now u unit) (get_or bases.items u base)) }
{
    let mut bases = Vec::with_capacity(alloc, units.len())?;
    for unit in units {
        let base = base_of(alloc, unit)?;
        bases.push(base)?;
    }
    Ok(bases)
}

/// The target of each unit.
pub(crate) fn targets_of(alloc: Global, units: &[Unit]) -> Result<Vec<u32>, AllocError>
    requires valid { (cells : ℕ) × All (IsValidUnit cells) units.now }
    ensures { IfOk result (λ targets. targets.items ≡ map unit_parts units.now) }
{
    let mut targets = Vec::with_capacity(alloc, units.len())?;
    for unit in units {
        targets.push(parts(unit))?;
    }
    Ok(targets)
}
