//! Two ways to the cells of a Poisson or gamma count, which no row of a report tells apart, and the
//! base of a Poisson count, to nine digits.

ghost use Rattle.std.specs.Prelude.{◌≡◌, ◌<◌, ◌≤◌, ◌^◌, IfOk};
ghost use Rattle.dl_exact.specs.Fraction.{whole, ◌over◌, ◌≤ℚ◌};
ghost use Rattle.dl_plan.specs.Prelude.{probability_of};

use dl_frac::Frac;
use dl_grid::Grid;
use dl_panjer::poisson_base;
use dl_plan::{Item, Sev};
use dl_product::Workspace;
use dl_recursion::{gamma_direct, poisson_direct};
use dl_unit::{gamma_claims, poisson_claims};
use std::alloc::{AllocError, Global};
use std::cmp::Ordering;

/// `num` over `den`.
fn fraction(num: u32, den: u32) -> Frac
    requires { 0 < den }
    ensures value { result ≡ num over den }
    ensures num { result.num ≤ num }
    ensures den { result.den ≤ den }
{
    Frac::make(u128::from(num), u128::from(den)).unwrap()
}

/// The claim that surely comes to one bucket.
fn one_bucket(alloc: Global) -> Result<Sev, AllocError>
    ensures { IfOk result (λ sev. probability_of sev 0 ≡ whole 0) }
{
    Sev::alone(alloc, 1)
}

/// A claim comes to 1 bucket as often as to 4.
fn one_or_four(alloc: Global) -> Result<Sev, AllocError>
    ensures { IfOk result (λ sev. probability_of sev 0 ≡ whole 0) }
{
    let items = [
        Item {
            amount: 1,
            weight: 1,
        },
        Item {
            amount: 4,
            weight: 1,
        },
    ];
    Ok(Sev::from_rising(Vec::from_array(alloc, items)?))
}

/// Whether in each cell some number lies in both grids.
fn meet<const B: u32>(one: &Grid<B>, other: &Grid<B>) -> bool {
    let mut met = one.cells() == other.cells();
    for x in 0..one.cells() {
        if x < other.cells() {
            let (left, right) = (one.at(x), other.at(x));
            met = met && left.lo <= right.hi && right.lo <= left.hi;
        }
    }
    met
}

/// The same of a grid that may not be there, where it is.
fn is_met<const B: u32>(one: &Option<Grid<B>>, other: &Grid<B>) -> bool {
    match one {
        Some(one) => meet(one, other),
        None => false,
    }
}

/// A mean and a shape, each as the numerator and the denominator of a fraction. Those of the mean
/// are up to 4,096.
type CountOf = (u32, u32, u32, u32);

/// The counts of which both ways meet.
const COUNTS: [CountOf; 7] = [
    (1, 3, 1, 1),
    (3, 2, 2, 1),
    (8, 1, 3, 1),
    (100, 7, 16, 1),
    (1000, 1, 100, 1),
    (2, 1, 100, 9),
    (7, 2, 16, 25),
];

/// Whether sixteen cells of a Poisson count by the recursion at the full mean meet those by
/// halvings.
#[tactic(auto, using(dl_grid::proofs::Sizes::few_at_each_scale))]
fn poisson_meets<const B: u32>(alloc: Global, sev: &Sev, mean: Frac) -> Result<bool, AllocError>
    requires no_zero { probability_of sev.now 0 ≡ whole 0 }
    requires above { 1 ≤ B }
    requires below { B ≤ 56 }
    requires num { mean.num ≤ 4096 }
    requires den { mean.den ≤ 4096 }
    requires within { mean ≤ℚ whole 4096 }
{
    let halved = poisson_claims::<B>(alloc, &mut Workspace::new(alloc), sev, mean, 16)?;
    let direct = poisson_direct::<B>(alloc, sev, mean, 16)?;
    Ok(is_met(&direct, &halved))
}

/// Whether sixteen cells of a gamma count by the recursion at the full mean meet those by the parts
/// of the shape. The shape is above 0 and below 10,000, and the mean below 65,536 times the shape.
#[tactic(auto, using(dl_grid::proofs::Sizes::few_at_each_scale))]
fn gamma_meets<const B: u32>(
    alloc: Global,
    sev: &Sev,
    mean: Frac,
    shape: Frac,
) -> Result<bool, AllocError>
    requires no_zero { probability_of sev.now 0 ≡ whole 0 }
    requires above { 1 ≤ B }
    requires below { B ≤ 56 }
    requires num { mean.num ≤ 4096 }
    requires den { mean.den ≤ 4096 }
    requires shape_num { shape.num < 2 ^ 32 }
    requires shape_den { shape.den < 2 ^ 32 }
{
    if shape.num() == 0 {
        return Ok(false);
    }
    if shape.compare(Frac::whole(10000)) != Ordering::Less {
        return Ok(false);
    }
    let Ok(beta) = mean.div(shape) else {
        return Ok(false);
    };
    if beta.compare(Frac::whole(65536)) != Ordering::Less {
        return Ok(false);
    }
    let shared = gamma_claims::<B>(alloc, &mut Workspace::new(alloc), sev, mean, shape, 16)?;
    let direct = gamma_direct::<B>(alloc, sev, shape, mean, 16)?;
    Ok(is_met(&direct, &shared))
}

/// Whether both counts meet.
fn both_meet<const B: u32>(alloc: Global, sev: &Sev, of: &CountOf) -> Result<bool, AllocError>
    requires no_zero { probability_of sev.now 0 ≡ whole 0 }
    requires above { 1 ≤ B }
    requires below { B ≤ 56 }
{
    let mean = fraction(of.0.min(4096), of.1.clamp(1, 4096));
    let poisson = poisson_meets::<B>(alloc, sev, mean)?;
    let shape = fraction(of.2, of.3.max(1));
    let gamma = gamma_meets::<B>(alloc, sev, mean, shape)?;
    Ok(poisson && gamma)
}

/// Five pairs of units, one after another.
fn all_meet<const B: u32>(alloc: Global, sev: &Sev) -> Result<bool, AllocError>
    requires no_zero { probability_of sev.now 0 ≡ whole 0 }
    requires above { 1 ≤ B }
    requires below { B ≤ 56 }
{
    for of in &COUNTS {
        if !both_meet::<B>(alloc, sev, of)? {
            return Ok(false);
        }
    }
    Ok(true)
}

/// The pairs of units whose claims come to 1 bucket.
fn all_of_one_meet<const B: u32>(alloc: Global) -> Result<bool, AllocError>
    requires above { 1 ≤ B }
    requires below { B ≤ 56 }
{
    let sev = one_bucket(alloc)?;
    all_meet::<B>(alloc, &sev)
}

/// The pairs of units whose claims come to 1 bucket or to 4.
fn all_of_more_meet<const B: u32>(alloc: Global) -> Result<bool, AllocError>
    requires above { 1 ≤ B }
    requires below { B ≤ 56 }
{
    let sev = one_or_four(alloc)?;
    all_meet::<B>(alloc, &sev)
}

#[test]
fn both_ways_meet(rt: HostRuntime) -> Result<(), AllocError> {
    let alloc = rt.alloc();
    assert!(rt; all_of_one_meet::<48>(alloc)?);
    assert!(rt; all_of_one_meet::<56>(alloc)?);
    assert!(rt; all_of_more_meet::<48>(alloc)?);
    assert!(rt; all_of_more_meet::<56>(alloc)?);
    Ok(())
}

/// Each cell lies between these numbers of the ninth digit and the next ones.
#[tactic(auto, using(crate::proofs::TestLaws::print_fits))]
fn agrees<const B: u32>(grid: &Grid<B>, lows: &[u32]) -> bool {
    let mut same = grid.cells() as usize == lows.len();
    for x in 0..grid.cells() {
        if let Some(low) = lows.get(x as usize) {
            let (down, up) = grid.at(x).print_ends(9);
            same = same && down == u128::from(*low) && up == u128::from(*low) + 1;
        }
    }
    same
}

/// Whether the base of a Poisson count of mean 1/2 has its first nine digits: four cells of claims
/// of one bucket.
fn base_agrees<const B: u32>(alloc: Global) -> Result<bool, AllocError>
    requires above { 1 ≤ B }
    requires below { B ≤ 56 }
{
    let sev = one_bucket(alloc)?;
    let base: Grid<B> = poisson_base(alloc, &sev, fraction(1, 2), 0, 4)?;
    Ok(agrees(&base, &[606530659, 303265329, 75816332, 12636055]))
}

#[test]
fn nine_digits(rt: HostRuntime) -> Result<(), AllocError> {
    assert!(rt; base_agrees::<48>(rt.alloc())?);
    assert!(rt; base_agrees::<56>(rt.alloc())?);
    Ok(())
}
