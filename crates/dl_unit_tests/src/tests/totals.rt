//! Totals of three units, and of all but one.

ghost use Rattle.std.specs.Prelude.{◌≡◌, ◌≤◌, length, All, IfOk};

use dl_grid::{Grid, units_of_one};
use dl_iv::Iv;
use dl_product::Workspace;
use dl_totals::{Sums, others, sums_of_one, total, total_and_others};
use std::alloc::{AllocError, Global};

/// The cells of each grid: the greatest total is 6.
const CELLS: u32 = 7;

/// Three units: how many sixths each outcome from 0 to 3 has.
const UNITS: [[u8; 4]; 3] = [[2, 4, 0, 0], [3, 0, 3, 0], [1, 2, 2, 1]];

/// Whether all units are like the first, how many of them are taken, the one that is left out of
/// the sum, and the probability of each total from 0 to 6, in parts of 216, worked out by exact
/// fractions.
#[derive(Clone, Copy)]
struct Case {
    alike: bool,
    taken: usize,
    without: Option<u32>,
    want: [u8; 7],
}

/// The parts of each case.
const CASES: [(bool, usize, Option<u32>, [u8; 7]); 8] = [
    (false, 3, None, [6, 24, 42, 54, 48, 30, 12]),
    (false, 3, Some(0), [18, 36, 54, 54, 36, 18, 0]),
    (false, 3, Some(1), [12, 48, 72, 60, 24, 0, 0]),
    (false, 3, Some(2), [36, 72, 36, 72, 0, 0, 0]),
    (false, 1, None, [72, 144, 0, 0, 0, 0, 0]),
    (false, 1, Some(0), [216, 0, 0, 0, 0, 0, 0]),
    (true, 3, None, [8, 48, 96, 64, 0, 0, 0]),
    (true, 3, Some(1), [24, 96, 96, 0, 0, 0, 0]),
];

/// A unit, each outcome enclosed on its own.
fn unit<const B: u32>(alloc: Global, sixths: &[u8; 4]) -> Result<Grid<B>, AllocError>
    requires scale_above { 1 ≤ B }
    requires scale_below { B ≤ 56 }
    ensures { IfOk result (λ g. length g ≡ 7) }
{
    let mut g = Grid::<B>::zero(alloc, CELLS)?;
    g.try_set(0, Iv::point(0));
    let mut x: u32 = 0;
    for part in sixths {
        g.try_set(x, Iv::enclose(u128::from(*part), 6));
        x = x.saturating_add(1);
    }
    Ok(g)
}

/// Whether an interval holds so many parts of 216, and is narrow.
fn is_near<const B: u32>(v: Iv<B>, parts: u8) -> bool
    requires scale_below { B ≤ 56 }
{
    let exact = u128::from(parts) * units_of_one(B);
    let low = v.lo.saturating_mul(216);
    low <= exact && exact <= v.hi.saturating_mul(216) && v.width() < 60
}

/// Whether each cell holds its probability, and is narrow.
fn holds<const B: u32>(g: &Grid<B>, want: &[u8; 7]) -> bool
    requires scale_below { B ≤ 56 }
{
    let mut near = g.cells() == CELLS;
    let mut x: u32 = 0;
    for parts in want {
        near = near && x < g.cells() && is_near(g.at(x), *parts);
        x = x.saturating_add(1);
    }
    near
}

/// The sum of all units, and all others, or none.
fn shared_sums<const B: u32>(
    alloc: Global,
    units: &[Grid<B>],
    all: bool,
) -> Result<Sums<B>, AllocError>
    requires scale_below { B ≤ 56 }
    requires some { 1 ≤ length units.now }
    requires few { length units.now ≤ 3 }
    requires in_each { All (λ g. 7 ≤ length g) units.now }
{
    let asked = [all; 3];
    let work = &mut Workspace::new(alloc);
    total_and_others(alloc, work, units, &asked[..units.len()], CELLS)
}

/// Whether the sum that a case wants is there, and no other where none is asked for.
fn are_held<const B: u32>(sums: &Sums<B>, case: &Case) -> bool
    requires scale_below { B ≤ 56 }
{
    let others = sums.others.as_slice();
    let Some(i) = case.without else {
        return holds(&sums.total, &case.want) && others.iter().all(|sum| sum.is_none());
    };
    match others.get(i as usize) {
        Some(Some(sum)) => holds(sum, &case.want),
        _ => false,
    }
}

/// Whether the sum of the first unit alone is that unit's grid, and no other is there.
fn holds_alone<const B: u32>(alloc: Global) -> Result<bool, AllocError>
    requires scale_above { 1 ≤ B }
    requires scale_below { B ≤ 56 }
{
    let sums = sums_of_one(alloc, unit::<B>(alloc, &UNITS[0])?)?;
    let none = sums.others.as_slice().iter().all(|sum| sum.is_none());
    Ok(holds(&sums.total, &[72, 144, 0, 0, 0, 0, 0]) && none && sums.others.len() == 1)
}

/// The sum of the units that are taken, or of all of them but one.
fn sum_of<const B: u32>(
    alloc: Global,
    taken: &[Grid<B>],
    case: &Case,
) -> Result<Grid<B>, AllocError>
    requires scale_below { B ≤ 56 }
    requires some { 1 ≤ length taken.now }
    requires few { length taken.now ≤ 3 }
    requires in_each { All (λ g. 7 ≤ length g) taken.now }
{
    match case.without {
        Some(i) if (i as usize) < taken.len() => others(alloc, taken, i, CELLS),
        _ => total(alloc, taken, CELLS),
    }
}

/// Whether the sum holds, alone and with all others.
fn both_hold<const B: u32>(
    alloc: Global,
    taken: &[Grid<B>],
    case: &Case,
) -> Result<bool, AllocError>
    requires scale_below { B ≤ 56 }
    requires some { 1 ≤ length taken.now }
    requires few { length taken.now ≤ 3 }
    requires in_each { All (λ g. 7 ≤ length g) taken.now }
{
    let sums = shared_sums(alloc, taken, case.without.is_some())?;
    let sum = sum_of(alloc, taken, case)?;
    Ok(holds(&sum, &case.want) && are_held(&sums, case))
}

/// Whether the sums of the units of a case are as they should be.
fn answer<const B: u32>(alloc: Global, case: &Case) -> Result<bool, AllocError>
    requires scale_above { 1 ≤ B }
    requires scale_below { B ≤ 56 }
{
    let units = [
        unit::<B>(alloc, &UNITS[0])?,
        unit::<B>(alloc, if case.alike { &UNITS[0] } else { &UNITS[1] })?,
        unit::<B>(alloc, if case.alike { &UNITS[0] } else { &UNITS[2] })?,
    ];
    let taken = &units[..case.taken.clamp(1, 3)];
    both_hold(alloc, taken, case)
}

#[test]
fn sums_of_units(rt: HostRuntime) -> Result<(), AllocError> {
    let alloc = rt.alloc();
    assert!(rt; holds_alone::<48>(alloc)? && holds_alone::<56>(alloc)?);
    for (i, &(alike, taken, without, want)) in CASES.iter().enumerate() {
        let case = Case {
            alike,
            taken,
            without,
            want,
        };
        assert!(rt; answer::<48>(alloc, &case)?, "{i}");
        assert!(rt; answer::<56>(alloc, &case)?, "{i}");
    }
    Ok(())
}
