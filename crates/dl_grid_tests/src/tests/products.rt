//! Products of grids: all ways beside the plain convolution, the sums of two dice worked outside the
//! program, and how many products of numbers the halving takes.

ghost use Rattle.std.specs.Prelude.{◌≤◌, ◌<◌, length};

use Ends::{Between, Part, Sure, Unknown, Zero};
use dl_convolution::convolve_plain;
use dl_grid::{Grid, units_of_one};
use dl_halves::{Counted, convolve, halved};
use dl_iv::Iv;
use dl_limits::MOST_FINE_CELLS;
use dl_product::{Workspace, product, square};
use std::alloc::{AllocError, Global};

/// The ends of a cell, as parts of 1.
#[derive(Clone, Copy)]
enum Ends {
    /// Both 0.
    Zero,
    /// One of so many equal parts, rounded down and up.
    Part(u32),
    /// From one of twice so many equal parts to one of so many.
    Between(u32),
    /// From 0 to 1.
    Unknown,
    /// Both 1.
    Sure,
}

/// A grid with the same ends at every step-th of so many cells from a start on, and 0 elsewhere: the
/// step, the ends, the start, and how many cells.
type Shape = (u32, Ends, u32, u32);

/// Two grids on so many cells.
type Case = (u32, Shape, Shape);

/// One of so many equal parts of 1, rounded down and up.
fn part<const B: u32>(parts: u32) -> Iv<B>
    requires scale_above { 1 ≤ B }
    requires scale_below { B ≤ 56 }
    requires some { 0 < parts }
{
    let one = units_of_one(B);
    Iv {
        lo: one / u128::from(parts),
        hi: one.div_ceil(u128::from(parts)),
    }
}

/// From one of twice so many equal parts to one of so many.
fn between<const B: u32>(parts: u32) -> Iv<B>
    requires scale_above { 1 ≤ B }
    requires scale_below { B ≤ 56 }
    requires some { 0 < parts }
{
    let one = units_of_one(B);
    Iv {
        lo: one / (2 * u128::from(parts)),
        hi: one.div_ceil(u128::from(parts)),
    }
}

fn interval<const B: u32>(ends: Ends) -> Iv<B>
    requires scale_above { 1 ≤ B }
    requires scale_below { B ≤ 56 }
{
    let one = units_of_one(B);
    match ends {
        Zero => Iv { lo: 0, hi: 0 },
        Part(0) | Between(0) | Unknown => Iv { lo: 0, hi: one },
        Part(parts) => part(parts),
        Between(parts) => between(parts),
        Sure => Iv { lo: one, hi: one },
    }
}

/// A grid of a shape, where it is one and there is memory.
#[tactic(auto, using(dl_grid::proofs::Sizes::few_at_each_scale))]
fn shaped<const B: u32>(alloc: Global, cells: u32, shape: Shape) -> Option<Grid<B>>
    requires scale_above { 1 ≤ B }
    requires scale_below { B ≤ 56 }
{
    let (step, ends, start, count) = shape;
    if cells == 0
        || cells > MOST_FINE_CELLS
        || start > cells
        || count > cells - start
        || step == 0
    {
        return None;
    }
    let mut g = Grid::<B>::zero(alloc, cells).ok()?;
    let mut good = g.try_set(0, Iv { lo: 0, hi: 0 });
    for x in start..start + count {
        if (x - start) % step == 0 {
            good = g.try_set(x, interval(ends)) && good;
        }
    }
    if good { Some(g) } else { None }
}

/// Whether a product of two grids was found, and has the cells of the plain convolution.
fn is_plain<const B: u32>(
    alloc: Global,
    found: Result<Grid<B>, AllocError>,
    a: &Grid<B>,
    b: &Grid<B>,
    cells: u32,
) -> bool
    requires some { 1 ≤ cells }
    requires in_first { cells ≤ length a.now }
    requires in_second { cells ≤ length b.now }
{
    match (&found, &convolve_plain(alloc, a, b, cells)) {
        (Ok(found), Ok(plain)) => found.lows() == plain.lows() && found.highs() == plain.highs(),
        _ => false,
    }
}

/// Whether the product, the product by halves and the square of the first grid have the cells of
/// the plain convolution.
fn all_agree<const B: u32>(
    alloc: Global,
    work: &mut Workspace,
    a: &Grid<B>,
    b: &Grid<B>,
    cells: u32,
) -> bool {
    if cells == 0 || cells > a.cells() || cells > b.cells() {
        return false;
    }
    is_plain(alloc, product(alloc, work, a, b, cells), a, b, cells)
        && is_plain(alloc, convolve(alloc, a, b, cells), a, b, cells)
        && is_plain(alloc, square(alloc, work, a, cells), a, a, cells)
}

/// Whether the grids of a case are so.
fn agrees<const B: u32>(alloc: Global, work: &mut Workspace, case: &Case) -> bool
    requires scale_above { 1 ≤ B }
    requires scale_below { B ≤ 56 }
{
    let first = shaped::<B>(alloc, case.0, case.1);
    let second = shaped::<B>(alloc, case.0, case.2);
    match (&first, &second) {
        (Some(a), Some(b)) => all_agree(alloc, work, a, b, case.0),
        _ => false,
    }
}

const CASES: [Case; 21] = [
    (1, (1, Sure, 0, 1), (1, Part(3), 0, 1)),
    (1, (1, Zero, 0, 1), (1, Unknown, 0, 1)),
    // both lists short of the grid, the product within it, at its end, and past it
    (40, (1, Part(7), 3, 7), (1, Part(9), 5, 9)),
    (20, (1, Part(7), 3, 7), (1, Part(9), 5, 9)),
    (16, (1, Part(2), 8, 2), (1, Part(8), 8, 8)),
    // a shift, and nothing at all
    (50, (1, Sure, 13, 1), (1, Part(20), 9, 20)),
    (50, (1, Sure, 0, 1), (1, Sure, 49, 1)),
    (50, (1, Zero, 0, 50), (1, Part(50), 0, 50)),
    // by transforms: whole lists, one after another in the same room, and a long and a short one
    (700, (1, Part(700), 0, 700), (1, Part(650), 50, 650)),
    (650, (1, Unknown, 0, 650), (1, Part(640), 0, 640)),
    (1500, (1, Part(700), 1, 700), (1, Part(400), 5, 400)),
    // items a common step apart: both, one of them, no multiple of the other's step, by transforms,
    // and past the grid
    (40, (3, Part(7), 2, 19), (3, Part(4), 5, 10)),
    (40, (3, Part(7), 2, 19), (1, Part(4), 5, 4)),
    (40, (6, Part(7), 0, 37), (4, Part(9), 1, 33)),
    (40, (6, Part(7), 0, 37), (1, Sure, 5, 1)),
    (700, (1, Part(700), 0, 700), (5, Part(140), 2, 698)),
    (1401, (2, Part(700), 0, 1399), (2, Part(650), 1, 1299)),
    (50, (7, Part(8), 0, 50), (7, Part(7), 1, 43)),
    // one of them, on as many cells as transforms have
    (1024, (2, Part(700), 0, 1024), (1, Part(1100), 0, 1024)),
    (
        1024,
        (1, Between(1100), 3, 1021),
        (2, Between(700), 1, 1023),
    ),
    // too large for transforms
    (2100, (1, Unknown, 0, 2100), (1, Unknown, 0, 2100)),
];

#[test]
fn all_ways_give_the_same_cells(rt: HostRuntime) {
    let alloc = rt.alloc();
    let mut work = Workspace::new(alloc);
    for case in &CASES {
        let same = agrees::<56>(alloc, &mut work, case) && agrees::<1>(alloc, &mut work, case);
        assert!(rt; same, "{} cells", case.0);
    }
}

/// A cell of a product: its number, and its ends.
type CellEnds = (usize, u128, u128);

// The sums of two dice, each face enclosed on its own: worked out by whole numbers of any size,
// from 1/6 rounded down and up at each scale.
const THROWS_AT_1: [CellEnds; 4] = [(1, 0, 0), (2, 0, 1), (5, 0, 2), (12, 0, 1)];

const THROWS_AT_48: [CellEnds; 8] = [
    (1, 0, 0),
    (2, 7818749353073, 7818749353074),
    (3, 15637498706147, 15637498706148),
    (4, 23456248059220, 23456248059222),
    (5, 31274997412294, 31274997412296),
    (6, 39093746765367, 39093746765370),
    (7, 46912496118441, 46912496118444),
    (12, 7818749353073, 7818749353074),
];

const THROWS_AT_56: [CellEnds; 8] = [
    (1, 0, 0),
    (2, 2001599834386886, 2001599834386888),
    (3, 4003199668773773, 4003199668773775),
    (4, 6004799503160660, 6004799503160662),
    (5, 8006399337547547, 8006399337547549),
    (6, 10007999171934434, 10007999171934437),
    (7, 12009599006321321, 12009599006321324),
    (12, 2001599834386886, 2001599834386888),
];

/// Whether a grid has these cells.
fn has_cells<const B: u32>(sum: &Grid<B>, cells: &[CellEnds]) -> bool {
    let mut same = true;
    for (i, low, high) in cells {
        same = same && sum.lows().get(*i) == Some(low) && sum.highs().get(*i) == Some(high);
    }
    same
}

/// Whether the sum of two dice on 13 cells has these cells.
fn are_thrown<const B: u32>(alloc: Global, throws: &[CellEnds]) -> bool
    requires scale_above { 1 ≤ B }
    requires scale_below { B ≤ 56 }
{
    let Some(die) = shaped::<B>(alloc, 13, (1, Part(6), 1, 6)) else {
        return false;
    };
    if die.cells() != 13 {
        return false;
    }
    match product(alloc, &mut Workspace::new(alloc), &die, &die, 13) {
        Ok(sum) => has_cells(&sum, throws),
        Err(_) => false,
    }
}

#[test]
fn two_dice(rt: HostRuntime) {
    assert!(rt; are_thrown::<1>(rt.alloc(), &THROWS_AT_1));
    assert!(rt; are_thrown::<48>(rt.alloc(), &THROWS_AT_48));
    assert!(rt; are_thrown::<56>(rt.alloc(), &THROWS_AT_56));
}

/// The square of the list of the numbers below 1,024, and how many products it took.
fn counted_square(alloc: Global) -> Result<(u64, Vec<u128>), AllocError> {
    let mut list = Vec::from_elem(alloc, 0u128, 1024)?;
    let mut out = Vec::from_elem(alloc, 0u128, 2048)?;
    let mut work = Vec::from_elem(alloc, 0u128, 4096)?;
    for i in 0..list.len() {
        list[i] = i as u128;
    }
    let mut ring = Counted::new();
    halved(
        &mut ring,
        list.as_slice(),
        list.as_slice(),
        out.as_mut_slice(),
        work.as_mut_slice(),
    );
    Ok((ring.count(), out))
}

/// Items of the square: the products of i and s - i add up to (s - 1) * s * (s + 1) / 6.
const SQUARE: [(usize, u128); 5] = [(0, 0), (1, 0), (2, 1), (100, 166_650), (1023, 178_433_024)];

/// The index of the first item of the square that differs from the table; none where all agree.
fn first_wrong(square: &[u128]) -> Option<usize> {
    for (s, sum) in &SQUARE {
        if square.get(*s) != Some(sum) {
            return Some(*s);
        }
    }
    None
}

#[test]
fn products_are_few(rt: HostRuntime) {
    let (count, square) = counted_square(rt.alloc()).expect(&rt, "memory");
    assert!(rt; count <= 248_832, "{count} products");
    assert_eq!(rt; first_wrong(&square), None);
}
