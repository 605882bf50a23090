//! Products of two lists of cells: the sums of the products of their low ends and those of their
//! high ends. What the second are above the first comes from the widths, by one prime where these
//! are small.

ghost use Rattle.std.specs.Prelude.{◌≡◌, ℕ, ◌^◌, ◌≤◌, true, length, IfOk};
ghost use Rattle.dl_transform.specs.Products.{other, AreHighSums, AreLowSums, AreNarrow};
ghost use Rattle.dl_transform.specs.Products.{AreServed, AreSumsBelow, HasRoomFor};

use crate::bounds::{are_narrow, are_sums_small, cells_of, levels_for};
use crate::cells::Cells;
use crate::combined::{add_lows, add_mixed, combine_all};
use crate::modular::{ends_modulo, sums_modulo};
use crate::setup::Setup;
use std::alloc::{AllocError, Global};

/// Room for the remainders of a product by both primes: of its sums of low ends, and of what its
/// sums of high ends are above them. It is taken at the first product that needs it, and kept for
/// those after it.
#[derive(Drop)]
pub struct Buffers {
    first_lows: Vec<u64>,
    second_lows: Vec<u64>,
    first_mixed: Vec<u64>,
    second_mixed: Vec<u64>,
    spare_lows: Vec<u64>,
    spare_widths: Vec<u64>,
}

impl Buffers {
    /// Buffers with no room yet. They take no memory.
    pub fn new(alloc: Global) -> Self {
        Buffers {
            first_lows: Vec::new(alloc),
            second_lows: Vec::new(alloc),
            first_mixed: Vec::new(alloc),
            second_mixed: Vec::new(alloc),
            spare_lows: Vec::new(alloc),
            spare_widths: Vec::new(alloc),
        }
    }
}

/// The first items of a buffer, which is made as long where it is shorter.
fn room_in<'a>(
    alloc: Global,
    buffer: &'a mut Vec<u64>,
    size: usize,
) -> Result<&'a mut [u64], AllocError>
    ensures { IfOk result (λ items. length items.now ≡ size) }
{
    if buffer.len() < size {
        *buffer = Vec::from_elem(alloc, 0, size)?;
    }
    Ok(&mut buffer.as_mut_slice()[..size])
}

/// The sums of products of low ends, as many as `lows` has room for.
#[tactic(auto, using(crate::proofs::Wholes::fewer_levels))]
fn low_products(
    alloc: Global,
    a: Cells<'_>,
    b: Option<Cells<'_>>,
    levels: u32,
    setup: &Setup,
    buffers: &mut Buffers,
    lows: &mut [u128],
) -> Result<(), AllocError>
    requires { AreServed setup.now.levels levels a (other a b) (length lows.old) }
    ensures { IfOk result
        (λ _. AreLowSums a.entry (other a.entry b.entry) (length lows.old) lows.new) }
{
    let size = cells_of(levels);
    let first = room_in(alloc, &mut buffers.first_lows, size)?;
    let second = room_in(alloc, &mut buffers.second_lows, size)?;
    let spare = room_in(alloc, &mut buffers.spare_lows, size)?;
    sums_modulo(first, spare, a, b, &setup.first, levels);
    sums_modulo(second, spare, a, b, &setup.second, levels);
    combine_all(first, second, setup, levels, lows);
    Ok(())
}

/// The sums of products of low ends and the first of those of high ends, as many as `lows` and
/// `highs` have room for, where the second are above the first by less than the first prime.
#[tactic(auto, using(crate::proofs::Wholes::fewer_levels))]
fn products_by_one(
    alloc: Global,
    a: Cells<'_>,
    b: Option<Cells<'_>>,
    levels: u32,
    setup: &Setup,
    buffers: &mut Buffers,
    lows: &mut [u128],
    highs: &mut [u128],
) -> Result<(), AllocError>
    requires served { AreServed setup.now.levels levels a (other a b) (length lows.old) }
    requires fewer { length highs.old ≤ length lows.old }
    requires narrow { AreNarrow setup.now.first.p a (other a b) }
    ensures low { IfOk result
        (λ _. AreLowSums a.entry (other a.entry b.entry) (length lows.old) lows.new) }
    ensures high { IfOk result
        (λ _. AreHighSums a.entry (other a.entry b.entry) (length highs.old) highs.new) }
{
    let size = cells_of(levels);
    let first = room_in(alloc, &mut buffers.first_lows, size)?;
    let second = room_in(alloc, &mut buffers.second_lows, size)?;
    let mixed = room_in(alloc, &mut buffers.first_mixed, size)?;
    let spare = room_in(alloc, &mut buffers.spare_lows, size)?;
    ends_modulo(first, second, mixed, spare, a, b, &setup.first, levels);
    sums_modulo(second, spare, a, b, &setup.second, levels);
    combine_all(first, second, setup, levels, lows);
    add_mixed(mixed, lows, &setup.first, levels, highs);
    Ok(())
}

/// The same for any widths, by both primes.
#[tactic(auto, using(crate::proofs::Wholes::fewer_levels))]
fn products_by_two(
    alloc: Global,
    a: Cells<'_>,
    b: Option<Cells<'_>>,
    levels: u32,
    setup: &Setup,
    buffers: &mut Buffers,
    lows: &mut [u128],
    highs: &mut [u128],
) -> Result<(), AllocError>
    requires served { AreServed setup.now.levels levels a (other a b) (length lows.old) }
    requires fewer { length highs.old ≤ length lows.old }
    ensures low { IfOk result
        (λ _. AreLowSums a.entry (other a.entry b.entry) (length lows.old) lows.new) }
    ensures high { IfOk result
        (λ _. AreHighSums a.entry (other a.entry b.entry) (length highs.old) highs.new) }
{
    let size = cells_of(levels);
    let first = room_in(alloc, &mut buffers.first_lows, size)?;
    let second = room_in(alloc, &mut buffers.second_lows, size)?;
    let mixed = room_in(alloc, &mut buffers.first_mixed, size)?;
    let others = room_in(alloc, &mut buffers.second_mixed, size)?;
    let spare = room_in(alloc, &mut buffers.spare_lows, size)?;
    let widths = room_in(alloc, &mut buffers.spare_widths, size)?;
    ends_modulo(first, spare, mixed, widths, a, b, &setup.first, levels);
    ends_modulo(second, spare, others, widths, a, b, &setup.second, levels);
    combine_all(first, second, setup, levels, lows);
    combine_all(mixed, others, setup, levels, highs);
    add_lows(lows, highs);
    Ok(())
}

/// Whether the first sums of products of two lists of cells are known, as many as `lows` and
/// `highs` have room for; then these have them, `lows` those of low ends and `highs` those of high
/// ends: for each `s` the sum of the products of cells `i` and `j` over all `i + j = s`. They are
/// known where the setup has room for both lists, no more sums are wanted than the lists have cells
/// together, and the sum of the high ends of `a` times the greatest of `b` is below `2^123`. Where
/// `b` is None it is the product of `a` with itself, and where `highs` has no room the sums of low
/// ends alone are made: both take fewer transforms.
pub fn product(
    alloc: Global,
    a: Cells<'_>,
    b: Option<Cells<'_>>,
    setup: &Setup,
    buffers: &mut Buffers,
    lows: &mut [u128],
    highs: &mut [u128],
) -> Result<bool, AllocError>
    requires fewer { length highs.old ≤ length lows.old }
    ensures low { IfOk result (λ found. found ≡ true
        → AreLowSums a.entry (other a.entry b.entry) (length lows.old) lows.new) }
    ensures high { IfOk result (λ found. found ≡ true
        → AreHighSums a.entry (other a.entry b.entry) (length highs.old) highs.new) }
    ensures found { IfOk result (λ found.
        HasRoomFor setup.now.levels a.entry (other a.entry b.entry) (length lows.old)
        → AreSumsBelow (2 ^ 123) a.entry (other a.entry b.entry) → found ≡ true) }
{
    let second = b.unwrap_or(a);
    let cells = a.lows.len() + second.lows.len();
    if lows.len() > cells || cells > cells_of(setup.levels) {
        return Ok(false);
    }
    if !are_sums_small(a, second) {
        return Ok(false);
    }
    let levels = levels_for(cells, setup.levels);
    if highs.is_empty() {
        low_products(alloc, a, b, levels, setup, buffers, lows)?;
    } else if are_narrow(a, second, setup.first.p) {
        products_by_one(alloc, a, b, levels, setup, buffers, lows, highs)?;
    } else {
        products_by_two(alloc, a, b, levels, setup, buffers, lows, highs)?;
    }
    Ok(true)
}
