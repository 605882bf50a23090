//! Products by transforms, beside long multiplication.

ghost use Rattle.std.specs.Prelude.{◌<◌, ◌^◌, ◌↔◌, All, IsTrue};

use dl_transform::{Buffers, Cells, Setup, product, set_up};
use std::alloc::{AllocError, Global};

/// What of two lists of cells is wanted: the first items of the products of their low ends and of
/// their high ends; none where these are too large, or too many.
#[derive(Clone, Copy)]
struct Products<'a> {
    low: Option<&'a [u128]>,
    high: Option<&'a [u128]>,
}

/// Two lists of low ends and widths, at how many levels they are multiplied, and their products by
/// long multiplication.
struct Case {
    lows: [&'static [u128]; 2],
    widths: [&'static [u128]; 2],
    levels: u32,
    want: Products<'static>,
}

/// Whether each number has at most 64 bits.
fn are_short(list: &[u128]) -> bool
    ensures { IsTrue result ↔ All (λ x. x < 2 ^ 64) list.now }
{
    list.iter().all(|x| *x < 18446744073709551616)
}

/// The cells of these low ends and widths, where there are no more widths, each in 64 bits.
fn cells_of<'a>(lows: &'a [u128], widths: &'a [u128]) -> Option<Cells<'a>> {
    if widths.len() <= lows.len() && are_short(lows) && are_short(widths) {
        Some(Cells { lows, widths })
    } else {
        None
    }
}

/// Whether a call gave what is wanted.
fn is_wanted(told: bool, out: &[u128], want: Option<&[u128]>) -> bool {
    let found = if told { Some(out) } else { None };
    found == want
}

/// Whether the products of two lists, in buffers that have been used before, are what is wanted, and
/// those of low ends alone too.
fn are_wanted(
    alloc: Global,
    buffers: &mut Buffers,
    setup: &Setup,
    a: Option<Cells<'_>>,
    b: Option<Cells<'_>>,
    want: Products<'_>,
) -> Result<bool, AllocError> {
    let (Some(a), Some(b)) = (a, b) else {
        return Ok(false);
    };
    let count = want.low.map_or(1, |items| items.len());
    let mut lows = Vec::from_elem(alloc, 99, count)?;
    let mut highs = Vec::from_elem(alloc, 99, count)?;
    let (low, high) = (lows.as_mut_slice(), highs.as_mut_slice());
    let told = product(alloc, a, Some(b), setup, buffers, low, high)?;
    if !is_wanted(told, lows.as_slice(), want.low)
        || !is_wanted(told, highs.as_slice(), want.high)
    {
        return Ok(false);
    }
    let mut alone = Vec::from_elem(alloc, 99, count)?;
    let low = alone.as_mut_slice();
    let told = product(alloc, a, Some(b), setup, buffers, low, &mut [])?;
    Ok(is_wanted(told, alone.as_slice(), want.low))
}

/// Whether a case has a setup, and its products are what is wanted.
fn agrees(alloc: Global, buffers: &mut Buffers, case: &Case) -> Result<bool, AllocError> {
    if case.levels >= 40 {
        return Ok(false);
    }
    let a = cells_of(case.lows[0], case.widths[0]);
    let b = cells_of(case.lows[1], case.widths[1]);
    match set_up(alloc, case.levels)? {
        Some(setup) => are_wanted(alloc, buffers, &setup, a, b, case.want),
        None => Ok(false),
    }
}

const CASES: [Case; 10] = [
    Case {
        lows: [&[1, 2, 3], &[4, 5]],
        widths: [&[1, 0, 2], &[3, 1]],
        levels: 4,
        want: Products {
            low: Some(&[4, 13, 22, 15, 0]),
            high: Some(&[14, 26, 47, 30, 0]),
        },
    },
    Case {
        lows: [&[1, 2, 3, 4, 5], &[6, 7, 8, 9]],
        widths: [&[], &[0, 0]],
        levels: 4,
        want: Products {
            low: Some(&[6, 19, 40, 70, 100, 94, 76, 45, 0]),
            high: Some(&[6, 19, 40, 70, 100, 94, 76, 45, 0]),
        },
    },
    Case {
        lows: [&[3, 1], &[3, 1]],
        widths: [&[1, 4], &[1, 4]],
        levels: 2,
        want: Products {
            low: Some(&[9, 6, 1]),
            high: Some(&[16, 40, 25]),
        },
    },
    // only the first items, and a setup for longer lists
    Case {
        lows: [&[1, 2, 3], &[4, 5]],
        widths: [&[1, 0, 2], &[3, 1]],
        levels: 7,
        want: Products {
            low: Some(&[4, 13]),
            high: Some(&[14, 26]),
        },
    },
    Case {
        lows: [&[7], &[9]],
        widths: [&[0], &[0]],
        levels: 1,
        want: Products {
            low: Some(&[63]),
            high: Some(&[63]),
        },
    },
    // what the high ends have more is just below a prime, and needs two
    Case {
        lows: [&[36028797018963968], &[36028797018963968]],
        widths: [&[1], &[63]],
        levels: 1,
        want: Products {
            low: Some(&[1298074214633706907132624082305024]),
            high: Some(&[1298074214633709212975633295999039]),
        },
    },
    Case {
        lows: [&[72057594037927936], &[1]],
        widths: [&[0], &[64]],
        levels: 1,
        want: Products {
            low: Some(&[72057594037927936]),
            high: Some(&[4683743612465315840]),
        },
    },
    // the greatest sum that is surely found, and the next one
    Case {
        lows: [&[9223372036854775807], &[1152921504606846976]],
        widths: [&[0], &[0]],
        levels: 1,
        want: Products {
            low: Some(&[10633823966279326982077534977635909632]),
            high: Some(&[10633823966279326982077534977635909632]),
        },
    },
    Case {
        lows: [&[9223372036854775807], &[1152921504606846977]],
        widths: [&[0], &[0]],
        levels: 1,
        want: Products {
            low: None,
            high: None,
        },
    },
    // too long
    Case {
        lows: [&[1, 1, 1], &[1, 1]],
        widths: [&[0, 0, 0], &[0, 0]],
        levels: 2,
        want: Products {
            low: None,
            high: None,
        },
    },
];

#[test]
fn products_are_exact(rt: HostRuntime) -> Result<(), AllocError> {
    let alloc = rt.alloc();
    let mut buffers = Buffers::new(alloc);
    for case in &CASES {
        assert!(rt;
            agrees(alloc, &mut buffers, case)?,
            "{} levels",
            case.levels
        );
    }
    Ok(())
}

/// The numbers 1, 2, 3 and so on, so many.
fn counted(alloc: Global, count: usize) -> Result<Vec<u128>, AllocError> {
    let mut list = Vec::with_capacity(alloc, count)?;
    for i in 0..count {
        list.push(i as u128 + 1)?;
    }
    Ok(list)
}

/// Whether the setup of so many levels is there, and the square of half as many ones as it has room
/// for counts the pairs.
fn counts(alloc: Global, buffers: &mut Buffers, levels: u32) -> Result<bool, AllocError> {
    if levels == 0 || levels >= 40 {
        return Ok(false);
    }
    let count = 1usize << (levels - 1);
    let (ones, none) = (
        Vec::from_elem(alloc, 1, count)?,
        Vec::from_elem(alloc, 0, count)?,
    );
    let cells = cells_of(ones.as_slice(), none.as_slice());
    let sums = counted(alloc, count)?;
    let want = Products {
        low: Some(sums.as_slice()),
        high: Some(sums.as_slice()),
    };
    match set_up(alloc, levels)? {
        Some(setup) => are_wanted(alloc, buffers, &setup, cells, cells, want),
        None => Ok(false),
    }
}

#[test]
fn there_are_tables_at_every_level(rt: HostRuntime) -> Result<(), AllocError> {
    let alloc = rt.alloc();
    let mut buffers = Buffers::new(alloc);
    for levels in 1..18 {
        assert!(rt; counts(alloc, &mut buffers, levels)?, "{levels} levels");
    }
    Ok(())
}
