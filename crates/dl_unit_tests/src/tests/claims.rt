//! Sums of a fixed and of a listed number of claims, worked by whole numbers of any size.

ghost use Rattle.std.specs.Prelude.{◌≡◌, ◌≤◌, length, IfOk};

use dl_claims::{claim_grid, mix_counts, power};
use dl_grid::Grid;
use dl_plan::Item;
use dl_product::Workspace;
use std::alloc::{AllocError, Global};

/// The faces of a die, each as likely as the others.
const DIE: [Item; 6] = [
    Item {
        amount: 1,
        weight: 1,
    },
    Item {
        amount: 2,
        weight: 1,
    },
    Item {
        amount: 3,
        weight: 1,
    },
    Item {
        amount: 4,
        weight: 1,
    },
    Item {
        amount: 5,
        weight: 1,
    },
    Item {
        amount: 6,
        weight: 1,
    },
];

/// None, one or two claims, each number as likely as the others.
const COUNTS: [Item; 3] = [
    Item {
        amount: 0,
        weight: 1,
    },
    Item {
        amount: 1,
        weight: 1,
    },
    Item {
        amount: 2,
        weight: 1,
    },
];

/// The ends of the cells from 0 to 12, and the spread of the whole grid.
struct Ends {
    lows: [u128; 13],
    highs: [u128; 13],
    spread: u128,
}

/// Two dice, three dice, and none, one or two dice, each number as likely as the others.
struct Sums {
    two: Ends,
    three: Ends,
    mixed: Ends,
}

// Worked out by whole numbers of any size, from 1/6 and 1/3 rounded down and up at each scale.
const AT_48: Sums = Sums {
    two: Ends {
        lows: [
            0,
            0,
            7818749353073,
            15637498706147,
            23456248059220,
            31274997412294,
            39093746765367,
            46912496118441,
            39093746765367,
            31274997412294,
            23456248059220,
            15637498706147,
            7818749353073,
        ],
        highs: [
            0,
            0,
            7818749353074,
            15637498706148,
            23456248059222,
            31274997412296,
            39093746765370,
            46912496118444,
            39093746765370,
            31274997412296,
            23456248059222,
            15637498706148,
            7818749353074,
        ],
        spread: 21,
    },
    three: Ends {
        lows: [
            0,
            0,
            0,
            1303124892178,
            3909374676536,
            7818749353073,
            13031248921788,
            19546873382683,
            27365622735756,
            32578122304472,
            35184372088830,
            35184372088830,
            32578122304472,
        ],
        highs: [
            0,
            0,
            0,
            1303124892180,
            3909374676538,
            7818749353075,
            13031248921791,
            19546873382686,
            27365622735760,
            32578122304476,
            35184372088834,
            35184372088834,
            32578122304476,
        ],
        spread: 32,
    },
    mixed: Ends {
        lows: [
            93824992236885,
            15637498706147,
            18243748490504,
            20849998274862,
            23456248059220,
            26062497843578,
            28668747627935,
            15637498706146,
            13031248921788,
            10424999137431,
            7818749353073,
            5212499568715,
            2606249784357,
        ],
        highs: [
            93824992236886,
            15637498706148,
            18243748490507,
            20849998274865,
            23456248059223,
            26062497843581,
            28668747627939,
            15637498706149,
            13031248921791,
            10424999137433,
            7818749353075,
            5212499568717,
            2606249784359,
        ],
        spread: 32,
    },
};

const AT_56: Sums = Sums {
    two: Ends {
        lows: [
            0,
            0,
            2001599834386886,
            4003199668773773,
            6004799503160660,
            8006399337547547,
            10007999171934434,
            12009599006321321,
            10007999171934434,
            8006399337547547,
            6004799503160660,
            4003199668773773,
            2001599834386886,
        ],
        highs: [
            0,
            0,
            2001599834386888,
            4003199668773775,
            6004799503160662,
            8006399337547549,
            10007999171934437,
            12009599006321324,
            10007999171934437,
            8006399337547549,
            6004799503160662,
            4003199668773775,
            2001599834386888,
        ],
        spread: 25,
    },
    three: Ends {
        lows: [
            0,
            0,
            0,
            333599972397814,
            1000799917193443,
            2001599834386886,
            3335999723978144,
            5003999585967216,
            7005599420354103,
            8339999309945361,
            9007199254740990,
            9007199254740990,
            8339999309945361,
        ],
        highs: [
            0,
            0,
            0,
            333599972397815,
            1000799917193444,
            2001599834386888,
            3335999723978146,
            5003999585967219,
            7005599420354107,
            8339999309945365,
            9007199254740994,
            9007199254740994,
            8339999309945365,
        ],
        spread: 29,
    },
    mixed: Ends {
        lows: [
            24019198012642645,
            4003199668773774,
            4670399613569402,
            5337599558365031,
            6004799503160660,
            6671999447956289,
            7339199392751918,
            4003199668773773,
            3335999723978144,
            2668799779182515,
            2001599834386886,
            1334399889591257,
            667199944795628,
        ],
        highs: [
            24019198012642646,
            4003199668773775,
            4670399613569405,
            5337599558365034,
            6004799503160663,
            6671999447956292,
            7339199392751921,
            4003199668773775,
            3335999723978146,
            2668799779182517,
            2001599834386888,
            1334399889591259,
            667199944795630,
        ],
        spread: 29,
    },
};

/// Whether a grid has the ends that were worked out.
fn has<const B: u32>(grid: &Grid<B>, want: &Ends) -> bool {
    grid.lows() == want.lows.as_slice()
        && grid.highs() == want.highs.as_slice()
        && grid.spread() == want.spread
}

/// A die on 13 cells.
#[tactic(auto, using(dl_grid::proofs::Sizes::few_at_each_scale))]
fn die<const B: u32>(alloc: Global) -> Result<Grid<B>, AllocError>
    requires scale_above { 1 ≤ B }
    requires scale_below { B ≤ 56 }
    ensures { IfOk result (λ g. length g ≡ 13) }
{
    claim_grid::<B>(alloc, &DIE, 6, 13)
}

/// The sum of so many dice.
fn sum_of<const B: u32>(alloc: Global, dice: u32) -> Result<Grid<B>, AllocError>
    requires scale_above { 1 ≤ B }
    requires scale_below { B ≤ 56 }
{
    let die = die::<B>(alloc)?;
    power(alloc, &mut Workspace::new(alloc), &die, dice, 13)
}

/// The sum of none, one or two dice.
fn mixed<const B: u32>(alloc: Global) -> Result<Grid<B>, AllocError>
    requires scale_above { 1 ≤ B }
    requires scale_below { B ≤ 56 }
{
    let die = die::<B>(alloc)?;
    mix_counts(alloc, &mut Workspace::new(alloc), &die, &COUNTS, 3, 13)
}

/// Whether the sums of dice are those that were worked out, at one scale.
fn agrees<const B: u32>(alloc: Global, want: &Sums) -> Result<bool, AllocError>
    requires scale_above { 1 ≤ B }
    requires scale_below { B ≤ 56 }
{
    let two = has(&sum_of::<B>(alloc, 2)?, &want.two);
    let three = has(&sum_of::<B>(alloc, 3)?, &want.three);
    Ok(two && three && has(&mixed::<B>(alloc)?, &want.mixed))
}

#[test]
fn dice(rt: HostRuntime) -> Result<(), AllocError> {
    let alloc = rt.alloc();
    assert!(rt; agrees::<48>(alloc, &AT_48)?);
    assert!(rt; agrees::<56>(alloc, &AT_56)?);
    Ok(())
}
