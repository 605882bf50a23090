//! Operations on intervals, worked outside the program in whole numbers.

ghost use Rattle.std.specs.Prelude.{◌≤◌};

use dl_iv::{Iv, units_of_one};

/// What to call, with what it is passed beside the two intervals.
#[derive(Clone, Copy)]
enum Call {
    Point,
    Enclose(u128, u128),
    Add,
    SubFloor0,
    Complement,
    Mul,
    Scale(u64, u64),
    Div,
    ClampTo(u128),
    Sum,
    Width,
    PrintEnds(u32),
}

/// A call, the ends of its two intervals, and its results at the scales 1, 48 and 56.
struct Case {
    call: Call,
    first: (u64, u64),
    second: (u64, u64),
    ends: [(u128, u128); 3],
}

/// The greatest end, `2^127`.
const MOST: u128 = 170141183460469231731687303715884105728;

fn ends<const B: u32>(interval: Iv<B>) -> Option<(u128, u128)> {
    Some((interval.lo, interval.hi))
}

#[tactic(auto, using(dl_iv::proofs::Conditions::enclose_fits))]
fn enclosed<const B: u32>(num: u128, den: u128) -> Option<(u128, u128)>
    requires scale_above { 1 ≤ B }
    requires scale_below { B ≤ 56 }
{
    if den == 0 || den >= 1208925819614629174706176 || num >= 1267650600228229401496703205376 {
        return None;
    }
    if num / den >= 2361183241434822606848 {
        return None;
    }
    ends(Iv::<B>::enclose(num, den))
}

fn scaled<const B: u32>(first: Iv<B>, num: u64, den: u64) -> Option<(u128, u128)> {
    if den == 0 {
        return None;
    }
    let product = first.hi.checked_mul(u128::from(num))?;
    if product.div_ceil(u128::from(den)) > MOST {
        return None;
    }
    ends(first.scale(num, den))
}

fn divided<const B: u32>(first: Iv<B>, second: Iv<B>) -> Option<(u128, u128)> {
    first.hi.min(second.hi).checked_mul(units_of_one(B))?;
    if second.lo == 0 || first.hi.checked_mul(units_of_one(B))?.div_ceil(second.lo) > MOST {
        return None;
    }
    ends(first.div(second))
}

#[tactic(auto, using(dl_iv::proofs::Conditions::print_fits))]
fn printed<const B: u32>(first: Iv<B>, digits: u32) -> Option<(u128, u128)> {
    if digits > 9 || first.hi.checked_mul(10u128.pow(digits))? > MOST {
        return None;
    }
    Some(first.print_ends(digits))
}

fn rounded<const B: u32>(call: Call, first: Iv<B>, second: Iv<B>) -> Option<(u128, u128)>
    requires scale_above { 1 ≤ B }
    requires scale_below { B ≤ 56 }
{
    match call {
        Call::Enclose(num, den) => enclosed::<B>(num, den),
        Call::Mul => {
            first.hi.checked_mul(second.hi)?;
            ends(first.mul(second))
        }
        Call::Scale(num, den) => scaled(first, num, den),
        Call::Div => divided(first, second),
        Call::PrintEnds(digits) => printed(first, digits),
        _ => None,
    }
}

/// The ends of what a case calls, and nothing where the call's condition does not hold.
fn answer<const B: u32>(case: &Case) -> Option<(u128, u128)>
    requires scale_above { 1 ≤ B }
    requires scale_below { B ≤ 56 }
{
    if case.first.0 > case.first.1 || case.second.0 > case.second.1 {
        return None;
    }
    let first = Iv::<B> {
        lo: u128::from(case.first.0),
        hi: u128::from(case.first.1),
    };
    let second = Iv::<B> {
        lo: u128::from(case.second.0),
        hi: u128::from(case.second.1),
    };
    match case.call {
        Call::Point => ends(Iv::<B>::point(first.lo)),
        Call::Add => ends(first.add(second)),
        Call::SubFloor0 => ends(first.sub_floor0(second)),
        Call::Complement => ends(first.complement()),
        Call::ClampTo(top) => ends(first.clamp_to(top)),
        Call::Sum => ends(Iv::sum(&[first, second, first])),
        Call::Width => Some((first.width(), first.width())),
        call => rounded(call, first, second),
    }
}

/// Worked out by whole numbers of any size.
const CASES: [Case; 21] = [
    Case {
        call: Call::Point,
        first: (3, 5),
        second: (2, 7),
        ends: [(3, 3), (3, 3), (3, 3)],
    },
    Case {
        call: Call::Enclose(1, 3),
        first: (3, 5),
        second: (2, 7),
        ends: [
            (0, 1),
            (93824992236885, 93824992236886),
            (24019198012642645, 24019198012642646),
        ],
    },
    Case {
        call: Call::Enclose(6, 3),
        first: (3, 5),
        second: (2, 7),
        ends: [
            (4, 4),
            (562949953421312, 562949953421312),
            (144115188075855872, 144115188075855872),
        ],
    },
    Case {
        call: Call::Enclose(999999999999999999999999999999, 700000000000000000000007),
        first: (3, 5),
        second: (2, 7),
        ends: [
            (2857142, 2857143),
            (402107109586651428571, 402107109586651428572),
            (102939420054182765714284, 102939420054182765714285),
        ],
    },
    Case {
        call: Call::Add,
        first: (3, 5),
        second: (2, 7),
        ends: [(5, 12), (5, 12), (5, 12)],
    },
    Case {
        call: Call::SubFloor0,
        first: (3, 5),
        second: (2, 7),
        ends: [(0, 3), (0, 3), (0, 3)],
    },
    Case {
        call: Call::SubFloor0,
        first: (30, 50),
        second: (2, 7),
        ends: [(23, 48), (23, 48), (23, 48)],
    },
    Case {
        call: Call::Complement,
        first: (0, 1),
        second: (2, 7),
        ends: [
            (1, 2),
            (281474976710655, 281474976710656),
            (72057594037927935, 72057594037927936),
        ],
    },
    Case {
        call: Call::Complement,
        first: (3, 5),
        second: (2, 7),
        ends: [
            (0, 0),
            (281474976710651, 281474976710653),
            (72057594037927931, 72057594037927933),
        ],
    },
    Case {
        call: Call::Mul,
        first: (3, 5),
        second: (2, 7),
        ends: [(3, 18), (0, 1), (0, 1)],
    },
    Case {
        call: Call::Mul,
        first: (144115188075855869, 144115188075855871),
        second: (130000000000000007, 130000000000000009),
        ends: [
            (
                9367487224930631989403158265495541,
                9367487224930632263518346341351420,
            ),
            (66560000000000002198, 66560000000000004147),
            (260000000000000008, 260000000000000017),
        ],
    },
    Case {
        call: Call::Scale(2, 3),
        first: (4, 5),
        second: (2, 7),
        ends: [(2, 4), (2, 4), (2, 4)],
    },
    Case {
        call: Call::Scale(18446744073709551615, 18446744073709551557),
        first: (144115188075855869, 144115188075855871),
        second: (2, 7),
        ends: [
            (144115188075855869, 144115188075855872),
            (144115188075855869, 144115188075855872),
            (144115188075855869, 144115188075855872),
        ],
    },
    Case {
        call: Call::Div,
        first: (3, 5),
        second: (2, 7),
        ends: [
            (0, 5),
            (120632132875995, 703687441776640),
            (30881826016254829, 180143985094819840),
        ],
    },
    Case {
        call: Call::Div,
        first: (3, 5),
        second: (3, 5),
        ends: [
            (1, 4),
            (168884986026393, 469124961184427),
            (43234556422756761, 120095990063213227),
        ],
    },
    Case {
        call: Call::Div,
        first: (144115188075855869, 144115188075855871),
        second: (130000000000000007, 130000000000000009),
        ends: [
            (2, 3),
            (312037070825410, 312037070825411),
            (79881490131305033, 79881490131305036),
        ],
    },
    Case {
        call: Call::ClampTo(4),
        first: (3, 5),
        second: (2, 7),
        ends: [(3, 4), (3, 4), (3, 4)],
    },
    Case {
        call: Call::Sum,
        first: (3, 5),
        second: (2, 7),
        ends: [(8, 17), (8, 17), (8, 17)],
    },
    Case {
        call: Call::Width,
        first: (3, 5),
        second: (2, 7),
        ends: [(2, 2), (2, 2), (2, 2)],
    },
    Case {
        call: Call::PrintEnds(3),
        first: (3, 5),
        second: (2, 7),
        ends: [(1500, 2500), (0, 1), (0, 1)],
    },
    Case {
        call: Call::PrintEnds(9),
        first: (144115188075855869, 144115188075855871),
        second: (2, 7),
        ends: [
            (72057594037927934500000000, 72057594037927935500000000),
            (511999999999, 512000000000),
            (1999999999, 2000000000),
        ],
    },
];

/// Whether a case has its stated ends at all three scales.
fn holds(case: &Case) -> bool {
    answer::<1>(case) == Some(case.ends[0])
        && answer::<48>(case) == Some(case.ends[1])
        && answer::<56>(case) == Some(case.ends[2])
}

/// The number of the first case that does not hold, if there is one.
fn first_wrong() -> Option<usize> {
    for (i, case) in CASES.iter().enumerate() {
        if !holds(case) {
            return Some(i);
        }
    }
    None
}

#[test]
fn each_call_gives_the_stated_ends_at_three_scales(rt: HostRuntime) {
    assert_eq!(rt; first_wrong(), None);
}
