//! Steps of severities, worked by hand.

ghost use Rattle.std.specs.Prelude.{◌≡◌, ◌≤◌, ◌^◌, sum, IfOk};

use dl_frac::Frac;
use dl_plan::{Cede, CedeLayer, Item, Sev};
use dl_severity::{
    AboveFault, MixFault, WeighFault, Weights, above, cede_each, cut, merge, mix, weigh,
};
use std::alloc::{AllocError, Global};

/// Fractions by their parts.
type Parts<'a> = &'a [(u64, u64)];

/// The amounts of a severity with their weights, and what these come to; no amounts where no
/// severity is wanted.
type Shown<'a> = (&'a [(u32, u64)], u64);

/// Fractions of these parts; a part of 0 below the line is left out.
fn fractions(alloc: Global, parts: Parts<'_>) -> Result<Vec<Frac>, AllocError> {
    let mut probs = Vec::new(alloc);
    for &(num, den) in parts {
        if den > 0 {
            if let Ok(prob) = Frac::make(num as u128, den as u128) {
                probs.push(prob)?;
            }
        }
    }
    Ok(probs)
}

fn weighed(alloc: Global, parts: Parts<'_>) -> Result<Weights, WeighFault>
    ensures sum { IfOk result (λ made. sum made.weights ≡ made.total) }
    ensures some { IfOk result (λ made. 1 ≤ made.total) }
    ensures within { IfOk result (λ made. made.total ≤ 2 ^ 40) }
{
    weigh(alloc, &fractions(alloc, parts)?, 1 << 40)
}

/// Probabilities, their weights and what these come to, or why there are none. The last weights
/// have the common denominator 2^40. What is not 1 in sum and has a common denominator above 2^40
/// is too fine.
const WEIGHTS: [(Parts<'_>, &[u64], u64, Option<WeighFault>); 8] = [
    (&[(1, 2), (1, 3), (1, 6)], &[3, 2, 1], 6, None),
    (&[(1, 2), (1, 2), (0, 1)], &[1, 1, 0], 2, None),
    (&[(1, 3), (1, 3), (1, 3)], &[1, 1, 1], 3, None),
    (
        &[(1, 1 << 40), ((1 << 40) - 1, 1 << 40)],
        &[1, 1_099_511_627_775],
        1 << 40,
        None,
    ),
    (&[(1, 3), (1, 3)], &[], 0, Some(WeighFault::NotOne)),
    (&[(1, 2), (1, 2), (1, 9)], &[], 0, Some(WeighFault::NotOne)),
    (
        &[(1, (1 << 40) + 1), (1 << 40, (1 << 40) + 1)],
        &[],
        0,
        Some(WeighFault::TooFine),
    ),
    (
        &[(1, (1 << 40) + 1), (1, 3)],
        &[],
        0,
        Some(WeighFault::TooFine),
    ),
];

/// Whether probabilities have these weights, or none for this reason.
fn is_weighed(
    alloc: Global,
    parts: Parts<'_>,
    weights: &[u64],
    total: u64,
    fault: Option<WeighFault>,
) -> bool {
    match weighed(alloc, parts) {
        Ok(made) => { fault.is_none() && made.total == total && made.weights.as_slice() == weights }
        Err(found) => fault == Some(found),
    }
}

#[test]
fn weighing(rt: HostRuntime) {
    for &(parts, weights, total, fault) in &WEIGHTS {
        assert!(rt;
            is_weighed(rt.alloc(), parts, weights, total, fault),
            "{total}"
        );
    }
}

/// Whether a severity has these amounts with these weights.
fn has_items(sev: &Sev, shown: Shown<'_>) -> bool {
    let mut same = sev.total == shown.1 && sev.items.as_slice().len() == shown.0.len();
    for (item, &(amount, weight)) in sev.items.as_slice().iter().zip(shown.0) {
        same = same && *item == Item { amount, weight };
    }
    same
}

/// Whether a severity was made that has them, or none where none is wanted.
fn is_shown(made: Option<Sev>, shown: Shown<'_>) -> bool {
    match made {
        Some(sev) => has_items(&sev, shown),
        None => shown.0.is_empty(),
    }
}

/// The severity of these amounts with these probabilities.
fn severity(alloc: Global, amounts: &[u32], parts: Parts<'_>) -> Option<Sev> {
    match weighed(alloc, parts) {
        Ok(weights) => {
            if amounts.len() != weights.weights.as_slice().len() {
                return None;
            }
            merge(alloc, amounts, &weights).ok()
        }
        Err(_) => None,
    }
}

/// Amounts, their probabilities, and the severity of them.
const MERGED: [(&[u32], Parts<'_>, Shown<'_>); 3] = [
    // 5 twice, and an amount of probability 0
    (
        &[5, 1, 5, 9],
        &[(1, 2), (1, 4), (1, 4), (0, 1)],
        (&[(1, 1), (5, 3)], 4),
    ),
    // all amounts one
    (
        &[7, 7, 7, 7],
        &[(1, 10), (2, 10), (3, 10), (4, 10)],
        (&[(7, 1)], 1),
    ),
    // amount 0 is one like any other, and the weights lose their divisor
    (
        &[3, 0, 3, 0],
        &[(1, 6), (2, 6), (1, 6), (2, 6)],
        (&[(0, 2), (3, 1)], 3),
    ),
];

#[test]
fn merging(rt: HostRuntime) {
    for &(amounts, parts, shown) in &MERGED {
        assert!(rt;
            is_shown(severity(rt.alloc(), amounts, parts), shown),
            "{}",
            shown.1
        );
    }
}

/// Amounts and their probabilities.
type Listed<'a> = (&'a [u32], Parts<'a>);

/// Adds the severity of amounts, where it is one.
fn push_atom(alloc: Global, atoms: &mut Vec<Sev>, listed: Listed<'_>) -> Result<(), AllocError> {
    if let Some(atom) = severity(alloc, listed.0, listed.1) {
        atoms.push(atom)?;
    }
    Ok(())
}

/// The mixture of two atoms.
fn mixed(
    alloc: Global,
    first: Listed<'_>,
    second: Listed<'_>,
    parts: Parts<'_>,
) -> Result<Sev, MixFault> {
    let mut atoms = Vec::new(alloc);
    push_atom(alloc, &mut atoms, first)?;
    push_atom(alloc, &mut atoms, second)?;
    mixture(alloc, &atoms, parts)
}

/// The mixture of atoms.
fn mixture(alloc: Global, atoms: &[Sev], parts: Parts<'_>) -> Result<Sev, MixFault> {
    match weighed(alloc, parts) {
        Ok(weights) if weights.weights.as_slice().len() == atoms.len() => mix(
            alloc,
            atoms,
            &weights,
            1 << 40,
        ),
        _ => Err(MixFault::OutOfMemory),
    }
}

/// Two and three equally likely amounts.
const HALVES: Parts<'_> = &[(1, 2), (1, 2)];

const THIRDS: Parts<'_> = &[(1, 3), (1, 3), (1, 3)];

/// An amount of probability 1 / 2^39, and one of all that is left.
const FINE: Parts<'_> = &[(1, 1 << 39), ((1 << 39) - 1, 1 << 39)];

/// Two atoms, their weights, and the mixture; none where its common denominator is 2^41, or 2^78.
const MIXED: [(Listed<'_>, Listed<'_>, Parts<'_>, Shown<'_>); 5] = [
    // 1 and 2, or 2, 3 and 4, each with 1/2: 2 has 1/4 + 1/6
    (
        (&[1, 2], HALVES),
        (&[2, 3, 4], THIRDS),
        HALVES,
        (&[(1, 3), (2, 5), (3, 2), (4, 2)], 12),
    ),
    // an atom of weight 0 is none
    (
        (&[1], &[(1, 1)]),
        (&[2, 3, 4], THIRDS),
        &[(1, 1), (0, 1)],
        (&[(1, 1)], 1),
    ),
    // a common denominator of 2^40, of 2^41 and of 2^78
    (
        (&[1, 2], FINE),
        (&[1], &[(1, 1)]),
        HALVES,
        (&[(1, (1 << 39) + 1), (2, (1 << 39) - 1)], 1 << 40),
    ),
    (
        (&[1, 2], FINE),
        (&[1], &[(1, 1)]),
        &[(1, 4), (3, 4)],
        (&[], 0),
    ),
    ((&[1, 2], FINE), (&[1], &[(1, 1)]), FINE, (&[], 0)),
];

#[test]
fn mixing(rt: HostRuntime) {
    for &(first, second, parts, shown) in &MIXED {
        let made = mixed(rt.alloc(), first, second, parts);
        assert!(rt; !matches!(made, Err(MixFault::OutOfMemory)));
        assert!(rt; is_shown(made.ok(), shown), "{}", shown.1);
    }
}

/// Amounts 1 and 5 with probabilities 1/4 and 3/4, those of them above an attachment.
fn five_above(alloc: Global, attach: u32) -> Result<Sev, AboveFault> {
    match severity(alloc, &[1, 5], &[(1, 4), (3, 4)]) {
        Some(sev) => above(alloc, &sev, attach),
        None => Err(AboveFault::OutOfMemory),
    }
}

#[test]
fn conditioning(rt: HostRuntime) {
    let alloc = rt.alloc();
    assert!(rt; is_shown(five_above(alloc, 0).ok(), (&[(1, 1), (5, 3)], 4)));
    assert!(rt; is_shown(five_above(alloc, 1).ok(), (&[(5, 1)], 1)));
    assert!(rt; is_shown(five_above(alloc, 4).ok(), (&[(5, 1)], 1)));
    assert_eq!(rt; five_above(alloc, 5).err(), Some(AboveFault::NoneAbove));
}

/// Those in a layer.
fn five_in(alloc: Global, limit: Option<u32>, attach: u32) -> Option<Sev> {
    let sev = severity(alloc, &[1, 5], &[(1, 4), (3, 4)])?;
    cut(alloc, &sev, limit, attach).ok()
}

#[test]
fn layers(rt: HostRuntime) {
    let alloc = rt.alloc();
    assert!(rt; is_shown(five_in(alloc, Some(2), 2), (&[(0, 1), (2, 3)], 4)));
    assert!(rt; is_shown(five_in(alloc, None, 2), (&[(0, 1), (3, 3)], 4)));
    assert!(rt; is_shown(five_in(alloc, Some(1), 0), (&[(1, 1)], 1)));
    assert!(rt; is_shown(five_in(alloc, Some(0), 0), (&[(0, 1)], 1)));
}

/// Whether a half of 4 above 2 is left out, else is kept; three equally likely amounts; and what they
/// become, none where it is off the grid.
const CEDED: [(bool, &[u32], Shown<'_>); 4] = [
    // net: 2, 4 and 6 become 2, 3 and 4; ceded: 0, 1 and 2
    (true, &[2, 4, 6], (&[(2, 1), (3, 1), (4, 1)], 3)),
    (false, &[2, 4, 6], (&[(0, 1), (1, 1), (2, 1)], 3)),
    (true, &[1, 2, 10], (&[(1, 1), (2, 1), (8, 1)], 3)),
    (true, &[2, 4, 5], (&[], 0)),
];

/// The clause of a half of 4 above 2.
fn half_of_four(alloc: Global, net: bool) -> Option<Cede> {
    let layer = CedeLayer {
        share: Frac::make(1, 2).ok()?,
        limit: Some(4),
        attach: 2,
    };
    Cede::from_slice(alloc, net, &[layer]).ok()
}

/// What the clause keeps of each of three equally likely amounts.
fn ceded(alloc: Global, cede: &Cede, amounts: &[u32]) -> Option<Sev> {
    if !cede.is_clause() {
        return None;
    }
    let sev = severity(alloc, amounts, THIRDS)?;
    cede_each(alloc, &sev, cede).ok()
}

/// Whether the clause leaves of three equally likely amounts what is wanted.
fn leaves(alloc: Global, net: bool, amounts: &[u32], shown: Shown<'_>) -> bool {
    match &half_of_four(alloc, net) {
        Some(cede) => cede.is_clause() && is_shown(ceded(alloc, cede, amounts), shown),
        None => false,
    }
}

#[test]
fn occurrence_clauses(rt: HostRuntime) {
    for &(net, amounts, shown) in &CEDED {
        assert!(rt; leaves(rt.alloc(), net, amounts, shown), "{}", shown.1);
    }
}
