//! Atoms and their mixture.

ghost use Rattle.std.specs.Prelude.{◌≡◌, ◌++◌, ◌≤◌, ◌<◌, ◌^◌, length, map, sum, zip, IfOk, OnOk, MatchResult};
ghost use Rattle.dl_limits.specs.Limits.{most_weights};
ghost use Rattle.dl_exact.specs.Fraction.{◌over◌};
ghost use Rattle.dl_plan.specs.Prelude.{amounts_of, common_denominator, HasDistribution};
ghost use Rattle.dl_severity.specs.Steps.{weighed, items_of, mixture, mixed_probability};
ghost use Rattle.dl_severity.specs.Refusals.{RefusesMixture, RefusesProducts};

use crate::fault::MixFault;
use crate::gather::gathered;
use crate::list::push_item;
use crate::weights::{Weights, over_common};
use dl_frac::Frac;
use dl_plan::{Item, Items, Sev, common_denominator_of};
use std::alloc::{AllocError, Global};

/// The severity of amounts with whole weights: equal amounts are added up, and weights of 0
/// dropped. The weights sum to their total, which is from 1 to 2^40.
pub fn merge(alloc: Global, amounts: &[u32], weights: &Weights) -> Result<Sev, AllocError>
    requires lengths { length amounts.now ≡ length weights.now.weights }
    requires sum { sum weights.now.weights ≡ weights.now.total }
    requires some { 1 ≤ weights.now.total }
    requires within { weights.now.total ≤ most_weights }
    ensures { IfOk result (λ sev. HasDistribution sev (weighed amounts.now weights.now)) }
{
    gathered(alloc, items_of(alloc, amounts, weights.weights.as_slice())?)
}

/// Amounts and weights, item by item.
fn items_of(alloc: Global, amounts: &[u32], weights: &[u64]) -> Result<Vec<Item>, AllocError>
    requires { length amounts.now ≡ length weights.now }
    ensures { IfOk result (λ items. items.items ≡ items_of amounts.now weights.now) }
{
    let mut items = Vec::new(alloc);
    'amounts: for (at, &amount) in amounts.iter().enumerate() {
        items.push(Item {
            amount,
            weight: weights[at],
        })?;
    }
    Ok(items)
}

/// The mixture of atoms: the probabilities of each times its weight over the total, which is from 1
/// to 2^40. `TooFine` exactly where these products have a common denominator above `most`, which is
/// at most 2^40. One atom alone is its own mixture, and is copied where its total is at most `most`.
pub fn mix(alloc: Global, atoms: &[Sev], weights: &Weights, most: u64) -> Result<Sev, MixFault>
    requires lengths { length atoms.now ≡ length weights.now.weights }
    requires sum { sum weights.now.weights ≡ weights.now.total }
    requires some { 1 ≤ weights.now.total }
    requires within { weights.now.total ≤ most_weights }
    requires most { most ≤ most_weights }
    ensures step { MatchResult result (λ made. HasDistribution made (mixture atoms.now weights.now))
        (RefusesMixture most atoms.now weights.now) }
    ensures fine { OnOk result (common_denominator (map (λ pair. pair.1)
        (mixture atoms.now weights.now)) ≤ most) }
{
    if atoms.len() == 1 && atoms[0].total <= most {
        return Ok(copied(alloc, &atoms[0])?);
    }
    let mut amounts = Vec::new(alloc);
    let mut probs = Vec::new(alloc);
    let parts = weights.weights.as_slice();
    'atoms: for (at, atom) in atoms.iter().enumerate() {
        push_amounts(&mut amounts, atom.items.as_slice())?;
        if let Err(fault) = push_probs(&mut probs, atom, parts[at], weights.total) {
            return Err(fault);
        }
    }
    let Some(common) = common_denominator_of(&probs, most) else {
        return Err(MixFault::TooFine);
    };
    let whole = over_common(alloc, &probs, common)?;
    Ok(merge(alloc, &amounts, &whole)?)
}

/// A severity with the same items.
pub fn copied(alloc: Global, sev: &Sev) -> Result<Sev, AllocError>
    ensures items { IfOk result (λ made. made.items ≡ sev.now.items) }
    ensures total { IfOk result (λ made. made.total ≡ sev.now.total) }
{
    Ok(Sev {
        items: Items::from_vec(sev.items.as_slice().to_vec(alloc)?),
        total: sev.total,
    })
}

/// The amounts of an atom put behind others.
fn push_amounts(amounts: &mut Vec<u32>, items: &[Item]) -> Result<(), AllocError>
    ensures { IfOk result (λ _. amounts.new.items ≡ amounts.old.items ++ amounts_of items.now) }
{
    'items: for item in items {
        amounts.push(item.amount)?;
    }
    Ok(())
}

/// The probabilities of an atom, times `weight` over `total`, put behind others. `TooFine` only
/// where one of these products is no fraction of 62 bits.
fn push_probs(probs: &mut Vec<Frac>, atom: &Sev, weight: u64, total: u64) -> Result<(), MixFault>
    requires some { 0 < total }
    requires within { total ≤ most_weights }
    requires part { weight ≤ total }
    ensures { MatchResult result
        (λ _. probs.new.items ≡ probs.old.items
        ++ map (mixed_probability (weight over total) atom.now.total) atom.now.items)
        (RefusesProducts (weight over total) atom.now) }
{
    'items: for item in atom.items.as_slice() {
        let num = weight as u128 * item.weight as u128;
        let den = total as u128 * atom.total as u128;
        let Ok(prob) = Frac::make(num, den) else {
            return Err(MixFault::TooFine);
        };
        push_item(probs, prob)?;
    }
    Ok(())
}
