//! The amounts of positive probability.

ghost use Rattle.std.specs.Prelude.{ℕ, ◌≡◌, ◌<◌, ◌++◌, ◌&&◌, not, nat_lt, if◌then◌else◌, get_or, length, map, filter, IfOk, IfSome};
ghost use Rattle.std.specs.List.{list_any};
ghost use Rattle.dl_exact.specs.Fraction.{Fraction};
ghost use Rattle.dl_plan.specs.Clause.{layer};
ghost use Rattle.dl_reading.specs.Lists.{probs_among};
ghost use Rattle.dl_reading.specs.Severity.{atom_pairs, mixed_pairs, severity_in_layer, support};
ghost use Rattle.dl_reading.specs.Rules.{none_above};
ghost use Rattle.dl_reading.specs.CheckedUnit.{IsWeighted};
ghost use Rattle.dl_reading.specs.CheckedGrid.{IsGridAtom};

use crate::grid::{GridAtom, GridUnit, Shares};
use crate::spans::span_if;
use dl_lexer::Span;
use dl_severity::cut_amount;
use std::alloc::{AllocError, Global};

/// The amounts of positive probability of the severity in the layer, from those of the mixture.
pub fn support_in_layer(
    alloc: Global,
    unit: &GridUnit,
    mixed: Vec<u32>,
) -> Result<Vec<u32>, AllocError>
    requires weighted { IsWeighted unit.now }
    requires mixed { mixed.items ≡ support (mixed_pairs unit.now.sev) }
    ensures { IfOk result (λ made. made.items ≡ support (severity_in_layer unit.now)) }
{
    match &unit.layer {
        Some(layer) => {
            let large = is_conditioned(unit.bang, layer.attach);
            in_layer(alloc, &mixed, layer.limit, layer.attach, large)
        }
        None => Ok(mixed),
    }
}

/// The span of a layer that no amount of positive probability exceeds, though it should.
#[tactic(auto, unfolding(crate::specs::Rules::none_above))]
pub fn none_above(unit: &GridUnit, mixed: &[u32]) -> Option<Span>
    requires weighted { IsWeighted unit.now }
    requires mixed { mixed.now ≡ support (mixed_pairs unit.now.sev) }
    ensures { result ≡ none_above unit.now }
{
    let layer = unit.layer.as_ref()?;
    let is_reached = !is_conditioned(unit.bang, layer.attach) || is_any_above(mixed, layer.attach);
    span_if(!is_reached, layer.span)
}

/// The amounts of positive probability of the mixture, of the atoms of positive weight in turn, at
/// most 65,536 of them.
pub fn positive_amounts(alloc: Global, unit: &GridUnit) -> Result<Vec<u32>, AllocError>
    requires weighted { IsWeighted unit.now }
    ensures { IfOk result (λ made. made.items ≡ support (mixed_pairs unit.now.sev)) }
{
    let mut made = Vec::new(alloc);
    'atoms: for (at, atom) in unit.sev.atoms.as_slice().iter().enumerate() {
        if is_positive(&unit.sev.weights, at) {
            push_support(&mut made, atom)?;
        }
    }
    Ok(made)
}

/// Whether the probability of a value is positive, by a list, or where there is none by equal
/// shares.
fn is_positive(probs: &Option<Shares>, at: usize) -> bool
    requires { IfSome probs.now (λ l. at < length l.values) }
    ensures { (count : ℕ) (d : Fraction) → at < count
        → result ≡ nat_lt 0 (get_or (probs_among count probs.now) at d).num }
{
    match probs {
        Some(probs) => probs.values.as_slice()[at].num() > 0,
        None => true,
    }
}

/// Whether only the amounts above the attachment count: where it is above 0, and there is no `!`.
pub fn is_conditioned(bang: bool, attach: u32) -> bool
    ensures { result ≡ (not bang && nat_lt 0 attach) }
{
    !bang && attach > 0
}

/// Whether an amount is above the attachment.
fn is_any_above(amounts: &[u32], attach: u32) -> bool
    ensures { result ≡ list_any (nat_lt attach) amounts.now }
{
    amounts.iter().any(|&amount| amount > attach)
}

/// The amounts of positive probability of an atom put behind others.
fn push_support(made: &mut Vec<u32>, atom: &GridAtom) -> Result<(), AllocError>
    requires { IsGridAtom atom.now }
    ensures { IfOk result (λ _. made.new.items ≡ made.old.items ++ support
        (atom_pairs atom.now)) }
{
    'amounts: for (at, &amount) in atom.amounts.as_slice().iter().enumerate() {
        if is_positive(&atom.probs, at) {
            made.push(amount)?;
        }
    }
    Ok(())
}

/// What of each amount lies in a layer; where only large amounts count, of those above the
/// attachment.
fn in_layer(
    alloc: Global,
    amounts: &[u32],
    limit: Option<u32>,
    attach: u32,
    large: bool,
) -> Result<Vec<u32>, AllocError>
    ensures { IfOk result (λ made. made.items ≡ map (layer limit attach)
        (if large then filter (nat_lt attach) amounts.now else amounts.now)) }
{
    let mut made = Vec::new(alloc);
    'amounts: for &amount in amounts {
        if !large || amount > attach {
            made.push(cut_amount(amount, limit, attach))?;
        }
    }
    Ok(made)
}
