//! The rules on the lists of a severity that ask how many values they have. Nothing is expanded:
//! all lists of a severity that keeps these rules have at most three times 65,536 values.

ghost use Rattle.std.specs.Prelude.{ℕ, ◌≡◌, ◌+◌, ◌≤◌, false, All, IfNone, IfSome, IsTrue, length, min};
ghost use Rattle.std.specs.List.{sum_by};
ghost use Rattle.dl_limits.specs.Limits.{most_values};
ghost use Rattle.dl_limits.specs.Rules.{AreBounds};
ghost use Rattle.dl_exact.specs.Fraction.{Fraction};
ghost use Rattle.dl_ast.specs.WellFormed.{IsFormedAtom, IsFormedItem, IsFormedList, IsFormedMixture};
ghost use Rattle.dl_reading.specs.Flaws.{AgreeOnLists, AgreeToFirst, IsReadTo, KeepsLengths, flaws_in, flaws_within, spans};
ghost use Rattle.dl_reading.specs.Listed.{listed_beside, listed_flaws};
ghost use Rattle.dl_reading.specs.Reading.{are_many_values, flaws_of_item, flaws_of_list, flaws_of_mixture, is_long_mixture, values_in};
ghost use Rattle.dl_reading.specs.Values.{spanned_item, spanned_values};

use crate::flaws::{Flaws, Gridded};
use crate::numbers::item_range;
use crate::spans::span_if;
use crate::value_lists::are_single;
use dl_ast::{Atom, ListAst, ListItem, MixAst};
use dl_limits::{Bounds, MOST_ATOMS, MOST_VALUES};
use dl_severity::count_to;

/// The flaws of a mixture that is not expanded, since it breaks a rule on numerals, ranges or the
/// lengths of lists. None where its values are few: it has no ranges, or keeps these rules.
pub(crate) fn stopping_flaws(mix: &MixAst, bounds: Bounds) -> Option<Flaws>
    requires bounds { AreBounds bounds }
    requires formed { IsFormedMixture mix.now }
    ensures broken { IfSome result (λ flaws. ¬ KeepsLengths flaws) }
    ensures agree { (most : ℕ) (bs : Fraction)
        → IfSome result (λ flaws. AgreeOnLists flaws (flaws_of_mixture bounds most bs mix.now)) }
    ensures short { IfNone result (is_long_mixture bounds mix.now ≡ false) }
{
    let atoms = mix.atoms.as_slice();
    if atoms.len() <= MOST_ATOMS && are_single_within(&mix.weights) && have_few_values(atoms) {
        return None;
    }
    let lists = mixture_lists(mix, bounds);
    if lists.keep_lengths() {
        return None;
    }
    Some(lists)
}

/// Whether atoms have no ranges, and at most 65,536 values together; no numeral is read.
fn have_few_values(atoms: &[Atom]) -> bool
    requires { All IsFormedAtom atoms.now }
    ensures { IsTrue result → sum_by values_in atoms.now ≤ most_values }
{
    let mut room = MOST_VALUES;
    'atoms: for atom in atoms {
        let items = atom.values.items.as_slice();
        if items.len() > room || !are_single(items) || !are_single_within(&atom.probs) {
            return false;
        }
        room -= items.len();
    }
    true
}

/// Whether a list has no ranges, if there is one.
fn are_single_within(list: &Option<ListAst>) -> bool {
    match list {
        Some(list) => are_single(list.items.as_slice()),
        None => true,
    }
}

/// The first place where a mixture breaks each of the rules on numerals, ranges and the lengths of
/// lists.
fn mixture_lists(mix: &MixAst, bounds: Bounds) -> Flaws
    requires bounds { AreBounds bounds }
    requires formed { IsFormedMixture mix.now }
    ensures { (most : ℕ) (bs : Fraction)
        → AgreeOnLists result (flaws_of_mixture bounds most bs mix.now) }
{
    let atoms = mix.atoms.as_slice();
    let lists = atoms_lists(atoms, bounds);
    let is_long = (atoms.len() > MOST_ATOMS) | lists.part;
    let weights = weights_list(&mix.weights, bounds);
    Flaws::long_at(span_if(is_long, mix.span)).or(lists.flaws.or(weights))
}

/// Whether the atoms of a severity have too many values together, though none has; with the first
/// place where they break each of these rules.
fn atoms_lists(atoms: &[Atom], bounds: Bounds) -> Gridded<bool>
    requires bounds { AreBounds bounds }
    requires formed { All IsFormedAtom atoms.now }
    ensures { IsReadTo 2 (flaws_in (listed_flaws bounds) atoms.now)
        (are_many_values bounds atoms.now) result }
{
    let mut flaws = Flaws::none();
    let mut is_long = false;
    let mut total = 0;
    'atoms: for atom in atoms {
        let values = list_length(&atom.values, bounds);
        let probs = probs_list(values.part, &atom.probs, bounds);
        flaws = flaws.or(values.flaws.or(probs));
        is_long |= values.part > bounds.values;
        total = (total + values.part).min(MOST_VALUES + 1);
    }
    let part = !is_long && total > MOST_VALUES;
    Gridded { part, flaws }
}

/// The first place where the probabilities of `count` values break each of these rules, if there
/// are any.
fn probs_list(count: usize, probs: &Option<ListAst>, bounds: Bounds) -> Flaws
    requires bounds { AreBounds bounds }
    requires formed { IfSome probs.now IsFormedList }
    ensures { AgreeToFirst (spans result)
        (spans (flaws_within (listed_beside bounds count) probs.now)) }
{
    let Some(list) = probs else {
        return Flaws::none();
    };
    let listed = list_length(list, bounds);
    let lengths = Flaws {
        lengths: span_if(count != listed.part, list.span),
        ..Flaws::none()
    };
    listed.flaws.or(lengths)
}

/// The first place where the weights of atoms break each of these rules, if there are any.
fn weights_list(weights: &Option<ListAst>, bounds: Bounds) -> Flaws
    requires bounds { AreBounds bounds }
    requires formed { IfSome weights.now IsFormedList }
    ensures { AgreeToFirst (spans result)
        (spans (flaws_within (flaws_of_list bounds) weights.now)) }
{
    match weights {
        Some(list) => list_length(list, bounds).flaws,
        None => Flaws::none(),
    }
}

/// How many values a list has, but at most one more than it may have.
fn list_length(list: &ListAst, bounds: Bounds) -> Gridded<usize>
    requires bounds { AreBounds bounds }
    requires formed { IsFormedList list.now }
    ensures read { IsReadTo 2 (flaws_of_list bounds list.now)
        (min (length (spanned_values list.now)) (bounds.values + 1)) result }
    ensures few { result.part ≤ bounds.values + 1 }
{
    let items = list.items.as_slice();
    let most = bounds.values + 1;
    let mut flaws = Flaws::none();
    let mut part = 0;
    'items: for item in items {
        let one = item_length(item, most);
        flaws = flaws.or(one.flaws);
        part = (part + one.part).min(most);
    }
    let long = Flaws::long_at(span_if(part > bounds.values, list.span));
    let flaws = flaws.or(long);
    Gridded { part, flaws }
}

/// How many values an item has, but at most `most`.
fn item_length(item: &ListItem, most: usize) -> Gridded<usize>
    requires { IsFormedItem item.now }
    ensures read { IsReadTo 2 (flaws_of_item item.now)
        (min (length (spanned_item item.now)) most) result }
    ensures few { result.part ≤ most }
{
    let range = item_range(item);
    if range.flaws.numeral.is_some() || range.flaws.range.is_some() {
        return range.with(0);
    }
    range.with(count_to(&range.part, most))
}
