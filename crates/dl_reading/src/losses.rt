//! The atoms of a severity, read.

ghost use Rattle.std.specs.Prelude.{◌≡◌, ◌≤◌, All, IfOk, IfSome, map};
ghost use Rattle.dl_limits.specs.Limits.{most_amount};
ghost use Rattle.dl_limits.specs.Rules.{AreBounds};
ghost use Rattle.dl_ast.specs.WellFormed.{IsFormedAtom, IsFormedList};
ghost use Rattle.dl_plan.specs.Ranges.{IsBucket};
ghost use Rattle.dl_reading.specs.Flaws.{IsRead, KeepsLists, flaws_in, flaws_within};
ghost use Rattle.dl_reading.specs.Grid.{grid_atom, grid_shares};
ghost use Rattle.dl_reading.specs.Reading.{flaws_of_list, flaws_of_shares, flaws_beside, flaws_of_atom};
ghost use Rattle.dl_reading.specs.Values.{if_there, values_of};

use crate::flaws::{Flaws, Gridded};
use crate::grid::{GridAtom, Shares};
use crate::shares::shares;
use crate::spans::span_if;
use crate::value_lists::{grid_amounts, spanned_values, value_list};
use dl_ast::{Atom, ListAst};
use dl_frac::Frac;
use dl_limits::Bounds;
use dl_plan::Items;
use std::alloc::{AllocError, Global};

/// The atoms of a severity.
pub(crate) fn grid_atoms(
    alloc: Global,
    atoms: &[Atom],
    bs: Frac,
    most: u32,
    bounds: Bounds,
) -> Result<Gridded<Items<GridAtom>>, AllocError>
    requires bounds { AreBounds bounds }
    requires bucket { IsBucket bs }
    requires most { most ≤ most_amount }
    requires formed { All IsFormedAtom atoms.now }
    ensures { IfOk result (IsRead (flaws_in (flaws_of_atom bounds most bs) atoms.now)
        (map (grid_atom bs) atoms.now)) }
{
    let mut made = Vec::new(alloc);
    let mut flaws = Flaws::none();
    'atoms: for atom in atoms {
        let one = grid_atom(alloc, atom, bs, most, bounds)?;
        made.push(one.part)?;
        flaws = flaws.or(one.flaws);
    }
    let part = Items::from_vec(made);
    Ok(Gridded { part, flaws })
}

/// An atom.
fn grid_atom(
    alloc: Global,
    atom: &Atom,
    bs: Frac,
    most: u32,
    bounds: Bounds,
) -> Result<Gridded<GridAtom>, AllocError>
    requires bounds { AreBounds bounds }
    requires bucket { IsBucket bs }
    requires most { most ≤ most_amount }
    requires formed { IsFormedAtom atom.now }
    ensures { IfOk result (IsRead (flaws_of_atom bounds most bs atom.now) (grid_atom bs atom.now)) }
{
    let spanned = spanned_values(alloc, &atom.values, bounds)?;
    let values = spanned.part.as_slice();
    let amounts = grid_amounts(alloc, values, bs, most)?;
    let probs = probs_beside(alloc, values.len(), &atom.probs, bounds)?;
    let own = spanned.flaws.or(amounts.flaws);
    Ok(Gridded {
        part: GridAtom {
            amounts: amounts.part,
            probs: probs.part,
        },
        flaws: own.or(probs.flaws),
    })
}

/// The probabilities of `count` values, where the text has some.
pub(crate) fn probs_beside(
    alloc: Global,
    count: usize,
    probs: &Option<ListAst>,
    bounds: Bounds,
) -> Result<Gridded<Option<Shares>>, AllocError>
    requires bounds { AreBounds bounds }
    requires formed { IfSome probs.now IsFormedList }
    ensures { IfOk result (IsRead (flaws_within (flaws_beside bounds count) probs.now)
        (if_there grid_shares probs.now)) }
{
    match probs {
        Some(list) => {
            let made = read_shares(alloc, list, bounds)?;
            let is_other = count != made.part.values.as_slice().len();
            let lengths = Flaws {
                lengths: span_if(is_other, list.span),
                ..Flaws::none()
            };
            Ok(Gridded {
                part: Some(made.part),
                flaws: made.flaws.or(lengths),
            })
        }
        None => Ok(Gridded::clean(None)),
    }
}

/// The weights of the atoms, where there are some.
pub(crate) fn mixture_weights(
    alloc: Global,
    weights: &Option<ListAst>,
    bounds: Bounds,
) -> Result<Gridded<Option<Shares>>, AllocError>
    requires bounds { AreBounds bounds }
    requires formed { IfSome weights.now IsFormedList }
    ensures { IfOk result (IsRead (flaws_within (flaws_of_shares bounds) weights.now)
        (if_there grid_shares weights.now)) }
{
    match weights {
        Some(list) => Ok(read_shares(alloc, list, bounds)?.some()),
        None => Ok(Gridded::clean(None)),
    }
}

/// A list of probabilities. It has its values where the text keeps the rules on lists.
fn read_shares(alloc: Global, list: &ListAst, bounds: Bounds) -> Result<Gridded<Shares>, AllocError>
    requires bounds { AreBounds bounds }
    requires formed { IsFormedList list.now }
    ensures read { IfOk result (IsRead (flaws_of_shares bounds list.now) (grid_shares list.now)) }
    ensures values { IfOk result (λ made. KeepsLists (flaws_of_list bounds list.now)
        → made.part.values ≡ values_of list.now) }
{
    let listed = value_list(alloc, list, bounds)?;
    let made = shares(alloc, listed.part.values.into_vec(), list.span, bounds)?;
    Ok(Gridded {
        part: made.part,
        flaws: listed.flaws.or(made.flaws),
    })
}
