//! Copies of severities in whole buckets.

ghost use Rattle.std.specs.Prelude.{◌≡◌, IfOk};

use crate::flaws::Gridded;
use crate::grid::{GridAtom, GridSev, Shares};
use dl_plan::Items;
use dl_severity::Weights;
use std::alloc::{AllocError, Global};

impl Gridded<GridSev> {
    /// A severity of its own with the same parts and flaws.
    pub fn copy(&self, alloc: Global) -> Result<Gridded<GridSev>, AllocError>
        ensures { IfOk result (λ made. made ≡ self.now) }
    {
        Ok(self.with(copy_severity(alloc, &self.part)?))
    }
}

fn copy_severity(alloc: Global, sev: &GridSev) -> Result<GridSev, AllocError>
    ensures { IfOk result (λ made. made ≡ sev.now) }
{
    let atoms = copy_atoms(alloc, sev.atoms.as_slice())?;
    let weights = copy_second(alloc, &sev.weights)?;
    Ok(GridSev { atoms, weights })
}

fn copy_atoms(alloc: Global, atoms: &[GridAtom]) -> Result<Items<GridAtom>, AllocError>
    ensures { IfOk result (λ made. made ≡ atoms.now) }
{
    let mut made = Vec::new(alloc);
    'atoms: for atom in atoms {
        made.push(copy_atom(alloc, atom)?)?;
    }
    Ok(Items::from_vec(made))
}

fn copy_atom(alloc: Global, atom: &GridAtom) -> Result<GridAtom, AllocError>
    ensures { IfOk result (λ made. made ≡ atom.now) }
{
    let amounts = copy_items(alloc, atom.amounts.as_slice())?;
    let probs = copy_second(alloc, &atom.probs)?;
    Ok(GridAtom { amounts, probs })
}

/// A copy of a list of probabilities that may be missing.
fn copy_second(alloc: Global, list: &Option<Shares>) -> Result<Option<Shares>, AllocError>
    ensures { IfOk result (λ made. made ≡ list.now) }
{
    let Some(list) = list else {
        return Ok(None);
    };
    let values = copy_items(alloc, list.values.as_slice())?;
    let weights = copy_weights(alloc, &list.weights)?;
    Ok(Some(Shares {
        values,
        weights,
        span: list.span,
    }))
}

/// A copy of weights that may be missing.
pub(crate) fn copy_weights(
    alloc: Global,
    list: &Option<Weights>,
) -> Result<Option<Weights>, AllocError>
    ensures { IfOk result (λ made. made ≡ list.now) }
{
    let Some(list) = list else {
        return Ok(None);
    };
    let weights = copy_items(alloc, list.weights.as_slice())?;
    Ok(Some(Weights {
        weights,
        total: list.total,
    }))
}

fn copy_items<T: Copy>(alloc: Global, items: &[T]) -> Result<Items<T>, AllocError>
    ensures { IfOk result (λ made. made ≡ items.now) }
{
    let mut made = Vec::new(alloc);
    made.extend_from_slice(items)?;
    Ok(Items::from_vec(made))
}
