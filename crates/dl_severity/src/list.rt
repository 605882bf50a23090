//! One item more in a list.

ghost use Rattle.std.specs.Prelude.{◌≡◌, [], ◌∷◌, ◌++◌, OnOk};

use std::alloc::AllocError;

/// Puts an item behind others. For steps with faults of their own, each of which then has want of
/// memory in one way.
pub(crate) fn push_item<T: Copy>(list: &mut Vec<T>, item: T) -> Result<(), AllocError>
    ensures { OnOk result (list.new.items ≡ list.old.items ++ item ∷ []) }
{
    list.push(item)?;
    Ok(())
}
