ghost use Rattle.std.specs.Prelude.{◌≡◌, ◌∷◌, [], ◌++◌, OnOk};

use std::alloc::AllocError;

/// Adds an item, of which it reads nothing.
pub(crate) fn add<E: Copy>(items: &mut Vec<E>, item: E) -> Result<(), AllocError>
    ensures { OnOk result (items.new.items ≡ items.old.items ++ item ∷ []) }
{
    items.push(item)?;
    Ok(())
}
