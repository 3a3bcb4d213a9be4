//! Lists that are emptied and filled again each round.
ghost use Rattle.std.specs.Prelude.{◌≡◌, ◌≤◌, [], vec_capacity, OnOk};

use std::alloc::{AllocError, Global};

/// Empties a list, and reserves memory for `most` items if it has too little.
pub(crate) fn clear_for<T: Drop>(
    alloc: Global,
    items: &mut Vec<T>,
    most: usize,
) -> Result<(), AllocError>
    ensures none { OnOk result (items.new.items ≡ []) }
    ensures places { OnOk result (most ≤ vec_capacity items.new) }
{
    items.clear();
    if items.capacity() < most {
        *items = Vec::with_capacity(alloc, most)?;
    }
    Ok(())
}
