//! Lists with their memory allocated once.

ghost use Rattle.std.specs.Prelude.{◌≡◌, [], ◌∷◌, IfOk};

use crate::fault::NoMemory;
use sqlite_items::Items;
use std::alloc::Global;

/// Makes an empty list with capacity for `room` items.
pub fn with_room<T>(alloc: Global, room: usize) -> Result<Items<T>, NoMemory>
    ensures { IfOk result (λ items. items ≡ []) }
{
    let items = Vec::with_capacity(alloc, room)?;
    Ok(Items::from_vec(items))
}

/// Makes a list of one item, with capacity for no other.
pub fn one_item<T: Drop>(alloc: Global, item: T) -> Result<Items<T>, NoMemory>
    ensures { IfOk result (λ items. items ≡ item ∷ []) }
{
    let mut items = with_room(alloc, 1)?;
    items.push(item)?;
    Ok(items)
}
