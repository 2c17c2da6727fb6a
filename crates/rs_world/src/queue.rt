//! Lists whose items are moved out from the first on.

ghost use Rattle.std.specs.Prelude.{◌≡◌, reverse, IfOk};

use rs_base::{NoMemory, with_room};
use sqlite_items::Items;
use std::alloc::Global;

/// Reverses the items, so that popping them gives the first first.
pub fn reversed<T: Drop>(alloc: Global, mut items: Items<T>) -> Result<Items<T>, NoMemory>
    ensures { IfOk result (λ reversed. reverse reversed ≡ items) }
{
    let mut reversed = with_room(alloc, items.len())?;
    while let Some(item) = items.pop() {
        reversed.push(item)?;
    }
    Ok(reversed)
}
