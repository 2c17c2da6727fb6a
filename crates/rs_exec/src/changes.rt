//! The changes that a section makes.

ghost use Rattle.std.specs.Prelude.{◌≡◌, IfOk};
ghost use Rattle.rs_exec.specs.Running as spec;

use crate::ran::Ran;
use rs_base::{NoMemory, one_item};
use rs_plan::{Change, Changes};
use sqlite_items::Items;
use std::alloc::Global;

/// Makes the list of this change of some rows; an empty one if there is no row.
pub(crate) fn change_of(alloc: Global, count: u64, change: Change) -> Result<Changes, NoMemory>
    ensures { IfOk result (λ changes. changes ≡ spec.change_of count change) }
{
    if count == 0 {
        Ok(Items::new(alloc))
    } else {
        one_item(alloc, change)
    }
}
