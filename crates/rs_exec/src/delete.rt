//! The section of a DELETE.

ghost use Rattle.std.specs.Prelude.{◌≡◌, IfOk};
ghost use Rattle.rs_rows.specs.TableRows as table;
ghost use Rattle.rs_exec.specs.Running.{deleted};

use crate::changes::change_of;
use crate::numbered_row::NumberedRow;
use crate::ran::Ran;
use rs_base::{NoMemory, Swn, with_room};
use rs_plan::Change;
use rs_rows::Numbers;
use std::alloc::Global;

/// Returns the numbers of the rows.
fn numbers_of(alloc: Global, rows: &[NumberedRow<'_>]) -> Result<Numbers, NoMemory>
    ensures { IfOk result (λ numbers. numbers ≡ table.numbers rows.now) }
{
    let mut numbers = with_room(alloc, rows.len())?;
    for row in rows {
        numbers.push(row.number())?;
    }
    Ok(numbers)
}

/// Runs a DELETE: gives the change that removes the matching rows.
pub(crate) fn run_delete(
    alloc: Global,
    name: Swn,
    matching: &[NumberedRow<'_>],
) -> Result<Ran, NoMemory>
    ensures { IfOk result (λ ran. ran ≡ deleted name matching.now) }
{
    let count = matching.len() as u64;
    let numbers = numbers_of(alloc, matching)?;
    let changes = change_of(alloc, count, Change::Remove { name, numbers })?;
    Ok(Ran::Changes { changes, count })
}
