//! The section of an UPDATE.

ghost use Rattle.std.specs.Prelude.{◌≡◌, List, length, IfOk, Some};
ghost use Rattle.rs_ast.specs.declared.bound.BoundCmp.{BoundCmp};
ghost use Rattle.rs_exec.specs.Running as spec;

use crate::changes::change_of;
use crate::numbered_row::NumberedRow;
use crate::ran::Ran;
use crate::room::has_room_in_place;
use rs_ast::BoundSet;
use rs_base::{Denial, NoMemory, NumberedRows, Swn, Value, with_room};
use rs_eval::set_row;
use rs_plan::Change;
use rs_rows::ReadRows;
use std::alloc::Global;

/// Returns each row after the assignments, all by the old row, with its number; or `Overflow`.
fn set_rows(
    alloc: Global,
    sets: &[BoundSet],
    values: &[Value],
    rows: &[NumberedRow<'_>],
) -> Result<Result<NumberedRows, Denial>, NoMemory>
    ensures { IfOk result (λ new. new ≡ spec.set_rows sets.now values.now rows.now) }
{
    let mut new = with_room(alloc, rows.len())?;
    for old in rows {
        match set_row(alloc, sets, values, old.values())? {
            Ok(row) => new.push((old.number(), row))?,
            Err(cause) => return Ok(Err(cause)),
        }
    }
    Ok(Ok(new))
}

/// Gives the change that replaces the rows with these numbers.
fn replace(alloc: Global, name: Swn, rows: NumberedRows) -> Result<Ran, NoMemory>
    ensures { IfOk result (λ ran. ran
        ≡ Ran.Changes (spec.change_of (length rows) (Change.Replace name rows)) (length rows)) }
{
    let count = rows.len() as u64;
    let changes = change_of(alloc, count, Change::Replace { name, rows })?;
    Ok(Ran::Changes { changes, count })
}

/// Runs an UPDATE: gives the change that replaces the matching rows by what the assignments make of them, or `Overflow`,
/// or `TableFull`. The matching rows are those of the table that satisfy some predicate.
pub(crate) fn run_update<'t, R: ReadRows<'t>>(
    alloc: Global,
    name: Swn,
    sets: &[BoundSet],
    values: &[Value],
    matching: &[NumberedRow<'_>],
    rows: &R,
) -> Result<Ran, NoMemory>
    ensures { (clauses : List (List BoundCmp))
        → matching.now ≡ spec.matching (Some clauses) (R.rows rows.now)
        → IfOk result (λ ran. ran ≡ spec.updated name (spec.others (Some clauses) (R.rows rows.now))
        (spec.set_rows sets.now values.now matching.now)) }
{
    match set_rows(alloc, sets, values, matching)? {
        Ok(new) if has_room_in_place(rows, matching, new.as_slice()) => replace(alloc, name, new),
        Ok(_) => Ok(Ran::Denied(Denial::TableFull)),
        Err(cause) => Ok(Ran::Denied(cause)),
    }
}
