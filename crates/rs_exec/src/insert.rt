//! The section of an INSERT.

ghost use Rattle.std.specs.Prelude.{◌≡◌, [], map, IfOk};
ghost use Rattle.rs_eval.specs.RowChanges as row_changes;
ghost use Rattle.rs_eval.specs.Setting.{term_value};
ghost use Rattle.rs_exec.specs.Running.{appended, plain};

use crate::ran::Ran;
use crate::room::has_room_beside;
use rs_ast::{BoundRow, BoundTerm};
use rs_base::{Denial, NoMemory, Row, Rows, Swn, Value, one_item, with_room};
use rs_eval::term_value;
use rs_plan::Change;
use rs_rows::ReadRows;
use std::alloc::Global;

/// Makes an inserted row, with values for its parameters.
fn inserted_row(alloc: Global, values: &[Value], terms: &[BoundTerm]) -> Result<Row, NoMemory>
    ensures { IfOk result (λ row. row ≡ map (term_value values.now []) terms.now) }
{
    let mut row = with_room(alloc, terms.len())?;
    for term in terms {
        row.push(term_value(alloc, values, &[], term)?)?;
    }
    Ok(row)
}

/// Makes the inserted rows, with values for their parameters.
fn inserted_rows(alloc: Global, values: &[Value], bound: &[BoundRow]) -> Result<Rows, NoMemory>
    ensures { IfOk result (λ rows. rows ≡ row_changes.given_rows values.now bound.now) }
{
    let mut rows = with_room(alloc, bound.len())?;
    for terms in bound {
        rows.push(inserted_row(alloc, values, terms.as_slice())?)?;
    }
    Ok(rows)
}

/// Gives the change that appends these rows.
fn append(alloc: Global, name: Swn, rows: Rows) -> Result<Ran, NoMemory>
    ensures { IfOk result (λ ran. ran ≡ appended name (Ok rows)) }
{
    let count = rows.len() as u64;
    let changes = one_item(alloc, Change::PutRows { name, rows })?;
    Ok(Ran::Changes { changes, count })
}

/// Runs the INSERT of these rows: gives the change that appends them, with values for their parameters, or `TableFull`.
/// It reads no row.
pub(crate) fn run_insert<'t, R: ReadRows<'t>>(
    alloc: Global,
    name: Swn,
    values: &[Value],
    bound: &[BoundRow],
    rows: &R,
) -> Result<Ran, NoMemory>
    ensures { IfOk result (λ ran. ran
        ≡ appended name (row_changes.inserted values.now bound.now (plain (R.rows rows.now)))) }
{
    let new = inserted_rows(alloc, values, bound)?;
    if has_room_beside(rows.count(), rows.bytes(), new.as_slice()) {
        append(alloc, name, new)
    } else {
        Ok(Ran::Denied(Denial::TableFull))
    }
}
