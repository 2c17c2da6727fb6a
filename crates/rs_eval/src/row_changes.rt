//! The rows of a table after a change of rows.

ghost use Rattle.std.specs.Prelude.{◌≡◌, [], ◌∷◌, ◌++◌, drop, length, take, map, IfOk, OnOk};
ghost use Rattle.rs_eval.specs.Setting.{row_set, term_value};
ghost use Rattle.rs_eval.specs.RowChanges as spec;
ghost use Rattle.rs_eval.specs.Updating.{Puts};

use crate::clauses::holds;
use crate::setting::{set_row, term_value};
use rs_ast::{BoundClause, BoundRow, BoundSet, BoundTerm};
use rs_base::{Denial, NoMemory, Row, Value, with_room};
use rs_rows::{RowRun, StoredRows, all_fit_row, fits_row, fits_rows, has_room};
use std::alloc::Global;

// ---- INSERT

/// Returns an inserted row.
fn given_row(alloc: Global, values: &[Value], row: &[BoundTerm]) -> Result<Row, NoMemory>
    ensures { IfOk result (λ given. given ≡ map (term_value values.now []) row.now) }
{
    let mut given = with_room(alloc, row.len())?;
    for term in row {
        given.push(term_value(alloc, values, &[], term)?)?;
    }
    Ok(given)
}

/// Returns the inserted rows.
fn given_rows(alloc: Global, values: &[Value], rows: &[BoundRow]) -> Result<StoredRows, NoMemory>
    ensures { IfOk result (λ given. given ≡ spec.given_rows values.now rows.now) }
{
    let mut given = StoredRows::new(alloc);
    for row in rows {
        let new_row = given_row(alloc, values, row.as_slice())?;
        given.push(alloc, new_row.as_slice())?;
    }
    Ok(given)
}

/// Returns whether the rows may be stored, and there is room for them after those of the table.
fn may_be_added(rows: &StoredRows, more: &StoredRows) -> bool
    ensures { result ≡ spec.has_room rows.now more.now }
{
    all_fit_row(&more.as_run()) && has_room(rows, more)
}

/// Returns the rows to append to those of a table, with the values for their parameters, or `TableFull`.
pub fn inserted(
    alloc: Global,
    values: &[Value],
    given: &[BoundRow],
    rows: &StoredRows,
) -> Result<Result<StoredRows, Denial>, NoMemory>
    ensures { IfOk result (λ more. more ≡ spec.inserted values.now given.now rows.now) }
{
    let more = given_rows(alloc, values, given)?;
    if may_be_added(rows, &more) {
        Ok(Ok(more))
    } else {
        Ok(Err(Denial::TableFull))
    }
}

// ---- UPDATE

/// Appends the row as it is after the assignments, or returns the denial.
fn push_set(
    alloc: Global,
    values: &[Value],
    sets: &[BoundSet],
    row: &[Value],
    new: &mut StoredRows,
) -> Result<Result<(), Denial>, NoMemory>
    ensures { IfOk result (λ done. Puts done new.old new.new (row_set sets.now values.now row.now)) }
{
    match set_row(alloc, sets, values, row)? {
        Ok(row) => {
            new.push(alloc, row.as_slice())?;
            Ok(Ok(()))
        }
        Err(cause) => Ok(Err(cause)),
    }
}

/// Appends the row, updated if it matches, or returns the denial.
fn push_updated(
    alloc: Global,
    values: &[Value],
    sets: &[BoundSet],
    clauses: &[BoundClause],
    row: &[Value],
    new: &mut StoredRows,
) -> Result<Result<(), Denial>, NoMemory>
    ensures { IfOk result (λ done. Puts done new.old new.new (spec.updated_row values.now sets.now clauses.now row.now)) }
{
    if holds(clauses, row) {
        push_set(alloc, values, sets, row, new)
    } else {
        new.push(alloc, row)?;
        Ok(Ok(()))
    }
}

/// Returns each row updated, or the first denial.
fn updated_rows(
    alloc: Global,
    values: &[Value],
    sets: &[BoundSet],
    clauses: &[BoundClause],
    rows: &RowRun<'_>,
) -> Result<Result<StoredRows, Denial>, NoMemory>
    ensures { IfOk result (λ new. new ≡ spec.updated_rows values.now sets.now clauses.now rows.now) }
{
    let mut new = StoredRows::new(alloc);
    let mut rest = rows.view();
    while let Some((row, others)) = rest.split_first() {
        if let Err(cause) = push_updated(alloc, values, sets, clauses, row, &mut new)? {
            return Ok(Err(cause));
        }
        rest = others;
    }
    Ok(Ok(new))
}

/// Returns the rows after an UPDATE with the values for the parameters of its assignments, or `Overflow`, or `TableFull`.
pub fn updated(
    alloc: Global,
    values: &[Value],
    sets: &[BoundSet],
    clauses: &[BoundClause],
    rows: &RowRun<'_>,
) -> Result<Result<StoredRows, Denial>, NoMemory>
    ensures { IfOk result (λ new. new ≡ spec.updated values.now sets.now clauses.now rows.now) }
{
    match updated_rows(alloc, values, sets, clauses, rows)? {
        Ok(new) if may_become(clauses, rows, &new) => Ok(Ok(new)),
        Ok(_) => Ok(Err(Denial::TableFull)),
        Err(cause) => Ok(Err(cause)),
    }
}

/// Returns whether a table with these rows may have the new ones in their place.
fn may_become(clauses: &[BoundClause], rows: &RowRun<'_>, new: &StoredRows) -> bool
    ensures { result ≡ spec.may_become clauses.now rows.now new.now }
{
    set_rows_fit(clauses, rows, &new.as_run()) && fits_rows(new)
}

/// Returns whether each row that was set may be stored: `new` are the rows after the UPDATE, in the same order.
fn set_rows_fit(clauses: &[BoundClause], rows: &RowRun<'_>, new: &RowRun<'_>) -> bool
    ensures { result ≡ spec.set_rows_fit clauses.now rows.now new.now }
{
    let mut rest = rows.view();
    let mut set = new.view();
    while let Some((row, others)) = rest.split_first() {
        let Some((set_row, others_set)) = set.split_first() else {
            return true;
        };
        if holds(clauses, row) && !fits_row(set_row) {
            return false;
        }
        rest = others;
        set = others_set;
    }
    true
}

// ---- DELETE

/// Returns the other rows: those that don't match.
pub fn other_rows(
    alloc: Global,
    clauses: &[BoundClause],
    rows: &RowRun<'_>,
) -> Result<StoredRows, NoMemory>
    ensures { IfOk result (λ other_rows. other_rows ≡ spec.other_rows clauses.now rows.now) }
{
    let mut other_rows = StoredRows::new(alloc);
    let mut rest = rows.view();
    while let Some((row, others)) = rest.split_first() {
        if !holds(clauses, row) {
            other_rows.push(alloc, row)?;
        }
        rest = others;
    }
    Ok(other_rows)
}

/// Counts the matching rows.
pub fn matching_count(clauses: &[BoundClause], rows: &RowRun<'_>) -> usize
    ensures { result ≡ spec.matching_count clauses.now rows.now }
{
    let mut count = 0;
    let mut rest = rows.view();
    while let Some((row, others)) = rest.split_first() {
        if holds(clauses, row) {
            prove!(count < rows.len());
            count += 1;
        }
        rest = others;
    }
    count
}
