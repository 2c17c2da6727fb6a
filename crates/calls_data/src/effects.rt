//! What bound statements do to the rows of their table, and what queries answer.

use case_tools::{Output, Words};
use rs_answer::{answer_rows, count_answer, is_count_only};
use rs_ast::{BoundClause, BoundRow, BoundSet, Idents, Places, Shape};
use rs_base::{Denial, NoMemory, Reply, Row, Rows, Value};
use rs_eval::{fill, holds, set_row, term_value};
use rs_join::joined_rows;
use rs_plan::{Bound, Swns};
use rs_rows::StoredRows;

/// The request that each statement is.
pub const ASKED: &str = "2 bob 1 1";

/// Appends the reply that a request is denied.
fn append_denial(cause: Denial, out: &mut Output) {
    out.reply(&Words::new(ASKED).origin(), &Reply::Denied(cause));
}

/// Appends the number of rows and each of them on a line of its own, or the reply that they are denied.
fn append_rows(answered: &Result<Rows, Denial>, out: &mut Output) {
    match answered {
        Ok(rows) => {
            out.number(rows.len() as u64);
            out.text("\n");
            for row in rows.as_slice() {
                out.row(row.as_slice());
            }
        }
        Err(cause) => append_denial(*cause, out),
    }
}

/// Appends the values of a row, or the reply that they are denied.
fn append_row(row: &Result<Row, Denial>, out: &mut Output) {
    match row {
        Ok(row) => out.row(row.as_slice()),
        Err(cause) => append_denial(*cause, out),
    }
}

/// Appends the matching rows, after the assignments.
fn append_matching(
    sets: &[BoundSet],
    clauses: &[BoundClause],
    values: &[Value],
    rows: &[Row],
    out: &mut Output,
) -> Result<(), NoMemory> {
    let filled = fill(out.alloc, clauses, values)?;
    for row in rows {
        if holds(filled.as_slice(), row.as_slice()) {
            append_row(&set_row(out.alloc, sets, values, row.as_slice())?, out);
        }
    }
    Ok(())
}

/// Appends the rows of an INSERT, each value with a blank after it.
fn append_inserted(rows: &[BoundRow], values: &[Value], out: &mut Output) -> Result<(), NoMemory> {
    for row in rows {
        for term in row.as_slice() {
            out.value(&term_value(out.alloc, values, &[], term)?);
            out.text(" ");
        }
    }
    Ok(())
}

/// Appends the tables of a query: their names, what they are called, and their numbers of columns.
fn append_tables(names: &Swns, aliases: &Idents, widths: &Places, out: &mut Output) {
    for name in names.as_slice() {
        out.name(name);
    }
    for alias in aliases.as_slice() {
        out.text(" as ");
        out.append(alias.as_bytes());
    }
    for width in widths.as_slice() {
        out.text(" of ");
        out.number(u64::from(*width));
    }
    out.text(": ");
}

/// Appends what a bound statement does to the rows, with these values for its parameters: the tables, and the rows that are
/// inserted, set, deleted or joined.
fn append_effect(
    bound: &Bound,
    values: &[Value],
    rows: &[Row],
    out: &mut Output,
) -> Result<(), NoMemory> {
    match bound {
        Bound::Select {
            names,
            aliases,
            widths,
            clauses,
            ..
        } => {
            append_tables(names, aliases, widths, out);
            append_matching(&[], clauses.as_slice(), values, rows, out)
        }
        Bound::Insert { name, rows } => {
            out.name(name);
            out.text(": ");
            append_inserted(rows.as_slice(), values, out)
        }
        Bound::Update {
            name,
            sets,
            clauses,
        } => {
            out.name(name);
            out.text(": ");
            append_matching(sets.as_slice(), clauses.as_slice(), values, rows, out)
        }
        Bound::Delete { name, clauses } => {
            out.name(name);
            out.text(": ");
            append_matching(&[], clauses.as_slice(), values, rows, out)
        }
    }
}

/// Appends what a bound statement does, or the reply that it is denied.
pub fn append_bound(
    bound: &Result<Bound, Denial>,
    values: &[Value],
    rows: &[Row],
    out: &mut Output,
) -> Result<(), NoMemory> {
    match bound {
        Ok(bound) => append_effect(bound, values, rows, out),
        Err(cause) => {
            append_denial(*cause, out);
            Ok(())
        }
    }
}

/// Appends the answer over the joined rows, and once more over their number, if it only counts them.
fn append_answer_of(shape: &Shape, joined: Rows, out: &mut Output) -> Result<(), NoMemory> {
    let count = joined.len();
    append_rows(&answer_rows(out.alloc, shape, joined)?, out);
    if is_count_only(shape) && count <= 65_536 {
        out.text("counted ");
        append_rows(&Ok(count_answer(out.alloc, count)?), out);
    }
    Ok(())
}

/// Appends the answer of a bound query over all rows, whatever its predicate.
fn append_answer_over(shape: &Shape, rows: &[Row], out: &mut Output) -> Result<(), NoMemory> {
    let stored = StoredRows::copied(out.alloc, rows)?;
    match joined_rows(out.alloc, &[], &[stored.as_run()])? {
        Ok(joined) => append_answer_of(shape, joined, out),
        Err(cause) => {
            append_denial(cause, out);
            Ok(())
        }
    }
}

/// Appends the answer of a bound query over all rows, whatever its predicate.
pub fn append_answer(
    bound: &Result<Bound, Denial>,
    rows: &[Row],
    out: &mut Output,
) -> Result<(), NoMemory> {
    match bound {
        Ok(Bound::Select { shape, .. }) => append_answer_over(shape, rows, out),
        _ => {
            out.text("no query");
            Ok(())
        }
    }
}
