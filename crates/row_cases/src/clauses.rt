//! Predicates, and the rows that satisfy them.

use crate::index::read_op;
use case_tools::{Cases, Output, Words, read_row, read_rows, read_value};
use rs_ast::{BoundClause, BoundClauses, BoundCmp, BoundSide, Op};
use rs_base::{Denial, NoMemory, Rows, with_room};
use rs_eval::{fill, holds};
use rs_join::joined_rows;
use rs_rows::{RowRun, StoredRows};
use std::alloc::Global;

/// Calls that are made on what their line says.
#[derive(Drop)]
pub struct ClauseCases;

/// Reads a column `@N`, a parameter `?N`, or a value.
pub fn read_side(alloc: Global, word: &str) -> Result<BoundSide, NoMemory> {
    if let Some(column) = word.strip_prefix('@') {
        return Ok(BoundSide::Place(column.parse().unwrap_or(u16::MAX)));
    }
    if let Some(param) = word.strip_prefix('?') {
        return Ok(BoundSide::Param(param.parse().unwrap_or(u8::MAX)));
    }
    Ok(BoundSide::Lit(read_value(alloc, word)?))
}

/// Reads a comparison `COLUMN:OP:OPERAND`, where `<>` is each operator that no index has a range of.
fn read_cmp(alloc: Global, words: &mut Words<'_>) -> Result<BoundCmp, NoMemory> {
    Ok(BoundCmp {
        left: words.short(),
        op: read_op(words.next()).unwrap_or(Op::Ne),
        right: read_side(alloc, words.next())?,
    })
}

/// Reads comparisons that `|` separates.
fn read_clause(alloc: Global, word: &str, words: &mut Words<'_>) -> Result<BoundClause, NoMemory> {
    let mut clause = with_room(alloc, 1)?;
    for part in word.split('|') {
        let mut part = Words::separated(part, ':');
        clause.push(read_cmp(alloc, &mut part)?)?;
        words.include(&part);
    }
    Ok(clause)
}

/// Reads the clauses that are left of a line.
pub fn read_clauses(alloc: Global, words: &mut Words<'_>) -> Result<BoundClauses, NoMemory> {
    let mut clauses = with_room(alloc, 1)?;
    for word in words.rest().split_whitespace() {
        clauses.push(read_clause(alloc, word, words)?)?;
    }
    Ok(clauses)
}

/// Appends whether the row satisfies the predicate, after its parameters have got these values, if there are any.
fn append_holds(values: &str, words: &mut Words<'_>, out: &mut Output) -> Result<(), NoMemory> {
    let values = read_row(out.alloc, values)?;
    let row = read_row(out.alloc, words.next())?;
    let clauses = read_clauses(out.alloc, words)?;
    let filled = fill(out.alloc, clauses.as_slice(), values.as_slice())?;
    let answer = if values.as_slice().is_empty() {
        holds(clauses.as_slice(), row.as_slice())
    } else {
        holds(filled.as_slice(), row.as_slice())
    };
    out.text(if answer { "yes" } else { "no" });
    Ok(())
}

/// Reads tables that `/` separates, or `none`.
fn read_tables(alloc: Global, word: &str) -> Result<Vec<StoredRows>, NoMemory> {
    let mut tables = Vec::new(alloc);
    if word == "none" {
        return Ok(tables);
    }
    for table in word.split('/') {
        let rows = read_rows(alloc, table)?;
        tables.push(StoredRows::copied(alloc, rows.as_slice())?)?;
    }
    Ok(tables)
}

fn lent(alloc: Global, tables: &[StoredRows]) -> Result<Vec<RowRun<'_>>, NoMemory> {
    let mut runs = Vec::with_capacity(alloc, tables.len())?;
    for rows in tables {
        runs.push(rows.as_run())?;
    }
    Ok(runs)
}

/// Appends the joined rows, each on a line of its own.
fn append_rows(joined: &Result<Rows, Denial>, out: &mut Output) {
    match joined {
        Ok(rows) => {
            for row in rows.as_slice() {
                out.row(row.as_slice());
            }
        }
        Err(_) => out.text("denied"),
    }
}

/// Appends the joined rows of the tables that satisfy the predicate.
fn append_joined(words: &mut Words<'_>, out: &mut Output) -> Result<(), NoMemory> {
    let tables = read_tables(out.alloc, words.next())?;
    let clauses = read_clauses(out.alloc, words)?;
    let runs = lent(out.alloc, tables.as_slice())?;
    let joined = joined_rows(out.alloc, clauses.as_slice(), runs.as_slice())?;
    append_rows(&joined, out);
    Ok(())
}

impl Cases for ClauseCases {
    fn answer(&mut self, words: &mut Words<'_>, out: &mut Output) -> Result<(), NoMemory> {
        match words.next() {
            "joined" => append_joined(words, out),
            "holds" => append_holds("", words, out),
            _ => {
                let values = words.next();
                append_holds(values, words, out)
            }
        }
    }
}
