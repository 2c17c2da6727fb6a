//! Calls of sections over the rows of a table.

ghost use Rattle.std.specs.Prelude.{◌≡◌, ◌==◌, All, find, IfOk};
ghost use Rattle.std.specs.Option.{option_copied};
ghost use Rattle.std.specs.List.Sorted.{IsStrictlySortedBy};
ghost use Rattle.std.specs.Ordering.{nat_cmp};
ghost use Rattle.rs_exec.specs.Paths as spec;
ghost use Rattle.rs_rows.specs.TableRows.{numbers};

use crate::rows::{append_row, insert};
use crate::section_words::{Options, read_columns, read_options, read_section};
use case_tools::{Cases, Output, Words, read_row, unescaped};
use rs_base::{Denial, NoMemory, Row, Value, copy_row};
use rs_exec::{Ran, fits, run_section};
use rs_index::Index;
use rs_plan::{Change, Section};
use rs_rows::{Counted, TableRows};
use std::alloc::Global;
use std::str;

/// The table that the calls are made on, and the columns that have an index.
#[derive(Drop)]
pub struct SectionCases {
    table: TableRows,
    indexed: Vec<u8>,
}

// ---- answers

/// Appends the rows, each after a blank.
fn append_rows(rows: &[Row], out: &mut Output) {
    for row in rows {
        out.text(" ");
        append_row(row.as_slice(), out);
    }
}

/// Appends the numbers, each after a blank.
fn append_numbers(numbers: &[u64], out: &mut Output) {
    for number in numbers {
        out.text(" ");
        out.number(*number);
    }
}

/// Appends each number and its row, after a blank.
fn append_numbered(rows: &[(u64, Row)], out: &mut Output) {
    for (number, row) in rows {
        out.text(" ");
        out.number(*number);
        append_row(row.as_slice(), out);
    }
}

fn append_change(change: &Change, out: &mut Output) {
    match change {
        Change::PutRows { name, rows } => {
            out.text(", put in ");
            out.name(name);
            append_rows(rows.as_slice(), out)
        }
        Change::Remove { name, numbers } => {
            out.text(", remove from ");
            out.name(name);
            append_numbers(numbers.as_slice(), out)
        }
        Change::Replace { name, rows } => {
            out.text(", replace in ");
            out.name(name);
            append_numbered(rows.as_slice(), out)
        }
        _ => out.text(", another change"),
    }
}

fn append_denial(cause: Denial, out: &mut Output) {
    out.text(match cause {
        Denial::Overflow => "Overflow",
        Denial::TableFull => "TableFull",
        _ => "denied",
    })
}

fn append_ran(ran: &Ran, out: &mut Output) {
    match ran {
        Ran::Rows { rows, more } => {
            out.text(if *more { "more" } else { "last" });
            append_rows(rows.as_slice(), out)
        }
        Ran::Changes { changes, count } => {
            out.number(*count);
            out.text(" changed");
            for change in changes.as_slice() {
                append_change(change, out);
            }
        }
        Ran::Denied(cause) => append_denial(*cause, out),
    }
}

// ---- runs

/// Builds the indexes over these columns of the table.
fn build_indexes(alloc: Global, table: &TableRows, columns: &[u8]) -> Result<Vec<Index>, NoMemory>
    ensures { IfOk result (λ indexes. All (spec.IsIndexOf table.now.rows) indexes.items) }
{
    let mut indexes = Vec::new(alloc);
    for column in columns {
        indexes.push(Index::build(alloc, table, *column)?)?;
    }
    Ok(indexes)
}

/// Returns an index over this column, if there is one.
fn index_on(indexes: &[Index], column: u8) -> Option<&Index>
    ensures { option_copied result ≡ find (λ index. index.column == column) indexes.now }
{
    indexes.iter().find(|index| index.column() == column)
}

/// Returns whether the path goes by no index, or one of the indexes is over its column.
fn has_index(path: Option<u8>, indexes: &[Index]) -> bool
    ensures { result ≡ spec.has_index path indexes.now }
{
    match path {
        Some(column) => match index_on(indexes, column) {
            Some(_) => true,
            None => false,
        },
        None => true,
    }
}

/// Begins to count the reads of a table. The numbers of its rows rise.
fn counted<'t>(table: &'t TableRows) -> Counted<'t>
    ensures table { result.table ≡ table.now }
    ensures rising { IsStrictlySortedBy nat_cmp (numbers table.now.rows) }
{
    let _count = table.count();
    Counted::new(table)
}

/// Returns the values, or none.
fn values_of(options: &Options) -> &[Value] {
    match &options.values {
        Some(values) => values.as_slice(),
        None => &[],
    }
}

/// Runs the section over the table, and appends the count of reads and what it gives; or that its path has no index.
fn run(
    table: &TableRows,
    indexed: &[u8],
    section: &Section,
    options: &Options,
    out: &mut Output,
) -> Result<(), NoMemory> {
    let indexes = build_indexes(out.alloc, table, indexed)?;
    if !has_index(options.path, indexes.as_slice()) {
        out.text("no index");
        return Ok(());
    }
    let mut rows = counted(table);
    let ran = run_section(
        out.alloc,
        section,
        options.path,
        values_of(options),
        options.fetch.as_ref(),
        options.from,
        &mut rows,
        indexes.as_slice(),
    )?;
    out.number(rows.reads());
    out.text(" read, ");
    append_ran(&ran, out);
    Ok(())
}

/// Appends whether the section fits the columns.
fn append_fits(words: &mut Words<'_>, out: &mut Output) -> Result<(), NoMemory> {
    let columns = read_columns(out.alloc, words)?;
    let (options, name) = read_options(out.alloc, words)?;
    let section = read_section(out.alloc, name, words)?;
    let values = match &options.values {
        Some(values) => Some(values.as_slice()),
        None => None,
    };
    let answer = fits(&section, columns.as_slice(), values, options.fetch.as_ref());
    out.text(if answer { "true" } else { "false" });
    Ok(())
}

// ---- the table

/// Inserts these rows, and appends the number of rows then.
fn put(table: &mut TableRows, lines: &str, out: &mut Output) -> Result<(), NoMemory> {
    let mut numbers = Output::new(out.alloc);
    for line in lines.split(';') {
        insert(table, read_row(out.alloc, line)?, &mut numbers)?;
    }
    out.number(table.count());
    Ok(())
}

/// Inserts this row so often, and appends the number of rows then.
fn fill(table: &mut TableRows, count: u64, row: &Row, out: &mut Output) -> Result<(), NoMemory> {
    let mut numbers = Output::new(out.alloc);
    for _ in 0..count {
        insert(table, copy_row(out.alloc, row.as_slice())?, &mut numbers)?;
    }
    out.number(table.count());
    Ok(())
}

/// Removes the row with this number, and appends the number of rows then.
fn remove(table: &mut TableRows, number: u64, out: &mut Output) {
    table.remove(number);
    out.number(table.count());
}

impl SectionCases {
    pub fn new(alloc: Global) -> SectionCases {
        SectionCases {
            table: TableRows::new(alloc),
            indexed: Vec::new(alloc),
        }
    }

    /// Runs the section of a line.
    fn run_line(&self, words: &mut Words<'_>, out: &mut Output) -> Result<(), NoMemory> {
        let (options, name) = read_options(out.alloc, words)?;
        let section = read_section(out.alloc, name, words)?;
        if words.is_refused() {
            return Ok(());
        }
        run(
            &self.table,
            self.indexed.as_slice(),
            &section,
            &options,
            out,
        )
    }

    /// Makes the call of a line without escapes.
    fn make(&mut self, words: &mut Words<'_>, out: &mut Output) -> Result<(), NoMemory> {
        match words.next() {
            "new" => *self = SectionCases::new(out.alloc),
            "index" => self.indexed.push(words.byte())?,
            "put" => put(&mut self.table, words.rest(), out)?,
            "fill" => {
                let count = words.number();
                let row = read_row(out.alloc, words.rest())?;
                fill(&mut self.table, count, &row, out)?
            }
            "remove" => remove(&mut self.table, words.number(), out),
            "run" => self.run_line(words, out)?,
            "fits" => append_fits(words, out)?,
            _ => words.refuse(),
        }
        Ok(())
    }
}

impl Cases for SectionCases {
    fn answer(&mut self, words: &mut Words<'_>, out: &mut Output) -> Result<(), NoMemory> {
        let line = unescaped(out.alloc, words.rest())?;
        let mut call = Words::new(str::from_utf8(line.as_slice()).unwrap_or(""));
        self.make(&mut call, out)?;
        words.include(&call);
        Ok(())
    }
}
