//! Calls on the rows of a table.

use case_tools::{Cases, Output, Words, read_row};
use rs_base::{NoMemory, Row, Value, one_item};
use rs_rows::{Counted, ReadRows, TableRows, fits_row};
use std::alloc::Global;

/// The table that the calls are made on.
#[derive(Drop)]
pub struct RowCases {
    table: TableRows,
}

/// Appends the values of a row, separated by `,`, in parentheses.
pub fn append_row(row: &[Value], out: &mut Output) {
    out.text("(");
    for (index, value) in row.iter().enumerate() {
        out.text(if index > 0 { "," } else { "" });
        out.value(value);
    }
    out.text(")");
}

/// Appends a row, or `none`.
fn append_found(row: Option<&Row>, out: &mut Output) {
    match row {
        Some(row) => append_row(row.as_slice(), out),
        None => out.text("none"),
    }
}

/// Appends the number that the row gets, or why it can't be inserted.
pub fn insert(table: &mut TableRows, row: Row, out: &mut Output) -> Result<(), NoMemory> {
    if !table.has_room() {
        out.text("full");
        return Ok(());
    }
    if !fits_row(row.as_slice()) {
        out.text("too large");
        return Ok(());
    }
    out.number(table.insert(row)?);
    Ok(())
}

/// Inserts this number of rows of one integer, and appends the number of rows then.
fn fill(table: &mut TableRows, count: u64, out: &mut Output) -> Result<(), NoMemory> {
    let mut numbers = Output::new(out.alloc);
    for _ in 0..count {
        let row = one_item(out.alloc, Value::Int(0))?;
        insert(table, row, &mut numbers)?;
    }
    out.number(table.count());
    Ok(())
}

fn append_replaced(replaced: &Result<Row, Row>, out: &mut Output) {
    match replaced {
        Ok(old) => append_row(old.as_slice(), out),
        Err(given) => {
            out.text("refused ");
            append_row(given.as_slice(), out)
        }
    }
}

/// Appends the old row, or `refused` and the given row.
fn replace(table: &mut TableRows, number: u64, row: Row, out: &mut Output) {
    if fits_row(row.as_slice()) {
        append_replaced(&table.replace(number, row), out)
    } else {
        out.text("too large")
    }
}

/// Appends each number and its row.
fn append_rows(table: &TableRows, out: &mut Output) {
    for (number, row) in table.iter() {
        out.number(number);
        append_row(row.as_slice(), out);
    }
}

/// Appends the numbers, how many they are, and the encoded size of the rows.
fn append_list<'t, R: ReadRows<'t>>(rows: &R, out: &mut Output) -> Result<(), NoMemory> {
    let numbers = rows.numbers(out.alloc)?;
    for (index, number) in numbers.as_slice().iter().enumerate() {
        out.text(if index > 0 { " " } else { "" });
        out.number(*number);
    }
    out.text("; ");
    out.number(rows.count());
    out.text(" rows, ");
    out.number(rows.bytes());
    out.text(" bytes");
    Ok(())
}

/// Reads the rows with these numbers, and appends each or `none`, and the count of reads.
fn append_reads(
    table: &TableRows,
    words: &mut Words<'_>,
    out: &mut Output,
) -> Result<(), NoMemory> {
    let mut counted = Counted::new(table);
    for word in words.rest().split_whitespace() {
        let mut number = Words::new(word);
        append_found(counted.row(number.number()), out);
        out.text(" ");
        words.include(&number);
    }
    out.number(counted.reads());
    out.text(" reads of ");
    append_list(&counted, out)
}

impl RowCases {
    pub fn new(alloc: Global) -> RowCases {
        RowCases {
            table: TableRows::new(alloc),
        }
    }

    /// Makes a call that changes nothing, and appends its answer.
    fn ask(&self, call: &str, words: &mut Words<'_>, out: &mut Output) -> Result<(), NoMemory> {
        match call {
            "get" => append_found(self.table.get(words.number()), out),
            "rows" => append_rows(&self.table, out),
            "count" => out.number(self.table.count()),
            "bytes" => out.number(self.table.bytes()),
            "next" => out.number(self.table.next()),
            "reads" => return append_reads(&self.table, words, out),
            _ => words.refuse(),
        }
        Ok(())
    }
}

impl Cases for RowCases {
    fn answer(&mut self, words: &mut Words<'_>, out: &mut Output) -> Result<(), NoMemory> {
        match words.next() {
            "new" => {
                self.table = TableRows::new(out.alloc);
                Ok(())
            }
            "copy" => {
                self.table = self.table.copy(out.alloc)?;
                Ok(())
            }
            "insert" => insert(&mut self.table, read_row(out.alloc, words.rest())?, out),
            "fill" => fill(&mut self.table, words.number(), out),
            "replace" => {
                let number = words.number();
                let row = read_row(out.alloc, words.rest())?;
                replace(&mut self.table, number, row, out);
                Ok(())
            }
            "remove" => {
                append_found(self.table.remove(words.number()).as_ref(), out);
                Ok(())
            }
            call => self.ask(call, words, out),
        }
    }
}
