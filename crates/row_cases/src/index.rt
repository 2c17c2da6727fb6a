//! Calls on an index over a column of a table, and on the access paths.

ghost use Rattle.std.specs.Prelude.{◌≢◌, IfSome};

use crate::rows::insert;
use case_tools::{Cases, Output, Words, read_row, read_value};
use rs_access::{Access, FullScan, IndexScan, ValueList};
use rs_ast::Op;
use rs_base::NoMemory;
use rs_index::Index;
use rs_rows::TableRows;
use std::alloc::Global;

/// A table, and the index that the calls are made on.
#[derive(Drop)]
pub struct IndexCases {
    table: TableRows,
    index: Index,
}

/// Reads a comparison that an index has a range of.
pub fn read_op(word: &str) -> Option<Op>
    ensures { IfSome result (λ op. op ≢ Op.Ne) }
{
    match word {
        "=" => Some(Op::Eq),
        "<" => Some(Op::Lt),
        "<=" => Some(Op::Le),
        ">" => Some(Op::Gt),
        ">=" => Some(Op::Ge),
        _ => None,
    }
}

/// Appends the numbers that are left, each with a blank after it.
fn append_left<A: Access>(access: &mut A, out: &mut Output) {
    while let Some(number) = access.next() {
        out.number(number);
        out.text(" ");
    }
}

/// Appends what the index or a scan of it gives for `OP VALUE`.
fn append_range(
    index: &Index,
    is_scan: bool,
    words: &mut Words<'_>,
    out: &mut Output,
) -> Result<(), NoMemory> {
    let Some(op) = read_op(words.next()) else {
        words.refuse();
        return Ok(());
    };
    let value = read_value(out.alloc, words.rest())?;
    if is_scan {
        append_left(&mut IndexScan::new(out.alloc, index, op, &value)?, out);
    } else {
        append_left(&mut index.range(op, &value), out);
    }
    Ok(())
}

/// Appends the numbers of a list of values.
fn append_list(index: &Index, line: &str, out: &mut Output) -> Result<(), NoMemory> {
    let values = read_row(out.alloc, line)?;
    append_left(
        &mut ValueList::new(out.alloc, index, values.as_slice())?,
        out,
    );
    Ok(())
}

/// Appends the numbers of all rows.
fn append_all(table: &TableRows, out: &mut Output) -> Result<(), NoMemory> {
    append_left(&mut FullScan::new(table.numbers(out.alloc)?), out);
    Ok(())
}

impl IndexCases {
    pub fn new(alloc: Global) -> Result<IndexCases, NoMemory> {
        let table = TableRows::new(alloc);
        let index = Index::build(alloc, &table, 0)?;
        Ok(IndexCases { table, index })
    }

    /// Makes a call that changes nothing, and appends its answer.
    fn ask(&self, call: &str, words: &mut Words<'_>, out: &mut Output) -> Result<(), NoMemory> {
        match call {
            "range" => append_range(&self.index, false, words, out),
            "scan" => append_range(&self.index, true, words, out),
            "list" => append_list(&self.index, words.rest(), out),
            "full" => append_all(&self.table, out),
            _ => {
                out.number(u64::from(self.index.column()));
                Ok(())
            }
        }
    }
}

impl Cases for IndexCases {
    fn answer(&mut self, words: &mut Words<'_>, out: &mut Output) -> Result<(), NoMemory> {
        match words.next() {
            "new" => {
                *self = IndexCases::new(out.alloc)?;
                Ok(())
            }
            "insert" => insert(&mut self.table, read_row(out.alloc, words.rest())?, out),
            "build" => {
                self.index = Index::build(out.alloc, &self.table, words.byte())?;
                Ok(())
            }
            "add" => {
                let value = read_value(out.alloc, words.next())?;
                self.index.add(&value, words.number())
            }
            "drop" => {
                let value = read_value(out.alloc, words.next())?;
                let was_there = self.index.drop_row(&value, words.number());
                out.text(if was_there { "true" } else { "false" });
                Ok(())
            }
            call => self.ask(call, words, out),
        }
    }
}
