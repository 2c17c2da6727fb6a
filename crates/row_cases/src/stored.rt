//! Calls on the rows of a table in order, and on the runs of them.

use case_tools::{Cases, Output, Words, read_row, read_rows};
use rs_base::{NoMemory, Value};
use rs_rows::{RowRun, StoredRows};
use std::alloc::Global;

/// The rows that the calls are made on.
#[derive(Drop)]
pub struct StoredCases {
    stored: StoredRows,
}

/// Returns rows of one integer, counted from 0.
fn counted(alloc: Global, count: u64) -> Result<StoredRows, NoMemory> {
    let mut stored = StoredRows::new(alloc);
    for number in 0..count {
        stored.push(alloc, &[Value::Int(i64::try_from(number).unwrap_or(0))])?;
    }
    Ok(stored)
}

/// Appends the first rows of a run, each on a line of its own, and how many are left.
fn append_first(run: RowRun<'_>, count: u64, out: &mut Output) {
    let mut rest = run.view();
    for _ in 0..count {
        let Some((row, others)) = rest.split_first() else {
            out.text("none ");
            break;
        };
        out.row(row);
        rest = others;
    }
    out.text("left ");
    out.number(rest.len() as u64);
}

impl StoredCases {
    pub fn new(alloc: Global) -> StoredCases {
        StoredCases {
            stored: StoredRows::new(alloc),
        }
    }

    /// Appends the number of rows and their bytes.
    fn append_sizes(&self, out: &mut Output) {
        out.number(self.stored.len() as u64);
        out.text(" ");
        out.number(self.stored.bytes());
        out.text(if self.stored.as_run().is_empty() {
            " empty"
        } else {
            " rows"
        });
    }

    /// Makes a call that changes nothing, and appends its answer.
    fn ask(&self, call: &str, words: &mut Words<'_>, out: &mut Output) {
        match call {
            "sizes" => self.append_sizes(out),
            "first" => append_first(self.stored.as_run(), words.number(), out),
            "first_of_none" => append_first(RowRun::empty(), words.number(), out),
            _ => words.refuse(),
        }
    }
}

impl Cases for StoredCases {
    fn answer(&mut self, words: &mut Words<'_>, out: &mut Output) -> Result<(), NoMemory> {
        match words.next() {
            "push" => self
                .stored
                .push(out.alloc, read_row(out.alloc, words.rest())?.as_slice()),
            "copied" => {
                let rows = read_rows(out.alloc, words.rest())?;
                self.stored = StoredRows::copied(out.alloc, rows.as_slice())?;
                Ok(())
            }
            "counted" => {
                self.stored = counted(out.alloc, words.number())?;
                Ok(())
            }
            "append" => self.stored.append(counted(out.alloc, words.number())?),
            call => {
                self.ask(call, words, out);
                Ok(())
            }
        }
    }
}
