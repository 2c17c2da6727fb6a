//! Reading rows by number, with a count of the reads.

ghost use Rattle.std.specs.Prelude.{◌≡◌, ℕ, length, IfOk};
ghost use Rattle.std.specs.Option.{option_copied};
ghost use Rattle.std.specs.List.Sorted.{IsStrictlySortedBy};
ghost use Rattle.std.specs.Ordering.{nat_cmp};
ghost use Rattle.rs_rows.specs.CountedRows.{raised};
ghost use Rattle.rs_rows.specs.TableRows.{RowsByNumber, numbers, row_of, bytes_of};

use crate::table_rows::TableRows;
use rs_base::{NoMemory, Row};
use sqlite_items::Items;
use std::alloc::Global;
use std::marker::Model;

/// Row numbers.
pub type Numbers = Items<u64>;

/// Numbered rows whose numbers rise, and a count of reads. The rows live for `'t`.
pub trait ReadRows<'t> {
    ghost rows: { Self → RowsByNumber };

    ghost reads: { Self → ℕ };

    /// Returns the row numbers in order of insertion.
    fn numbers(&self, alloc: Global) -> Result<Numbers, NoMemory>
        ensures numbers { IfOk result (λ found. found ≡ numbers (rows self.now)) }
        ensures rising { IsStrictlySortedBy nat_cmp (numbers (rows self.now)) };

    /// Returns the number of rows.
    fn count(&self) -> u64
        ensures { result ≡ length (rows self.now) };

    /// Returns the encoded size of the rows in bytes.
    fn bytes(&self) -> u64
        ensures { result ≡ bytes_of (rows self.now) };

    /// Returns the row with this number, if there is one, and counts the read. The count stays at 2 ^ 64 - 1.
    fn row(&mut self, number: u64) -> Option<&'t Row>
        ensures row { option_copied result ≡ row_of number (rows self.old) }
        ensures rows { rows self.new ≡ rows self.old }
        ensures reads { reads self.new ≡ raised (reads self.old) };
}

/// A table whose reads are counted.
#[derive(Drop)]
pub struct Counted<'t> {
    rows: &'t TableRows,
    reads: u64,
}

impl<'t> Model for Counted<'t> {
    ghost use Rattle.rs_rows.specs.CountedRows.{CountedRows};

    ghost Value = { CountedRows };

    ghost view = { λ it. record { table = it.rows.now; reads = it.reads } };
}

impl<'t> Counted<'t> {
    /// Reads the rows of this table, none read so far.
    pub fn new(rows: &'t TableRows) -> Counted<'t>
        ensures { result ≡ record { table = rows.now; reads = 0 } }
    {
        Counted { rows, reads: 0 }
    }

    /// Returns the number of reads, at most 2 ^ 64 - 1.
    pub fn reads(&self) -> u64
        ensures { result ≡ self.now.reads }
    {
        self.reads
    }
}

impl<'t> ReadRows<'t> for Counted<'t> {
    ghost rows = { λ it. it.table.rows };

    ghost reads = { λ it. it.reads };

    fn numbers(&self, alloc: Global) -> Result<Numbers, NoMemory> {
        self.rows.numbers(alloc)
    }

    fn count(&self) -> u64 {
        self.rows.count()
    }

    fn bytes(&self) -> u64 {
        self.rows.bytes()
    }

    fn row(&mut self, number: u64) -> Option<&'t Row> {
        self.reads = self.reads.saturating_add(1);
        self.rows.get(number)
    }
}
