//! The rows of a table by number.

ghost use Rattle.std.specs.Prelude.{◌≡◌, ◌↔◌, length, ok_or, option_copied, IsTrue, IfOk, IfNone, OnOk, OnErr};
ghost use Rattle.std.specs.List.Sorted.{IsStrictlySortedBy};
ghost use Rattle.std.specs.Ordering.{nat_cmp};
ghost use Rattle.rs_rows.specs.TableRows.{empty, inserted, removed, replaced, row_of, numbers, bytes_of, HasRoom, IsSmall, IsTable};

use crate::limits::MAX_ROWS;
use crate::row_iter::RowIter;
use crate::slots::Slots;
use rs_base::{NoMemory, Row, row_size};
use sqlite_items::Items;
use std::alloc::Global;
use std::marker::Model;

/// The first number that no row may have.
const NUMBERS: u64 = 1 << 63;

/// The rows of a table in order of insertion, each with its number. Numbers count from 0 and are never given again. At
/// most 65,536 rows, each of at most 1,024 bytes.
#[derive(Drop)]
pub struct TableRows {
    rows: Slots,
    bytes: u64,
}

impl Model for TableRows {
    ghost use Rattle.rs_rows.specs.TableRows.{TableRows};

    ghost Value = { TableRows };

    ghost use Rattle.rs_rows.specs.TableInside.{table_of, IsKept};

    ghost view = { table_of };

    ghost invariant = { IsKept };
}

impl TableRows {
    pub fn new(alloc: Global) -> TableRows
        ensures { result ≡ empty }
    {
        TableRows {
            rows: Slots::new(alloc),
            bytes: 0,
        }
    }

    /// Stores the row at the end and returns its number. On out of memory nothing changes. Amortized constant.
    pub fn insert(&mut self, row: Row) -> Result<u64, NoMemory>
        requires room { HasRoom self.old }
        requires small { IsSmall row }
        ensures number { IfOk result (λ number. number ≡ self.old.next) }
        ensures ok { OnOk result (self.new ≡ inserted row self.old) }
        ensures err { OnErr result (self.new ≡ self.old) }
    {
        let number = self.rows.next();
        let bytes = row_size(row.as_slice());
        self.rows.push(row)?;
        self.bytes += bytes;
        Ok(number)
    }

    /// Removes the row with this number and returns it, if there is one. Amortized logarithmic in the number of rows.
    pub fn remove(&mut self, number: u64) -> Option<Row>
        ensures row { result ≡ row_of number self.old.rows }
        ensures rows { self.new ≡ removed number self.old }
        ensures none { IfNone result (self.new ≡ self.old) }
    {
        let row = self.rows.take(number)?;
        self.bytes -= row_size(row.as_slice());
        Some(row)
    }

    /// Stores this row in place of the one with this number and returns that one; returns the given row exactly if there
    /// is no row with this number. Logarithmic in the number of rows.
    pub fn replace(&mut self, number: u64, row: Row) -> Result<Row, Row>
        requires { IsSmall row }
        ensures row { result ≡ ok_or (row_of number self.old.rows) row }
        ensures rows { self.new ≡ replaced number row self.old }
        ensures err { OnErr result (self.new ≡ self.old) }
    {
        let bytes = row_size(row.as_slice());
        let found = self.rows.swap(number, row);
        if let Ok(old) = &found {
            self.bytes = self.bytes - row_size(old.as_slice()) + bytes;
        }
        found
    }

    /// Returns the row with this number, if there is one. Logarithmic in the number of rows.
    pub fn get(&self, number: u64) -> Option<&Row>
        ensures { option_copied result ≡ row_of number self.now.rows }
    {
        self.rows.get(number)
    }

    /// Returns the numbers and rows in order of insertion.
    pub fn iter(&self) -> RowIter<'_>
        ensures rows { result ≡ self.now.rows }
        ensures table { IsTable self.now }
    {
        self.rows.iter()
    }

    /// Returns the row numbers in order of insertion.
    pub fn numbers(&self, alloc: Global) -> Result<Items<u64>, NoMemory>
        ensures numbers { IfOk result (λ found. found ≡ numbers self.now.rows) }
        ensures rising { IsStrictlySortedBy nat_cmp (numbers self.now.rows) }
    {
        let mut numbers = Items::new(alloc);
        for (number, _) in self.rows.iter() {
            numbers.push(number)?;
        }
        Ok(numbers)
    }

    /// Returns the number of rows.
    pub fn count(&self) -> u64
        ensures count { result ≡ length self.now.rows }
        ensures table { IsTable self.now }
    {
        self.rows.len() as u64
    }

    /// Returns the encoded size of the rows in bytes.
    pub fn bytes(&self) -> u64
        ensures { result ≡ bytes_of self.now.rows }
    {
        self.bytes
    }

    /// Returns whether there is room for one more row.
    pub fn has_room(&self) -> bool
        ensures { IsTrue result ↔ HasRoom self.now }
    {
        self.rows.len() < MAX_ROWS && self.rows.next() < NUMBERS
    }

    /// Returns the number that the next insert gives.
    pub fn next(&self) -> u64
        ensures { result ≡ self.now.next }
    {
        self.rows.next()
    }

    /// Copies the rows with their numbers, and the next number.
    pub fn copy(&self, alloc: Global) -> Result<TableRows, NoMemory>
        ensures { IfOk result (λ copy. copy ≡ self.now) }
    {
        Ok(TableRows {
            rows: self.rows.copy(alloc)?,
            bytes: self.bytes,
        })
    }
}
