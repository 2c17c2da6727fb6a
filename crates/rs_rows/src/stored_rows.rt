//! Owned rows.

ghost use Rattle.std.specs.Prelude.{◌≡◌, ◌-◌, ◌^◌, [], ◌∷◌, ◌++◌, length, take, min, IfOk, OnOk, OnErr};
ghost use Rattle.rs_rows.specs.Sizes as spec;

use crate::row_run::RowRun;
use rs_base::{NoMemory, Row, Value, row_size};
use std::alloc::Global;
use std::marker::Model;

/// Rows in order of insertion: their values, one row after the other, the number of values of each row, and their
/// encoded size.
#[derive(Drop)]
pub struct StoredRows {
    values: Vec<Value>,
    widths: Vec<usize>,
    bytes: u64,
}

impl Model for StoredRows {
    ghost use Rattle.rs_base.specs.Value.{RowList};

    ghost Value = { RowList };

    ghost use Rattle.rs_rows.specs.Inside.{rows_of, IsWhole};

    ghost view = { rows_of };

    ghost invariant = { IsWhole };
}

impl StoredRows {
    pub fn new(alloc: Global) -> StoredRows
        ensures { result ≡ [] }
    {
        StoredRows {
            values: Vec::new(alloc),
            widths: Vec::new(alloc),
            bytes: 0,
        }
    }

    /// Copies the rows.
    pub fn copied(alloc: Global, rows: &[Row]) -> Result<StoredRows, NoMemory>
        ensures { IfOk result (λ stored. stored ≡ rows.now) }
    {
        let mut stored = StoredRows::new(alloc);
        for row in rows {
            stored.push(alloc, row.as_slice())?;
        }
        Ok(stored)
    }

    /// Borrows the rows.
    pub fn as_run(&self) -> RowRun<'_>
        ensures { result ≡ self.now }
    {
        RowRun::of(self.values.as_slice(), self.widths.as_slice())
    }

    #[tactic(auto, using(crate::proofs::CutLaws::length_of_cut))]
    pub fn len(&self) -> usize
        ensures { result ≡ length self.now }
    {
        self.widths.len()
    }

    /// Returns the encoded size of the rows in bytes, at most 2 ^ 64 - 1.
    pub fn bytes(&self) -> u64
        ensures { result ≡ min (spec.rows_size self.now) (2 ^ 64 - 1) }
    {
        self.bytes
    }

    /// Appends a copy of the row. On out of memory nothing changes.
    #[tactic(auto, using(crate::proofs::CutLaws::cut_of_one_more, crate::proofs::CutLaws::whole_of_more, crate::proofs::CutLaws::size_of_more))]
    pub fn push(&mut self, alloc: Global, row: &[Value]) -> Result<(), NoMemory>
        ensures ok { OnOk result (self.new ≡ self.old ++ row.now ∷ []) }
        ensures err { OnErr result (self.new ≡ self.old) }
    {
        let count = self.values.len();
        let put = put_row(alloc, &mut self.values, &mut self.widths, row);
        match put {
            Ok(()) => self.bytes = self.bytes.saturating_add(row_size(row)),
            Err(_) => self.values.truncate(count),
        }
        put
    }

    /// Moves `more` to the end. Linear in `more`. On out of memory nothing changes.
    #[tactic(auto, using(crate::proofs::CutLaws::cut_of_more, crate::proofs::CutLaws::whole_of_more, crate::proofs::CutLaws::size_of_more))]
    pub fn append(&mut self, mut more: StoredRows) -> Result<(), NoMemory>
        ensures ok { OnOk result (self.new ≡ self.old ++ more) }
        ensures err { OnErr result (self.new ≡ self.old) }
    {
        let count = self.values.len();
        self.values.append(&mut more.values)?;
        if let Err(fault) = self.widths.append(&mut more.widths) {
            self.values.truncate(count);
            return Err(fault.into());
        }
        self.bytes = self.bytes.saturating_add(more.bytes);
        Ok(())
    }
}

/// Appends copies of the row's values, and their number. On out of memory some of the copies may stay.
#[tactic(auto, using(crate::proofs::CutLaws::taken_back))]
fn put_row(
    alloc: Global,
    values: &mut Vec<Value>,
    widths: &mut Vec<usize>,
    row: &[Value],
) -> Result<(), NoMemory>
    ensures values { OnOk result (values.new.items ≡ values.old.items ++ row.now) }
    ensures widths { OnOk result (widths.new.items ≡ widths.old.items ++ length row.now ∷ []) }
    ensures values_err { OnErr result (take (length values.old.items) values.new.items ≡ values.old.items) }
    ensures widths_err { OnErr result (widths.new.items ≡ widths.old.items) }
{
    for value in row {
        values.push(value.copy(alloc)?)?;
    }
    widths.push(row.len())?;
    Ok(())
}
