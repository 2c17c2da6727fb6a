//! The rows of a table with indexes over them.

ghost use Rattle.std.specs.Prelude.{◌≡◌, ◌<◌, [], ◌∷◌, ◌++◌, length, map, remove, IfOk, OnOk, OnErr};
ghost use Rattle.std.specs.Option.{option_copied};
ghost use Rattle.rs_rows.specs.TableRows.{empty, inserted, removed, replaced, row_of, HasRoom, IsSmall, IsTable};
ghost use Rattle.rs_table.specs.IndexedRows as spec;

use rs_base::{NoMemory, Row, Value};
use rs_index::Index;
use rs_rows::TableRows;
use std::alloc::Global;
use std::marker::Model;

/// The rows of a table, and indexes over columns of them. Each index has exactly the values of the rows.
#[derive(Drop)]
pub struct IndexedRows {
    rows: TableRows,
    indexes: Vec<Index>,
}

impl Model for IndexedRows {
    ghost use Rattle.rs_table.specs.IndexedRows.{IndexedRows};
    ghost use Rattle.rs_table.specs.IndexedRowsInside.{indexed_rows_of, AreOverRows};

    ghost Value = { IndexedRows };

    ghost view = { indexed_rows_of };

    ghost invariant = { AreOverRows };
}

fn add_value(index: &mut Index, number: u64, row: &[Value]) -> Result<(), NoMemory>
    ensures { OnOk result (index.new ≡ spec.with_entry (number, row.now) index.old) }
{
    match row.get(usize::from(index.column())) {
        Some(value) => index.add(value, number),
        None => Ok(()),
    }
}

fn drop_value(index: &mut Index, number: u64, row: &[Value])
    ensures { index.new ≡ spec.without_entry (number, row.now) index.old }
{
    if let Some(value) = row.get(usize::from(index.column())) {
        index.drop_row(value, number);
    }
}

/// Adds the values of a row to the indexes over their columns.
fn add_values(indexes: &mut Vec<Index>, number: u64, row: &[Value]) -> Result<(), NoMemory>
    ensures { OnOk result (indexes.new.items
        ≡ map (spec.with_entry (number, row.now)) indexes.old.items) }
{
    for index in indexes.iter_mut() {
        add_value(index, number, row)?;
    }
    Ok(())
}

/// Drops the values of a row from the indexes over their columns.
fn drop_values(indexes: &mut Vec<Index>, number: u64, row: &[Value])
    ensures { indexes.new.items ≡ map (spec.without_entry (number, row.now)) indexes.old.items }
{
    for index in indexes.iter_mut() {
        drop_value(index, number, row);
    }
}

/// Returns the row with this number, if there is one. The numbers of a table rise, so it is the only one.
fn only_row(rows: &TableRows, number: u64) -> Option<&Row>
    ensures row { option_copied result ≡ row_of number rows.now.rows }
    ensures table { IsTable rows.now }
{
    if rows.count() == 0 {
        return None;
    }
    rows.get(number)
}

impl IndexedRows {
    /// Makes a table's rows, none so far, without an index.
    pub fn new(alloc: Global) -> IndexedRows
        ensures { result ≡ record { table = empty; columns = [] } }
    {
        IndexedRows {
            rows: TableRows::new(alloc),
            indexes: Vec::new(alloc),
        }
    }

    /// Returns the rows.
    pub fn rows(&self) -> &TableRows
        ensures { result.now ≡ self.now.table }
    {
        &self.rows
    }

    /// Returns the indexes in order of creation.
    pub fn indexes(&self) -> &[Index]
        ensures { result.now ≡ spec.indexes_over self.now.table.rows self.now.columns }
    {
        self.indexes.as_slice()
    }

    /// Stores the row at the end. Logarithmic in the number of rows for each index.
    pub fn insert(self, row: Row) -> Result<IndexedRows, NoMemory>
        requires room { HasRoom self.table }
        requires small { IsSmall row }
        ensures { IfOk result (λ new. new ≡ record self { table = inserted row self.table }) }
    {
        let IndexedRows {
            mut rows,
            mut indexes,
        } = self;
        add_values(&mut indexes, rows.next(), row.as_slice())?;
        rows.insert(row)?;
        Ok(IndexedRows { rows, indexes })
    }

    /// Removes the row with this number, if there is one. Logarithmic in the number of rows for each index.
    pub fn remove(self, number: u64) -> IndexedRows
        ensures { result ≡ record self { table = removed number self.table } }
    {
        let IndexedRows {
            mut rows,
            mut indexes,
        } = self;
        let Some(old) = only_row(&rows, number) else {
            return IndexedRows { rows, indexes };
        };
        drop_values(&mut indexes, number, old.as_slice());
        let _ = rows.remove(number);
        IndexedRows { rows, indexes }
    }

    /// Stores this row in place of the one with this number, if there is one. Logarithmic in the number of rows for each
    /// index.
    pub fn replace(self, number: u64, row: Row) -> Result<IndexedRows, NoMemory>
        requires { IsSmall row }
        ensures { IfOk result (λ new. new ≡ record self { table = replaced number row self.table }) }
    {
        let IndexedRows {
            mut rows,
            mut indexes,
        } = self;
        let Some(old) = rows.get(number) else {
            return Ok(IndexedRows { rows, indexes });
        };
        drop_values(&mut indexes, number, old.as_slice());
        add_values(&mut indexes, number, row.as_slice())?;
        let _ = rows.replace(number, row);
        Ok(IndexedRows { rows, indexes })
    }

    /// Makes an index over the column, after the others. On out of memory nothing changes.
    pub fn add_index(&mut self, alloc: Global, column: u8) -> Result<(), NoMemory>
        ensures ok { OnOk result (self.new
            ≡ record self.old { columns = self.old.columns ++ column ∷ [] }) }
        ensures err { OnErr result (self.new ≡ self.old) }
    {
        let index = Index::build(alloc, &self.rows, column)?;
        self.indexes.push(index)?;
        Ok(())
    }

    /// Drops the index at this position.
    pub fn drop_index(&mut self, position: usize)
        requires { position < length self.old.columns }
        ensures { self.new ≡ record self.old { columns = remove self.old.columns position } }
    {
        self.indexes.remove(position);
    }
}
