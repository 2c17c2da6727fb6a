//! The limits of rows and tables.

ghost use Rattle.std.specs.Prelude.{◌≡◌, ◌&&◌, ◌++◌};
ghost use Rattle.std.specs.List.{list_all};
ghost use Rattle.rs_rows.specs.Limits as spec;

use crate::row_run::RowRun;
use crate::stored_rows::StoredRows;
use rs_base::{Value, row_size};

/// The largest size of a row, in bytes.
pub const MAX_ROW_BYTES: u64 = 1024;

/// The largest number of rows of a table.
pub const MAX_ROWS: usize = 65_536;

/// The largest size of a table, in bytes.
pub const MAX_TABLE_BYTES: u64 = 8_388_608;

/// Returns whether a table may hold the row.
pub fn fits_row(row: &[Value]) -> bool
    ensures { result ≡ spec.fits_row row.now }
{
    row_size(row) <= MAX_ROW_BYTES
}

/// Returns whether a table may hold each of the rows.
pub fn all_fit_row(rows: &RowRun<'_>) -> bool
    ensures { result ≡ list_all spec.fits_row rows.now }
{
    let mut rest = rows.view();
    while let Some((row, others)) = rest.split_first() {
        if !fits_row(row) {
            return false;
        }
        rest = others;
    }
    true
}

/// Returns whether a table may hold all these rows, by their number and bytes.
pub fn fits_rows(rows: &StoredRows) -> bool
    ensures { result ≡ spec.fits_rows rows.now }
{
    rows.len() <= MAX_ROWS && rows.bytes() <= MAX_TABLE_BYTES
}

/// Returns whether a table may hold these rows and `more`, by their number and bytes.
pub fn has_room(rows: &StoredRows, more: &StoredRows) -> bool
    ensures { result ≡ spec.fits_rows (rows.now ++ more.now) }
{
    rows.len().saturating_add(more.len()) <= MAX_ROWS
        && rows.bytes().saturating_add(more.bytes()) <= MAX_TABLE_BYTES
}
