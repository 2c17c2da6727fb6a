//! Whether a table has room for new rows.

ghost use Rattle.std.specs.Prelude.{◌≡◌, ◌-◌, ◌^◌, length, map, min};
ghost use Rattle.std.specs.List.{list_all};
ghost use Rattle.rs_rows.specs.Limits.{fits_row};
ghost use Rattle.rs_rows.specs.Sizes.{rows_size};
ghost use Rattle.rs_rows.specs.TableRows.{bytes_of};
ghost use Rattle.rs_exec.specs.Room as spec;

use crate::numbered_row::NumberedRow;
use rs_base::{Row, Value, row_size};
use rs_rows::{MAX_ROWS, MAX_TABLE_BYTES, ReadRows, fits_row};

/// A row, in whatever form it is held.
pub(crate) trait AsValues {
    ghost use Rattle.std.specs.Prelude.{List};
    ghost use Rattle.rs_base.specs.declared.value.Value.{Value};

    ghost values: { Self → List Value };

    /// Returns the values of the row.
    fn as_values(&self) -> &[Value]
        ensures { result.now ≡ values self.now };
}

impl AsValues for Row {
    ghost values = { λ row. row };

    fn as_values(&self) -> &[Value] {
        self.as_slice()
    }
}

impl AsValues for (u64, Row) {
    ghost values = { λ entry. entry.1 };

    fn as_values(&self) -> &[Value] {
        self.1.as_slice()
    }
}

impl<'t> AsValues for NumberedRow<'t> {
    ghost values = { λ entry. entry.1 };

    fn as_values(&self) -> &[Value] {
        self.values()
    }
}

/// Returns whether a table may hold the row.
fn is_small<T: AsValues>(row: &T) -> bool
    ensures { result ≡ fits_row (T.values row.now) }
{
    fits_row(row.as_values())
}

/// Returns whether a table may hold each of the rows.
fn each_fits<T: AsValues>(rows: &[T]) -> bool
    ensures { result ≡ list_all (λ row. fits_row (T.values row)) rows.now }
{
    rows.iter().all(|row| is_small(row))
}

/// Returns the encoded size of the rows in bytes, at most 2 ^ 64 - 1.
fn size_of_rows<T: AsValues>(rows: &[T]) -> u64
    ensures { result ≡ min (rows_size (map T.values rows.now)) (2 ^ 64 - 1) }
{
    let mut size = 0u64;
    for row in rows {
        size = size.saturating_add(row_size(row.as_values()));
    }
    size
}

/// Returns whether a table may hold this number of rows, of this number of bytes.
fn fits_table(count: u64, bytes: u64) -> bool
    ensures { result ≡ spec.fits_table count bytes }
{
    count <= MAX_ROWS as u64 && bytes <= MAX_TABLE_BYTES
}

/// Returns whether each of the rows may be stored, and there is room for them beside this number of rows of this number
/// of bytes.
pub(crate) fn has_room_beside<T: AsValues>(count: u64, bytes: u64, new: &[T]) -> bool
    ensures { result ≡ spec.has_room_beside count bytes (map T.values new.now) }
{
    let count = count.saturating_add(new.len() as u64);
    let bytes = bytes.saturating_add(size_of_rows(new));
    each_fits(new) && fits_table(count, bytes)
}

/// Returns whether each of the new rows may be stored, and there is room for them in place of these rows of the table.
pub(crate) fn has_room_in_place<'t, R: ReadRows<'t>>(
    rows: &R,
    old: &[NumberedRow<'_>],
    new: &[(u64, Row)],
) -> bool
    ensures { result ≡ spec.has_room_beside (length (R.rows rows.now) - length old.now)
        (bytes_of (R.rows rows.now) - bytes_of old.now) (map (λ entry. entry.1) new.now) }
{
    let count = rows.count().saturating_sub(old.len() as u64);
    let bytes = rows.bytes().saturating_sub(size_of_rows(old));
    has_room_beside(count, bytes, new)
}
