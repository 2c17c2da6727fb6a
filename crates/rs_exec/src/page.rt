//! Pages of rows.

ghost use Rattle.std.specs.Prelude.{◌≡◌, ◌≤◌, ◌-◌, ◌^◌, [], ◌∷◌, ◌++◌, drop, filter, length, min, nat_lt, slice_get, IfOk, OnOk};
ghost use Rattle.std.specs.Option.{option_copied};
ghost use Rattle.rs_base.specs.Sizes.{count_size, row_size};
ghost use Rattle.rs_exec.specs.Pages as spec;
ghost use Rattle.rs_exec.specs.Running.{projected, queried, shipped};

use crate::numbered_row::NumberedRow;
use crate::ran::Ran;
use rs_base::{NoMemory, Row, Rows, Value, row_size, with_room};
use std::alloc::Global;
use std::slice::from_ref;

/// The largest size of a page of more than one row, in bytes.
const MAX_PAGE_BYTES: u64 = 30_000;

/// Returns the number of bytes that a number takes encoded, a byte for each seven bits.
#[tactic(auto, using(rs_base::proofs::SizeLaws::groups_last), unfolding(rs_base::specs::Sizes::count_size))]
fn encoded_count(n: u64) -> u64
    ensures size { result ≡ count_size n }
    ensures small { result ≤ 10 }
{
    let mut rest = n;
    for size in 1..10 {
        if rest < 128 {
            return size;
        }
        rest /= 128;
    }
    10
}

/// Returns the row's value in a column, if it has one.
fn value_at(row: &[Value], column: u16) -> Option<&Value>
    ensures { option_copied result ≡ slice_get row.now column }
{
    row.get(usize::from(column))
}

fn has_column(row: &[Value], column: u16) -> bool
    ensures { result ≡ nat_lt column (length row.now) }
{
    usize::from(column) < row.len()
}

/// Counts the columns, of these, that the row has.
fn width(columns: &[u16], row: &[Value]) -> usize
    ensures { result ≡ length (filter (λ column. nat_lt column (length row.now)) columns.now) }
{
    columns
        .iter()
        .filter(|column| has_column(row, **column))
        .count()
}

/// Returns the encoded size of the row's value in a column, 0 if it has none.
fn size_at(row: &[Value], column: u16) -> u64
    ensures { result ≡ min (row_size (projected (column ∷ []) row.now)) (2 ^ 64 - 1) }
{
    match value_at(row, column) {
        Some(value) => row_size(from_ref(value)),
        None => 0,
    }
}

/// Returns the encoded size of the row's values in these columns, at most 2 ^ 64 - 1.
fn values_size(columns: &[u16], row: &[Value]) -> u64
    ensures { result ≡ min (row_size (projected columns.now row.now)) (2 ^ 64 - 1) }
{
    let mut size = 0u64;
    for column in columns {
        size = size.saturating_add(size_at(row, *column));
    }
    size
}

/// Returns the encoded size of the number of the row's values in these columns, and of these, at most 2 ^ 64 - 1.
#[tactic(auto, using(crate::proofs::PageLaws::width_is))]
fn encoded_size(columns: &[u16], row: &[Value]) -> u64
    ensures { result ≡ min (spec.encoded_size (projected columns.now row.now)) (2 ^ 64 - 1) }
{
    let count = encoded_count(width(columns, row) as u64);
    values_size(columns, row).saturating_add(count)
}

/// Counts the rows, from the first on, that have room in this number of bytes in these columns.
fn count_within(mut room: u64, columns: &[u16], rows: &[NumberedRow<'_>]) -> usize
    requires { room ≤ spec.max_page_bytes }
    ensures count { result ≡ length (spec.rows_within room (shipped columns.now rows.now)) }
    ensures within { result ≤ length rows.now }
{
    let mut count = 0;
    for row in rows {
        let size = encoded_size(columns, row.values());
        if size > room {
            return count;
        }
        room -= size;
        count += 1;
    }
    count
}

/// Counts the rows of the first page in these columns.
fn count_on_page(columns: &[u16], rows: &[NumberedRow<'_>]) -> usize
    ensures count { result ≡ length (spec.first_page (shipped columns.now rows.now)) }
    ensures within { result ≤ length rows.now }
{
    match rows.split_first() {
        Some((row, others)) => {
            let room = MAX_PAGE_BYTES.saturating_sub(encoded_size(columns, row.values()));
            count_within(room, columns, others) + 1
        }
        None => 0,
    }
}

/// Appends a copy of the row's value in a column, if it has one.
fn push_value(alloc: Global, row: &[Value], column: u16, values: &mut Row) -> Result<(), NoMemory>
    ensures { OnOk result (values.new ≡ values.old ++ projected (column ∷ []) row.now) }
{
    if let Some(value) = value_at(row, column) {
        values.push(value.copy(alloc)?)?;
    }
    Ok(())
}

/// Copies the row's values in these columns.
fn project(alloc: Global, columns: &[u16], row: &[Value]) -> Result<Row, NoMemory>
    ensures { IfOk result (λ values. values ≡ projected columns.now row.now) }
{
    let mut values = with_room(alloc, columns.len())?;
    for column in columns {
        push_value(alloc, row, *column, &mut values)?;
    }
    Ok(values)
}

/// Copies the rows in these columns.
fn ship(alloc: Global, columns: &[u16], rows: &[NumberedRow<'_>]) -> Result<Rows, NoMemory>
    ensures { IfOk result (λ copies. copies ≡ shipped columns.now rows.now) }
{
    let mut copies = with_room(alloc, rows.len())?;
    for row in rows {
        copies.push(project(alloc, columns, row.values())?)?;
    }
    Ok(copies)
}

/// Returns the rows after the first `from`.
fn rows_after<'a, 't>(rows: &'a [NumberedRow<'t>], from: u64) -> &'a [NumberedRow<'t>]
    ensures { result.now ≡ drop from rows.now }
{
    rows.split_at(rows.len().min(from as usize)).1
}

/// Copies a page of the rows after the first `from`, in these columns; no other row is copied.
pub(crate) fn query(
    alloc: Global,
    columns: &[u16],
    from: u64,
    matching: &[NumberedRow<'_>],
) -> Result<Ran, NoMemory>
    ensures { IfOk result (λ ran. ran ≡ queried columns.now from matching.now) }
{
    let left = rows_after(matching, from);
    let count = count_on_page(columns, left);
    let rows = ship(alloc, columns, left.split_at(count).0)?;
    Ok(Ran::Rows {
        rows,
        more: count < left.len(),
    })
}
