//! The row of a group, item by item.

ghost use Rattle.std.specs.Prelude.{◌≡◌, [], ◌∷◌, ◌++◌, ◌&&◌, pos, length, IfOk, slice_get, cond};
ghost use Rattle.std.specs.Option.{option_copied, option_to_list};
ghost use Rattle.rs_answer.specs.Best.{better_of};
ghost use Rattle.rs_answer.specs.Given.{Gives, group_overflows};
ghost use Rattle.rs_answer.specs.Items as spec;

use crate::fault::{AnswerFault, Overflow};
use rs_ast::ShapeItem;
use rs_base::{NoMemory, Row, Value, with_room};
use std::alloc::Global;

/// Returns the value at a column index, if the row has one.
fn value_at(column_index: u16, row: &Row) -> Option<&Value>
    ensures { option_copied result ≡ slice_get row.now column_index }
{
    row.get(usize::from(column_index))
}

fn first_at(column_index: u16, members: &[Row]) -> Option<&Value>
    ensures { option_copied result ≡ spec.first_at column_index members.now }
{
    match members {
        [] => None,
        [row, ..] => value_at(column_index, row),
    }
}

/// Returns what a row adds to the sum of a column.
fn addend(column_index: u16, row: &Row) -> i64
    ensures { result ≡ spec.sum_of (spec.values_at column_index (row.now ∷ [])) }
{
    match value_at(column_index, row) {
        Some(Value::Int(n)) => *n,
        Some(Value::Text(_)) | None => 0,
    }
}

/// Returns the sum of a column's integers: rows in memory can't exceed 128 bits.
fn sum_at(column_index: u16, members: &[Row]) -> i128
    ensures { result ≡ spec.sum_of (spec.values_at column_index members.now) }
{
    let mut sum: i128 = 0;
    for row in members {
        sum += i128::from(addend(column_index, row));
    }
    sum
}

/// Returns the lesser of two optional values; of equal ones the first.
fn lesser<'a>(one: Option<&'a Value>, other: Option<&'a Value>) -> Option<&'a Value>
    ensures { option_copied result ≡ better_of spec.lesser (option_copied one.entry) (option_copied other.entry) }
{
    match (one, other) {
        (Some(least), Some(value)) if value.cmp(least).is_lt() => Some(value),
        (Some(least), _) => Some(least),
        (None, found) => found,
    }
}

/// Returns the greater of two optional values; of equal ones the first.
fn greater<'a>(one: Option<&'a Value>, other: Option<&'a Value>) -> Option<&'a Value>
    ensures { option_copied result ≡ better_of spec.greater (option_copied one.entry) (option_copied other.entry) }
{
    match (one, other) {
        (Some(greatest), Some(value)) if value.cmp(greatest).is_gt() => Some(value),
        (Some(greatest), _) => Some(greatest),
        (None, found) => found,
    }
}

fn least_at(column_index: u16, members: &[Row]) -> Option<&Value>
    ensures { option_copied result ≡ spec.least_of (spec.values_at column_index members.now) }
{
    let mut least: Option<&Value> = None;
    for row in members {
        least = lesser(least, value_at(column_index, row));
    }
    least
}

fn greatest_at(column_index: u16, members: &[Row]) -> Option<&Value>
    ensures { option_copied result ≡ spec.greatest_of (spec.values_at column_index members.now) }
{
    let mut greatest: Option<&Value> = None;
    for row in members {
        greatest = greater(greatest, value_at(column_index, row));
    }
    greatest
}

fn copied(alloc: Global, found: Option<&Value>) -> Result<Option<Value>, NoMemory>
    ensures { IfOk result (λ copy. copy ≡ option_copied found.entry) }
{
    match found {
        Some(value) => Ok(Some(value.copy(alloc)?)),
        None => Ok(None),
    }
}

fn sum_value(column_index: u16, members: &[Row]) -> Result<Value, AnswerFault>
    ensures { Gives (spec.item_overflows members.now (ShapeItem.Sum column_index)) (λ value. Some value
        ≡ spec.item_value members.now (ShapeItem.Sum column_index)) result }
{
    match i64::try_from(sum_at(column_index, members)) {
        Ok(sum) => Ok(Value::Int(sum)),
        Err(_) => Err(AnswerFault::Fault(Overflow)),
    }
}

/// Returns the value of an item for a group, if it has one.
fn item_value(alloc: Global, item: ShapeItem, members: &[Row]) -> Result<Option<Value>, AnswerFault>
    ensures { Gives (spec.item_overflows members.now item) (λ value. value ≡ spec.item_value members.now item) result }
{
    match item {
        ShapeItem::Col(column_index) => Ok(copied(alloc, first_at(column_index, members))?),
        ShapeItem::Count => Ok(Some(Value::Int(members.len() as i64))),
        ShapeItem::Sum(column_index) => Ok(Some(sum_value(column_index, members)?)),
        ShapeItem::Min(column_index) => Ok(copied(alloc, least_at(column_index, members))?),
        ShapeItem::Max(column_index) => Ok(copied(alloc, greatest_at(column_index, members))?),
    }
}

/// Returns the row of a group, if it has one: each item's value. If one has none the later sums count for Overflow still.
fn group_row(
    alloc: Global,
    items: &[ShapeItem],
    members: &[Row],
) -> Result<Option<Row>, AnswerFault>
    ensures { Gives (group_overflows items.now members.now) (λ row. row ≡ spec.row_of items.now members.now) result }
{
    let mut row = with_room(alloc, items.len())?;
    let mut whole = true;
    for item in items {
        match item_value(alloc, *item, members)? {
            Some(value) => row.push(value)?,
            None => whole = false,
        }
    }
    Ok(whole.then_some(row))
}

/// Appends the row of a group, if it has one.
pub(crate) fn push_group(
    alloc: Global,
    items: &[ShapeItem],
    members: &[Row],
    rows: &mut Vec<Row>,
) -> Result<(), AnswerFault>
    ensures { Gives (group_overflows items.now members.now) (λ _. rows.new.items ≡ rows.old.items
        ++ option_to_list (spec.row_of items.now members.now)) result }
{
    if let Some(row) = group_row(alloc, items, members)? {
        rows.push(row)?;
    }
    Ok(())
}
