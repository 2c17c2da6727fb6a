//! The groups of joined rows, and the rows of groups.

ghost use Rattle.std.specs.Prelude.{◌≡◌, [], ◌∷◌, map, IfOk};
ghost use Rattle.std.specs.List.{prefix_len};
ghost use Rattle.std.specs.List.Sorted.{IsPermutation, IsSortedByKey, IsStableByKey};
ghost use Rattle.rs_answer.specs.Answer.{overflows, shown};
ghost use Rattle.rs_answer.specs.Given.{Gives, any_overflows, rows_of};
ghost use Rattle.rs_answer.specs.Groups.{group_cmp, group_values, grouped_by, same_group};

use crate::fault::AnswerFault;
use crate::items::push_group;
use crate::sorting::compare_at;
use rs_ast::{Shape, ShapeItem};
use rs_base::{NoMemory, Row, Rows, Value};
use std::alloc::Global;
use std::cmp::Ordering;
use std::slice::from_ref;

/// Orders two rows by the values of the columns to group by.
fn compare_groups(column_indexes: &[u16], one: &[Value], other: &[Value]) -> Ordering
    ensures { result ≡ group_cmp (group_values column_indexes.now one.now) (group_values column_indexes.now other.now) }
{
    for column_index in column_indexes {
        let order = compare_at(*column_index, one, other);
        if order.is_ne() {
            return order;
        }
    }
    Ordering::Equal
}

/// Returns the number of first rows in the group of a row.
fn run_length(column_indexes: &[u16], first: &[Value], rows: &[Row]) -> usize
    ensures { result
        ≡ prefix_len (λ row. same_group (group_values column_indexes.now first.now) (group_values column_indexes.now row)) rows.now }
{
    let mut length = 0;
    for row in rows {
        if compare_groups(column_indexes, first, row.as_slice()).is_ne() {
            return length;
        }
        length += 1;
    }
    length
}

/// Moves the rows.
fn into_vec(alloc: Global, mut rows: Rows) -> Result<Vec<Row>, NoMemory>
    ensures { IfOk result (λ moved. moved.items ≡ rows) }
{
    let mut moved = Vec::with_capacity(alloc, rows.len())?;
    while let Some(row) = rows.pop() {
        moved.push(row)?;
    }
    moved.reverse();
    Ok(moved)
}

/// Returns the rows of each group together, the groups ordered by their values, and the rows of each in their old order.
fn rows_by_group(alloc: Global, column_indexes: &[u16], joined: Rows) -> Result<Vec<Row>, NoMemory>
    ensures sorted { IfOk result (λ rows. IsSortedByKey (group_values column_indexes.now) group_cmp rows.items) }
    ensures same { IfOk result (λ rows. IsPermutation joined rows.items) }
    ensures stable { IfOk result (λ rows. IsStableByKey (group_values column_indexes.now) group_cmp joined rows.items) }
{
    let mut rows = into_vec(alloc, joined)?;
    rows.sort_by(|one: &Row, other: &Row| compare_groups(
        column_indexes,
        one.as_slice(),
        other.as_slice(),
    ))?;
    Ok(rows)
}

/// Returns the row of each row as a group of its own.
fn each_alone(alloc: Global, items: &[ShapeItem], rows: &[Row]) -> Result<Vec<Row>, AnswerFault>
    ensures { Gives (any_overflows items.now (map (λ row. row ∷ []) rows.now)) (λ given. given.items
        ≡ rows_of items.now (map (λ row. row ∷ []) rows.now)) result }
{
    let mut given = Vec::with_capacity(alloc, rows.len())?;
    for row in rows {
        push_group(alloc, items, from_ref(row), &mut given)?;
    }
    Ok(given)
}

/// Returns the row of all rows as one group.
fn all_together(alloc: Global, items: &[ShapeItem], rows: &[Row]) -> Result<Vec<Row>, AnswerFault>
    ensures { Gives (any_overflows items.now (rows.now ∷ [])) (λ given. given.items
        ≡ rows_of items.now (rows.now ∷ [])) result }
{
    let mut given = Vec::new(alloc);
    push_group(alloc, items, rows, &mut given)?;
    Ok(given)
}

/// Returns the rows of the groups, if the rows are ordered by their groups' values: each run of equal ones is a group.
fn each_run(
    alloc: Global,
    items: &[ShapeItem],
    column_indexes: &[u16],
    rows: &[Row],
) -> Result<Vec<Row>, AnswerFault>
    requires { IsSortedByKey (group_values column_indexes.now) group_cmp rows.now }
    ensures { Gives (any_overflows items.now (grouped_by column_indexes.now rows.now)) (λ given. given.items
        ≡ rows_of items.now (grouped_by column_indexes.now rows.now)) result }
{
    let mut given = Vec::new(alloc);
    let mut rest = rows;
    while let [first, ..] = rest {
        let (run, others) = rest.split_at(run_length(column_indexes, first.as_slice(), rest));
        push_group(alloc, items, run, &mut given)?;
        rest = others;
    }
    Ok(given)
}

/// Returns the rows that a query shows, in some order.
pub(crate) fn shown_rows(
    alloc: Global,
    shape: &Shape,
    joined: Rows,
) -> Result<Vec<Row>, AnswerFault>
    ensures { Gives (overflows shape.now joined) (λ rows. IsPermutation (shown shape.now joined) rows.items) result }
{
    let items = shape.items.as_slice();
    if !shape.grouped {
        each_alone(alloc, items, joined.as_slice())
    } else if shape.group.is_empty() {
        all_together(alloc, items, joined.as_slice())
    } else {
        let rows = rows_by_group(alloc, shape.group.as_slice(), joined)?;
        each_run(alloc, items, shape.group.as_slice(), rows.as_slice())
    }
}
