//! The order of an answer: by its keys, and then by all columns.

ghost use Rattle.std.specs.Prelude.{◌≡◌, IfOk, if◌then◌else◌, slice_get};
ghost use Rattle.std.specs.Option.{option_cmp};
ghost use Rattle.std.specs.List.{dedup};
ghost use Rattle.rs_base.specs.Value.{value_cmp};
ghost use Rattle.rs_answer.specs.Answer.{same_row};
ghost use Rattle.rs_answer.specs.Groups.{once};
ghost use Rattle.rs_answer.specs.Sorting.{answer_cmp, key_cmp, sorted_by};

use rs_ast::ShapeKey;
use rs_base::{NoMemory, Row, Rows, Value};
use sqlite_items::Items;
use std::cmp::Ordering;

/// Orders two rows by the values of a column; a row without one is below.
pub(crate) fn compare_at(column_index: u16, one: &[Value], other: &[Value]) -> Ordering
    ensures { result ≡ option_cmp value_cmp (slice_get one.now column_index) (slice_get other.now column_index) }
{
    let column_index = usize::from(column_index);
    one.get(column_index).cmp(&other.get(column_index))
}

fn compare_by_key(key: &ShapeKey, one: &[Value], other: &[Value]) -> Ordering
    ensures { result ≡ key_cmp key.now one.now other.now }
{
    let order = compare_at(key.item, one, other);
    if key.desc { order.reverse() } else { order }
}

/// Orders two rows of an answer by its keys, and then by all columns, rising.
pub fn compare_answers(keys: &[ShapeKey], one: &[Value], other: &[Value]) -> Ordering
    ensures { result ≡ answer_cmp keys.now one.now other.now }
{
    for key in keys {
        let order = compare_by_key(key, one, other);
        if order.is_ne() {
            return order;
        }
    }
    one.cmp(other)
}

fn sorted(keys: &[ShapeKey], mut rows: Vec<Row>) -> Result<Vec<Row>, NoMemory>
    ensures { IfOk result (λ sorted. sorted.items ≡ sorted_by (answer_cmp keys.now) rows.items) }
{
    rows.sort_by(|one: &Row, other: &Row| compare_answers(keys, one.as_slice(), other.as_slice()))?;
    Ok(rows)
}

/// Keeps the first of equal neighbours.
fn without_repeats(mut rows: Vec<Row>) -> Vec<Row>
    ensures { result.items ≡ dedup same_row rows.items }
{
    rows.dedup_by(|row: &mut Row, kept: &mut Row| row.as_slice().cmp(kept.as_slice()).is_eq());
    rows
}

/// Returns the rows in the order of an answer; only distinct ones, if the query asks for it.
pub(crate) fn rows_in_order(
    keys: &[ShapeKey],
    distinct: bool,
    rows: Vec<Row>,
) -> Result<Rows, NoMemory>
    ensures { IfOk result (λ ordered. ordered
        ≡ sorted_by (answer_cmp keys.now) (if distinct then once same_row rows.items else rows.items)) }
{
    let rows = sorted(keys, rows)?;
    Ok(Items::from_vec(if distinct {
        without_repeats(rows)
    } else {
        rows
    }))
}
