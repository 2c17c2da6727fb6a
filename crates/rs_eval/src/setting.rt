//! The row after the assignments of an UPDATE.

ghost use Rattle.std.specs.Prelude.{◌≡◌, IfOk, IsTrue, SomeIff, pos, slice_set, unwrap_or};
ghost use Rattle.std.specs.Option.{option_copied};
ghost use Rattle.rs_base.specs.Integers as numbers;
ghost use Rattle.rs_eval.specs.Setting as spec;

use crate::integers::compute;
use rs_ast::{BoundSet, BoundTerm};
use rs_base::{Denial, NoMemory, Row, Value, copy_row};
use std::alloc::Global;

/// Copies the value, or returns 0 if there is none.
fn copy_or_zero(alloc: Global, value: Option<&Value>) -> Result<Value, NoMemory>
    ensures { IfOk result (λ copy. copy ≡ unwrap_or (option_copied value.entry) (Value.Int (pos 0))) }
{
    match value {
        Some(value) => value.copy(alloc),
        None => Ok(Value::Int(0)),
    }
}

/// Returns the value of a term, or 0 if it has none.
pub fn term_value(
    alloc: Global,
    values: &[Value],
    row: &[Value],
    term: &BoundTerm,
) -> Result<Value, NoMemory>
    ensures { IfOk result (λ value. value ≡ spec.term_value values.now row.now term.now) }
{
    match term {
        BoundTerm::Place(column_index) => copy_or_zero(alloc, row.get(usize::from(*column_index))),
        BoundTerm::Lit(value) => value.copy(alloc),
        BoundTerm::Param(param) => copy_or_zero(alloc, values.get(usize::from(*param))),
    }
}

fn integer_of(value: &Value) -> i64
    ensures { result ≡ numbers.integer_of value.now }
{
    match value {
        Value::Int(integer) => *integer,
        Value::Text(_) => 0,
    }
}

fn integer_or_zero(value: Option<&Value>) -> i64
    ensures { result ≡ numbers.integer_of (unwrap_or (option_copied value.entry) (Value.Int (pos 0))) }
{
    match value {
        Some(value) => integer_of(value),
        None => 0,
    }
}

/// Returns the integer that the value of a term is, or 0.
fn operand(values: &[Value], row: &[Value], term: &BoundTerm) -> i64
    ensures { result ≡ numbers.integer_of (spec.term_value values.now row.now term.now) }
{
    match term {
        BoundTerm::Place(column_index) => integer_or_zero(row.get(usize::from(*column_index))),
        BoundTerm::Lit(value) => integer_of(value),
        BoundTerm::Param(param) => integer_or_zero(values.get(usize::from(*param))),
    }
}

/// Returns the value. That it is a text or an integer of 64 bits is seen in each of its cases.
fn stored(value: Value) -> Value
    ensures same { result ≡ value }
    ensures stored { IsTrue (spec.is_stored value) }
{
    match value {
        Value::Int(integer) => Value::Int(integer),
        Value::Text(text) => Value::Text(text),
    }
}

/// Returns the new value of the column, or `None` if it isn't an integer of 64 bits.
fn set_value(
    alloc: Global,
    values: &[Value],
    row: &[Value],
    set: &BoundSet,
) -> Result<Option<Value>, NoMemory>
    ensures { IfOk result (λ found. SomeIff found (IsTrue (spec.is_stored (spec.set_value values.now row.now set.now)))
        (spec.set_value values.now row.now set.now)) }
{
    match &set.more {
        None => Ok(Some(stored(term_value(alloc, values, row, &set.first)?))),
        Some((op, second)) => {
            let first = operand(values, row, &set.first);
            let second = operand(values, row, second);
            Ok(compute(*op, first, second).map(|integer| Value::Int(integer)))
        }
    }
}

/// Sets the column, if the row has it.
fn put(row: &mut Row, column: u8, value: Value)
    ensures { row.new ≡ slice_set row.old column value }
{
    let column = usize::from(column);
    if column < row.len() {
        row.set(column, value);
    }
}

/// Returns the row after all assignments, each by the old row, or `Overflow` if one of their expressions isn't an integer
/// of 64 bits. Fails on out of memory.
pub fn set_row(
    alloc: Global,
    sets: &[BoundSet],
    values: &[Value],
    row: &[Value],
) -> Result<Result<Row, Denial>, NoMemory>
    ensures { IfOk result (λ new. new ≡ spec.row_set sets.now values.now row.now) }
{
    let mut new = copy_row(alloc, row)?;
    for set in sets {
        let Some(value) = set_value(alloc, values, row, set)? else {
            return Ok(Err(Denial::Overflow));
        };
        put(&mut new, set.column, value);
    }
    Ok(Ok(new))
}
