//! Calls on an index over a column.

use crate::random::Random;
use crate::rows::{fill, filled};
use rs_ast::Op;
use rs_base::{NoMemory, Value};
use rs_index::Index;
use rs_rows::TableRows;
use std::alloc::Global;

/// Makes an integer of this number, if it has 63 bits.
fn value_of(n: u64) -> Value {
    Value::Int(i64::try_from(n).unwrap_or(0))
}

/// Adds this number of values in no order to indexes of up to `size` values, and returns how many indexes were full.
fn adds(alloc: Global, count: u64, size: u64) -> Result<u64, NoMemory> {
    let none = TableRows::new(alloc);
    let mut random = Random::new();
    let mut index = Index::build(alloc, &none, 0)?;
    let mut held = 0u64;
    let mut full = 0u64;
    for number in 0..count {
        index.add(&value_of(random.below(1 << 31)), number)?;
        held = held.saturating_add(1);
        if held >= size {
            index = Index::build(alloc, &none, 0)?;
            held = 0;
            full = full.saturating_add(1);
        }
    }
    Ok(full)
}

/// Drops a value in no order and adds it again, so often, and returns how many were there.
fn turns(alloc: Global, count: u64, size: u64) -> Result<u64, NoMemory> {
    let mut index = Index::build(alloc, &filled(alloc, size)?, 0)?;
    let mut random = Random::new();
    let mut found = 0u64;
    for _ in 0..count {
        let number = random.below(size);
        let value = value_of(number);
        if index.drop_row(&value, number) {
            index.add(&value, number)?;
            found = found.saturating_add(1);
        }
    }
    Ok(found)
}

/// Builds the index over a table beside it, asks for the row of a value in no order, so often, and returns how many answers
/// there were.
fn ranges(alloc: Global, count: u64, size: u64) -> Result<u64, NoMemory> {
    let table = filled(alloc, size)?;
    let index = Index::build(alloc, &table, 0)?;
    let mut random = Random::new();
    let mut found = 0u64;
    for _ in 0..count {
        let value = value_of(random.below(size));
        for _ in index.range(Op::Eq, &value) {
            found = found.saturating_add(1);
        }
    }
    Ok(found)
}

/// Makes calls, and returns a number that depends on their answers, if there are such calls.
pub fn make(alloc: Global, call: &str, count: u64, size: u64) -> Option<Result<u64, NoMemory>> {
    match call {
        "table" => Some(fill(alloc, size)),
        "build" => Some(ranges(alloc, 1, size)),
        "add" => Some(adds(alloc, count, size)),
        "range" => Some(ranges(alloc, count, size)),
        "turn" => Some(turns(alloc, count, size)),
        _ => None,
    }
}
