//! Calls on the rows of a table.

use crate::random::Random;
use rs_base::{NoMemory, Value, one_item};
use rs_rows::{TableRows, fits_row};
use std::alloc::Global;

/// Inserts a row of one integer, if there is room, and returns its number.
fn insert(alloc: Global, table: &mut TableRows, n: u64) -> Result<u64, NoMemory> {
    let row = one_item(alloc, Value::Int(i64::try_from(n).unwrap_or(0)))?;
    if table.has_room() && fits_row(row.as_slice()) {
        return table.insert(row);
    }
    Ok(0)
}

/// Makes a table whose rows are the integers below `size`, in order.
pub fn filled(alloc: Global, size: u64) -> Result<TableRows, NoMemory> {
    let mut table = TableRows::new(alloc);
    for n in 0..size {
        insert(alloc, &mut table, n)?;
    }
    Ok(table)
}

/// Fills a table, and returns its number of rows.
pub fn fill(alloc: Global, size: u64) -> Result<u64, NoMemory> {
    Ok(filled(alloc, size)?.count())
}

/// Inserts this number of rows into tables of up to `size` rows, and returns how many tables were full.
fn inserts(alloc: Global, count: u64, size: u64) -> Result<u64, NoMemory> {
    let mut table = TableRows::new(alloc);
    let mut full = 0u64;
    for _ in 0..count {
        insert(alloc, &mut table, 7)?;
        if table.count() >= size {
            table = TableRows::new(alloc);
            full = full.saturating_add(1);
        }
    }
    Ok(full)
}

/// Gets rows by numbers in no order, and returns how many were there.
fn gets(alloc: Global, count: u64, size: u64) -> Result<u64, NoMemory> {
    let table = filled(alloc, size)?;
    let mut random = Random::new();
    let mut found = 0u64;
    for _ in 0..count {
        if table.get(random.below(table.next())).is_some() {
            found = found.saturating_add(1);
        }
    }
    Ok(found)
}

/// Replaces rows by numbers in no order, and returns how many were there.
fn replaces(alloc: Global, count: u64, size: u64) -> Result<u64, NoMemory> {
    let mut table = filled(alloc, size)?;
    let mut random = Random::new();
    let mut found = 0u64;
    for _ in 0..count {
        let row = one_item(alloc, Value::Int(8))?;
        if fits_row(row.as_slice()) && table.replace(random.below(table.next()), row).is_ok() {
            found = found.saturating_add(1);
        }
    }
    Ok(found)
}

/// Removes a row in no order and inserts one, so often, and returns the last number.
fn turns(alloc: Global, count: u64, size: u64) -> Result<u64, NoMemory> {
    let mut table = filled(alloc, size)?;
    let mut random = Random::new();
    let mut numbers: Vec<u64> = (0..table.next()).collect(alloc)?;
    let mut last = 0;
    for _ in 0..count {
        let at = random.below(numbers.len() as u64) as usize;
        if let Some(number) = numbers.get_mut(at) {
            table.remove(*number);
            last = insert(alloc, &mut table, 7)?;
            *number = last;
        }
    }
    Ok(last)
}

/// Makes calls, and returns a number that depends on their answers, if there are such calls.
pub fn make(alloc: Global, call: &str, count: u64, size: u64) -> Option<Result<u64, NoMemory>> {
    match call {
        "insert" => Some(inserts(alloc, count, size)),
        "fill" => Some(fill(alloc, size)),
        "get" => Some(gets(alloc, count, size)),
        "replace" => Some(replaces(alloc, count, size)),
        "turn" => Some(turns(alloc, count, size)),
        _ => None,
    }
}
