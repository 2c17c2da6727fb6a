//! Values and rows, as lines write them.

use rs_base::{NoMemory, Row, Rows, Txt, TxtFault, Value};
use std::alloc::Global;

/// Reads an integer, or a text. A word that is neither is 0.
pub fn read_value(alloc: Global, word: &str) -> Result<Value, NoMemory> {
    if let Ok(n) = word.parse() {
        return Ok(Value::Int(n));
    }
    match Txt::new(alloc, word.as_bytes()) {
        Ok(text) => Ok(Value::Text(text)),
        Err(TxtFault::Bad) => Ok(Value::Int(0)),
        Err(TxtFault::NoMemory) => Err(NoMemory),
    }
}

/// Reads the values of a row, separated by `,`. An empty line is the empty row.
pub fn read_row(alloc: Global, line: &str) -> Result<Row, NoMemory> {
    let mut row = Row::new(alloc);
    if line.is_empty() {
        return Ok(row);
    }
    for word in line.split(',') {
        row.push(read_value(alloc, word)?)?;
    }
    Ok(row)
}

/// Reads rows, separated by `;`.
pub fn read_rows(alloc: Global, lines: &str) -> Result<Rows, NoMemory> {
    let mut rows = Rows::new(alloc);
    for line in lines.split(';') {
        rows.push(read_row(alloc, line)?)?;
    }
    Ok(rows)
}
