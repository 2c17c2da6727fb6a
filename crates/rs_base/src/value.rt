//! Values, their kinds, and rows.

ghost use Rattle.std.specs.Prelude.{◌≡◌, IfOk, take};
ghost use Rattle.rs_base.specs.Value as spec;

use crate::fault::NoMemory;
use crate::room::with_room;
use crate::txt::Txt;
use sqlite_items::Items;
use std::alloc::Global;

/// A value. Each integer is below each text; integers are ordered by value, texts by their bytes. It takes two machine words.
#[derive(PartialEq, Eq, PartialOrd, Ord, Drop)]
pub enum Value {
    Int(i64),
    Text(Txt),
}

const _: () = prove!(size_of::<Value>() == 16);

/// The type of a column.
#[derive(Clone, Copy)]
pub enum Kind {
    Int,
    Text,
}

/// The values of one row, one for each column.
pub type Row = Items<Value>;

pub type Rows = Items<Row>;

/// Rows, each with its row number.
pub type NumberedRows = Items<(u64, Row)>;

impl Value {
    pub fn kind(&self) -> Kind
        ensures { result ≡ spec.kind_of self.now }
    {
        match self {
            Value::Int(_) => Kind::Int,
            Value::Text(_) => Kind::Text,
        }
    }

    pub fn copy(&self, alloc: Global) -> Result<Value, NoMemory>
        ensures { IfOk result (λ value. value ≡ self.now) }
    {
        match self {
            Value::Int(n) => Ok(Value::Int(*n)),
            Value::Text(text) => Ok(Value::Text(text.copy(alloc)?)),
        }
    }
}

/// Copies a row.
pub fn copy_row(alloc: Global, row: &[Value]) -> Result<Row, NoMemory>
    ensures { IfOk result (λ copy. copy ≡ row.now) }
{
    let mut copy = with_room(alloc, row.len())?;
    for value in row {
        copy.push(value.copy(alloc)?)?;
    }
    Ok(copy)
}
