//! Borrowed rows with their numbers.

ghost use Rattle.std.specs.Prelude.{◌≡◌};

use rs_base::{Row, Value};
use std::marker::Model;

/// A stored row with its number. Seen as the two.
#[derive(Drop)]
pub(crate) struct NumberedRow<'t> {
    number: u64,
    row: &'t Row,
}

impl<'t> Model for NumberedRow<'t> {
    ghost use Rattle.rs_exec.specs.RowEntry.{RowEntry};

    ghost Value = { RowEntry };

    ghost view = { λ it. (it.number, it.row.now) };
}

impl<'t> NumberedRow<'t> {
    pub(crate) fn new(number: u64, row: &'t Row) -> NumberedRow<'t>
        ensures { result ≡ (number, row.now) }
    {
        NumberedRow { number, row }
    }

    pub(crate) fn number(&self) -> u64
        ensures { result ≡ self.now.0 }
    {
        self.number
    }

    pub(crate) fn values(&self) -> &'t [Value]
        ensures { result.now ≡ self.now.1 }
    {
        self.row.as_slice()
    }
}
