//! The rows of a table one after the other.

ghost use Rattle.std.specs.Prelude.{◌≡◌, length};
ghost use Rattle.std.specs.Iterator.{at_most};
ghost use Rattle.std.specs.Map.Iter.{TakesFirst};
ghost use Rattle.rs_rows.specs.RowIter.{shown};
ghost use Rattle.rs_rows.specs.Slots.{rows_in};

use crate::slot::Slot;
use rs_base::Row;
use std::marker::Model;

/// The numbers and rows of a table that are left, in order of insertion.
#[derive(Drop)]
pub struct RowIter<'a> {
    slots: &'a [Slot],
}

impl<'a> Model for RowIter<'a> {
    ghost use Rattle.rs_rows.specs.TableRows.{RowsByNumber};
    ghost use Rattle.rs_rows.specs.Slots.{rows_in};

    ghost Value = { RowsByNumber };

    ghost view = { λ it. rows_in it.slots.now };
}

impl<'a> RowIter<'a> {
    pub(crate) fn new(slots: &'a [Slot]) -> RowIter<'a>
        ensures { result ≡ rows_in slots.now }
    {
        RowIter { slots }
    }
}

impl<'a> Iterator for RowIter<'a> {
    type Item = (u64, &'a Row);

    ghost next_gives = { TakesFirst shown };

    ghost remaining = { λ rows. at_most (length rows) };

    /// Returns the next number and row; it passes over the empty slots before them.
    fn next(&mut self) -> Option<(u64, &'a Row)> {
        while let Some((slot, rest)) = self.slots.split_first() {
            self.slots = rest;
            if let Some(row) = &slot.row {
                return Some((slot.number, row));
            }
        }
        None
    }
}
