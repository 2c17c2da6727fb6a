//! Rows in order of insertion, each found by its number.
#![tactic(auto, using(crate::proofs::SlotLaws::count_laws))]

ghost use Rattle.std.specs.Prelude.{◌≡◌, ◌<◌, ◌^◌, length, ok_or, option_copied, IfOk, IfNone, OnOk, OnErr};
ghost use Rattle.std.specs.List.Sorted.{IsStrictlySortedBy};
ghost use Rattle.std.specs.Ordering.{nat_cmp};
ghost use Rattle.rs_rows.specs.TableRows.{empty, inserted, removed, replaced, row_of, numbers};

use crate::row_iter::RowIter;
use crate::slot::{Slot, copy_live, row_at, swap_row, take_row};
use rs_base::{NoMemory, Row};
use std::alloc::Global;
use std::marker::Model;

/// Rows in slots, in order of insertion. A removed row leaves its slot empty; once more than a quarter of the slots are
/// empty they are dropped. `live` is the number of rows, and `next` the number of the next one.
#[derive(Drop)]
pub(crate) struct Slots {
    slots: Vec<Slot>,
    live: usize,
    next: u64,
}

impl Model for Slots {
    ghost use Rattle.rs_rows.specs.TableRows.{TableRows};

    ghost Value = { TableRows };

    ghost use Rattle.rs_rows.specs.Slots.{rows_in, AreCounted};

    ghost view = { λ it. record { rows = rows_in it.slots.items; next = it.next } };

    ghost invariant = { λ it. AreCounted it.slots.items it.live it.next };
}

impl Slots {
    pub(crate) fn new(alloc: Global) -> Slots
        ensures { result ≡ empty }
    {
        Slots {
            slots: Vec::new(alloc),
            live: 0,
            next: 0,
        }
    }

    /// Stores the row at the end, under the next number. On out of memory nothing changes. Amortized constant.
    pub(crate) fn push(&mut self, row: Row) -> Result<(), NoMemory>
        requires { self.old.next < 2 ^ 63 }
        ensures ok { OnOk result (self.new ≡ inserted row self.old) }
        ensures err { OnErr result (self.new ≡ self.old) }
        ensures rising { IsStrictlySortedBy nat_cmp (numbers self.new.rows) }
    {
        self.slots.push(Slot {
            number: self.next,
            row: Some(row),
        })?;
        self.next += 1;
        self.live += 1;
        Ok(())
    }

    /// Removes the row with this number and returns it, if there is one. Amortized logarithmic in the number of rows.
    pub(crate) fn take(&mut self, number: u64) -> Option<Row>
        ensures row { result ≡ row_of number self.old.rows }
        ensures rows { self.new ≡ removed number self.old }
        ensures none { IfNone result (self.new ≡ self.old) }
        ensures rising { IsStrictlySortedBy nat_cmp (numbers self.new.rows) }
    {
        let row = take_row(&mut self.slots, number)?;
        self.live -= 1;
        self.compact();
        Some(row)
    }

    /// Drops the empty slots if they are more than a quarter, and frees their memory.
    fn compact(&mut self)
        ensures { self.new ≡ self.old }
    {
        let empty = self.slots.len() - self.live;
        if empty > self.slots.len() / 4 {
            self.slots.retain(|slot| slot.row.is_some());
            self.slots.shrink_to_fit();
        }
    }

    /// Stores the row in place of the one with this number and returns that one; returns the given row if there is none.
    /// Logarithmic in the number of rows.
    pub(crate) fn swap(&mut self, number: u64, row: Row) -> Result<Row, Row>
        ensures row { result ≡ ok_or (row_of number self.old.rows) row }
        ensures rows { self.new ≡ replaced number row self.old }
        ensures err { OnErr result (self.new ≡ self.old) }
        ensures rising { IsStrictlySortedBy nat_cmp (numbers self.new.rows) }
    {
        swap_row(&mut self.slots, number, row)
    }

    /// Returns the row with this number, if there is one. Logarithmic in the number of rows.
    pub(crate) fn get(&self, number: u64) -> Option<&Row>
        ensures { option_copied result ≡ row_of number self.now.rows }
    {
        row_at(self.slots.as_slice(), number)
    }

    /// Returns the numbers and rows in order of insertion.
    pub(crate) fn iter(&self) -> RowIter<'_>
        ensures { result ≡ self.now.rows }
    {
        RowIter::new(self.slots.as_slice())
    }

    /// Returns the number of rows.
    pub(crate) fn len(&self) -> usize
        ensures { result ≡ length self.now.rows }
    {
        self.live
    }

    /// Returns the number of the next row.
    pub(crate) fn next(&self) -> u64
        ensures { result ≡ self.now.next }
    {
        self.next
    }

    /// Copies the rows with their numbers, and the next number.
    pub(crate) fn copy(&self, alloc: Global) -> Result<Slots, NoMemory>
        ensures { IfOk result (λ copy. copy ≡ self.now) }
    {
        Ok(Slots {
            slots: copy_live(alloc, self.slots.as_slice())?,
            live: self.live,
            next: self.next,
        })
    }
}
