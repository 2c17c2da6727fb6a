//! The slots that the rows of a table are stored in, by number.
#![tactic(auto, using(crate::proofs::SlotLaws::slot_laws))]

ghost use Rattle.std.specs.Prelude.{◌≡◌, filter, ok_or, option_copied, option_map, MatchOption, IfOk, OnErr};
ghost use Rattle.std.specs.List.Sorted.{IsStrictlySortedBy};
ghost use Rattle.std.specs.Ordering.{nat_cmp};
ghost use Rattle.rs_rows.specs.Slots.{slot_numbers, rows_in, is_live, Lacks, HasAt};
ghost use Rattle.rs_rows.specs.TableRows.{row_of, without, with_row};

use rs_base::{NoMemory, Row, copy_row};
use std::alloc::Global;
use std::mem;

/// A row number, and its row until it is removed.
#[derive(Drop)]
pub(crate) struct Slot {
    pub(crate) number: u64,
    pub(crate) row: Option<Row>,
}

const _: () = prove!(size_of::<Slot>() == 40);

/// Returns the position of the slot with this number; `None` exactly if no slot has it.
pub(crate) fn position(slots: &[Slot], number: u64) -> Option<usize>
    requires { IsStrictlySortedBy nat_cmp (slot_numbers slots.now) }
    ensures { MatchOption result (Lacks number slots.now) (HasAt number slots.now) }
{
    slots.binary_search_by_key(&number, |slot| slot.number).ok()
}

/// Returns the row with this number, if there is one.
pub(crate) fn row_at(slots: &[Slot], number: u64) -> Option<&Row>
    requires { IsStrictlySortedBy nat_cmp (slot_numbers slots.now) }
    ensures { option_copied result ≡ row_of number (rows_in slots.now) }
{
    let at = position(slots, number)?;
    slots[at].row.as_ref()
}

/// Takes the row with this number out of its slot, if there is one.
pub(crate) fn take_row(slots: &mut Vec<Slot>, number: u64) -> Option<Row>
    requires { IsStrictlySortedBy nat_cmp (slot_numbers slots.old.items) }
    ensures row { result ≡ row_of number (rows_in slots.old.items) }
    ensures rows { rows_in slots.new.items ≡ without number (rows_in slots.old.items) }
    ensures numbers { slot_numbers slots.new.items ≡ slot_numbers slots.old.items }
{
    let at = position(slots.as_slice(), number)?;
    slots[at].row.take()
}

/// Stores the row in place of the one with this number and returns that one; returns the given row if there is none.
pub(crate) fn swap_row(slots: &mut Vec<Slot>, number: u64, row: Row) -> Result<Row, Row>
    requires { IsStrictlySortedBy nat_cmp (slot_numbers slots.old.items) }
    ensures row { result ≡ ok_or (row_of number (rows_in slots.old.items)) row }
    ensures rows { rows_in slots.new.items ≡ with_row number row (rows_in slots.old.items) }
    ensures numbers { slot_numbers slots.new.items ≡ slot_numbers slots.old.items }
{
    match position(slots.as_slice(), number) {
        Some(at) => swap_at(&mut slots[at].row, row),
        None => Err(row),
    }
}

/// Stores the row in place of the stored one and returns that one; returns the given row if there is none.
fn swap_at(stored: &mut Option<Row>, row: Row) -> Result<Row, Row>
    ensures row { result ≡ ok_or stored.old row }
    ensures stored { stored.new ≡ option_map (λ _. row) stored.old }
{
    match stored {
        Some(stored) => Ok(mem::replace(stored, row)),
        None => Err(row),
    }
}

/// Copies the slots that have a row.
pub(crate) fn copy_live(alloc: Global, slots: &[Slot]) -> Result<Vec<Slot>, NoMemory>
    ensures { IfOk result (λ copy. copy.items ≡ filter is_live slots.now) }
{
    let mut copy = Vec::new(alloc);
    for slot in slots {
        if let Some(row) = &slot.row {
            let row = Some(copy_row(alloc, row.as_slice())?);
            copy.push(Slot {
                number: slot.number,
                row,
            })?;
        }
    }
    Ok(copy)
}
