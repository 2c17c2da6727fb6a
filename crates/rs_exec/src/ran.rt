//! What a section gives.

use rs_base::{Denial, Rows};
use rs_plan::Changes;

/// What a section gives: a page of rows, and whether any are left after it; or the changes of its table, and the number
/// of rows that they insert, delete or update; or the cause for which it is denied.
#[derive(Drop)]
pub enum Ran {
    Rows { rows: Rows, more: bool },
    Changes { changes: Changes, count: u64 },
    Denied(Denial),
}
