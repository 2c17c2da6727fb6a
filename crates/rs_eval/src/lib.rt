//! Evaluation of bound predicates and assignments, and the changes of a table's rows.
#![tactic(auto)]

mod clauses;
mod filling;
mod integers;
mod row_changes;
mod setting;

pub use clauses::{allows, holds};
pub use filling::fill;
pub use integers::compute;
pub use row_changes::{inserted, matching_count, other_rows, updated};
pub use setting::{set_row, term_value};
