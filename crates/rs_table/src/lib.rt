//! The rows of a table as a site stores them: by number, with indexes that are equal to them.
#![tactic(auto)]

mod indexed_rows;

pub use indexed_rows::IndexedRows;
