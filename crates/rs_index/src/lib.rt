//! An index over one column of a table: the row numbers of each value, in order.
#![tactic(auto)]

mod bounds;
mod index;
mod index_iter;
mod int_numbers;
mod laws;
mod text_iter;
mod text_numbers;

pub use index::Index;
pub use index_iter::IndexIter;
pub use laws::{range_gives_each_once, range_gives_satisfying};
