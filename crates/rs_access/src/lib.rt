//! Access paths: the row numbers that a section reaches, one after the other.
#![tactic(auto)]

mod access;
mod full_scan;
mod index_scan;
mod number_list;
mod value_list;

pub use access::Access;
pub use full_scan::FullScan;
pub use index_scan::IndexScan;
pub use value_list::ValueList;
