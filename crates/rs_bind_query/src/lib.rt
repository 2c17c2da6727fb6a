//! Binding of queries: names become column indexes, or the query is denied.
#![tactic(auto)]

mod grouping;
mod item_keys;
mod queries;
mod select_denials;
mod shape;

pub use queries::bind_select;
