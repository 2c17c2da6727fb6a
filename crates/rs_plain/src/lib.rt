//! The plain evaluator of statements on rows, over given tables.
#![tactic(auto)]

mod plain;

pub use plain::{PlainTable, PlainTables, answer_plain};
