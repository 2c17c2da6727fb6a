//! The engine that runs one section over the rows of one table.
#![tactic(auto)]

mod changes;
mod delete;
mod fit;
mod insert;
mod matching;
mod numbered_row;
mod page;
mod path;
mod predicate;
mod ran;
mod room;
mod run;
mod update;

pub use fit::fits;
pub use ran::Ran;
pub use run::run_section;
