//! The meaning of statements over one database.
#![tactic(auto)]

mod bound_effect;
mod change;
mod columns;
mod database;
mod execute;
mod executed;
mod execution;
mod indexes;
mod naming;
mod row_statements;
mod synonym;
mod synonyms;
mod table;
mod tables;

pub use change::{Change, Effect};
pub use database::Database;
pub use executed::is_executed;
pub use execution::Execution;
pub use rs_answer::answer_rows;
pub use rs_eval::{fill, holds, set_row};
pub use synonym::Synonym;
pub use table::Table;
