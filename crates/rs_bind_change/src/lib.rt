//! Binding of INSERT, UPDATE and DELETE: names become column indexes, or the statement is denied.
#![tactic(auto)]

mod change_denials;
mod changes;
mod terms;

pub use changes::{bind_delete, bind_insert, bind_update};
