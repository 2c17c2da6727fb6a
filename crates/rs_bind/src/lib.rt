//! Binding of statements over catalog entries, and when what is bound is over them.
#![tactic(auto)]

mod definitions;
mod laws;
mod statements;

pub use definitions::column_defs;
pub use laws::{bound_is_over, places_are_named};
pub use statements::bind;
