//! The printing of statements, as tokens and as text.
#![tactic(auto)]

mod ending;
mod print;
mod unparse;

pub use print::print_stmt;
