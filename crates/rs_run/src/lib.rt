//! The program's work: from its words, its source and its sink to its status.
#![tactic(auto)]

mod laws;
mod replay;
pub mod run;
mod source;
