//! Laws of the sizes of encodings: a statement is encoded in at most two bytes for each byte of its text, and 512 more.
#![tactic(auto)]

mod laws;

pub use laws::{programs_are_short, renamed_are_short, statements_are_short};
