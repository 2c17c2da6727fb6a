//! Laws of texts: a text has one statement or one fault, and a printed statement is read again.
#![tactic(auto)]

mod laws;

pub use laws::{
    fault_once, printed_is_read, spelled_has_no_fault, spelled_keeps_limits, spelled_or_faulty,
    statement_once,
};
