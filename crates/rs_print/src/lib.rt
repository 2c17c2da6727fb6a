//! The printed text of rows, requests and replies.
#![tactic(auto)]

pub mod append;
mod print;

pub use print::{print_origin, print_reply, print_row, print_txn};
