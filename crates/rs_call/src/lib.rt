//! Numbered calls between two sites: a caller that numbers them, and a callee that runs each once, in order, and keeps the
//! reply of the last.
#![tactic(auto)]

mod body;
mod callee;
mod caller;
mod laws;

pub use body::{Body, Step};
pub use callee::{Callee, Took};
pub use caller::{Caller, Heard};
pub use laws::{answered_once, numbers_count_up, repeat_gets_kept_reply, runs_each_once_in_order};
