//! Laws of worlds: the report of a course explains its events, and answers each ask.
#![tactic(auto)]

mod laws;

pub use laws::{answered, explained, played_is_calm};
