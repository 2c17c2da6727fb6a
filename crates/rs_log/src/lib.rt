//! A log that survives a stop in any call of its disk: a list of stable items, and a tail that a force makes stable.
#![tactic(auto)]

mod batch;
mod gated;
mod laws;

pub use gated::GatedLog;
pub use laws::{forces_keep_items, openings_keep_items, what_is_written_is_read};
