//! Schedules: the events of a simulated network of sites, as lines of text.
#![tactic(auto)]

mod event;
mod event_lines;
mod event_reader;
mod fault;
mod fields;
mod hex;
pub mod laws;
mod line_reader;
mod lines;
mod number;
mod print;
mod reader;
mod word;

pub use event::{Event, Events};
pub use event_lines::EventLines;
pub use fault::{SchedFault, Why};
pub use print::print_event;
pub use reader::{MOST_BYTES, parse_schedule};
