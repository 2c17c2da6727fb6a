//! A world of sites: the engine that plays the events of a schedule, and its report.
#![tactic(auto)]

mod action;
mod history;
mod print;
mod queue;
mod report;
mod sites;
mod stepping;
mod world;

pub use history::History;
pub use print::print_report;
pub use sites::Sites;
pub use world::World;
