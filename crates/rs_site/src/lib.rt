//! A site: a state, and one step over one input.
#![tactic(auto)]

mod accepting;
mod asking;
mod desk;
mod held;
mod laws;
mod outs;
mod repeating;
mod site;
mod step;
mod who;

pub use laws::{
    commits_are_meaning, decided_are_logged, kept_reply_is_repeated, next_is_accepted,
    no_section_runs, numbers_rise, repeats_run_nothing,
};
pub use rs_course::{Decided, Decideds, Input, Outs, RunOf, Runs};
pub use rs_session::{Told, Tolds};
pub use site::Site;
