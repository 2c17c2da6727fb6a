//! The commit of one transaction by presumed abort: what its coordinator counts, the state of each part, and what the
//! parts decide over a list of events.
#![tactic(auto)]

mod coordinator;
mod event;
mod laws;
mod part;
mod parts;
mod play;
mod subordinate;

pub use coordinator::{Acked, Coordinator, PartState, Voted};
pub use event::{CommitEvent, Decision, Decisions, Outcome};
pub use laws::{commit_needs_each_vote, coordinator_counts, decision_stays, no_two_differ};
pub use play::agree;
pub use subordinate::{Abo, Com, Prep, Subordinate};
