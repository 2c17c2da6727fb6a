//! The locks of a site: one writer or any number of readers, granted in the order of a queue.
#![tactic(auto)]

mod answer;
mod claim;
mod laws;
mod lock;
mod locks;
mod order;
mod part;
mod table;
mod verdict;
mod wait;

pub use answer::{Asked, Ended, Enlists};
pub use laws::{
    asked_for, blocked_by_holder, counted_is_queued, grants_while_it_can, held_once, holders_stay,
    leaves_nothing, names_holder, one_writer_or_readers, queued_is_counted, queued_once,
    reached_more, upgrades_first, waiting_agrees, waits_end, waits_for_holder, waits_once,
};
pub use locks::Locks;
