//! The meaning of calls: the reply and the changes of each call, as definitions alone, which other crates cite.
#![tactic(auto)]
