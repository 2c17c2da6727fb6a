//! Laws of numbered calls. A law's claim is its contract, and its body does nothing.

ghost use Rattle.rs_call.specs.Laws.{AnsweredOnce, NumbersCountUp, RepeatGetsKeptReply, RunsEachOnceInOrder};

use crate::body::Body;

/// Proves that over every list of deliveries of what a caller sent, in any order, again or never, the calls that the body
/// ran are a prefix of those that were called, in order, each exactly once.
pub fn runs_each_once_in_order<B: Body>()
    ensures { RunsEachOnceInOrder B.runs }
{}

/// Proves that over every list of deliveries a repeated call gets the reply that it got first.
pub fn repeat_gets_kept_reply<B: Body>()
    ensures { RepeatGetsKeptReply B.runs }
{}

/// Proves that a caller numbers its calls 1, 2, 3 and so on.
pub fn numbers_count_up<B: Body>()
    ensures { NumbersCountUp B.Ask }
{}

/// Proves that a reply to a call is fresh at most once.
pub fn answered_once<B: Body>()
    ensures { AnsweredOnce B.Ask }
{}
