//! Laws of the commit of one transaction. A law's claim is its contract, and its body does nothing.

ghost use Rattle.rs_commit.specs.Laws.{CommitNeedsEachVote, CoordinatorCounts, DecisionStays, NoTwoDiffer};

/// Proves that no two parts decide differently, over every list of events.
pub fn no_two_differ()
    ensures { NoTwoDiffer }
{}

/// Proves that a part decides to commit only after each part prepared and voted, and the master then decided.
pub fn commit_needs_each_vote()
    ensures { CommitNeedsEachVote }
{}

/// Proves that a decision stays.
pub fn decision_stays()
    ensures { DecisionStays }
{}

/// Proves that over every list of votes and acknowledgements a coordinator counts those of its parts, and no others.
pub fn coordinator_counts()
    ensures { CoordinatorCounts }
{}
