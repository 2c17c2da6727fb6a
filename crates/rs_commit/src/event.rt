//! The events of the commit of one transaction, and what its parts decide.

use sqlite_items::Items;

/// An event of the commit of one transaction; parts count from 0. `Prepare`, `Commit` and `Abort` reach a part, `Vote`
/// and `Ack` the master. `Inquire` is a part's question and its answer. `Decide` and `GiveUp` are the master's, and a stop
/// is that of a part's or of the master's site.
#[derive(Clone, Copy)]
pub enum CommitEvent {
    Prepare(u8),
    Vote(u8),
    Decide,
    GiveUp,
    Commit(u8),
    Abort(u8),
    Ack(u8),
    Inquire(u8),
    StopPart(u8),
    StopMaster,
}

/// What a part decides.
#[derive(Clone, Copy)]
pub enum Decision {
    Commit,
    Abort,
}

/// What each part decided, if it did.
pub type Decisions = Items<Option<Decision>>;

/// What the parts decided after a list of events.
#[derive(Drop)]
pub struct Outcome {
    pub decided: Decisions,
}

/// How the master settles a transaction: it decides to commit, gives up, or its site stops before either.
#[derive(Clone, Copy)]
pub(crate) enum Settlement {
    Decided,
    GivenUp,
    Stopped,
}
