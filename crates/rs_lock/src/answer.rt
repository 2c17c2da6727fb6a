//! What the calls answer.

use rs_base::{Enlist, Resource};
use sqlite_items::Items;

/// The answer to an ask.
#[derive(Clone, Copy)]
pub enum Asked {
    /// The enlistment holds the lock.
    Granted,
    /// The enlistment waits; the first holder other than it.
    Waiting(Enlist),
}

/// A wait that ended without the lock: the enlistment, the resource, and its first holder other than the enlistment.
#[derive(Clone, Copy)]
pub struct Ended {
    pub who: Enlist,
    pub what: Resource,
    pub holder: Enlist,
}

/// Enlistments, in the order in which they were granted a lock.
pub type Enlists = Items<Enlist>;
