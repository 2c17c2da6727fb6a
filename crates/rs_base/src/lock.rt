//! Locks.

use crate::ident::Ident;
use crate::name::Swn;
use sqlite_items::Items;

/// What is locked: a table at the site that stores it, the entry of a name at its birth site, a user's program, or all
/// synonyms of a user.
#[derive(Clone, Copy, PartialEq, Eq, PartialOrd, Ord)]
pub enum Resource {
    Table(Swn),
    Birth(Swn),
    /// A user, and the name of the program.
    Program(Ident, Ident),
    Synonyms(Ident),
}

/// The mode of a lock: shared for reading, or exclusive for writing.
#[derive(Clone, Copy, PartialEq, Eq, PartialOrd, Ord)]
pub enum Mode {
    Read,
    Write,
}

/// Locks held, each with its mode.
pub type HeldLocks = Items<(Resource, Mode)>;
