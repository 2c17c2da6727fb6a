//! The replies to calls.

use crate::program::{Body, Head};
use rs_ast::Entry;
use rs_base::{Denial, Enlist, Resource, Rows, SiteNo, Swn};

/// A reply to a call.
#[derive(Drop)]
pub enum CallReply {
    /// The name that a synonym stands for, if there is one.
    Name(Option<Swn>),
    Done,
    /// A synonym or an index of this name is there.
    Taken,
    /// A synonym, an index or a statement of this name isn't there.
    Absent,
    /// The site that stores the table, if it is there.
    Place(Option<SiteNo>),
    Entry(Entry),
    /// The site doesn't store the table.
    NotHere,
    /// Rows, and whether any are left after them.
    Rows { rows: Rows, more: bool },
    /// The number of rows that were inserted, deleted or updated.
    Changed(u64),
    /// The cause for which a section is denied.
    Refused(Denial),
    /// The table was created anew, or the call doesn't fit it, or the section isn't stored.
    Stale,
    /// The stored section depends on something that was dropped.
    Invalid,
    /// The head of a program, if it is there.
    Head(Option<Head>),
    Body(Body),
    /// The call waited too long for this lock, which that enlistment holds.
    Waited(Resource, Enlist),
}
