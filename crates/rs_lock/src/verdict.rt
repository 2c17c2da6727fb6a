//! How an ask ends.

use rs_base::Enlist;

/// Whether an ask is granted.
#[derive(Clone, Copy)]
pub(crate) enum Verdict {
    /// The enlistment holds the resource in a mode that covers the one it asks for.
    Covered,
    /// The lock is granted.
    Free,
    /// The enlistment has to wait; the first holder other than it.
    Blocked(Enlist),
}
