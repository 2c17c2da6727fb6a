//! Plans of statements.

use rs_base::SiteNo;
use sqlite_items::Items;

/// How a part reaches its rows: by a scan, or by a fetch of those whose `column` has a value that `from_column` of an
/// earlier table has, as this clause says. Tables, columns and clauses count from 0.
#[derive(Clone, Copy)]
pub enum PartKind {
    Scan,
    Fetch {
        column: u8,
        from_table: u8,
        from_column: u8,
        clause: u16,
    },
}

/// A part of a plan: a table of the statement, counted from 0, and the site that stores it.
#[derive(Clone, Copy)]
pub struct Part {
    pub table: u8,
    pub place: SiteNo,
    pub kind: PartKind,
}

/// The parts of a plan, in the order in which they are executed.
pub type Parts = Items<Part>;

/// A plan, and its estimated cost.
#[derive(Drop)]
pub struct Plan {
    pub parts: Parts,
    pub cost: u64,
}
