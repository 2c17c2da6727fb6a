//! Catalog entries: what a planner knows of a table.

use rs_base::{Ident, Kind, SiteNo, Swn, Txn};
use sqlite_items::Items;

/// A column of a table, with the number of its distinct values.
#[derive(Clone, Copy)]
pub struct Column {
    pub name: Ident,
    pub kind: Kind,
    pub distinct: u64,
}

/// The columns of a table.
pub type Columns = Items<Column>;

/// An index: its name, the column index of its column in the table, and the transaction that created it.
#[derive(Clone, Copy)]
pub struct IndexOf {
    pub name: Ident,
    pub column: u8,
    pub made: Txn,
}

/// The indexes of a table.
pub type IndexOfs = Items<IndexOf>;

/// A table: its name, the transaction that created it, the site that stores it (`place`), its columns and indexes, and
/// the number of its rows.
#[derive(Drop)]
pub struct Entry {
    pub name: Swn,
    pub made: Txn,
    pub place: SiteNo,
    pub columns: Columns,
    pub indexes: IndexOfs,
    pub count: u64,
}
