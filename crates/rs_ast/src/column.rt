//! Columns: in the definition of a table, and as a statement refers to them.

use rs_base::{Ident, Kind};
use sqlite_items::Items;

/// A column definition.
#[derive(Clone, Copy)]
pub struct ColDef {
    pub name: Ident,
    pub kind: Kind,
}

/// The column definitions of a table.
pub type ColDefs = Items<ColDef>;

/// A reference to a column: `column`, or `table.column`, where `table` is a table's alias if it has one.
#[derive(Clone, Copy)]
pub struct ColRef {
    pub table: Option<Ident>,
    pub column: Ident,
}

/// A list of references to columns.
pub type ColRefs = Items<ColRef>;
