//! Statements whose names are bound to columns.

use rs_ast::{BoundClauses, BoundRows, BoundSets, Idents, Places, Shape};
use rs_base::Swn;
use sqlite_items::Items;

/// Names of tables.
pub type Swns = Items<Swn>;

/// A statement on the rows of tables, its columns bound to column indexes. A query has, for each of its tables in order,
/// its name, its alias, and its number of columns.
#[derive(Drop)]
pub enum Bound {
    Select {
        names: Swns,
        aliases: Idents,
        widths: Places,
        clauses: BoundClauses,
        shape: Shape,
    },
    Insert {
        name: Swn,
        rows: BoundRows,
    },
    Update {
        name: Swn,
        sets: BoundSets,
        clauses: BoundClauses,
    },
    Delete {
        name: Swn,
        clauses: BoundClauses,
    },
}
