//! The tables of a statement, as names are bound to them.

use rs_ast::ColDefs;
use rs_base::Swn;
use sqlite_items::Items;

/// A table of a statement: its name, and its columns.
#[derive(Drop)]
pub struct Heading {
    pub name: Swn,
    pub columns: ColDefs,
}

pub type Headings = Items<Heading>;
