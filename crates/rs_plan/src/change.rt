//! The changes of a site's database that calls make.

use crate::path::Path;
use crate::program::{Body, Head};
use crate::section::Section;
use crate::section_id::SectionId;
use rs_ast::{ColDefs, IndexOfs};
use rs_base::{Ident, NumberedRows, Rows, SiteNo, Swn, Txn};
use sqlite_items::Items;

/// A change of what a site stores. It has the fields of its call; rows are removed and replaced by their numbers.
#[derive(Drop)]
pub enum Change {
    Synonym {
        user: Ident,
        name: Ident,
        to: Option<Swn>,
    },
    Birth {
        name: Swn,
        to: Option<SiteNo>,
    },
    Head {
        user: Ident,
        name: Ident,
        head: Option<Head>,
    },
    Body {
        user: Ident,
        name: Ident,
        i: u8,
        body: Body,
    },
    Keep {
        id: SectionId,
        section: Section,
        path: Path,
    },
    MakeTable {
        name: Swn,
        made: Txn,
        columns: ColDefs,
        indexes: IndexOfs,
    },
    PutRows {
        name: Swn,
        rows: Rows,
    },
    Remove {
        name: Swn,
        numbers: Items<u64>,
    },
    Replace {
        name: Swn,
        rows: NumberedRows,
    },
    DropTable {
        name: Swn,
    },
    /// With `index_made`, the transaction that creates the index.
    MakeIndex {
        name: Swn,
        made: Txn,
        index: Ident,
        column: u8,
        index_made: Txn,
    },
    DropIndex {
        name: Swn,
        made: Txn,
        index: Ident,
    },
}

/// Changes, in the order in which they are made.
pub type Changes = Items<Change>;
