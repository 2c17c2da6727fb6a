//! The calls by which the site of a transaction asks another one for its part.

use crate::program::{Body, Head};
use crate::section::Section;
use crate::section_id::SectionId;
use rs_ast::{ColDefs, IndexOfs};
use rs_base::{Ident, Mode, Row, Rows, SiteNo, Swn, Txn, Value};

/// A call. It takes one lock: of the synonyms of a user, the birth entry of a name, a table, or a program. `made` is the
/// transaction that created the table; columns count from 0, and the statements of a program from 1.
#[derive(Drop)]
pub enum Call {
    /// Asks for a synonym of a user.
    Synonym {
        user: Ident,
        name: Ident,
    },
    /// Sets a synonym of a user, or clears it.
    SetSynonym {
        user: Ident,
        name: Ident,
        to: Option<Swn>,
    },
    /// Asks a name's birth site for the site that stores the table.
    Locate {
        name: Swn,
        mode: Mode,
    },
    /// Sets the site that stores the table, or clears it.
    SetBirth {
        name: Swn,
        to: Option<SiteNo>,
    },
    /// Asks for the catalog entry of a table.
    Describe {
        name: Swn,
        mode: Mode,
    },
    /// Runs a section; a fetch with the value that it fetches by. The reply has the rows after the first `from`.
    Run {
        section: Section,
        values: Row,
        fetch: Option<Value>,
        from: u64,
    },
    /// Runs a stored section.
    RunStored {
        id: SectionId,
        name: Swn,
        mode: Mode,
        values: Row,
        fetch: Option<Value>,
        from: u64,
    },
    /// Creates a table.
    MakeTable {
        name: Swn,
        made: Txn,
        columns: ColDefs,
        indexes: IndexOfs,
    },
    /// Appends rows to a table.
    PutRows {
        name: Swn,
        rows: Rows,
    },
    /// Asks for the rows of a table, after the first `from`.
    Dump {
        name: Swn,
        from: u64,
    },
    /// Drops a table.
    DropTable {
        name: Swn,
    },
    /// Creates an index of a table.
    MakeIndex {
        name: Swn,
        made: Txn,
        index: Ident,
        column: u8,
    },
    /// Drops an index of a table.
    DropIndex {
        name: Swn,
        made: Txn,
        index: Ident,
    },
    /// Asks for the head of a program.
    Program {
        user: Ident,
        name: Ident,
        mode: Mode,
    },
    /// Asks for a statement of a program.
    Step {
        user: Ident,
        name: Ident,
        i: u8,
    },
    /// Stores the head of a program, or drops the program.
    SetProgram {
        user: Ident,
        name: Ident,
        head: Option<Head>,
    },
    /// Stores a statement of a program.
    SetStep {
        user: Ident,
        name: Ident,
        i: u8,
        body: Body,
    },
    /// Stores a section.
    KeepSection {
        id: SectionId,
        section: Section,
    },
}
