//! The syntax tree of statements.

use crate::change::{Sets, TermRows};
use crate::clause::Clauses;
use crate::column::ColDefs;
use crate::select::Select;
use rs_base::{Ident, NameText, Row, SiteNo};
use sqlite_items::Items;

/// A statement on the rows of tables.
#[derive(Drop)]
pub enum Dml {
    Select(Select),
    Insert {
        name: NameText,
        rows: TermRows,
    },
    Update {
        name: NameText,
        sets: Sets,
        clauses: Clauses,
    },
    Delete {
        name: NameText,
        clauses: Clauses,
    },
}

/// The statements of a program.
pub type Dmls = Items<Dml>;

/// A list of identifiers.
pub type Idents = Items<Ident>;

/// A statement.
#[derive(Drop)]
pub enum Stmt {
    CreateTable {
        name: NameText,
        columns: ColDefs,
    },
    DropTable {
        name: NameText,
    },
    CreateIndex {
        index: Ident,
        name: NameText,
        column: Ident,
    },
    DropIndex {
        index: Ident,
        name: NameText,
    },
    CreateSynonym {
        synonym: Ident,
        name: NameText,
    },
    DropSynonym {
        synonym: Ident,
    },
    Migrate {
        name: NameText,
        to: SiteNo,
    },
    Compile {
        program: Ident,
        params: Idents,
        body: Dmls,
    },
    DropProgram {
        program: Ident,
    },
    Execute {
        program: Ident,
        values: Row,
    },
    Explain(Select),
    ShowSections,
    ShowCache,
    Dml(Dml),
}
