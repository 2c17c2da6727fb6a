//! Compiled programs, as their site stores them.

use crate::plan::Plan;
use rs_ast::{ColDefs, Dml, Idents};
use rs_base::{Swn, Txn};
use sqlite_items::Items;

/// What a site stores of a whole program: its generation, which counts its compilations, the transaction that compiled
/// it, its parameters, and the number of its statements.
#[derive(Drop)]
pub struct Head {
    pub generation: u64,
    pub made: Txn,
    pub params: Idents,
    pub statements: u8,
}

/// A table of a program's statement, with the columns that it had when the program was compiled.
#[derive(Drop)]
pub struct BodyTable {
    pub name: Swn,
    pub columns: ColDefs,
}

/// The tables of a statement, in text order.
pub type BodyTables = Items<BodyTable>;

/// A statement of a program: its names are resolved. With its tables, and its plan; the plan of a change of rows is one
/// scan at the table's site, of cost 0.
#[derive(Drop)]
pub struct Body {
    pub statement: Dml,
    pub tables: BodyTables,
    pub plan: Plan,
}
