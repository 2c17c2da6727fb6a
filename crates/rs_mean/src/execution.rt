//! One execution of a statement.

use rs_ast::Stmt;
use rs_base::{Ident, SiteNo, Txn};

/// A statement, the transaction that executes it, and the user who asked for it at a site.
#[derive(Drop)]
pub struct Execution {
    pub txn: Txn,
    pub user: Ident,
    pub site: SiteNo,
    pub stmt: Stmt,
}
