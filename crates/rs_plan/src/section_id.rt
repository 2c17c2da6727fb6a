//! The ids of stored sections.

use rs_base::{Ident, SiteNo, Txn};

/// The id of a stored section: the site and user of its program, the program's name and generation, the transaction that
/// compiled it, and the statement and the part of the statement's plan, which count from 1.
#[derive(Clone, Copy)]
pub struct SectionId {
    pub owner: SiteNo,
    pub user: Ident,
    pub program: Ident,
    pub generation: u64,
    pub made: Txn,
    pub statement: u8,
    pub part: u8,
}
