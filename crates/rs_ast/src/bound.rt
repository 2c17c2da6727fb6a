//! Bound predicates, rows and assignments: columns are column indexes, and parameters are positions.
//!
//! A column index counts the columns of a statement's tables in order, from 0; a parameter's position counts from 0.

use crate::change::Arith;
use crate::clause::Op;
use rs_base::Value;
use sqlite_items::Items;

/// The right operand of a comparison: the value at a column index, a constant, or a parameter.
#[derive(Drop)]
pub enum BoundSide {
    Place(u16),
    Lit(Value),
    Param(u8),
}

/// A comparison of the value at the column index `left` with an operand.
#[derive(Drop)]
pub struct BoundCmp {
    pub left: u16,
    pub op: Op,
    pub right: BoundSide,
}

/// A disjunction of comparisons.
pub type BoundClause = Items<BoundCmp>;

/// A predicate: a conjunction of clauses.
pub type BoundClauses = Items<BoundClause>;

/// A term: the value at a column index, a constant, or a parameter.
#[derive(Drop)]
pub enum BoundTerm {
    Place(u16),
    Lit(Value),
    Param(u8),
}

/// A row to be inserted.
pub type BoundRow = Items<BoundTerm>;

/// Rows to be inserted. None of their terms is a column index.
pub type BoundRows = Items<BoundRow>;

/// An assignment to a column of the table: a term, or two terms that are added, subtracted or multiplied.
#[derive(Drop)]
pub struct BoundSet {
    pub column: u8,
    pub first: BoundTerm,
    pub more: Option<(Arith, BoundTerm)>,
}

/// The assignments of an UPDATE.
pub type BoundSets = Items<BoundSet>;
