//! The values of INSERT and the assignments of UPDATE.

use rs_base::{Ident, Value};
use sqlite_items::Items;

/// An arithmetic operator.
#[derive(Clone, Copy)]
pub enum Arith {
    Add,
    Sub,
    Mul,
}

/// A term: a column of the row, a constant, or a parameter.
#[derive(Drop)]
pub enum Term {
    Col(Ident),
    Lit(Value),
    Param(Ident),
}

/// A row of INSERT.
pub type TermRow = Items<Term>;

/// The rows of INSERT.
pub type TermRows = Items<TermRow>;

/// An expression: a term, or two terms that are added, subtracted or multiplied.
#[derive(Drop)]
pub struct Expr {
    pub first: Term,
    pub more: Option<(Arith, Term)>,
}

/// An assignment of an expression to a column.
#[derive(Drop)]
pub struct Set {
    pub column: Ident,
    pub expr: Expr,
}

/// The assignments of UPDATE.
pub type Sets = Items<Set>;
