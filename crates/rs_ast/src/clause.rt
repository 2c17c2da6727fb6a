//! The predicate of WHERE: a conjunction of clauses, each a disjunction of comparisons.

use crate::column::ColRef;
use rs_base::{Ident, Value};
use sqlite_items::Items;

/// A comparison operator.
#[derive(Clone, Copy)]
pub enum Op {
    Eq,
    Ne,
    Lt,
    Le,
    Gt,
    Ge,
}

/// The right operand of a comparison: a column, a constant, or a parameter.
#[derive(Drop)]
pub enum Operand {
    Col(ColRef),
    Lit(Value),
    Param(Ident),
}

/// A comparison of a column with an operand.
#[derive(Drop)]
pub struct Cmp {
    pub left: ColRef,
    pub op: Op,
    pub right: Operand,
}

/// The comparisons of a clause.
pub type Cmps = Items<Cmp>;

/// A disjunction of comparisons.
#[derive(Drop)]
pub struct Clause {
    pub any: Cmps,
}

/// A predicate: a conjunction of clauses. Without clauses each row satisfies it.
pub type Clauses = Items<Clause>;
