//! The syntax tree of statements, and its bound form, whose columns are column indexes.
#![tactic(auto)]

mod bound;
mod change;
mod clause;
mod column;
mod entry;
mod limits;
mod select;
mod shape;
mod stmt;

pub use bound::{
    BoundClause, BoundClauses, BoundCmp, BoundRow, BoundRows, BoundSet, BoundSets, BoundSide,
    BoundTerm,
};
pub use change::{Arith, Expr, Set, Sets, Term, TermRow, TermRows};
pub use clause::{Clause, Clauses, Cmp, Cmps, Op, Operand};
pub use column::{ColDef, ColDefs, ColRef, ColRefs};
pub use entry::{Column, Columns, Entry, IndexOf, IndexOfs};
pub use select::{Item, Key, KeyBy, Keys, Select, SelectItems, TableRef, TableRefs};
pub use shape::{Places, Shape, ShapeItem, ShapeItems, ShapeKey, ShapeKeys};
pub use stmt::{Dml, Dmls, Idents, Stmt};
