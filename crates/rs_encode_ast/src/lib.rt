//! Codecs of statements, catalog entries, and bound predicates and assignments.
#![tactic(auto)]

mod bound;
mod clause;
mod entry;
mod query;
mod statement;

pub use bound::{BoundCmpCodec, BoundSetCodec, BoundSideCodec, BoundTermCodec};
pub use clause::{ClauseCodec, CmpCodec, ColRefCodec, OpCodec, OperandCodec};
pub use entry::{ColDefCodec, ColumnCodec, EntryCodec, IndexOfCodec};
pub use query::{ItemCodec, KeyByCodec, KeyCodec, SelectCodec, TableRefCodec};
pub use statement::{ArithCodec, DmlCodec, ExprCodec, SetCodec, TermCodec};
