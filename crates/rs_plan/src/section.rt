//! Sections: the parts of a statement's plan, each over the rows of one table.

ghost use Rattle.std.specs.Prelude.{◌≡◌};
ghost use Rattle.std.specs.List.{list_any};
ghost use Rattle.rs_plan.specs.Section as spec;

use rs_ast::{BoundClause, BoundClauses, BoundCmp, BoundRows, BoundSets, BoundSide, Op, Places};
use rs_base::{Swn, Txn};

/// A section. Its columns are column indexes of its table. A scan and a fetch give the values of `columns` of the rows
/// that satisfy the predicate; a fetch, of those whose value in the column `by` is a given one.
#[derive(Drop)]
pub enum SectionKind {
    Scan {
        clauses: BoundClauses,
        columns: Places,
    },
    Fetch {
        clauses: BoundClauses,
        columns: Places,
        by: u8,
    },
    Insert {
        rows: BoundRows,
    },
    Delete {
        clauses: BoundClauses,
    },
    Update {
        sets: BoundSets,
        clauses: BoundClauses,
    },
}

/// A section over the table of this name that this transaction created.
#[derive(Drop)]
pub struct Section {
    pub name: Swn,
    pub made: Txn,
    pub kind: SectionKind,
}

/// Returns whether the operand is a value or a parameter.
fn is_given(side: &BoundSide) -> bool
    ensures { result ≡ spec.is_given side.now }
{
    match side {
        BoundSide::Place(_) => false,
        BoundSide::Lit(_) | BoundSide::Param(_) => true,
    }
}

fn is_equality(op: Op) -> bool
    ensures { result ≡ spec.is_equality op }
{
    match op {
        Op::Eq => true,
        Op::Ne | Op::Lt | Op::Le | Op::Gt | Op::Ge => false,
    }
}

fn is_range(op: Op) -> bool
    ensures { result ≡ spec.is_range op }
{
    match op {
        Op::Lt | Op::Le | Op::Gt | Op::Ge => true,
        Op::Eq | Op::Ne => false,
    }
}

/// Returns whether the clause is one comparison, an equality of this column with a value or a parameter.
fn equates(clause: &[BoundCmp], column: u8) -> bool
    ensures { result ≡ spec.compares spec.is_equality column clause.now }
{
    match clause {
        [cmp] => cmp.left == u16::from(column) && is_given(&cmp.right) && is_equality(cmp.op),
        _ => false,
    }
}

/// Returns whether the clause is one comparison, a range of this column with a value or a parameter.
fn bounds(clause: &[BoundCmp], column: u8) -> bool
    ensures { result ≡ spec.compares spec.is_range column clause.now }
{
    match clause {
        [cmp] => cmp.left == u16::from(column) && is_given(&cmp.right) && is_range(cmp.op),
        _ => false,
    }
}

impl SectionKind {
    /// Returns the predicate; an insert has no clause.
    pub fn clauses(&self) -> &[BoundClause]
        ensures { result.now ≡ spec.clauses_of self.now }
    {
        match self {
            SectionKind::Scan { clauses, .. }
            | SectionKind::Fetch { clauses, .. }
            | SectionKind::Delete { clauses }
            | SectionKind::Update { clauses, .. } => clauses.as_slice(),
            SectionKind::Insert { .. } => &[],
        }
    }

    fn is_fetched_by(&self, column: u8) -> bool
        ensures { result ≡ spec.is_fetched_by self.now column }
    {
        match self {
            SectionKind::Fetch { by, .. } => *by == column,
            _ => false,
        }
    }

    fn is_equated(&self, column: u8) -> bool
        ensures { result ≡ list_any (spec.compares spec.is_equality column) (spec.clauses_of self.now) }
    {
        self.clauses()
            .iter()
            .any(|clause| equates(clause.as_slice(), column))
    }

    /// Returns whether a clause is an equality of the column with a value or a parameter, or the section is a fetch by
    /// the column.
    pub fn has_equality(&self, column: u8) -> bool
        ensures { result ≡ spec.has_equality self.now column }
    {
        self.is_fetched_by(column) || self.is_equated(column)
    }

    /// Returns whether a clause is a range of the column with a value or a parameter.
    pub fn has_range(&self, column: u8) -> bool
        ensures { result ≡ spec.has_range self.now column }
    {
        self.clauses()
            .iter()
            .any(|clause| bounds(clause.as_slice(), column))
    }
}
