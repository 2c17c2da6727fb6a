//! Which rows satisfy a predicate.

ghost use Rattle.std.specs.Prelude.{◌≡◌, slice_get};
ghost use Rattle.std.specs.Option.{option_copied};
ghost use Rattle.rs_eval.specs.Clauses as spec;

use rs_ast::{BoundClause, BoundCmp, BoundSide, Op};
use rs_base::Value;
use std::cmp::Ordering;

/// Returns whether two values in this order satisfy the comparison.
pub fn allows(op: Op, order: Ordering) -> bool
    ensures { result ≡ spec.allows op order }
{
    match op {
        Op::Eq => order.is_eq(),
        Op::Ne => order.is_ne(),
        Op::Lt => order.is_lt(),
        Op::Le => order.is_le(),
        Op::Gt => order.is_gt(),
        Op::Ge => order.is_ge(),
    }
}

/// Returns the value at a column index, if the row has one.
fn value_at(row: &[Value], column_index: u16) -> Option<&Value>
    ensures { option_copied result ≡ slice_get row.now column_index }
{
    row.get(usize::from(column_index))
}

/// Returns the right operand's value, if there is one.
fn side_value<'a>(row: &'a [Value], side: &'a BoundSide) -> Option<&'a Value>
    ensures { option_copied result ≡ spec.side_value row.now side.now }
{
    match side {
        BoundSide::Place(column_index) => value_at(row, *column_index),
        BoundSide::Lit(value) => Some(value),
        BoundSide::Param(_) => None,
    }
}

fn cmp_holds(row: &[Value], cmp: &BoundCmp) -> bool
    ensures { result ≡ spec.cmp_holds row.now cmp.now }
{
    match (value_at(row, cmp.left), side_value(row, &cmp.right)) {
        (Some(left), Some(right)) => allows(cmp.op, left.cmp(right)),
        _ => false,
    }
}

fn clause_holds(row: &[Value], clause: &[BoundCmp]) -> bool
    ensures { result ≡ spec.clause_holds row.now clause.now }
{
    clause.iter().any(|cmp| cmp_holds(row, cmp))
}

/// Returns whether the row satisfies each clause. A comparison that lacks one of its values is false.
#[tactic(auto, unfolding(crate::specs::Clauses::holds))]
pub fn holds(clauses: &[BoundClause], row: &[Value]) -> bool
    ensures { result ≡ spec.holds clauses.now row.now }
{
    clauses
        .iter()
        .all(|clause| clause_holds(row, clause.as_slice()))
}
