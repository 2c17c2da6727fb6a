//! Predicates with values for their parameters.

ghost use Rattle.std.specs.Prelude.{◌≡◌, map, IfOk};
ghost use Rattle.rs_eval.specs.Filling as spec;

use rs_ast::{BoundClause, BoundClauses, BoundCmp, BoundSide};
use rs_base::{NoMemory, Value, with_room};
use std::alloc::Global;

/// Returns the value of the parameter, or the parameter if it has none.
fn filled_param(alloc: Global, values: &[Value], param: u8) -> Result<BoundSide, NoMemory>
    ensures { IfOk result (λ side. side ≡ spec.filled_side values.now (BoundSide.Param param)) }
{
    match values.get(usize::from(param)) {
        Some(value) => Ok(BoundSide::Lit(value.copy(alloc)?)),
        None => Ok(BoundSide::Param(param)),
    }
}

fn filled_side(alloc: Global, values: &[Value], side: &BoundSide) -> Result<BoundSide, NoMemory>
    ensures { IfOk result (λ filled. filled ≡ spec.filled_side values.now side.now) }
{
    match side {
        BoundSide::Place(column_index) => Ok(BoundSide::Place(*column_index)),
        BoundSide::Lit(value) => Ok(BoundSide::Lit(value.copy(alloc)?)),
        BoundSide::Param(param) => filled_param(alloc, values, *param),
    }
}

fn filled_cmp(alloc: Global, values: &[Value], cmp: &BoundCmp) -> Result<BoundCmp, NoMemory>
    ensures { IfOk result (λ filled. filled ≡ spec.filled_cmp values.now cmp.now) }
{
    let right = filled_side(alloc, values, &cmp.right)?;
    Ok(BoundCmp {
        left: cmp.left,
        op: cmp.op,
        right,
    })
}

fn filled_clause(
    alloc: Global,
    values: &[Value],
    clause: &[BoundCmp],
) -> Result<BoundClause, NoMemory>
    ensures { IfOk result (λ filled. filled ≡ map (spec.filled_cmp values.now) clause.now) }
{
    let mut filled = with_room(alloc, clause.len())?;
    for cmp in clause {
        filled.push(filled_cmp(alloc, values, cmp)?)?;
    }
    Ok(filled)
}

/// Copies the predicate, each parameter replaced by its value. A parameter without a value stays. Fails on out of
/// memory.
pub fn fill(
    alloc: Global,
    clauses: &[BoundClause],
    values: &[Value],
) -> Result<BoundClauses, NoMemory>
    ensures { IfOk result (λ filled. filled ≡ spec.filled values.now clauses.now) }
{
    let mut filled = with_room(alloc, clauses.len())?;
    for clause in clauses {
        filled.push(filled_clause(alloc, values, clause.as_slice())?)?;
    }
    Ok(filled)
}
