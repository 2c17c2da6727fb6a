//! Predicates with column indexes for names and positions for parameters.

ghost use Rattle.std.specs.Prelude.{◌≡◌, map, IfOk};
ghost use Rattle.rs_scope.specs.Predicates as spec;

use crate::columns::column_index_of;
use crate::params::param_index;
use crate::scope::{Param, ScopeColumn};
use rs_ast::{BoundClause, BoundClauses, BoundCmp, BoundSide, Clause, Cmp, Operand};
use rs_base::{NoMemory, with_room};
use std::alloc::Global;

fn bound_side(
    alloc: Global,
    scope: &[ScopeColumn],
    params: &[Param],
    operand: &Operand,
) -> Result<BoundSide, NoMemory>
    ensures { IfOk result (λ bound. bound ≡ spec.bound_side scope.now params.now operand.now) }
{
    match operand {
        Operand::Col(written) => Ok(BoundSide::Place(column_index_of(scope, written))),
        Operand::Lit(value) => Ok(BoundSide::Lit(value.copy(alloc)?)),
        Operand::Param(name) => Ok(BoundSide::Param(param_index(params, *name))),
    }
}

fn bound_cmp(
    alloc: Global,
    scope: &[ScopeColumn],
    params: &[Param],
    cmp: &Cmp,
) -> Result<BoundCmp, NoMemory>
    ensures { IfOk result (λ bound. bound ≡ spec.bound_cmp scope.now params.now cmp.now) }
{
    Ok(BoundCmp {
        left: column_index_of(scope, &cmp.left),
        op: cmp.op,
        right: bound_side(alloc, scope, params, &cmp.right)?,
    })
}

fn bound_cmps(
    alloc: Global,
    scope: &[ScopeColumn],
    params: &[Param],
    cmps: &[Cmp],
) -> Result<BoundClause, NoMemory>
    ensures { IfOk result (λ bound. bound ≡ map (spec.bound_cmp scope.now params.now) cmps.now) }
{
    let mut bound = with_room(alloc, cmps.len())?;
    for cmp in cmps {
        bound.push(bound_cmp(alloc, scope, params, cmp)?)?;
    }
    Ok(bound)
}

fn bound_clause(
    alloc: Global,
    scope: &[ScopeColumn],
    params: &[Param],
    clause: &Clause,
) -> Result<BoundClause, NoMemory>
    ensures { IfOk result (λ bound. bound ≡ map (spec.bound_cmp scope.now params.now) clause.now.any) }
{
    bound_cmps(alloc, scope, params, clause.any.as_slice())
}

pub fn bound_clauses(
    alloc: Global,
    scope: &[ScopeColumn],
    params: &[Param],
    clauses: &[Clause],
) -> Result<BoundClauses, NoMemory>
    ensures { IfOk result (λ bound. bound ≡ spec.bound_clauses scope.now params.now clauses.now) }
{
    let mut bound = with_room(alloc, clauses.len())?;
    for clause in clauses {
        bound.push(bound_clause(alloc, scope, params, clause)?)?;
    }
    Ok(bound)
}
