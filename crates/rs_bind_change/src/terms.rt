//! Rows and assignments with column indexes for names and positions for parameters.

ghost use Rattle.std.specs.Prelude.{◌≡◌, map, option_map, IfOk};
ghost use Rattle.rs_bind_change.specs.Binding as spec;
ghost use Rattle.rs_scope.specs.Scope as named;

use rs_ast::{
    Arith, BoundRow, BoundRows, BoundSet, BoundSets, BoundTerm, Expr, Set, Term, TermRow,
};
use rs_base::{Ident, NoMemory, with_room};
use rs_scope::{Param, ScopeColumn, as_position, column_index_of, param_index, unqualified};
use std::alloc::Global;

fn unqualified_index(scope: &[ScopeColumn], column: Ident) -> u16
    ensures { result ≡ named.column_index_of scope.now (named.unqualified column) }
{
    column_index_of(scope, &unqualified(column))
}

fn bound_term(
    alloc: Global,
    scope: &[ScopeColumn],
    params: &[Param],
    term: &Term,
) -> Result<BoundTerm, NoMemory>
    ensures { IfOk result (λ bound. bound ≡ spec.bound_term scope.now params.now term.now) }
{
    match term {
        Term::Col(column) => Ok(BoundTerm::Place(unqualified_index(scope, *column))),
        Term::Lit(value) => Ok(BoundTerm::Lit(value.copy(alloc)?)),
        Term::Param(name) => Ok(BoundTerm::Param(param_index(params, *name))),
    }
}

fn bound_terms(
    alloc: Global,
    scope: &[ScopeColumn],
    params: &[Param],
    row: &[Term],
) -> Result<BoundRow, NoMemory>
    ensures { IfOk result (λ bound. bound ≡ map (spec.bound_term scope.now params.now) row.now) }
{
    let mut bound = with_room(alloc, row.len())?;
    for term in row {
        bound.push(bound_term(alloc, scope, params, term)?)?;
    }
    Ok(bound)
}

fn bound_row(
    alloc: Global,
    scope: &[ScopeColumn],
    params: &[Param],
    row: &TermRow,
) -> Result<BoundRow, NoMemory>
    ensures { IfOk result (λ bound. bound ≡ map (spec.bound_term scope.now params.now) row.now) }
{
    bound_terms(alloc, scope, params, row.as_slice())
}

pub(crate) fn bound_rows(
    alloc: Global,
    scope: &[ScopeColumn],
    params: &[Param],
    rows: &[TermRow],
) -> Result<BoundRows, NoMemory>
    ensures { IfOk result (λ bound. bound ≡ spec.bound_rows scope.now params.now rows.now) }
{
    let mut bound = with_room(alloc, rows.len())?;
    for row in rows {
        bound.push(bound_row(alloc, scope, params, row)?)?;
    }
    Ok(bound)
}

fn bound_more(
    alloc: Global,
    scope: &[ScopeColumn],
    params: &[Param],
    expr: &Expr,
) -> Result<Option<(Arith, BoundTerm)>, NoMemory>
    ensures { IfOk result (λ bound. bound
        ≡ option_map (λ more. (more.0, spec.bound_term scope.now params.now more.1)) expr.now.more) }
{
    match &expr.more {
        None => Ok(None),
        Some((op, second)) => Ok(Some((*op, bound_term(alloc, scope, params, second)?))),
    }
}

fn bound_set(
    alloc: Global,
    scope: &[ScopeColumn],
    params: &[Param],
    set: &Set,
) -> Result<BoundSet, NoMemory>
    ensures { IfOk result (λ bound. bound ≡ spec.bound_set scope.now params.now set.now) }
{
    Ok(BoundSet {
        column: as_position(usize::from(unqualified_index(scope, set.column))),
        first: bound_term(alloc, scope, params, &set.expr.first)?,
        more: bound_more(alloc, scope, params, &set.expr)?,
    })
}

pub(crate) fn bound_sets(
    alloc: Global,
    scope: &[ScopeColumn],
    params: &[Param],
    sets: &[Set],
) -> Result<BoundSets, NoMemory>
    ensures { IfOk result (λ bound. bound ≡ map (spec.bound_set scope.now params.now) sets.now) }
{
    let mut bound = with_room(alloc, sets.len())?;
    for set in sets {
        bound.push(bound_set(alloc, scope, params, set)?)?;
    }
    Ok(bound)
}
