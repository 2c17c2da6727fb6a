//! Binding of changes of one table.

ghost use Rattle.std.specs.Prelude.{◌≡◌, IfOk};
ghost use Rattle.rs_bind_change.specs.Binding as spec;

use crate::change_denials::{insert_denial, update_denial};
use crate::terms::{bound_rows, bound_sets};
use rs_ast::{Clause, Set, TermRow};
use rs_base::{Denial, NoMemory};
use rs_plan::Bound;
use rs_scope::{Heading, Param, bound_clauses, clauses_denial, table_scope};
use std::alloc::Global;

/// Binds an INSERT into the table, or returns its denial: row by row, the number of its terms and their kinds, and then
/// its parameters. Linear in the rows.
#[tactic(auto, unfolding(crate::specs::Binding::insert_bound))]
pub fn bind_insert(
    alloc: Global,
    rows: &[TermRow],
    heading: &Heading,
    params: &[Param],
) -> Result<Result<Bound, Denial>, NoMemory>
    ensures { IfOk result (λ outcome. outcome ≡ spec.insert_bound rows.now heading.now params.now) }
{
    let scope = table_scope(alloc, heading)?;
    if let Some(cause) = insert_denial(scope.as_slice(), params, rows) {
        return Ok(Err(cause));
    }
    Ok(Ok(Bound::Insert {
        name: heading.name,
        rows: bound_rows(alloc, scope.as_slice(), params, rows)?,
    }))
}

/// Binds an UPDATE of the table, or returns its denial: assignment by assignment, its column, its terms and their kinds;
/// then the predicate.
#[tactic(auto, unfolding(crate::specs::Binding::update_bound))]
pub fn bind_update(
    alloc: Global,
    sets: &[Set],
    clauses: &[Clause],
    heading: &Heading,
    params: &[Param],
) -> Result<Result<Bound, Denial>, NoMemory>
    ensures { IfOk result (λ outcome. outcome ≡ spec.update_bound sets.now clauses.now heading.now params.now) }
{
    let scope = table_scope(alloc, heading)?;
    if let Some(cause) = update_denial(scope.as_slice(), params, sets, clauses) {
        return Ok(Err(cause));
    }
    Ok(Ok(Bound::Update {
        name: heading.name,
        sets: bound_sets(alloc, scope.as_slice(), params, sets)?,
        clauses: bound_clauses(alloc, scope.as_slice(), params, clauses)?,
    }))
}

/// Binds a DELETE from the table, or returns its denial: that of its predicate.
#[tactic(auto, unfolding(crate::specs::Binding::delete_bound))]
pub fn bind_delete(
    alloc: Global,
    clauses: &[Clause],
    heading: &Heading,
    params: &[Param],
) -> Result<Result<Bound, Denial>, NoMemory>
    ensures { IfOk result (λ outcome. outcome ≡ spec.delete_bound clauses.now heading.now params.now) }
{
    let scope = table_scope(alloc, heading)?;
    if let Some(cause) = clauses_denial(scope.as_slice(), params, clauses) {
        return Ok(Err(cause));
    }
    Ok(Ok(Bound::Delete {
        name: heading.name,
        clauses: bound_clauses(alloc, scope.as_slice(), params, clauses)?,
    }))
}
