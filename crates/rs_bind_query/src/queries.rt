//! Binding of queries.

ghost use Rattle.std.specs.Prelude.{◌≡◌, map, length, IfOk};
ghost use Rattle.rs_bind_query.specs.Binding as spec;
ghost use Rattle.rs_scope.specs.Scope.{as_u16 as u16_of};

use crate::select_denials::select_denial;
use crate::shape::shape_of;
use rs_ast::{Idents, Places, Select};
use rs_base::{Denial, NoMemory, with_room};
use rs_plan::{Bound, Swns};
use rs_scope::{Heading, Param, ScopeColumn, aliases_of, as_u16, bound_clauses, query_scope};
use std::alloc::Global;

fn names_of(alloc: Global, headings: &[Heading]) -> Result<Swns, NoMemory>
    ensures { IfOk result (λ names. names ≡ map (λ heading. heading.name) headings.now) }
{
    let mut names = with_room(alloc, headings.len())?;
    for heading in headings {
        names.push(heading.name)?;
    }
    Ok(names)
}

fn widths_of(alloc: Global, headings: &[Heading]) -> Result<Places, NoMemory>
    ensures { IfOk result (λ widths. widths ≡ map (λ heading. u16_of (length heading.columns)) headings.now) }
{
    let mut widths = with_room(alloc, headings.len())?;
    for heading in headings {
        widths.push(as_u16(heading.columns.len()))?;
    }
    Ok(widths)
}

/// Binds a query over these columns, whose tables have these aliases. It is meant for a query that isn't denied.
fn bound_select(
    alloc: Global,
    scope: &[ScopeColumn],
    aliases: Idents,
    select: &Select,
    headings: &[Heading],
    params: &[Param],
) -> Result<Bound, NoMemory>
    ensures { IfOk result (λ bound. bound ≡ spec.bound_over scope.now aliases params.now select.now headings.now) }
{
    Ok(Bound::Select {
        names: names_of(alloc, headings)?,
        aliases,
        widths: widths_of(alloc, headings)?,
        clauses: bound_clauses(alloc, scope, params, select.clauses.as_slice())?,
        shape: shape_of(alloc, scope, select)?,
    })
}

/// Binds a query over these tables, or returns its denial: two tables with one alias; the names and comparisons in the
/// order of the text; what a grouped query shows; the keys of the order.
#[tactic(auto, unfolding(crate::specs::Binding::select_bound))]
pub fn bind_select(
    alloc: Global,
    select: &Select,
    headings: &[Heading],
    params: &[Param],
) -> Result<Result<Bound, Denial>, NoMemory>
    ensures { IfOk result (λ outcome. outcome ≡ spec.select_bound select.now headings.now params.now) }
{
    let aliases = aliases_of(alloc, select.from.as_slice(), headings)?;
    let scope = query_scope(alloc, select.from.as_slice(), headings)?;
    match select_denial(scope.as_slice(), aliases.as_slice(), params, select) {
        Some(cause) => Ok(Err(cause)),
        None => Ok(Ok(bound_select(alloc, scope.as_slice(), aliases, select, headings, params)?)),
    }
}
