//! Binding of statements over entries.

ghost use Rattle.std.specs.Prelude.{◌≡◌, ◌≤◌, [], ◌∷◌, map, zip, length, All, IfOk, Some};
ghost use Rattle.std.specs.Option.{option_copied};
ghost use Rattle.rs_ast.specs.Limits.{DmlKeepsLimits};
ghost use Rattle.rs_plan.specs.Over.{IsNarrow, IsOver};
ghost use Rattle.rs_plan.specs.Params.{HasParamsBelow};
ghost use Rattle.rs_bind.specs.Binding.{bound_of};
ghost use Rattle.rs_bind.specs.Entries as spec;

use crate::definitions::column_defs;
use rs_ast::{Dml, Entry};
use rs_base::{Denial, Ident, NoMemory, Swn, Value, with_room};
use rs_bind_change::{bind_delete, bind_insert, bind_update};
use rs_bind_query::bind_select;
use rs_plan::Bound;
use rs_scope::{Heading, Headings, Param, Params};
use std::alloc::Global;

/// Returns the columns of an entry, as a statement sees them.
fn heading_of(alloc: Global, entry: &Entry) -> Result<Heading, NoMemory>
    ensures { IfOk result (λ heading. heading ≡ spec.heading_of entry.now) }
{
    Ok(Heading {
        name: entry.name,
        columns: column_defs(alloc, entry.columns.as_slice())?,
    })
}

fn headings_of(alloc: Global, entries: &[Entry]) -> Result<Headings, NoMemory>
    ensures { IfOk result (λ headings. headings ≡ spec.headings_of entries.now) }
{
    let mut headings = with_room(alloc, entries.len())?;
    for entry in entries {
        headings.push(heading_of(alloc, entry)?)?;
    }
    Ok(headings)
}

fn unvalued(name: Ident) -> Param
    ensures { result ≡ spec.unvalued name }
{
    Param { name, kind: None }
}

fn valued(name: Ident, value: &Value) -> Param
    ensures { result ≡ spec.valued name value.now }
{
    Param {
        name,
        kind: Some(value.kind()),
    }
}

fn unvalued_params(alloc: Global, names: &[Ident]) -> Result<Params, NoMemory>
    ensures { IfOk result (λ params. params ≡ map spec.unvalued names.now) }
{
    let mut params = with_room(alloc, names.len())?;
    for name in names {
        params.push(unvalued(*name))?;
    }
    Ok(params)
}

fn valued_params(alloc: Global, names: &[Ident], values: &[Value]) -> Result<Params, NoMemory>
    ensures { IfOk result (λ params. params ≡ map (λ both. spec.valued both.0 both.1) (zip names.now values.now)) }
{
    let mut params = with_room(alloc, names.len())?;
    for (name, value) in names.iter().zip(values) {
        params.push(valued(*name, value))?;
    }
    Ok(params)
}

/// Returns the parameters of these names, each with the kind of its value if there are values.
fn params_of(alloc: Global, names: &[Ident], values: Option<&[Value]>) -> Result<Params, NoMemory>
    ensures { IfOk result (λ params. params ≡ spec.params_of names.now (option_copied values.entry)) }
{
    match values {
        None => unvalued_params(alloc, names),
        Some(values) => valued_params(alloc, names, values),
    }
}

/// Returns the table of a change.
fn only(headings: &[Heading]) -> &Heading
    requires { length headings.now ≡ 1 }
    ensures { headings.now ≡ result.now ∷ [] }
{
    &headings[0]
}

fn outcome_over(
    alloc: Global,
    stmt: &Dml,
    entries: &[Entry],
    params: &[Ident],
    values: Option<&[Value]>,
) -> Result<Result<Bound, Denial>, NoMemory>
    requires { length entries.now ≡ spec.table_count stmt.now }
    ensures { IfOk result (λ outcome. bound_of stmt.now (spec.headings_of entries.now)
        (spec.params_of params.now (option_copied values.entry)) ≡ Some outcome) }
{
    let headings = headings_of(alloc, entries)?;
    let headings = headings.as_slice();
    let params = params_of(alloc, params, values)?;
    let params = params.as_slice();
    match stmt {
        Dml::Select(select) => bind_select(alloc, select, headings, params),
        Dml::Insert { rows, .. } => { bind_insert(alloc, rows.as_slice(), only(headings), params) }
        Dml::Update { sets, clauses, .. } => bind_update(
            alloc,
            sets.as_slice(),
            clauses.as_slice(),
            only(headings),
            params,
        ),
        Dml::Delete { clauses, .. } => {
            bind_delete(alloc, clauses.as_slice(), only(headings), params)
        }
    }
}

/// Binds a statement that keeps the limits over the tables of these names, which these entries describe, or returns its
/// denial. The parameters have these names; if there are values, each has the kind of its value. What is bound is over
/// the entries, fits the values, if there are values, and has no parameter beyond the names.
pub fn bind(
    alloc: Global,
    stmt: &Dml,
    names: &[Swn],
    entries: &[Entry],
    params: &[Ident],
    values: Option<&[Value]>,
) -> Result<Result<Bound, Denial>, NoMemory>
    requires limits { DmlKeepsLimits stmt.now }
    requires count { length entries.now ≡ spec.table_count stmt.now }
    requires names { names.now ≡ map (λ entry. entry.name) entries.now }
    requires narrow { All IsNarrow entries.now }
    requires params { length params.now ≤ 16 }
    requires values { spec.AreValuesOf params.now (option_copied values) }
    ensures outcome { IfOk result (λ outcome. bound_of stmt.now (spec.headings_of entries.now)
        (spec.params_of params.now (option_copied values.entry)) ≡ Some outcome) }
    ensures over { IfOk result (λ outcome. IfOk outcome
        (λ bound. IsOver bound entries.now (spec.kinds_given (option_copied values.entry)))) }
    ensures params { IfOk result (λ outcome. IfOk outcome (λ bound. HasParamsBelow (length params.now) bound)) }
{
    outcome_over(alloc, stmt, entries, params, values)
}
