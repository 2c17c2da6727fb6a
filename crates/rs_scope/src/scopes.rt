//! The columns that a statement may name.

ghost use Rattle.std.specs.Prelude.{◌≡◌, ◌++◌, map, IfOk, OnOk};
ghost use Rattle.rs_scope.specs.Scope as spec;

use crate::heading::Heading;
use crate::scope::{Scope, ScopeColumn};
use rs_ast::{ColDef, Idents, TableRef};
use rs_base::{Ident, NoMemory, with_room};
use sqlite_items::Items;
use std::alloc::Global;

/// Returns the alias of a table of a query, or the object of its name.
fn alias_of(table: &TableRef, heading: &Heading) -> Ident
    ensures { result ≡ spec.alias_of table.now heading.now }
{
    table.alias.unwrap_or(heading.name.object)
}

/// Returns the alias of each table of a query.
pub fn aliases_of(
    alloc: Global,
    tables: &[TableRef],
    headings: &[Heading],
) -> Result<Idents, NoMemory>
    ensures { IfOk result (λ aliases. aliases ≡ spec.aliases_of tables.now headings.now) }
{
    let mut aliases = with_room(alloc, tables.len())?;
    for (table, heading) in tables.iter().zip(headings) {
        aliases.push(alias_of(table, heading))?;
    }
    Ok(aliases)
}

fn scope_column(table: Ident, column: &ColDef) -> ScopeColumn
    ensures { result ≡ spec.scope_column table column.now }
{
    ScopeColumn {
        table,
        name: column.name,
        kind: column.kind,
    }
}

/// Appends the columns of a table with this alias.
fn push_columns(scope: &mut Scope, table: Ident, columns: &[ColDef]) -> Result<(), NoMemory>
    ensures { OnOk result (scope.new ≡ scope.old ++ spec.columns_as table columns.now) }
{
    for column in columns {
        scope.push(scope_column(table, column))?;
    }
    Ok(())
}

fn push_table(scope: &mut Scope, table: Ident, heading: &Heading) -> Result<(), NoMemory>
    ensures { OnOk result (scope.new ≡ scope.old ++ spec.columns_as table heading.now.columns) }
{
    push_columns(scope, table, heading.columns.as_slice())
}

/// Returns the columns that a query may name, by column index.
pub fn query_scope(
    alloc: Global,
    tables: &[TableRef],
    headings: &[Heading],
) -> Result<Scope, NoMemory>
    ensures { IfOk result (λ scope. scope ≡ spec.query_scope tables.now headings.now) }
{
    let mut scope = Items::new(alloc);
    for (table, heading) in tables.iter().zip(headings) {
        push_table(&mut scope, alias_of(table, heading), heading)?;
    }
    Ok(scope)
}

/// Returns the columns that a change of one table may name.
pub fn table_scope(alloc: Global, heading: &Heading) -> Result<Scope, NoMemory>
    ensures { IfOk result (λ scope. scope ≡ spec.table_scope heading.now) }
{
    let mut scope = Items::new(alloc);
    push_table(&mut scope, heading.name.object, heading)?;
    Ok(scope)
}
