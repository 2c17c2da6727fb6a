//! Statements that are bound over the headings or the entries of their tables.

ghost use Rattle.std.specs.Prelude.{◌≡◌, ◌≤◌, length, IfOk, IsTrue};
ghost use Rattle.rs_ast.specs.Limits.{DmlKeepsLimits};
ghost use Rattle.rs_bind.specs.Entries.{table_count};

use rs_ast::{Column, Dml, Entry};
use rs_base::{Denial, Ident, Kind, NameText, NoMemory, SiteNo, Swn, Txn, Value};
use rs_bind::bind;
use rs_bind_change::{bind_delete, bind_insert, bind_update};
use rs_bind_query::bind_select;
use rs_plan::Bound;
use rs_scope::{Heading, Param};
use sqlite_items::Items;
use std::alloc::Global;

/// Returns the parameter of this name, which has no value yet.
fn param(name: Ident) -> Param {
    Param { name, kind: None }
}

/// Binds a statement over the heading of its table, with parameters of these names, which have no values yet.
pub fn bound_over_heading(
    alloc: Global,
    dml: &Dml,
    heading: &Heading,
    t: Ident,
    n: Ident,
) -> Result<Result<Bound, Denial>, NoMemory> {
    let params = [param(t), param(n)];
    match dml {
        Dml::Delete { clauses, .. } => bind_delete(alloc, clauses.as_slice(), heading, &params),
        Dml::Insert { rows, .. } => bind_insert(alloc, rows.as_slice(), heading, &params),
        Dml::Update { sets, clauses, .. } => {
            bind_update(alloc, sets.as_slice(), clauses.as_slice(), heading, &params)
        }
        Dml::Select(query) => bind_select(alloc, query, std::slice::from_ref(heading), &params),
    }
}

fn number(name: Ident) -> Column {
    Column {
        name,
        kind: Kind::Int,
        distinct: 3,
    }
}

/// Returns what is known of a table of two numbers.
fn entry(alloc: Global, name: Swn, first: Ident, second: Ident) -> Result<Entry, NoMemory>
    ensures name { IfOk result (λ entry. entry.name ≡ name) }
    ensures narrow { IfOk result (λ entry. length entry.columns ≤ 16) }
{
    let columns = [number(first), number(second)];
    Ok(Entry {
        name,
        made: Txn {
            site: SiteNo::first(),
            epoch: 1,
            number: 1,
        },
        place: SiteNo::first(),
        columns: Items::from_vec(Vec::from_array(alloc, columns)?),
        indexes: Items::new(alloc),
        count: 7,
    })
}

/// Reports whether the statement is a DELETE that keeps the limits of statements, as each text does.
pub fn is_delete(dml: &Dml) -> bool
    ensures limits { IsTrue result → DmlKeepsLimits dml.now }
    ensures count { IsTrue result → table_count dml.now ≡ 1 }
{
    match dml {
        Dml::Delete { .. } => dml.keeps_limits(),
        _ => false,
    }
}

/// Binds a DELETE over this entry of its table, with parameters of these names, which are 7 and 8.
fn bound_over(
    alloc: Global,
    dml: &Dml,
    entry: &Entry,
    t: Ident,
    n: Ident,
) -> Result<Result<Bound, Denial>, NoMemory>
    requires limits { DmlKeepsLimits dml.now }
    requires count { table_count dml.now ≡ 1 }
    requires narrow { length entry.now.columns ≤ 16 }
{
    bind(
        alloc,
        dml,
        std::slice::from_ref(&entry.name),
        std::slice::from_ref(entry),
        &[t, n],
        Some(&[Value::Int(7), Value::Int(8)]),
    )
}

/// Binds a DELETE over the entry of its table of two numbers, whose columns are named as the parameters, which are 7 and 8.
pub fn bound_over_entry(
    alloc: Global,
    dml: &Dml,
    t: Ident,
    n: Ident,
) -> Result<Result<Bound, Denial>, NoMemory>
    requires limits { DmlKeepsLimits dml.now }
    requires count { table_count dml.now ≡ 1 }
{
    let name = NameText::plain(t).resolve(t, SiteNo::first());
    let entry = entry(alloc, name, t, n)?;
    bound_over(alloc, dml, &entry, t, n)
}
