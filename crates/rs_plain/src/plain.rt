//! The plain evaluator: the answer of a statement on rows over given tables.

ghost use Rattle.std.specs.Prelude.{◌≡◌, [], ◌∷◌, map, flat_map, find, IfOk};
ghost use Rattle.std.specs.Option.{option_copied};
ghost use Rattle.std.specs.Ordering.{is_eq};
ghost use Rattle.rs_base.specs.Name.{name_cmp, resolve};
ghost use Rattle.rs_scope.specs.Denials.{first_denial};
ghost use Rattle.rs_plain.specs.Plain as spec;
ghost use Rattle.rs_mean.specs.Queries.{IsSelect};
ghost use Rattle.rs_mean.specs.RowStatements as statements;

use rs_ast::{Clause, ColDefs, Columns, Dml, Select, Set, TableRef, TermRow};
use rs_base::{Answer, Denial, Ident, NoMemory, Rows, SiteNo, Swn, with_room};
use rs_bind::column_defs;
use rs_bind_change::{bind_delete, bind_insert, bind_update};
use rs_bind_query::bind_select;
use rs_eval::{inserted, matching_count, updated};
use rs_join::selected;
use rs_plan::{Bound, Swns};
use rs_rows::{RowRun, StoredRows};
use rs_scope::{Heading, Headings};
use sqlite_items::Items;
use std::alloc::Global;

/// A table: its name, its columns, and its rows in order of insertion.
#[derive(Drop)]
pub struct PlainTable {
    pub name: Swn,
    pub columns: Columns,
    pub rows: Rows,
}

pub type PlainTables = Items<PlainTable>;

/// An answer, or the cause of the denial.
type Answered = Result<Answer, Denial>;

fn has_name(name: &Swn, table: &PlainTable) -> bool
    ensures { result ≡ is_eq (name_cmp name.now table.now.name) }
{
    name.cmp(&table.name).is_eq()
}

fn table_named<'a>(tables: &'a [PlainTable], name: &Swn) -> Option<&'a PlainTable>
    ensures { option_copied result ≡ spec.plain_named tables.now name.now }
{
    tables.iter().find(|table| has_name(name, table))
}

fn columns_of(alloc: Global, table: Option<&PlainTable>) -> Result<ColDefs, NoMemory>
    ensures { IfOk result (λ defs. defs ≡ spec.columns_of (option_copied table.entry)) }
{
    match table {
        Some(table) => column_defs(alloc, table.columns.as_slice()),
        None => Ok(ColDefs::new(alloc)),
    }
}

fn heading(alloc: Global, tables: &[PlainTable], name: &Swn) -> Result<Heading, NoMemory>
    ensures { IfOk result (λ heading. heading ≡ spec.plain_heading tables.now name.now) }
{
    let columns = columns_of(alloc, table_named(tables, name))?;
    Ok(Heading {
        name: *name,
        columns,
    })
}

fn headings(alloc: Global, tables: &[PlainTable], names: &[Swn]) -> Result<Headings, NoMemory>
    ensures { IfOk result (λ headings. headings ≡ map (spec.plain_heading tables.now) names.now) }
{
    let mut headings = with_room(alloc, names.len())?;
    for name in names {
        headings.push(heading(alloc, tables, name)?)?;
    }
    Ok(headings)
}

fn rows(alloc: Global, tables: &[PlainTable], name: &Swn) -> Result<StoredRows, NoMemory>
    ensures { IfOk result (λ rows. rows ≡ spec.plain_rows tables.now name.now) }
{
    match table_named(tables, name) {
        Some(table) => StoredRows::copied(alloc, table.rows.as_slice()),
        None => Ok(StoredRows::new(alloc)),
    }
}

fn all_rows(
    alloc: Global,
    tables: &[PlainTable],
    names: &[Swn],
) -> Result<Vec<StoredRows>, NoMemory>
    ensures { IfOk result (λ found. found.items ≡ map (spec.plain_rows tables.now) names.now) }
{
    let mut found = Vec::with_capacity(alloc, names.len())?;
    for name in names {
        found.push(rows(alloc, tables, name)?)?;
    }
    Ok(found)
}

fn lent(alloc: Global, tables: &[StoredRows]) -> Result<Vec<RowRun<'_>>, NoMemory>
    ensures { IfOk result (λ lent. lent.items ≡ tables.now) }
{
    let mut lent = Vec::with_capacity(alloc, tables.len())?;
    for rows in tables {
        lent.push(rows.as_run())?;
    }
    Ok(lent)
}

fn denial(tables: &[PlainTable], name: &Swn) -> Option<Denial>
    ensures { result ≡ first_denial (spec.plain_tests tables.now name.now) }
{
    if table_named(tables, name).is_none() {
        Some(Denial::NoTable)
    } else {
        None
    }
}

fn first_missing(tables: &[PlainTable], names: &[Swn]) -> Option<Denial>
    ensures { result ≡ first_denial (flat_map (spec.plain_tests tables.now) names.now) }
{
    for name in names {
        if let Some(cause) = denial(tables, name) {
            return Some(cause);
        }
    }
    None
}

fn names_of(alloc: Global, tables: &[TableRef], user: Ident, site: SiteNo) -> Result<Swns, NoMemory>
    ensures { IfOk result (λ names. names ≡ map (λ table. resolve table.name user site) tables.now) }
{
    let mut names = with_room(alloc, tables.len())?;
    for table in tables {
        names.push(table.name.resolve(user, site))?;
    }
    Ok(names)
}

fn answered_rows(rows: Result<Rows, Denial>) -> Answered
    ensures { result ≡ (statements.answering rows).answer }
{
    match rows {
        Ok(rows) => Ok(Answer::Rows(rows)),
        Err(cause) => Err(cause),
    }
}

fn changed_count(rows: Result<StoredRows, Denial>, count: usize) -> Answered
    ensures { (name : Swn) → result ≡ (statements.updating name count rows).answer }
{
    match rows {
        Ok(_) => Ok(Answer::Changed(count as u64)),
        Err(cause) => Err(cause),
    }
}

fn inserted_count(rows: Result<StoredRows, Denial>) -> Answered
    ensures { (name : Swn) → result ≡ (statements.inserting name rows).answer }
{
    match rows {
        Ok(rows) => Ok(Answer::Changed(rows.len() as u64)),
        Err(cause) => Err(cause),
    }
}

/// Returns the answer of a bound statement without parameters over the rows of one table.
fn answer_over(alloc: Global, bound: &Bound, rows: &StoredRows) -> Result<Answered, NoMemory>
    ensures { IfOk result (λ answered. answered ≡ (statements.effect_of_bound [] (rows.now ∷ []) bound.now).answer) }
{
    match bound {
        Bound::Select { clauses, shape, .. } => Ok(answered_rows(selected(
            alloc,
            clauses.as_slice(),
            shape,
            &[rows.as_run()],
        )?)),
        Bound::Insert { rows: given, .. } => {
            Ok(inserted_count(inserted(alloc, &[], given.as_slice(), rows)?))
        }
        Bound::Update { sets, clauses, .. } => {
            let count = matching_count(clauses.as_slice(), &rows.as_run());
            let new = updated(
                alloc,
                &[],
                sets.as_slice(),
                clauses.as_slice(),
                &rows.as_run(),
            )?;
            Ok(changed_count(new, count))
        }
        Bound::Delete { clauses, .. } => {
            let count = matching_count(clauses.as_slice(), &rows.as_run());
            Ok(Ok(Answer::Changed(count as u64)))
        }
    }
}

/// Returns the answer of a change of this table, once it is bound.
fn answer_once_bound(
    alloc: Global,
    outcome: Result<Bound, Denial>,
    tables: &[PlainTable],
    name: &Swn,
) -> Result<Answered, NoMemory>
    ensures { IfOk result (λ answered. answered
        ≡ (statements.once_bound [] (spec.plain_rows tables.now name.now ∷ []) outcome).answer) }
{
    match outcome {
        Ok(bound) => answer_over(alloc, &bound, &rows(alloc, tables, name)?),
        Err(cause) => Ok(Err(cause)),
    }
}

/// Returns the answer of a bound query without parameters over its tables in order.
fn answer_query(
    alloc: Global,
    bound: &Bound,
    tables: &[PlainTable],
    names: &[Swn],
) -> Result<Answered, NoMemory>
    requires { IsSelect bound.now }
    ensures { IfOk result (λ answered. answered
        ≡ (statements.effect_of_bound [] (map (spec.plain_rows tables.now) names.now) bound.now).answer) }
{
    let Bound::Select { clauses, shape, .. } = bound else {
        unreachable!()
    };
    let found = all_rows(alloc, tables, names)?;
    let lent = lent(alloc, found.as_slice())?;
    let rows = selected(alloc, clauses.as_slice(), shape, lent.as_slice())?;
    Ok(answered_rows(rows))
}

fn select(
    alloc: Global,
    tables: &[PlainTable],
    names: &[Swn],
    query: &Select,
) -> Result<Answered, NoMemory>
    ensures { IfOk result (λ answered. answered
        ≡ (statements.select statements.no_arguments (spec.plain_tables tables.now) names.now query.now).answer) }
{
    if let Some(cause) = first_missing(tables, names) {
        return Ok(Err(cause));
    }
    let headings = headings(alloc, tables, names)?;
    match bind_select(alloc, query, headings.as_slice(), &[])? {
        Ok(bound) => answer_query(alloc, &bound, tables, names),
        Err(cause) => Ok(Err(cause)),
    }
}

fn query(
    alloc: Global,
    tables: &[PlainTable],
    user: Ident,
    site: SiteNo,
    query: &Select,
) -> Result<Answered, NoMemory>
    ensures { IfOk result (λ answered. answered ≡ (statements.query statements.no_arguments (spec.plain_tables tables.now)
        (λ written. resolve written user site) query.now).answer) }
{
    let names = names_of(alloc, query.from.as_slice(), user, site)?;
    select(alloc, tables, names.as_slice(), query)
}

fn insert(
    alloc: Global,
    tables: &[PlainTable],
    name: &Swn,
    given: &[TermRow],
) -> Result<Answered, NoMemory>
    ensures { IfOk result (λ answered. answered
        ≡ (statements.insert statements.no_arguments (spec.plain_tables tables.now) name.now given.now).answer) }
{
    if let Some(cause) = denial(tables, name) {
        return Ok(Err(cause));
    }
    let heading = heading(alloc, tables, name)?;
    let outcome = bind_insert(alloc, given, &heading, &[])?;
    answer_once_bound(alloc, outcome, tables, name)
}

fn update(
    alloc: Global,
    tables: &[PlainTable],
    name: &Swn,
    sets: &[Set],
    clauses: &[Clause],
) -> Result<Answered, NoMemory>
    ensures { IfOk result (λ answered. answered
        ≡ (statements.update statements.no_arguments (spec.plain_tables tables.now) name.now sets.now clauses.now).answer) }
{
    if let Some(cause) = denial(tables, name) {
        return Ok(Err(cause));
    }
    let heading = heading(alloc, tables, name)?;
    let outcome = bind_update(alloc, sets, clauses, &heading, &[])?;
    answer_once_bound(alloc, outcome, tables, name)
}

fn delete(
    alloc: Global,
    tables: &[PlainTable],
    name: &Swn,
    clauses: &[Clause],
) -> Result<Answered, NoMemory>
    ensures { IfOk result (λ answered. answered
        ≡ (statements.delete statements.no_arguments (spec.plain_tables tables.now) name.now clauses.now).answer) }
{
    if let Some(cause) = denial(tables, name) {
        return Ok(Err(cause));
    }
    let heading = heading(alloc, tables, name)?;
    let outcome = bind_delete(alloc, clauses, &heading, &[])?;
    answer_once_bound(alloc, outcome, tables, name)
}

/// Returns what `user` who asks at `site` is answered over whole tables, or the first denial but `NoSite`. Names have no
/// synonyms, and no table is changed. It is slow. Fails on out of memory.
pub fn answer_plain(
    alloc: Global,
    tables: &[PlainTable],
    dml: &Dml,
    user: Ident,
    site: SiteNo,
) -> Result<Result<Answer, Denial>, NoMemory>
    ensures { IfOk result (λ answered. answered ≡ (spec.plain_effect tables.now user site dml.now).answer) }
{
    match dml {
        Dml::Select(given) => query(alloc, tables, user, site, given),
        Dml::Insert { name, rows: given } => {
            insert(alloc, tables, &name.resolve(user, site), given.as_slice())
        }
        Dml::Update {
            name,
            sets,
            clauses,
        } => update(
            alloc,
            tables,
            &name.resolve(user, site),
            sets.as_slice(),
            clauses.as_slice(),
        ),
        Dml::Delete { name, clauses } => {
            delete(alloc, tables, &name.resolve(user, site), clauses.as_slice())
        }
    }
}
