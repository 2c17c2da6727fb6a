//! Sections that are run over a table.

ghost use Rattle.std.specs.Prelude.{[], ◌∷◌, IsTrue};
ghost use Rattle.std.specs.List.Sorted.{IsStrictlySortedBy};
ghost use Rattle.std.specs.Ordering.{nat_cmp};
ghost use Rattle.rs_rows.specs.TableRows.{numbers};
ghost use Rattle.rs_exec.specs.Paths.{IsIndexOf, has_index};

use crate::rows::filled;
use rs_ast::{Arith, BoundClauses, BoundCmp, BoundSet, BoundSide, BoundTerm, Op, Places};
use rs_base::{Ident, NoMemory, SiteNo, Swn, Txn, Value, one_item};
use rs_exec::{Ran, run_section};
use rs_index::Index;
use rs_plan::{Section, SectionKind};
use rs_rows::{Counted, TableRows};
use std::alloc::Global;
use std::slice::from_ref;

fn integer(n: u64) -> Value {
    Value::Int(i64::try_from(n).unwrap_or(0))
}

/// Makes the predicate that compares the first column with an integer.
fn clauses(alloc: Global, op: Op, n: u64) -> Result<BoundClauses, NoMemory> {
    let right = BoundSide::Lit(integer(n));
    let clause = one_item(alloc, BoundCmp { left: 0, op, right })?;
    Ok(one_item(alloc, clause)?)
}

/// Makes a scan of the first column of the rows that satisfy the comparison.
fn scan(alloc: Global, op: Op, n: u64) -> Result<SectionKind, NoMemory> {
    let columns: Places = one_item(alloc, 0)?;
    Ok(SectionKind::Scan {
        clauses: clauses(alloc, op, n)?,
        columns,
    })
}

/// Makes the update that adds 1 to the first column of the rows in which it is below an integer.
fn update(alloc: Global, n: u64) -> Result<SectionKind, NoMemory> {
    let set = BoundSet {
        column: 0,
        first: BoundTerm::Place(0),
        more: Some((Arith::Add, BoundTerm::Lit(Value::Int(1)))),
    };
    Ok(SectionKind::Update {
        sets: one_item(alloc, set)?,
        clauses: clauses(alloc, Op::Lt, n)?,
    })
}

/// Makes the section of a table of some name.
fn section(kind: SectionKind) -> Option<Section> {
    let site = SiteNo::new(1)?;
    let ident = Ident::new(b"t".as_slice())?;
    Some(Section {
        name: Swn {
            creator: ident,
            creator_site: site,
            object: ident,
            birth: site,
        },
        made: Txn {
            site,
            epoch: 1,
            number: 1,
        },
        kind,
    })
}

/// Returns the number of rows that a section gave or changed.
fn count_of(ran: &Ran) -> u64 {
    match ran {
        Ran::Rows { rows, .. } => rows.len() as u64,
        Ran::Changes { count, .. } => *count,
        Ran::Denied(_) => 0,
    }
}

/// Runs the section, and returns the number of rows that were read or changed, or given.
fn run(
    alloc: Global,
    section: &Section,
    path: Option<u8>,
    table: &TableRows,
    index: &Index,
) -> Result<u64, NoMemory>
    requires rising { IsStrictlySortedBy nat_cmp (numbers table.now.rows) }
    requires index { IsIndexOf table.now.rows index.now }
    requires path { IsTrue (has_index path (index.now ∷ [])) }
{
    let mut rows = Counted::new(table);
    let ran = run_section(
        alloc,
        section,
        path,
        &[],
        None,
        0,
        &mut rows,
        from_ref(index),
    )?;
    Ok(rows.reads().saturating_add(count_of(&ran)))
}

/// Runs a section over a table whose rows are the integers below `size`, so often, by the index of its column if it goes by
/// one, and returns the number of rows that were read, changed or given.
fn runs(
    alloc: Global,
    kind: SectionKind,
    indexed: bool,
    count: u64,
    size: u64,
) -> Result<u64, NoMemory> {
    let table = filled(alloc, size)?;
    let index = Index::build(alloc, &table, 0)?;
    let Some(section) = section(kind) else {
        return Ok(table.count());
    };
    let path = if indexed { Some(0) } else { None };
    let mut found = 0u64;
    for _ in 0..count {
        found = found.saturating_add(run(alloc, &section, path, &table, &index)?);
    }
    Ok(found)
}

/// Runs sections, and returns a number that depends on what they gave, if there are such calls.
pub fn make(alloc: Global, call: &str, count: u64, size: u64) -> Option<Result<u64, NoMemory>> {
    let (kind, indexed) = match call {
        "scan" => (scan(alloc, Op::Eq, 7), false),
        "equal" => (scan(alloc, Op::Eq, 7), true),
        "range" => (scan(alloc, Op::Lt, 100), true),
        "update" => (update(alloc, size / 10), false),
        _ => return None,
    };
    match kind {
        Ok(kind) => Some(runs(alloc, kind, indexed, count, size)),
        Err(fault) => Some(Err(fault)),
    }
}
