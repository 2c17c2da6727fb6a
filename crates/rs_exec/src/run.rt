//! One section over the rows of one table.

ghost use Rattle.std.specs.Prelude.{◌≡◌, ◌≤◌, ◌+◌, All, Option, Some, IsTrue, IfOk, length};
ghost use Rattle.std.specs.List.Sorted.{IsStrictlySortedBy};
ghost use Rattle.std.specs.Option.{option_copied};
ghost use Rattle.std.specs.Ordering.{nat_cmp};
ghost use Rattle.rs_base.specs.declared.value.Value.{Value};
ghost use Rattle.rs_rows.specs.TableRows.{numbers};
ghost use Rattle.rs_exec.specs.Paths.{IsIndexOf, has_index};
ghost use Rattle.rs_exec.specs.Reads as reading;
ghost use Rattle.rs_exec.specs.Running as spec;

use crate::delete::run_delete;
use crate::insert::run_insert;
use crate::matching::read_matching;
use crate::numbered_row::NumberedRow;
use crate::page::query;
use crate::path::path_numbers;
use crate::predicate::predicate_of;
use crate::ran::Ran;
use crate::update::run_update;
use rs_ast::BoundClause;
use rs_base::{NoMemory, Value};
use rs_index::Index;
use rs_plan::{Section, SectionKind};
use rs_rows::ReadRows;
use std::alloc::Global;

/// Reads the rows that the path gives, and returns those that satisfy the predicate, in order of insertion.
fn matching_rows<'t, R: ReadRows<'t>>(
    alloc: Global,
    path: Option<u8>,
    clauses: &[BoundClause],
    rows: &mut R,
    indexes: &[Index],
) -> Result<Vec<NumberedRow<'t>>, NoMemory>
    requires rising { IsStrictlySortedBy nat_cmp (numbers (R.rows rows.old)) }
    requires indexes { All (IsIndexOf (R.rows rows.old)) indexes.now }
    requires path { IsTrue (has_index path indexes.now) }
    ensures found { IfOk result (λ found. found.items
        ≡ spec.matching (Some clauses.now) (R.rows rows.old)) }
    ensures rows { R.rows rows.new ≡ R.rows rows.old }
    ensures reads { R.reads rows.new
        ≤ R.reads rows.old + length (reading.on_path path clauses.now (R.rows rows.old)) }
{
    let numbers = path_numbers(alloc, path, clauses, rows, indexes)?;
    read_matching(alloc, numbers.as_slice(), clauses, rows)
}

/// Returns the rows that the section is about, in order of insertion.
fn rows_of<'t, R: ReadRows<'t>>(
    alloc: Global,
    kind: &SectionKind,
    path: Option<u8>,
    values: &[Value],
    fetch: Option<&Value>,
    rows: &mut R,
    indexes: &[Index],
) -> Result<Vec<NumberedRow<'t>>, NoMemory>
    requires rising { IsStrictlySortedBy nat_cmp (numbers (R.rows rows.old)) }
    requires indexes { All (IsIndexOf (R.rows rows.old)) indexes.now }
    requires path { IsTrue (has_index path indexes.now) }
    ensures found { IfOk result (λ found. found.items ≡ spec.matching
        (spec.predicate_of kind.now values.now (option_copied fetch.entry)) (R.rows rows.old)) }
    ensures rows { R.rows rows.new ≡ R.rows rows.old }
    ensures reads { R.reads rows.new ≤ R.reads rows.old + length (reading.needed path
        (spec.predicate_of kind.now values.now (option_copied fetch.entry)) (R.rows rows.old)) }
{
    match predicate_of(alloc, kind, values, fetch)? {
        Some(clauses) => matching_rows(alloc, path, clauses.as_slice(), rows, indexes),
        None => Ok(Vec::new(alloc)),
    }
}

/// Returns what the section gives, by the rows that it is about.
fn outcome_of<'t, R: ReadRows<'t>>(
    alloc: Global,
    section: &Section,
    values: &[Value],
    from: u64,
    matching: &[NumberedRow<'t>],
    rows: &R,
) -> Result<Ran, NoMemory>
    ensures { (fetch : Option Value)
        → matching.now ≡ spec.matching
        (spec.predicate_of section.now.kind values.now fetch) (R.rows rows.now)
        → IfOk result (λ ran. ran ≡ spec.ran section.now values.now fetch from (R.rows rows.now)) }
{
    match &section.kind {
        SectionKind::Scan { columns, .. } | SectionKind::Fetch { columns, .. } => {
            query(alloc, columns.as_slice(), from, matching)
        }
        SectionKind::Insert { rows: bound } => {
            run_insert(alloc, section.name, values, bound.as_slice(), rows)
        }
        SectionKind::Delete { .. } => run_delete(alloc, section.name, matching),
        SectionKind::Update { sets, .. } => {
            run_update(alloc, section.name, sets.as_slice(), values, matching, rows)
        }
    }
}

/// Runs a section over the rows of its table, with values for its parameters and for a fetch. `path` is the column of
/// the index by which it goes; without one it reads all rows. A scan and a fetch give a page of their rows after the
/// first `from`, in order of insertion. An insert, and a fetch without a value, read no row.
#[tactic(auto, unfolding(crate::specs::Reads::most_reads))]
pub fn run_section<'t, R: ReadRows<'t>>(
    alloc: Global,
    section: &Section,
    path: Option<u8>,
    values: &[Value],
    fetch: Option<&Value>,
    from: u64,
    rows: &mut R,
    indexes: &[Index],
) -> Result<Ran, NoMemory>
    requires rising { IsStrictlySortedBy nat_cmp (numbers (R.rows rows.old)) }
    requires indexes { All (IsIndexOf (R.rows rows.old)) indexes.now }
    requires path { IsTrue (has_index path indexes.now) }
    ensures ran { IfOk result (λ ran. ran
        ≡ spec.ran section.now values.now (option_copied fetch.entry) from (R.rows rows.old)) }
    ensures rows { R.rows rows.new ≡ R.rows rows.old }
    ensures reads { R.reads rows.new ≤ R.reads rows.old
        + reading.most_reads section.now path values.now (option_copied fetch.entry) (R.rows rows.old) }
{
    let matching = rows_of(alloc, &section.kind, path, values, fetch, rows, indexes)?;
    outcome_of(alloc, section, values, from, matching.as_slice(), rows)
}
