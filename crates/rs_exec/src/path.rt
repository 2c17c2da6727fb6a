//! The numbers of the rows that a path gives.

ghost use Rattle.std.specs.Prelude.{◌≡◌, ◌≢◌, ◌==◌, All, find, Some, IsTrue, IfOk};
ghost use Rattle.std.specs.List.Sorted.{IsStrictlySortedBy};
ghost use Rattle.std.specs.Option.{option_copied};
ghost use Rattle.std.specs.Ordering.{nat_cmp};
ghost use Rattle.rs_index.specs.Pairs.{pairs_of, range_of};
ghost use Rattle.rs_plan.specs.Section as sections;
ghost use Rattle.rs_rows.specs.TableRows.{RowsByNumber, numbers};
ghost use Rattle.rs_exec.specs.Paths.{IsRisingOf, IsIndexOf, has_index, is_path_clause};
ghost use Rattle.rs_exec.specs.Reads as spec;

use rs_ast::{BoundClause, BoundCmp, BoundSide, Op};
use rs_base::{NoMemory, Value};
use rs_index::Index;
use rs_rows::{Numbers, ReadRows};
use sqlite_items::Items;
use std::alloc::Global;

// ---- the clause by which a path goes

/// Returns whether the operand is a value or a parameter.
fn is_given(side: &BoundSide) -> bool
    ensures { result ≡ sections.is_given side.now }
{
    match side {
        BoundSide::Place(_) => false,
        BoundSide::Lit(_) | BoundSide::Param(_) => true,
    }
}

fn is_equality(op: Op) -> bool
    ensures { result ≡ sections.is_equality op }
{
    match op {
        Op::Eq => true,
        Op::Ne | Op::Lt | Op::Le | Op::Gt | Op::Ge => false,
    }
}

fn is_range(op: Op) -> bool
    ensures { result ≡ sections.is_range op }
{
    match op {
        Op::Lt | Op::Le | Op::Gt | Op::Ge => true,
        Op::Eq | Op::Ne => false,
    }
}

/// Returns whether the clause is one comparison, an equality of this column with a value or a parameter.
fn equates(clause: &[BoundCmp], column: u8) -> bool
    ensures { result ≡ sections.compares sections.is_equality column clause.now }
{
    match clause {
        [cmp] => cmp.left == u16::from(column) && is_given(&cmp.right) && is_equality(cmp.op),
        _ => false,
    }
}

/// Returns whether the clause is one comparison, a range of this column with a value or a parameter.
fn bounds(clause: &[BoundCmp], column: u8) -> bool
    ensures { result ≡ sections.compares sections.is_range column clause.now }
{
    match clause {
        [cmp] => cmp.left == u16::from(column) && is_given(&cmp.right) && is_range(cmp.op),
        _ => false,
    }
}

fn first_equality<'a>(column: u8, clauses: &'a [BoundClause]) -> Option<&'a BoundClause>
    ensures { option_copied result ≡ find (sections.compares sections.is_equality column) clauses.now }
{
    clauses
        .iter()
        .find(|clause| equates(clause.as_slice(), column))
}

fn first_range<'a>(column: u8, clauses: &'a [BoundClause]) -> Option<&'a BoundClause>
    ensures { option_copied result ≡ find (sections.compares sections.is_range column) clauses.now }
{
    clauses
        .iter()
        .find(|clause| bounds(clause.as_slice(), column))
}

/// Returns the clause by which a path over an index of this column goes, if there is one.
fn path_clause<'a>(column: u8, clauses: &'a [BoundClause]) -> Option<&'a BoundClause>
    ensures { option_copied result ≡ spec.path_clause column clauses.now }
{
    match first_equality(column, clauses) {
        Some(clause) => Some(clause),
        None => first_range(column, clauses),
    }
}

// ---- the numbers of an index

/// Lists the row numbers whose value satisfies the comparison, in the order of the index. The operator isn't `<>`.
fn range_numbers(alloc: Global, index: &Index, op: Op, value: &Value) -> Result<Vec<u64>, NoMemory>
    requires { op ≢ Op.Ne }
    ensures { IfOk result (λ numbers. numbers.items ≡ range_of op value.now index.now.pairs) }
{
    let mut numbers = Vec::new(alloc);
    for number in index.range(op, value) {
        numbers.push(number)?;
    }
    Ok(numbers)
}

/// Sorts the numbers; each stays once.
fn rising(mut numbers: Vec<u64>) -> Numbers
    ensures { IsRisingOf numbers.items result }
{
    numbers.sort_unstable();
    numbers.dedup();
    Items::from_vec(numbers)
}

/// Lists the numbers of the rows that satisfy the clause, in order of insertion, by an index of its column.
fn indexed_numbers(alloc: Global, index: &Index, clause: &[BoundCmp]) -> Result<Numbers, NoMemory>
    requires { IsTrue (is_path_clause index.now.column clause.now) }
    ensures { (rows : RowsByNumber)
        → IsStrictlySortedBy nat_cmp (numbers rows) → IsIndexOf rows index.now
        → IfOk result (λ found. found ≡ numbers (spec.satisfying (Some clause.now) rows)) }
{
    let [cmp] = clause else {
        return Ok(Items::new(alloc));
    };
    match &cmp.right {
        BoundSide::Lit(value) => Ok(rising(range_numbers(alloc, index, cmp.op, value)?)),
        BoundSide::Place(_) | BoundSide::Param(_) => Ok(Items::new(alloc)),
    }
}

fn index_on(indexes: &[Index], column: u8) -> Option<&Index>
    ensures { option_copied result ≡ find (λ index. index.column == column) indexes.now }
{
    indexes.iter().find(|index| index.column() == column)
}

/// Lists the numbers of the rows that the path gives, in order of insertion.
pub(crate) fn path_numbers<'t, R: ReadRows<'t>>(
    alloc: Global,
    path: Option<u8>,
    clauses: &[BoundClause],
    rows: &R,
    indexes: &[Index],
) -> Result<Numbers, NoMemory>
    requires rising { IsStrictlySortedBy nat_cmp (numbers (R.rows rows.now)) }
    requires indexes { All (IsIndexOf (R.rows rows.now)) indexes.now }
    requires path { IsTrue (has_index path indexes.now) }
    ensures { IfOk result (λ found. found ≡ numbers (spec.on_path path clauses.now (R.rows rows.now))) }
{
    let Some(column) = path else {
        return rows.numbers(alloc);
    };
    let Some(clause) = path_clause(column, clauses) else {
        return rows.numbers(alloc);
    };
    match index_on(indexes, column) {
        Some(index) => indexed_numbers(alloc, index, clause.as_slice()),
        None => unreachable!(),
    }
}
