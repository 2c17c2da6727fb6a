//! The rows that satisfy a predicate.

ghost use Rattle.std.specs.Prelude.{◌≡◌, ◌≤◌, ◌+◌, [], ◌∷◌, ◌++◌, filter, length, IfOk, OnOk};
ghost use Rattle.rs_eval.specs.Clauses as clauses_spec;
ghost use Rattle.rs_exec.specs.Paths.{rows_at};

use crate::numbered_row::NumberedRow;
use rs_ast::BoundClause;
use rs_base::NoMemory;
use rs_eval::holds;
use rs_rows::ReadRows;
use std::alloc::Global;

/// Reads the row with this number, and appends it if there is one that satisfies the predicate.
fn read_one<'t, R: ReadRows<'t>>(
    number: u64,
    clauses: &[BoundClause],
    rows: &mut R,
    found: &mut Vec<NumberedRow<'t>>,
) -> Result<(), NoMemory>
    ensures found { OnOk result (found.new.items
        ≡ found.old.items ++ filter (λ entry. clauses_spec.holds clauses.now entry.1)
        (rows_at (number ∷ []) (R.rows rows.old))) }
    ensures rows { R.rows rows.new ≡ R.rows rows.old }
    ensures reads { R.reads rows.new ≤ R.reads rows.old + 1 }
{
    if let Some(row) = rows.row(number) {
        if holds(clauses, row.as_slice()) {
            found.push(NumberedRow::new(number, row))?;
        }
    }
    Ok(())
}

/// Reads the rows with these numbers, each once, and returns those that satisfy the predicate, in the order of the
/// numbers. No row is copied.
pub(crate) fn read_matching<'t, R: ReadRows<'t>>(
    alloc: Global,
    numbers: &[u64],
    clauses: &[BoundClause],
    rows: &mut R,
) -> Result<Vec<NumberedRow<'t>>, NoMemory>
    ensures found { IfOk result (λ found. found.items
        ≡ filter (λ entry. clauses_spec.holds clauses.now entry.1)
        (rows_at numbers.now (R.rows rows.old))) }
    ensures rows { R.rows rows.new ≡ R.rows rows.old }
    ensures reads { R.reads rows.new ≤ R.reads rows.old + length numbers.now }
{
    let mut found = Vec::new(alloc);
    for number in numbers {
        read_one(*number, clauses, rows, &mut found)?;
    }
    Ok(found)
}
