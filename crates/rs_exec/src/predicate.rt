//! The predicate of the rows that a section is about.

ghost use Rattle.std.specs.Prelude.{◌≡◌, ◌∷◌, ◌++◌, Some, IfOk};
ghost use Rattle.std.specs.Option.{option_copied};
ghost use Rattle.rs_eval.specs.Filling.{filled};
ghost use Rattle.rs_exec.specs.Running as spec;

use rs_ast::{BoundClause, BoundClauses, BoundCmp, BoundSide, Op};
use rs_base::{NoMemory, Value, one_item};
use rs_eval::fill;
use rs_plan::SectionKind;
use std::alloc::Global;

/// Makes the clause that a column has this value.
fn equality(alloc: Global, column: u8, value: &Value) -> Result<BoundClause, NoMemory>
    ensures { IfOk result (λ clause. clause ≡ spec.equality column value.now) }
{
    let right = BoundSide::Lit(value.copy(alloc)?);
    one_item(
        alloc,
        BoundCmp {
            left: u16::from(column),
            op: Op::Eq,
            right,
        },
    )
}

/// Makes the predicate that a column has this value, and a row satisfies the clauses.
fn equality_and(
    alloc: Global,
    column: u8,
    value: &Value,
    clauses: BoundClauses,
) -> Result<BoundClauses, NoMemory>
    ensures { IfOk result (λ all. all ≡ spec.equality column value.now ∷ clauses) }
{
    let mut all = one_item(alloc, equality(alloc, column, value)?)?;
    all.append(clauses)?;
    Ok(all)
}

fn fetch_predicate(
    alloc: Global,
    clauses: &[BoundClause],
    by: u8,
    values: &[Value],
    fetch: Option<&Value>,
) -> Result<Option<BoundClauses>, NoMemory>
    ensures { IfOk result (λ predicate. predicate
        ≡ spec.fetch_predicate (filled values.now clauses.now) by (option_copied fetch.entry)) }
{
    match fetch {
        Some(value) => {
            let clauses = fill(alloc, clauses, values)?;
            Ok(Some(equality_and(alloc, by, value, clauses)?))
        }
        None => Ok(None),
    }
}

/// Makes the predicate of the rows that a section is about, with values for its parameters. Returns `None` exactly if it
/// is about no stored row: of an insert, and of a fetch without a value.
pub(crate) fn predicate_of(
    alloc: Global,
    kind: &SectionKind,
    values: &[Value],
    fetch: Option<&Value>,
) -> Result<Option<BoundClauses>, NoMemory>
    ensures { IfOk result (λ predicate. predicate
        ≡ spec.predicate_of kind.now values.now (option_copied fetch.entry)) }
{
    match kind {
        SectionKind::Scan { clauses, .. }
        | SectionKind::Delete { clauses }
        | SectionKind::Update { clauses, .. } => Ok(Some(fill(alloc, clauses.as_slice(), values)?)),
        SectionKind::Fetch { clauses, by, .. } => {
            fetch_predicate(alloc, clauses.as_slice(), *by, values, fetch)
        }
        SectionKind::Insert { .. } => Ok(None),
    }
}
