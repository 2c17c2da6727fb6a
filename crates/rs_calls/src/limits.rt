//! The limit of calls and changes that their types don't guarantee: no term of a row to be inserted is a column.

ghost use Rattle.std.specs.Prelude.{◌≡◌};
ghost use Rattle.std.specs.List.{list_all};
ghost use Rattle.rs_calls.specs.Limits as spec;

use rs_ast::{BoundRow, BoundTerm};
use rs_plan::{Call, Change, SectionKind};

fn is_no_column(term: &BoundTerm) -> bool
    ensures { result ≡ spec.is_no_column term.now }
{
    match term {
        BoundTerm::Place(_) => false,
        BoundTerm::Lit(_) | BoundTerm::Param(_) => true,
    }
}

fn row_has_no_column(row: &[BoundTerm]) -> bool
    ensures { result ≡ list_all spec.is_no_column row.now }
{
    row.iter().all(|term| is_no_column(term))
}

fn have_no_column(rows: &[BoundRow]) -> bool
    ensures { result ≡ spec.have_no_column rows.now }
{
    rows.iter().all(|row| row_has_no_column(row.as_slice()))
}

fn kind_is_within(kind: &SectionKind) -> bool
    ensures { result ≡ spec.kind_is_within kind.now }
{
    match kind {
        SectionKind::Insert { rows } => have_no_column(rows.as_slice()),
        SectionKind::Scan { .. }
        | SectionKind::Fetch { .. }
        | SectionKind::Delete { .. }
        | SectionKind::Update { .. } => true,
    }
}

/// Returns whether the call inserts no column.
pub(crate) fn call_is_within(call: &Call) -> bool
    ensures { result ≡ spec.call_is_within call.now }
{
    match call {
        Call::Run { section, .. } | Call::KeepSection { section, .. } => {
            kind_is_within(&section.kind)
        }
        _ => true,
    }
}

/// Returns whether the change stores no section that inserts a column.
pub(crate) fn change_is_within(change: &Change) -> bool
    ensures { result ≡ spec.change_is_within change.now }
{
    match change {
        Change::Keep { section, .. } => kind_is_within(&section.kind),
        _ => true,
    }
}
