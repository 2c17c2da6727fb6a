//! Columns by their names.

ghost use Rattle.std.specs.Prelude.{◌≡◌, position};
ghost use Rattle.rs_scope.specs.Scope as spec;

use crate::numbers::as_u16;
use crate::scope::ScopeColumn;
use rs_ast::ColRef;
use rs_base::{Ident, Kind};

/// Returns whether the written name is this column's.
fn is_named(written: &ColRef, column: &ScopeColumn) -> bool
    ensures { result ≡ spec.is_named written.now column.now }
{
    column.name == written.column && written.table.map_or(true, |alias| column.table == alias)
}

/// Counts the columns of that name.
pub fn named_count(scope: &[ScopeColumn], written: &ColRef) -> usize
    ensures { result ≡ spec.named_count scope.now written.now }
{
    scope
        .iter()
        .filter(|column| is_named(written, column))
        .count()
}

fn position_of(scope: &[ScopeColumn], written: &ColRef) -> Option<usize>
    ensures { result ≡ position (spec.is_named written.now) scope.now }
{
    scope.iter().position(|column| is_named(written, column))
}

/// Returns the index of the first column of that name; if there is none, the number of columns.
#[tactic(auto, using(crate::proofs::Positions::position_or_end))]
pub fn column_index_of(scope: &[ScopeColumn], written: &ColRef) -> u16
    ensures { result ≡ spec.column_index_of scope.now written.now }
{
    as_u16(position_of(scope, written).unwrap_or(scope.len()))
}

/// Makes an unqualified name of a column.
pub fn unqualified(column: Ident) -> ColRef
    ensures { result ≡ spec.unqualified column }
{
    ColRef {
        table: None,
        column,
    }
}

/// Returns the kind of the column that a name refers to.
pub fn column_kind(scope: &[ScopeColumn], written: &ColRef) -> Option<Kind>
    ensures { result ≡ spec.column_kind scope.now written.now }
{
    scope
        .iter()
        .find(|column| is_named(written, column))
        .map(|column| column.kind)
}
