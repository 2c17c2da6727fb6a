//! The names of a table's columns.

ghost use Rattle.std.specs.Prelude.{◌≡◌, IfOk};
ghost use Rattle.rs_mean.specs.Columns as spec;

use rs_ast::{ColDef, ColDefs};
use rs_base::{Ident, NoMemory, with_room};
use std::alloc::Global;

/// Returns whether one of the columns has this name.
pub(crate) fn has_name(columns: &[ColDef], name: Ident) -> bool
    ensures { result ≡ spec.has_name columns.now name }
{
    columns.iter().any(|column| column.name == name)
}

/// Returns whether no two columns have one name. Quadratic in their number.
pub(crate) fn names_differ(columns: &[ColDef]) -> bool
    ensures { result ≡ spec.names_differ columns.now }
{
    let [first, others @ ..] = columns else {
        return true;
    };
    if has_name(others, first.name) {
        return false;
    }
    names_differ(others)
}

/// Copies the columns.
pub(crate) fn copy_columns(alloc: Global, columns: &[ColDef]) -> Result<ColDefs, NoMemory>
    ensures { IfOk result (λ copy. copy ≡ columns.now) }
{
    let mut copy = with_room(alloc, columns.len())?;
    for column in columns {
        copy.push(*column)?;
    }
    Ok(copy)
}
