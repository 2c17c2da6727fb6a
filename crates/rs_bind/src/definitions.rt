//! The columns of an entry, as a table declares them.

ghost use Rattle.std.specs.Prelude.{◌≡◌, map, IfOk};
ghost use Rattle.rs_bind.specs.Entries as spec;

use rs_ast::{ColDef, ColDefs, Column};
use rs_base::{NoMemory, with_room};
use std::alloc::Global;

fn defined(column: &Column) -> ColDef
    ensures { result ≡ spec.defined column.now }
{
    ColDef {
        name: column.name,
        kind: column.kind,
    }
}

/// Returns the columns with their names and kinds, in their order. Linear in their number.
pub fn column_defs(alloc: Global, columns: &[Column]) -> Result<ColDefs, NoMemory>
    ensures { IfOk result (λ defs. defs ≡ map spec.defined columns.now) }
{
    let mut defs = with_room(alloc, columns.len())?;
    for column in columns {
        defs.push(defined(column))?;
    }
    Ok(defs)
}
