//! Paths: how a section reaches its rows.

ghost use Rattle.std.specs.Prelude.{◌≡◌, find};
ghost use Rattle.std.specs.Option.{option_copied};
ghost use Rattle.rs_plan.specs.Path.{chosen};
ghost use Rattle.rs_plan.specs.Section as spec;

use crate::section::SectionKind;
use rs_ast::IndexOf;
use rs_base::{Ident, Txn};

/// A path: all rows one after the other, or an index, by its name and the transaction that created it.
#[derive(Clone, Copy)]
pub enum Path {
    Scan,
    Index { name: Ident, made: Txn },
}

fn first_with_equality<'a>(kind: &SectionKind, indexes: &'a [IndexOf]) -> Option<&'a IndexOf>
    ensures { option_copied result ≡ find (λ index. spec.has_equality kind.now index.column) indexes.now }
{
    indexes.iter().find(|index| kind.has_equality(index.column))
}

fn first_with_range<'a>(kind: &SectionKind, indexes: &'a [IndexOf]) -> Option<&'a IndexOf>
    ensures { option_copied result ≡ find (λ index. spec.has_range kind.now index.column) indexes.now }
{
    indexes.iter().find(|index| kind.has_range(index.column))
}

/// Chooses the first index whose column has an equality with a value or a parameter, where the column of a fetch has
/// one; else the first whose column has a range; else a scan. Only clauses of one comparison count.
pub fn choose(kind: &SectionKind, indexes: &[IndexOf]) -> Path
    ensures { result ≡ chosen kind.now indexes.now }
{
    let found = match first_with_equality(kind, indexes) {
        Some(index) => Some(index),
        None => first_with_range(kind, indexes),
    };
    match found {
        Some(index) => Path::Index {
            name: index.name,
            made: index.made,
        },
        None => Path::Scan,
    }
}
