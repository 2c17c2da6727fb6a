//! CREATE INDEX and DROP INDEX.

ghost use Rattle.std.specs.Prelude.{◌≡◌, ◌++◌, [], ◌∷◌, position, bytes_eq, IfOk};
ghost use Rattle.rs_scope.specs.Denials.{first_denial};
ghost use Rattle.rs_mean.specs.Database.{table_named};
ghost use Rattle.rs_mean.specs.TableStatements as spec;

use crate::change::{Change, Effect};
use crate::columns::has_name;
use crate::database::Database;
use rs_ast::{ColDef, IndexOf, IndexOfs};
use rs_base::{Answer, Denial, Ident, NoMemory, Swn, Txn, with_room};
use rs_scope::as_position;
use std::alloc::Global;

fn position_of(columns: &[ColDef], name: Ident) -> Option<usize>
    ensures { result ≡ position (λ column. bytes_eq column.name name) columns.now }
{
    columns.iter().position(|column| column.name == name)
}

/// Returns the index of the column of that name, in 8 bits; if there is none, the number of columns.
fn column_index(columns: &[ColDef], name: Ident) -> u8
    ensures { result ≡ spec.column_index columns.now name }
{
    as_position(position_of(columns, name).unwrap_or(columns.len()))
}

fn has_index(indexes: &[IndexOf], name: Ident) -> bool
    ensures { result ≡ spec.has_index indexes.now name }
{
    indexes.iter().any(|index| index.name == name)
}

fn is_indexed(indexes: &[IndexOf], column: u8) -> bool
    ensures { result ≡ spec.is_indexed indexes.now column }
{
    indexes.iter().any(|index| index.column == column)
}

/// Appends an index to copies of the indexes.
fn with_index(alloc: Global, indexes: &[IndexOf], index: IndexOf) -> Result<IndexOfs, NoMemory>
    ensures { IfOk result (λ more. more ≡ indexes.now ++ index ∷ []) }
{
    let mut more = with_room(alloc, indexes.len().saturating_add(1))?;
    for other in indexes {
        more.push(*other)?;
    }
    more.push(index)?;
    Ok(more)
}

fn is_other_index(name: Ident, index: &IndexOf) -> bool
    ensures { result ≡ spec.is_other_index name index.now }
{
    index.name != name
}

/// Copies the indexes of other names.
fn without_index(alloc: Global, indexes: &[IndexOf], name: Ident) -> Result<IndexOfs, NoMemory>
    ensures { IfOk result (λ others. others ≡ spec.without_index name indexes.now) }
{
    let others = indexes
        .iter()
        .copied()
        .filter(|other| is_other_index(name, other))
        .collect(alloc)?;
    Ok(IndexOfs::from_vec(others))
}

impl Database {
    pub(crate) fn columns_of(&self, name: &Swn) -> &[ColDef]
        ensures { result.now ≡ spec.columns_of (table_named name.now self.now) }
    {
        match self.table(name) {
            Some(table) => table.columns.as_slice(),
            None => &[],
        }
    }

    fn indexes_of(&self, name: &Swn) -> &[IndexOf]
        ensures { result.now ≡ spec.indexes_of (table_named name.now self.now) }
    {
        match self.table(name) {
            Some(table) => table.indexes.as_slice(),
            None => &[],
        }
    }

    fn create_index_denial(&self, name: &Swn, index: Ident, column: Ident) -> Option<Denial>
        ensures { result ≡ first_denial (spec.create_index_tests self.now name.now index column) }
    {
        let columns = self.columns_of(name);
        let indexes = self.indexes_of(name);
        if let Some(cause) = self.table_denial(name) {
            Some(cause)
        } else if !has_name(columns, column) {
            Some(Denial::NoColumn)
        } else if has_index(indexes, index) || is_indexed(indexes, column_index(columns, column)) {
            Some(Denial::IndexExists)
        } else {
            None
        }
    }

    /// Creates an index on a column of the table.
    pub(crate) fn create_index(
        &self,
        alloc: Global,
        txn: Txn,
        name: Swn,
        index: Ident,
        column: Ident,
    ) -> Result<Effect, NoMemory>
        ensures { IfOk result (λ effect. effect ≡ spec.create_index self.now txn name index column) }
    {
        if let Some(cause) = self.create_index_denial(&name, index, column) {
            return Ok(Effect::denied(cause));
        }
        let made = IndexOf {
            name: index,
            column: column_index(self.columns_of(&name), column),
            made: txn,
        };
        let indexes = with_index(alloc, self.indexes_of(&name), made)?;
        Ok(Effect::done(Change::SetIndexes { name, indexes }, Answer::Ok))
    }

    fn drop_index_denial(&self, name: &Swn, index: Ident) -> Option<Denial>
        ensures { result ≡ first_denial (spec.drop_index_tests self.now name.now index) }
    {
        if let Some(cause) = self.table_denial(name) {
            Some(cause)
        } else if !has_index(self.indexes_of(name), index) {
            Some(Denial::NoIndex)
        } else {
            None
        }
    }

    /// Drops the index of this name.
    pub(crate) fn drop_index(
        &self,
        alloc: Global,
        name: Swn,
        index: Ident,
    ) -> Result<Effect, NoMemory>
        ensures { IfOk result (λ effect. effect ≡ spec.drop_index self.now name index) }
    {
        if let Some(cause) = self.drop_index_denial(&name, index) {
            return Ok(Effect::denied(cause));
        }
        let indexes = without_index(alloc, self.indexes_of(&name), index)?;
        Ok(Effect::done(Change::SetIndexes { name, indexes }, Answer::Ok))
    }
}
