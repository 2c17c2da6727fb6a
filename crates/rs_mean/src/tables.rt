//! CREATE TABLE and DROP TABLE.

ghost use Rattle.std.specs.Prelude.{◌≡◌, IfOk};
ghost use Rattle.rs_scope.specs.Denials.{first_denial};
ghost use Rattle.rs_mean.specs.TableStatements as spec;

use crate::change::{Change, Effect};
use crate::columns::{copy_columns, names_differ};
use crate::database::Database;
use crate::table::Table;
use rs_ast::{ColDef, ColDefs, IndexOfs};
use rs_base::{Answer, Denial, NoMemory, Swn, Txn};
use rs_rows::StoredRows;
use std::alloc::Global;

fn new_table(alloc: Global, txn: Txn, name: &Swn, columns: ColDefs) -> Table
    ensures { result ≡ spec.new_table txn name.now columns }
{
    Table {
        made: txn,
        place: name.birth,
        columns,
        indexes: IndexOfs::new(alloc),
        rows: StoredRows::new(alloc),
    }
}

impl Database {
    fn create_denial(&self, name: &Swn, columns: &[ColDef]) -> Option<Denial>
        ensures { result ≡ first_denial (spec.create_tests self.now name.now columns.now) }
    {
        if let Some(cause) = self.site_denial(name) {
            Some(cause)
        } else if !names_differ(columns) {
            Some(Denial::TwoColumns)
        } else if self.table(name).is_some() {
            Some(Denial::TableExists)
        } else {
            None
        }
    }

    pub(crate) fn create_table(
        &self,
        alloc: Global,
        txn: Txn,
        name: Swn,
        columns: &[ColDef],
    ) -> Result<Effect, NoMemory>
        ensures { IfOk result (λ effect. effect ≡ spec.create_table self.now txn name columns.now) }
    {
        if let Some(cause) = self.create_denial(&name, columns) {
            return Ok(Effect::denied(cause));
        }
        let table = new_table(alloc, txn, &name, copy_columns(alloc, columns)?);
        Ok(Effect::done(Change::PutTable { name, table }, Answer::Ok))
    }

    pub(crate) fn drop_table(&self, name: Swn) -> Effect
        ensures { result ≡ spec.drop_table self.now name }
    {
        match self.table_denial(&name) {
            Some(cause) => Effect::denied(cause),
            None => Effect::done(Change::DropTable { name }, Answer::Ok),
        }
    }
}
