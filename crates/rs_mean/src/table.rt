//! Tables.

ghost use Rattle.std.specs.Prelude.{◌≡◌, OnOk, OnErr};
ghost use Rattle.rs_mean.specs.Changes.{with_rows};

use rs_ast::{ColDefs, IndexOfs};
use rs_base::{NoMemory, SiteNo, Txn};
use rs_rows::StoredRows;

/// A table: the transaction that created it, the site that stores it, its columns, its indexes in order of creation, and
/// its rows in order of insertion.
#[derive(Drop)]
pub struct Table {
    pub made: Txn,
    pub place: SiteNo,
    pub columns: ColDefs,
    pub indexes: IndexOfs,
    pub rows: StoredRows,
}

impl Table {
    /// Appends the rows, in time linear in them. On out of memory nothing changes.
    pub(crate) fn append(&mut self, rows: StoredRows) -> Result<(), NoMemory>
        ensures ok { OnOk result (self.new ≡ with_rows rows self.old) }
        ensures err { OnErr result (self.new ≡ self.old) }
    {
        self.rows.append(rows)
    }
}
