//! The rows of tables: by number, as a site stores them (`TableRows`), and flat, the values of all rows in one list
//! (`StoredRows`).
#![tactic(auto)]

mod limits;
mod read_rows;
mod row_iter;
mod row_run;
mod slot;
mod slots;
mod stored_rows;
mod table_rows;

pub use limits::{
    MAX_ROW_BYTES, MAX_ROWS, MAX_TABLE_BYTES, all_fit_row, fits_row, fits_rows, has_room,
};
pub use read_rows::{Counted, Numbers, ReadRows};
pub use row_iter::RowIter;
pub use row_run::RowRun;
pub use stored_rows::StoredRows;
pub use table_rows::TableRows;
