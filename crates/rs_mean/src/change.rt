//! Changes of the database.

ghost use Rattle.std.specs.Prelude.{◌≡◌};
ghost use Rattle.rs_mean.specs.Effects as spec;

use crate::synonym::Synonym;
use crate::table::Table;
use rs_ast::IndexOfs;
use rs_base::{Answer, Denial, Swn};
use rs_rows::StoredRows;

/// A change of the database. That of a missing table changes nothing.
#[derive(Drop)]
pub enum Change {
    Nothing,
    PutTable { name: Swn, table: Table },
    DropTable { name: Swn },
    SetIndexes { name: Swn, indexes: IndexOfs },
    AppendRows { name: Swn, rows: StoredRows },
    SetRows { name: Swn, rows: StoredRows },
    PutSynonym { synonym: Synonym, name: Swn },
    DropSynonym { synonym: Synonym },
}

/// What a statement changes, and its answer, or the cause of its denial.
#[derive(Drop)]
pub struct Effect {
    pub change: Change,
    pub answer: Result<Answer, Denial>,
}

impl Effect {
    /// Makes the effect of a statement that is done.
    pub(crate) fn done(change: Change, answer: Answer) -> Effect
        ensures { result ≡ spec.done change answer }
    {
        Effect {
            change,
            answer: Ok(answer),
        }
    }

    /// Makes the effect of a denied statement, without a change.
    pub(crate) fn denied(cause: Denial) -> Effect
        ensures { result ≡ spec.denied cause }
    {
        Effect {
            change: Change::Nothing,
            answer: Err(cause),
        }
    }
}
