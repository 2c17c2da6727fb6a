//! The answer of a query.

ghost use Rattle.std.specs.Prelude.{◌≡◌, IfOk};
ghost use Rattle.rs_answer.specs.Answer as spec;
ghost use Rattle.rs_answer.specs.Given.{Gives};
ghost use Rattle.rs_answer.specs.Sorting.{answer_cmp, sorted_by};

use crate::fault::{AnswerFault, Overflow};
use crate::groups::shown_rows;
use crate::sorting::rows_in_order;
use rs_ast::Shape;
use rs_base::{Denial, NoMemory, Rows};
use std::alloc::Global;

fn sorted_rows(alloc: Global, shape: &Shape, joined: Rows) -> Result<Rows, AnswerFault>
    ensures { Gives (spec.overflows shape.now joined) (λ rows. rows
        ≡ sorted_by (answer_cmp shape.now.keys) (spec.query_rows shape.now joined)) result }
{
    let rows = shown_rows(alloc, shape, joined)?;
    Ok(rows_in_order(shape.keys.as_slice(), shape.distinct, rows)?)
}

/// Returns the rows of a query, sorted by its keys and then by all columns; `Overflow` exactly if a sum exceeds 64 bits.
pub fn answer_rows(
    alloc: Global,
    shape: &Shape,
    joined: Rows,
) -> Result<Result<Rows, Denial>, NoMemory>
    ensures { IfOk result (λ answer. answer ≡ spec.answer_of shape.now joined) }
{
    match sorted_rows(alloc, shape, joined) {
        Ok(rows) => Ok(Ok(rows)),
        Err(AnswerFault::Fault(Overflow)) => Ok(Err(Denial::Overflow)),
        Err(AnswerFault::NoMemory) => Err(NoMemory),
    }
}
