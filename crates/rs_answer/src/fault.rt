//! Why a query gives no rows.

use rs_base::OrNoMemory;

/// A sum isn't an integer of 64 bits.
#[derive(Clone, Copy)]
pub struct Overflow;

/// A sum isn't an integer of 64 bits, or an allocation failed.
pub type AnswerFault = OrNoMemory<Overflow>;
