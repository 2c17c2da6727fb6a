//! Borrowed rows.

ghost use Rattle.std.specs.Prelude.{◌≡◌, ◌==◌, [], ◌∷◌, length, sum, MatchOption};
ghost use Rattle.rs_rows.specs.Cut.{cut};

use rs_base::Value;
use std::marker::Model;

/// Borrowed rows: their values, one row after the other, and the number of values of each row.
#[derive(Drop)]
pub struct RowRun<'a> {
    values: &'a [Value],
    widths: &'a [usize],
}

impl<'a> Model for RowRun<'a> {
    ghost use Rattle.std.specs.Prelude.{◌≡◌, length, sum};
    ghost use Rattle.rs_base.specs.Value.{RowList};
    ghost use Rattle.rs_rows.specs.Cut.{cut};

    ghost Value = { RowList };

    ghost view = { λ run. cut run.widths.now run.values.now };

    ghost invariant = { λ run. sum run.widths.now ≡ length run.values.now };
}

impl<'a> RowRun<'a> {
    pub fn empty() -> RowRun<'static>
        ensures { result ≡ [] }
    {
        RowRun {
            values: &[],
            widths: &[],
        }
    }

    /// Returns the values cut into rows of these widths.
    pub(crate) fn of(values: &'a [Value], widths: &'a [usize]) -> RowRun<'a>
        requires { sum widths.now ≡ length values.now }
        ensures { result ≡ cut widths.now values.now }
    {
        RowRun { values, widths }
    }

    /// Borrows the same rows once more.
    pub fn view(&self) -> RowRun<'a>
        ensures { result ≡ self.now }
    {
        RowRun {
            values: self.values,
            widths: self.widths,
        }
    }

    #[tactic(auto, using(crate::proofs::CutLaws::length_of_cut))]
    pub fn len(&self) -> usize
        ensures { result ≡ length self.now }
    {
        self.widths.len()
    }

    #[tactic(auto, using(crate::proofs::CutLaws::length_of_cut))]
    pub fn is_empty(&self) -> bool
        ensures { result ≡ (length self.now == 0) }
    {
        self.widths.is_empty()
    }

    /// Returns the first row and the others; `None` exactly if there is no row.
    pub fn split_first(&self) -> Option<(&'a [Value], RowRun<'a>)>
        ensures { MatchOption result (self.now ≡ []) (λ parts. self.now ≡ parts.0.now ∷ parts.1) }
    {
        match self.widths {
            [] => None,
            [width, widths @ ..] => {
                let (row, values) = self.values.split_at(*width);
                Some((row, RowRun { values, widths }))
            }
        }
    }
}
