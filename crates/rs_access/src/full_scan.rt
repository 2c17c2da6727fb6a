//! All rows of a table, in order.

ghost use Rattle.std.specs.Prelude.{◌≡◌};
ghost use Rattle.std.specs.List.Sorted.{IsStrictlySortedBy};
ghost use Rattle.std.specs.Ordering.{nat_cmp};

use crate::access::Access;
use crate::number_list::NumberList;
use rs_rows::Numbers;
use std::marker::Model;

/// The row numbers of a table, in order of insertion. Seen as those that are left.
#[derive(Drop)]
pub struct FullScan {
    numbers: NumberList,
}

impl Model for FullScan {
    ghost use Rattle.std.specs.Prelude.{List, ℕ};

    ghost Value = { List ℕ };

    ghost view = { λ scan. scan.numbers };
}

impl FullScan {
    /// Scans these row numbers, which rise.
    pub fn new(numbers: Numbers) -> FullScan
        requires { IsStrictlySortedBy nat_cmp numbers }
        ensures { result ≡ numbers }
    {
        FullScan {
            numbers: NumberList::new(numbers),
        }
    }
}

impl Access for FullScan {
    ghost left = { λ numbers. numbers };

    fn next(&mut self) -> Option<u64> {
        self.numbers.next()
    }
}
