//! A list of row numbers that are given one after the other.

ghost use Rattle.std.specs.Prelude.{◌≡◌};
ghost use Rattle.rs_access.specs.Access.{GivesFirst};

use rs_rows::Numbers;
use sqlite_items::at;
use std::marker::Model;

/// Row numbers, of which some were given. Seen as those that are left.
#[derive(Drop)]
pub(crate) struct NumberList {
    numbers: Numbers,
    given: usize,
}

impl Model for NumberList {
    ghost use Rattle.std.specs.Prelude.{List, ℕ, ◌≤◌, length, drop};

    ghost Value = { List ℕ };

    ghost view = { λ list. drop list.given list.numbers };

    ghost invariant = { λ list. list.given ≤ length list.numbers };
}

impl NumberList {
    pub(crate) fn new(numbers: Numbers) -> NumberList
        ensures { result ≡ numbers }
    {
        NumberList { numbers, given: 0 }
    }

    /// Returns the next number; `None` exactly if there is none.
    pub(crate) fn next(&mut self) -> Option<u64>
        ensures { GivesFirst self.old result self.new }
    {
        match at(self.numbers.as_slice(), self.given) {
            Some(number) => {
                self.given += 1;
                Some(*number)
            }
            None => None,
        }
    }
}
