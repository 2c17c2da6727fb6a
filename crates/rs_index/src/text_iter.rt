//! The row numbers of several texts, one text after the other.

ghost use Rattle.std.specs.Prelude.{◌≡◌, length};
ghost use Rattle.std.specs.Iterator.{at_most};
ghost use Rattle.std.specs.Map.Iter.{TakesFirst};
ghost use Rattle.rs_index.specs.TextPairs.{numbers_of};

use rs_base::Txt;
use std::collections::{BTreeSet, btree_map, btree_set};
use std::marker::Model;

/// The numbers that are left: those of the current text, and then those of the texts after it.
#[derive(Drop)]
pub(crate) struct TextIter<'a> {
    numbers: Option<btree_set::Iter<'a, u64>>,
    sets: btree_map::Range<'a, Txt, BTreeSet<u64>>,
}

impl<'a> Model for TextIter<'a> {
    ghost use Rattle.std.specs.Prelude.{List, ℕ, [], ◌++◌, unwrap_or};
    ghost use Rattle.rs_index.specs.TextPairs.{numbers_of};

    ghost Value = { List ℕ };

    ghost view = { λ it. unwrap_or it.numbers [] ++ numbers_of it.sets };
}

impl<'a> TextIter<'a> {
    pub(crate) fn new(sets: btree_map::Range<'a, Txt, BTreeSet<u64>>) -> TextIter<'a>
        ensures { result ≡ numbers_of sets.entry }
    {
        TextIter {
            numbers: None,
            sets,
        }
    }
}

impl<'a> Iterator for TextIter<'a> {
    type Item = u64;

    ghost next_gives = { TakesFirst (λ number. number) };

    ghost remaining = { λ numbers. at_most (length numbers) };

    fn next(&mut self) -> Option<u64> {
        loop {
            if let Some(numbers) = &mut self.numbers {
                if let Some(number) = numbers.next() {
                    return Some(*number);
                }
            }
            let (_, set) = self.sets.next()?;
            self.numbers = Some(set.iter());
        }
    }
}
