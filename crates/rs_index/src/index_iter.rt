//! The row numbers of a range of an index.

ghost use Rattle.std.specs.Prelude.{◌≡◌, [], ◌++◌, length, map, unwrap_or};
ghost use Rattle.std.specs.Iterator.{at_most};
ghost use Rattle.std.specs.Map.Iter.{TakesFirst};

use crate::text_iter::TextIter;
use std::collections::btree_set::Range;
use std::marker::Model;

/// The row numbers that are left of a range.
#[derive(Drop)]
pub struct IndexIter<'a> {
    ints: Option<Range<'a, (i64, u64)>>,
    texts: Option<TextIter<'a>>,
}

impl<'a> Model for IndexIter<'a> {
    ghost use Rattle.std.specs.Prelude.{List, ℕ, [], ◌++◌, map, unwrap_or};

    ghost Value = { List ℕ };

    ghost view = { λ it. map (λ pair. pair.1) (unwrap_or it.ints []) ++ unwrap_or it.texts [] };
}

impl<'a> IndexIter<'a> {
    pub(crate) fn new(
        ints: Option<Range<'a, (i64, u64)>>,
        texts: Option<TextIter<'a>>,
    ) -> IndexIter<'a>
        ensures { result
            ≡ map (λ pair. pair.1) (unwrap_or ints.entry []) ++ unwrap_or texts.entry [] }
    {
        IndexIter { ints, texts }
    }
}

impl<'a> Iterator for IndexIter<'a> {
    type Item = u64;

    ghost next_gives = { TakesFirst (λ number. number) };

    ghost remaining = { λ numbers. at_most (length numbers) };

    fn next(&mut self) -> Option<u64> {
        if let Some(ints) = &mut self.ints {
            if let Some(pair) = ints.next() {
                return Some(pair.1);
            }
        }
        self.texts.as_mut()?.next()
    }
}
