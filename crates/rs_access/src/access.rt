//! What an access path is.

ghost use Rattle.std.specs.Prelude.{◌≡◌};
ghost use Rattle.rs_access.specs.Access.{GivesFirst};

use rs_index::IndexIter;

/// Row numbers, one after the other.
pub trait Access {
    ghost use Rattle.std.specs.Prelude.{List, ℕ};

    ghost left: { Self → List ℕ };

    /// Returns the next row number; `None` exactly if there is none. It takes no memory.
    fn next(&mut self) -> Option<u64>
        ensures { GivesFirst (left self.old) result (left self.new) };
}

impl<'a> Access for IndexIter<'a> {
    ghost left = { λ numbers. numbers };

    fn next(&mut self) -> Option<u64> {
        Iterator::next(self)
    }
}
