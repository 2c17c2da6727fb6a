//! The bounds of a range.

ghost use Rattle.std.specs.Prelude.{◌≡◌, ◌≢◌};
ghost use Rattle.rs_index.specs.Bounds as spec;

use rs_ast::Op;
use std::ops::Bound;

/// Returns the bounds of the keys that satisfy the comparison with the keys from `first` to `last`. The operator isn't
/// `<>`.
pub(crate) fn bounds_of<K: Drop>(op: Op, first: K, last: K) -> (Bound<K>, Bound<K>)
    requires { op ≢ Op.Ne }
    ensures { result ≡ spec.bounds_of op first last }
{
    match op {
        Op::Eq => (Bound::Included(first), Bound::Included(last)),
        Op::Lt => (Bound::Unbounded, Bound::Excluded(first)),
        Op::Le => (Bound::Unbounded, Bound::Included(last)),
        Op::Gt => (Bound::Excluded(last), Bound::Unbounded),
        Op::Ge => (Bound::Included(first), Bound::Unbounded),
        Op::Ne => unreachable!(),
    }
}
