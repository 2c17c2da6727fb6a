//! The row numbers of integers.

ghost use Rattle.std.specs.Prelude.{◌≡◌, ◌≢◌, ◌<◌, ◌^◌, filter, All, OnOk, OnErr};
ghost use Rattle.std.specs.List.{list_any};
ghost use Rattle.std.specs.Ordering.{int_cmp};
ghost use Rattle.std.specs.BTreeMap.{is_at};
ghost use Rattle.std.specs.BTreeSet.{insert_key};
ghost use Rattle.std.specs.Set.{remove_key};
ghost use Rattle.rs_ast.specs.Allows.{allows};
ghost use Rattle.rs_index.specs.IntPairs.{int_pair_cmp};

use crate::bounds::bounds_of;
use rs_ast::Op;
use rs_base::NoMemory;
use std::collections::BTreeSet;
use std::collections::btree_set::Range;

/// The pairs of an integer and a row number, rising by integer and then by number.
pub(crate) type IntNumbers = BTreeSet<(i64, u64)>;

/// Adds the number to those of the integer. On out of memory nothing changes.
pub(crate) fn add_int(ints: &mut IntNumbers, n: i64, number: u64) -> Result<(), NoMemory>
    ensures ok { OnOk result (ints.new.keys ≡ insert_key int_pair_cmp ints.old.keys (n, number)) }
    ensures err { OnErr result (ints.new.keys ≡ ints.old.keys) }
{
    ints.insert((n, number))?;
    Ok(())
}

/// Takes the number from those of the integer. Returns whether it was there.
pub(crate) fn drop_int(ints: &mut IntNumbers, n: i64, number: u64) -> bool
    ensures test { result ≡ list_any (is_at (int_pair_cmp (n, number))) ints.old.keys }
    ensures pairs { ints.new.keys ≡ remove_key (is_at (int_pair_cmp (n, number))) ints.old.keys }
{
    ints.remove(&(n, number))
}

/// Returns all pairs.
pub(crate) fn all_ints(ints: &IntNumbers) -> Range<'_, (i64, u64)>
    ensures { result ≡ ints.now.keys }
{
    ints.range(..)
}

/// Returns the pairs whose integer satisfies the comparison. The operator isn't `<>`.
pub(crate) fn range_of_ints(ints: &IntNumbers, op: Op, n: i64) -> Range<'_, (i64, u64)>
    requires op { op ≢ Op.Ne }
    requires numbers { All (λ pair. pair.1 < 2 ^ 64) ints.now.keys }
    ensures { result ≡ filter (λ pair. allows op (int_cmp pair.0 n)) ints.now.keys }
{
    ints.range(bounds_of(op, (n, 0), (n, u64::MAX)))
}
